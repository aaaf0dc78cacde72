//! A pool of records, seen as the list of its records by number.
ghost use Rattle.std.specs.Prelude.{ℕ, ◌≡◌, ◌<◌, ◌≤◌, ◌≢◌, ◌↔◌, [], ◌∷◌, ◌++◌, length, slice_get, take, AllPairs, Some, None, Err, IfOk, IfSome, IsFalse, IsOk, IsSome, IsTrue, OnOk, OnErr};
ghost use Rattle.blz_value.specs.Members.{Has};
ghost use Rattle.blz_pool.specs.Pool.{IsPool, record_limit, number_of, with_record};

use crate::fault::PoolFault;
use crate::id::Id;
use blz_value::{HashKey, Record};
use indexmap::IndexSet;
use std::alloc::Global;
use std::marker::Model;

const MAX_RECORDS: usize = 262_144;

/// At most 262,144 records, each once. A record is known by its number, and its hash finds the number
/// of a record.
#[derive(Drop)]
pub struct Pool {
    // Files of strangers fill a pool, so it hashes under a key that these can't choose.
    records: IndexSet<Record, HashKey>,
}

impl Model for Pool {
    ghost use Rattle.std.specs.Prelude.{List};
    ghost use Rattle.blz_value.specs.Record.{Row};
    ghost use Rattle.blz_pool.specs.Pool.{IsPool};

    ghost Value = { List Row };

    ghost view = { λ pool. pool.records.keys };

    ghost invariant = { λ pool. IsPool pool.records.keys };
}

impl Pool {
    /// The pool without records, which hashes under the key of no records.
    pub fn new(alloc: Global) -> Pool
        ensures { result ≡ [] }
    {
        Pool::with_key(alloc, HashKey::new())
    }

    /// The pool without records, which hashes under a key.
    pub fn with_key(alloc: Global, key: HashKey) -> Pool
        ensures { result ≡ [] }
    {
        Pool {
            records: IndexSet::with_hasher(alloc, key),
        }
    }

    /// The key under which the pool hashes, for other tables of its records.
    pub fn key(&self) -> HashKey {
        *self.records.hasher()
    }

    /// What holds of each pool: no record stands twice, and they are not too many. The call does
    /// nothing.
    pub fn known(&self)
        ensures { IsPool self.now }
    {
        let _ = &self.records;
    }

    /// The number of records.
    pub fn len(&self) -> usize
        ensures count { result ≡ length self.now }
        ensures few { result ≤ record_limit }
    {
        self.records.len()
    }

    /// The record with an id that was given since the last reset.
    pub fn get(&self, id: Id) -> &Record
        requires { id < length self.now }
        ensures record { slice_get self.now id ≡ Some result.now }

        // No other id has this record.
        ensures one { (other : ℕ) → slice_get self.now other ≡ Some result.now → other ≡ id }
    {
        &self.records.as_slice()[id.number() as usize]
    }

    /// The id of a record, of which a copy goes last where it is new. A record that is held takes no
    /// memory. It is looked up by its hash, in a time that on average doesn't grow with the number of
    /// records. Full comes exactly where 262,144 other records are held, and each fault leaves the
    /// pool as it was.
    pub fn place_ref(&mut self, row: &Record) -> Result<Id, PoolFault>
        ensures record { IfOk result (λ id. slice_get self.new id ≡ Some row.now) }
        ensures number { IfOk result (λ id. number_of self.new row.now ≡ Some id) }
        ensures within { IfOk result (λ id. id < length self.new) }

        // What is held stays at its place, and a new record goes last.
        ensures list { OnOk result (self.new ≡ with_record self.old row.now) }
        ensures kept { Has row.now self.old → self.new ≡ self.old }
        ensures last { ¬ Has row.now self.old → OnOk result (self.new ≡ self.old ++ row.now ∷ []) }

        ensures held { Has row.now self.old → IsOk result }
        ensures full { (result ≡ Err PoolFault.Full) ↔ ((length self.old ≡ record_limit) × ¬ Has row.now self.old) }
        ensures err { OnErr result (self.new ≡ self.old) }
    {
        if let Some(id) = self.find(row) {
            return Ok(id);
        }
        if self.is_full() {
            return Err(PoolFault::Full);
        }
        let own = row.copy()?;
        self.add(own)
    }

    /// The id of the record, which goes last where it is new, as `place_ref` puts it.
    pub fn place(&mut self, row: Record) -> Result<Id, PoolFault>
        ensures record { IfOk result (λ id. slice_get self.new id ≡ Some row) }
        ensures number { IfOk result (λ id. number_of self.new row ≡ Some id) }
        ensures within { IfOk result (λ id. id < length self.new) }

        // What is held stays at its place, and a new record goes last.
        ensures list { OnOk result (self.new ≡ with_record self.old row) }
        ensures kept { Has row self.old → self.new ≡ self.old }
        ensures last { ¬ Has row self.old → OnOk result (self.new ≡ self.old ++ row ∷ []) }

        ensures held { Has row self.old → IsOk result }
        ensures full { (result ≡ Err PoolFault.Full) ↔ ((length self.old ≡ record_limit) × ¬ Has row self.old) }
        ensures err { OnErr result (self.new ≡ self.old) }
    {
        if self.is_full() {
            return self.find(&row).ok_or(PoolFault::Full);
        }
        self.add(row)
    }

    // The id of a record that is held.
    fn find(&self, row: &Record) -> Option<Id>
        ensures number { result ≡ number_of self.now row.now }
        ensures record { IfSome result (λ id. slice_get self.now id ≡ Some row.now) }
        ensures within { IfSome result (λ id. id < length self.now) }
        ensures held { Has row.now self.now → IsSome result }
        ensures new { ¬ Has row.now self.now → result ≡ None }
    {
        let number = self.records.get_index_of(row)?;
        Some(Id::new(number as u32))
    }

    // Whether no other record can be held.
    fn is_full(&self) -> bool
        ensures full { IsTrue result ↔ (length self.now ≡ record_limit) }
        ensures room { IsFalse result → length self.now < record_limit }
    {
        self.records.len() == MAX_RECORDS
    }

    // Puts a record behind the others where it is new. It is hashed once.
    fn add(&mut self, row: Record) -> Result<Id, PoolFault>
        requires { length self.old < record_limit }
        ensures record { IfOk result (λ id. slice_get self.new id ≡ Some row) }
        ensures number { IfOk result (λ id. number_of self.new row ≡ Some id) }
        ensures within { IfOk result (λ id. id < length self.new) }
        ensures list { OnOk result (self.new ≡ with_record self.old row) }
        ensures kept { Has row self.old → self.new ≡ self.old }
        ensures last { ¬ Has row self.old → OnOk result (self.new ≡ self.old ++ row ∷ []) }
        ensures held { Has row self.old → IsOk result }
        ensures memory { result ≢ Err PoolFault.Full }
        ensures err { OnErr result (self.new ≡ self.old) }
    {
        let (number, _) = self.records.insert_full(row)?;
        Ok(Id::new(number as u32))
    }

    /// Forgets all records but the first so many, whose ids stay. It takes no memory.
    pub fn truncate(&mut self, count: usize)
        ensures { self.new ≡ take count self.old }
    {
        self.records.truncate(count);
    }

    /// Forgets all records, so that ids are given from 0 again. It takes no memory.
    pub fn reset(&mut self)
        ensures { self.new ≡ [] }
    {
        self.records.clear();
    }
}
