//! All emitted lists, and the pool of their records.
ghost use Rattle.std.specs.Prelude.{◌≡◌, ◌<◌, ◌≤◌, ◌+◌, ◌++◌, ◌∷◌, ℕ, [], length, replicate, slice_get, slice_index_or, slice_set, false, true, None, Some, Err, IfOk, IfSome, IsFalse, IsTrue, OnOk, if◌then◌else◌};
ghost use Rattle.std.specs.List.{All, list_any};
ghost use Rattle.blz_pool.specs.Entries.{row_with_id};
ghost use Rattle.blz_pool.specs.Pool.{IsPool, record_limit, with_record};
ghost use Rattle.blz_value.specs.Members.{Has};
ghost use Rattle.blz_value.specs.Record.{Row};
ghost use Rattle.messages.specs.Emitted.{count_in, has_seal, with_row, with_rows, with_seal, with_seals};
ghost use Rattle.messages.specs.Ids.{IsGiven};
ghost use Rattle.messages.specs.declared.message.Message.TheVariants.{Seal};
ghost use Rattle.messages.specs.Lists.{message_limit};
ghost use Rattle.messages.specs.Lists.{OneListBecomes, AllAreGiven, IsExact, KeepsFirst, read_lists, list_at, total};
ghost use Rattle.messages.specs.EmittedCounts.{count_of, seals_of, HasRoom, IsTallyOf, IsTallied};
ghost use Rattle.messages.specs.Faults.{IsLimit};
ghost use Rattle.messages.specs.EmittedIds.{is_row_with, is_seal_of, with_id, counts_row};
ghost use Rattle.messages.specs.declared.fault.EventFault.TheVariants.{TooManyMessages};

use crate::counts::{Tally, with_one};
use crate::emitted::Emitted;
use crate::fault::EventFault;
use crate::limits::MAX_MESSAGES;
use crate::message_list::MessageList;
use crate::placing::{empty_from, records_in};
use blz_pool::{Id, Pool, PoolFault};
use blz_value::{HashKey, Record};
use std::alloc::{AllocError, Global};
use std::collections::BTreeSet;
use std::marker::Model;

/// Emitted lists side by side, at most 262,144 messages together, with one pool of their records.
///
/// A list gets a tally of its records by their key values when it is first asked for a count, and
/// keeps it from then on, so each message is counted once.
#[derive(Drop)]
pub struct Lists {
    alloc: Global,
    pool: Pool,
    lists: Vec<Emitted>,
    tallies: Vec<Option<Tally>>,
    count: usize,
}

impl Model for Lists {
    ghost use Rattle.std.specs.Prelude.{◌≡◌, ◌≤◌, length};
    ghost use Rattle.messages.specs.Lists.{message_limit};
    ghost use Rattle.messages.specs.Lists.{Listed, AllAreGiven, read_lists, total};
    ghost use Rattle.messages.specs.EmittedCounts.{AreTallied};

    ghost Value = { Listed };

    ghost view = { λ l. record { records = l.pool; lists = l.lists.items } };

    ghost invariant = { λ l. AllAreGiven (record { records = l.pool; lists = l.lists.items }) × (l.count ≡ total l.lists.items) × (l.count ≤ message_limit) × (length l.tallies.items ≡ length l.lists.items) × AreTallied l.tallies.items (read_lists (record { records = l.pool; lists = l.lists.items })) };
}

// Takes the tally at a place away, where there is one.
fn take_tally(tallies: &mut Vec<Option<Tally>>, place: usize) -> Option<Tally>
    requires { place < length tallies.old.items }
    ensures taken { result ≡ slice_index_or tallies.old.items place None }
    ensures left { tallies.new.items ≡ slice_set tallies.old.items place None }
{
    tallies[place].take()
}

impl Lists {
    /// So many empty lists, whose records and messages are hashed under a key.
    pub fn new(alloc: Global, count: usize, key: HashKey) -> Result<Lists, AllocError>
        ensures lists { IfOk result (λ l. read_lists l ≡ replicate count []) }
        ensures exact { IfOk result IsExact }
    {
        let mut lists = Vec::new(alloc);
        let mut tallies = Vec::new(alloc);
        for _ in 0..count {
            lists.push(Emitted::new(alloc, key))?;
            tallies.push(None)?;
        }
        Ok(Lists {
            alloc,
            pool: Pool::with_key(alloc, key),
            lists,
            tallies,
            count: 0,
        })
    }

    /// The number of messages of all lists.
    pub fn count(&self) -> usize
        ensures count { result ≡ total self.now.lists }
        ensures few { result ≤ message_limit }
    {
        self.count
    }

    /// The pool of the records of all lists.
    pub fn pool(&self) -> &Pool
        ensures { result.now ≡ self.now.records }
    {
        &self.pool
    }

    /// The messages of the list at a place.
    pub fn list(&self, place: usize) -> MessageList<'_>
        requires { place < length self.now.lists }
        ensures list { result ≡ list_at self.now.lists place }
        ensures given { All (IsGiven self.now.records) result }
    {
        MessageList::of(&self.lists[place])
    }

    /// What holds of all lists; the call does nothing.
    pub fn known(&self)
        ensures given { AllAreGiven self.now }
        ensures few { total self.now.lists ≤ message_limit }
        ensures pool { IsPool self.now.records }
    {
        self.pool.known();
    }

    /// Empties all lists but the first so many, and forgets the records that none of these has. Where these
    /// weren't placed in the order in which they stand there, the answer is false and nothing changes. It takes
    /// no memory, and walks over the first lists.
    pub fn keep_first(&mut self, first: usize) -> bool
        requires { first ≤ length self.old.lists }
        ensures lists { IsTrue result → KeepsFirst first (read_lists self.old) (read_lists self.new) }
        ensures exact { IsTrue result → IsExact self.new }
        ensures same { IsFalse result → self.new ≡ self.old }
    {
        let Some(records) = records_in(&self.lists[..first]) else {
            return false;
        };
        empty_from(&mut self.lists, &mut self.tallies, &mut self.count, first);
        self.pool.truncate(records);
        true
    }

    // The id of a record, which is placed where it is new. Where the pool is full, the lists together
    // are too.
    fn id_of(&mut self, row: &Record) -> Result<Id, EventFault>
        ensures lists { self.new.lists ≡ self.old.lists }
        ensures records { OnOk result (self.new.records ≡ with_record self.old.records row.now) }
        ensures within { IfOk result (λ id. id < length self.new.records) }
        ensures record { IfOk result (λ id. slice_get self.new.records id ≡ Some row.now) }
        ensures one { IfOk result (λ id. (other : ℕ) → slice_get self.new.records other ≡ Some row.now → other ≡ id) }
        ensures full { result ≡ Err TooManyMessages → (length self.old.records ≡ record_limit) × ¬ Has row.now self.old.records }
        ensures legal { IsLimit result }
    {
        match self.pool.place_ref(row) {
            Ok(id) => {
                let _ = self.pool.get(id);
                Ok(id)
            }
            Err(PoolFault::Full) => Err(EventFault::TooManyMessages),
            Err(PoolFault::NoMemory) => Err(EventFault::NoMemory),
        }
    }

    // The id of a record that is taken over, as `id_of` gives it.
    fn id_of_own(&mut self, row: Record) -> Result<Id, EventFault>
        ensures lists { self.new.lists ≡ self.old.lists }
        ensures records { OnOk result (self.new.records ≡ with_record self.old.records row) }
        ensures within { IfOk result (λ id. id < length self.new.records) }
        ensures record { IfOk result (λ id. slice_get self.new.records id ≡ Some row) }
        ensures one { IfOk result (λ id. (other : ℕ) → slice_get self.new.records other ≡ Some row → other ≡ id) }
        ensures full { result ≡ Err TooManyMessages → (length self.old.records ≡ record_limit) × ¬ Has row self.old.records }
        ensures legal { IsLimit result }
    {
        match self.pool.place(row) {
            Ok(id) => {
                let _ = self.pool.get(id);
                Ok(id)
            }
            Err(PoolFault::Full) => Err(EventFault::TooManyMessages),
            Err(PoolFault::NoMemory) => Err(EventFault::NoMemory),
        }
    }

    // Ok where the record with an id stands in a list, and else there are too many messages.
    fn known_id(&self, place: usize, id: Id) -> Result<(), EventFault>
        requires place { place < length self.now.lists }
        ensures known { OnOk result (list_any (is_row_with id) (list_at self.now.lists place) ≡ true) }
        ensures too_many { result ≡ Err TooManyMessages → list_any (is_row_with id) (list_at self.now.lists place) ≡ false }
        ensures legal { IsLimit result }
    {
        if self.lists[place].has_row(id) {
            Ok(())
        } else {
            Err(EventFault::TooManyMessages)
        }
    }

    // Puts the record with an id behind a list, unless it stands there.
    fn put_id(&mut self, place: usize, id: Id) -> Result<(), EventFault>
        requires place { place < length self.old.lists }
        requires id { id < length self.old.records }
        ensures records { self.new.records ≡ self.old.records }
        ensures lists { OnOk result (self.new.lists ≡ slice_set self.old.lists place (with_id (list_at self.old.lists place) id)) }
        ensures too_many { result ≡ Err TooManyMessages → (total self.old.lists ≡ message_limit) × (list_any (is_row_with id) (list_at self.old.lists place) ≡ false) }
        ensures legal { IsLimit result }
    {
        if self.count == MAX_MESSAGES {
            return self.known_id(place, id);
        }
        let is_new = self.lists[place].add_row(id)?;
        if !is_new {
            return Ok(());
        }
        self.count += 1;
        let tally = take_tally(&mut self.tallies, place);
        self.tallies[place] = with_one(self.alloc, tally, self.pool.get(id))?;
        Ok(())
    }

    /// Emits a record, unless it stands in the list. TooManyMessages comes exactly where the lists
    /// would have more messages together than they may. A fault leaves the lists with part of this.
    pub fn emit_row(&mut self, place: usize, row: &Record) -> Result<(), EventFault>
        requires place { place < length self.old.lists }
        requires exact { IsExact self.old }
        ensures ok { OnOk result (OneListBecomes self.old self.new place (with_row (list_at (read_lists self.old) place) row.now)) }
        ensures exact { OnOk result (IsExact self.new) }
        ensures few { OnOk result (total self.new.lists ≤ message_limit) }
        ensures too_many { result ≡ Err TooManyMessages → message_limit < total (slice_set (read_lists self.old) place (with_row (list_at (read_lists self.old) place) row.now)) }
        ensures legal { IsLimit result }
    {
        self.known();
        let id = self.id_of(row)?;
        self.put_id(place, id)?;
        self.known();
        Ok(())
    }

    /// Emits a record that is taken over, as `emit_row` does. A new one is hashed once and not copied.
    pub fn emit_own(&mut self, place: usize, row: Record) -> Result<(), EventFault>
        requires place { place < length self.old.lists }
        requires exact { IsExact self.old }
        ensures ok { OnOk result (OneListBecomes self.old self.new place (with_row (list_at (read_lists self.old) place) row)) }
        ensures exact { OnOk result (IsExact self.new) }
        ensures few { OnOk result (total self.new.lists ≤ message_limit) }
        ensures too_many { result ≡ Err TooManyMessages → message_limit < total (slice_set (read_lists self.old) place (with_row (list_at (read_lists self.old) place) row)) }
        ensures legal { IsLimit result }
    {
        self.known();
        let id = self.id_of_own(row)?;
        self.put_id(place, id)?;
        self.known();
        Ok(())
    }

    /// Emits the record with an id that the pool gave, as `emit_row` does, and looks up no record.
    pub fn emit_id(&mut self, place: usize, id: Id) -> Result<(), EventFault>
        requires place { place < length self.old.lists }
        requires given { id < length self.old.records }
        requires exact { IsExact self.old }
        ensures ok { OnOk result (OneListBecomes self.old self.new place (with_row (list_at (read_lists self.old) place) (row_with_id self.old.records id))) }
        ensures exact { OnOk result (IsExact self.new) }
        ensures few { OnOk result (total self.new.lists ≤ message_limit) }
        ensures too_many { result ≡ Err TooManyMessages → message_limit < total (slice_set (read_lists self.old) place (with_row (list_at (read_lists self.old) place) (row_with_id self.old.records id))) }
        ensures legal { IsLimit result }
    {
        self.known();
        self.put_id(place, id)?;
        self.known();
        Ok(())
    }

    /// Emits the records of a set that don't stand in the list, in record order, as `emit_row` does.
    pub fn emit_rows(&mut self, place: usize, rows: &[Record]) -> Result<(), EventFault>
        requires place { place < length self.old.lists }
        requires exact { IsExact self.old }
        ensures ok { OnOk result (OneListBecomes self.old self.new place (with_rows (list_at (read_lists self.old) place) rows.now)) }
        ensures exact { OnOk result (IsExact self.new) }
        ensures few { OnOk result (total self.new.lists ≤ message_limit) }
        ensures too_many { result ≡ Err TooManyMessages → message_limit < total (slice_set (read_lists self.old) place (with_rows (list_at (read_lists self.old) place) rows.now)) }
        ensures legal { IsLimit result }
    {
        self.known();
        for row in rows {
            self.emit_row(place, row)?;
        }
        Ok(())
    }

    // Counts the record of a message, by its id, None of a seal.
    fn count_row(&self, row: Option<Id>, tally: &mut Tally) -> Result<(), AllocError>
        requires given { IfSome row (λ id. id < length self.now.records) }
        requires room { HasRoom tally.old }
        ensures columns { tally.new.columns ≡ tally.old.columns }
        ensures counts { OnOk result ((key : Row) → count_of tally.new.counts key ≡ count_of tally.old.counts key + (if counts_row self.now.records tally.old.columns key row then 1 else 0)) }
    {
        match row {
            Some(id) => tally.add(self.alloc, self.pool.get(id)),
            None => Ok(()),
        }
    }

    // A tally of a list, whose key columns are these. Walks over the list.
    fn tally_of(&self, place: usize, columns: &[u32]) -> Result<Tally, AllocError>
        requires { place < length self.now.lists }
        ensures columns { IfOk result (λ tally. tally.columns ≡ columns.now) }
        ensures counts { IfOk result (λ tally. IsTallyOf tally (list_at (read_lists self.now) place)) }
    {
        self.known();
        let list = self.list(place);
        let mut tally = Tally::new(self.alloc, columns)?;
        for index in 0..list.len() {
            self.count_row(list.row(index), &mut tally)?;
        }
        Ok(tally)
    }

    // The tally that was kept of a list, if its key columns are these, and else one that a walk makes.
    fn tally_by(
        &self,
        kept: Option<Tally>,
        place: usize,
        columns: &[u32],
    ) -> Result<Tally, AllocError>
        requires place { place < length self.now.lists }
        requires kept { IsTallied kept (list_at (read_lists self.now) place) }
        ensures columns { IfOk result (λ tally. tally.columns ≡ columns.now) }
        ensures counts { IfOk result (λ tally. IsTallyOf tally (list_at (read_lists self.now) place)) }
    {
        if let Some(tally) = kept {
            if tally.is_by(columns) {
                return Ok(tally);
            }
        }
        self.tally_of(place, columns)
    }

    // How many records of a partition stand in a list, whose key columns are these. Walks over the
    // list where it has no tally by them yet, and keeps the tally. The error is want of memory.
    fn count_with_key(
        &mut self,
        place: usize,
        columns: &[u32],
        key: &Record,
    ) -> Result<u32, AllocError>
        requires { place < length self.old.lists }
        ensures same { self.new ≡ self.old }
        ensures count { IfOk result (λ count. count ≡ count_in columns.now (list_at (read_lists self.old) place) key.now) }
    {
        let kept = take_tally(&mut self.tallies, place);
        let tally = self.tally_by(kept, place, columns)?;
        let count = tally.count(key);
        self.tallies[place] = Some(tally);
        Ok(count)
    }

    // Whether a seal of a partition stands in a list. The error is want of memory.
    fn has_seal(&self, place: usize, key: &Record) -> Result<bool, AllocError>
        requires { place < length self.now.lists }
        ensures { IfOk result (λ has. has ≡ list_any (is_seal_of key.now) (list_at self.now.lists place)) }
    {
        self.lists[place].has_seal(key)
    }

    // Puts a seal behind a list, where there is room and the list has none of its partition.
    fn push_seal(&mut self, place: usize, key: &Record, count: u32) -> Result<(), AllocError>
        requires place { place < length self.old.lists }
        requires room { total self.old.lists < message_limit }
        requires new { list_any (is_seal_of key.now) (list_at self.old.lists place) ≡ false }
        ensures records { self.new.records ≡ self.old.records }
        ensures lists { OnOk result (self.new.lists ≡ slice_set self.old.lists place (list_at self.old.lists place ++ Seal key.now count ∷ [])) }
    {
        self.lists[place].push_seal(key.copy()?, count)?;
        self.count += 1;
        Ok(())
    }

    // Puts a new seal behind a list.
    fn put_seal(&mut self, place: usize, key: &Record, count: u32) -> Result<(), EventFault>
        requires place { place < length self.old.lists }
        requires new { list_any (is_seal_of key.now) (list_at self.old.lists place) ≡ false }
        ensures records { self.new.records ≡ self.old.records }
        ensures lists { OnOk result (self.new.lists ≡ slice_set self.old.lists place (list_at self.old.lists place ++ Seal key.now count ∷ [])) }
        ensures too_many { result ≡ Err TooManyMessages → total self.old.lists ≡ message_limit }
        ensures legal { IsLimit result }
    {
        if self.count == MAX_MESSAGES {
            return Err(EventFault::TooManyMessages);
        }
        self.push_seal(place, key, count)?;
        Ok(())
    }

    /// Emits a seal of a partition, unless one stands in the list. TooManyMessages comes exactly where
    /// the lists would have more messages together than they may.
    pub fn emit_seal(
        &mut self,
        place: usize,
        columns: &[u32],
        key: &Record,
    ) -> Result<(), EventFault>
        requires place { place < length self.old.lists }
        requires exact { IsExact self.old }
        ensures ok { OnOk result (OneListBecomes self.old self.new place (with_seal columns.now (list_at (read_lists self.old) place) key.now)) }
        ensures exact { OnOk result (IsExact self.new) }
        ensures few { OnOk result (total self.new.lists ≤ message_limit) }
        ensures too_many { result ≡ Err TooManyMessages → message_limit < total (slice_set (read_lists self.old) place (with_seal columns.now (list_at (read_lists self.old) place) key.now)) }
        ensures legal { IsLimit result }
    {
        self.known();
        let is_sealed = self.has_seal(place, key)?;
        if is_sealed {
            return Ok(());
        }
        let count = self.count_with_key(place, columns, key)?;
        self.put_seal(place, key, count)?;
        self.known();
        Ok(())
    }

    /// Emits a seal of each of some partitions, as `emit_seal` does.
    pub fn emit_seals(
        &mut self,
        place: usize,
        columns: &[u32],
        keys: &[Record],
    ) -> Result<(), EventFault>
        requires place { place < length self.old.lists }
        requires exact { IsExact self.old }
        ensures ok { OnOk result (OneListBecomes self.old self.new place (with_seals (Some columns.now) (list_at (read_lists self.old) place) keys.now)) }
        ensures exact { OnOk result (IsExact self.new) }
        ensures few { OnOk result (total self.new.lists ≤ message_limit) }
        ensures too_many { result ≡ Err TooManyMessages → message_limit < total (slice_set (read_lists self.old) place (with_seals (Some columns.now) (list_at (read_lists self.old) place) keys.now)) }
        ensures legal { IsLimit result }
    {
        self.known();
        for key in keys {
            self.emit_seal(place, columns, key)?;
        }
        Ok(())
    }

    /// Emits a seal of each of some partitions behind a list that has none of them, where there is room,
    /// with the number of its records there. Takes a look-up for each partition, and the walk that makes
    /// the list's tally. The error is want of memory.
    pub fn seal_partitions(
        &mut self,
        place: usize,
        columns: &[u32],
        keys: &BTreeSet<Record>,
    ) -> Result<(), AllocError>
        requires place { place < length self.old.lists }
        requires exact { IsExact self.old }
        requires room { total self.old.lists + length keys.now.keys ≤ message_limit }
        requires unsealed { All (λ key. has_seal (list_at (read_lists self.old) place) key ≡ false) keys.now.keys }
        ensures ok { OnOk result (OneListBecomes self.old self.new place (list_at (read_lists self.old) place ++ seals_of columns.now (list_at (read_lists self.old) place) keys.now.keys)) }
        ensures exact { OnOk result (IsExact self.new) }
    {
        for key in keys {
            let count = self.count_with_key(place, columns, key)?;
            self.push_seal(place, key, count)?;
        }
        Ok(())
    }
}
