//! A set of records that only grows, whose rows are found by their hash, so that a new row moves no other.
ghost use Rattle.std.specs.Prelude.{◌≡◌, [], IfOk};
ghost use Rattle.blz_set.specs.RecordSet.{IsRecordSet};
ghost use Rattle.bloom_growth.specs.Growth.{Takes, TakesRow};

use blz_set::{RecordSet, SetFault};
use blz_value::{HashKey, Record};
use indexmap::IndexSet;
use std::alloc::{AllocError, Global};
use std::marker::Model;

/// The most rows of a set.
pub(crate) const ROW_LIMIT: usize = 262_144;

/// At most 262,144 records, each once.
#[derive(Drop)]
pub struct GrowSet {
    // Files of strangers give the rows, so they are hashed under a key that these can't choose.
    rows: IndexSet<Record, HashKey>,
}

impl Model for GrowSet {
    ghost use Rattle.std.specs.Prelude.{List};
    ghost use Rattle.blz_value.specs.Record.{Row};
    ghost use Rattle.blz_value.specs.Sets.{set_of};
    ghost use Rattle.bloom_growth.specs.Growth.{IsRowOrder};

    ghost Value = { List Row };

    ghost view = { λ set. set_of set.rows.keys };

    ghost invariant = { λ set. IsRowOrder set.rows.keys };
}

impl GrowSet {
    /// The empty set, which hashes under a key.
    pub fn new(alloc: Global, key: HashKey) -> GrowSet
        ensures { result ≡ [] }
    {
        GrowSet {
            rows: IndexSet::with_hasher(alloc, key),
        }
    }

    /// What holds of each such set: at most 262,144 rows, each once, in order. The call does nothing.
    pub fn known(&self)
        ensures { IsRecordSet self.now }
    {
        let _ = &self.rows;
    }

    /// Adds rows, and answers with those that were new. After a fault it has some of them.
    pub fn take(&mut self, alloc: Global, rows: &RecordSet) -> Result<RecordSet, SetFault>
        ensures { Takes self.old rows.now self.new result }
    {
        // for the proof alone: what holds of each such set
        self.known();
        let mut fresh = Vec::new(alloc);
        for row in rows.rows() {
            if self.take_one(row)? {
                fresh.push(row.copy()?)?;
            }
        }
        RecordSet::from_rows(fresh)
    }

    /// Adds a row, and answers whether it was new. After a fault it hasn't got it.
    pub fn take_one(&mut self, row: &Record) -> Result<bool, SetFault>
        ensures { TakesRow self.old row.now self.new result }
    {
        // for the proof alone: what holds of each such set
        self.known();
        if self.rows.len() >= ROW_LIMIT && !self.rows.contains(row) {
            return Err(SetFault::TooManyRows);
        }
        Ok(self.rows.insert(row.copy()?)?)
    }

    /// The rows as a set of its own.
    pub fn to_set(&self, alloc: Global) -> Result<RecordSet, AllocError>
        ensures rows { IfOk result (λ set. set ≡ self.now) }
        ensures set { IsRecordSet self.now }
    {
        // for the proof alone: what holds of each such set
        self.known();
        let mut rows = Vec::with_capacity(alloc, self.rows.len())?;
        for row in self.rows.as_slice() {
            rows.push(row.copy()?)?;
        }
        match RecordSet::from_rows(rows) {
            Ok(set) => Ok(set),
            Err(SetFault::NoMemory) => Err(AllocError),
            Err(SetFault::TooManyRows) => unreachable!(),
        }
    }
}
