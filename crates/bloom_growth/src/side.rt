//! The rows of a part by their values in the columns that a join or a notin equates.
ghost use Rattle.std.specs.Prelude.{◌≡◌, ◌∷◌, ◌++◌, [], ℕ, List, IfOk};
ghost use Rattle.blz_value.specs.Operators.{cells};
ghost use Rattle.blz_value.specs.Record.{Row};
ghost use Rattle.blz_value.specs.Sets.{set_of, IsRowSet};
ghost use Rattle.bloom_growth.specs.ByKey.{rows_found, AreByKey, AddsTo, MakesByKey};
ghost use Rattle.bloom_growth.specs.Code.Sides.{HaveRowSets, AddsSetAt, AddsSet, Merges};

use crate::columns::copy_cells;
use crate::turn::one_row;
use blz_set::{RecordSet, SetFault};
use blz_value::Record;
use std::alloc::{AllocError, Global};
use std::collections::BTreeMap;

// From so many rows on, a merge with those of their key is quicker than to move these for each.
const MANY_ROWS: usize = 64;

/// An index of rows by some of their columns.
#[derive(Drop)]
pub struct Side {
    alloc: Global,
    /// The columns by whose values the rows stand.
    pub columns: Vec<u32>,
    sets: BTreeMap<Record, RecordSet>,
    none: RecordSet,
    ghost empty: { none ≡ [] },
}

// Adds a row to those with a key, where there are some, and answers whether there are.
fn add_at(
    sets: &mut BTreeMap<Record, RecordSet>,
    key: &Record,
    row: &Record,
) -> Result<bool, SetFault>
    ensures { AddsTo key.now row.now sets.old sets.new result }
{
    match sets.get_mut(key) {
        Some(set) => {
            let _ = set.insert(row.copy()?)?;
            Ok(true)
        }
        None => Ok(false),
    }
}

// Adds rows to those with a key, where there are some, and else gives them back.
fn add_set_at(
    sets: &mut BTreeMap<Record, RecordSet>,
    key: &Record,
    set: RecordSet,
) -> Result<Option<RecordSet>, SetFault>
    ensures { AddsSetAt key.now set sets.old sets.new result }
{
    match sets.get_mut(key) {
        Some(there) => {
            there.take_in(set)?;
            Ok(None)
        }
        None => Ok(Some(set)),
    }
}

impl Side {
    ghost use Rattle.bloom_growth.specs.Sides.{rows_at, IsFreshSide, SideGrows, SideGrown};

    /// The index of no rows by some columns.
    pub fn new(alloc: Global, columns: Vec<u32>) -> Side
        ensures { IsFreshSide columns.items result }
    {
        Side {
            alloc,
            columns,
            sets: BTreeMap::new(alloc),
            none: RecordSet::new(alloc),
        }
    }

    /// The rows with a key.
    pub fn at(&self, key: &Record) -> &RecordSet
        ensures { result.now ≡ rows_at self.now key.now }
    {
        match self.sets.get(key) {
            Some(set) => set,
            None => &self.none,
        }
    }

    /// The rows with the key that a row has in columns of its own.
    pub(crate) fn partners(&self, row: &Record, columns: &[u32]) -> Result<&RecordSet, AllocError>
        ensures { IfOk result (λ set. set.now ≡ rows_at self.now (cells columns.now row.now)) }
    {
        let key = copy_cells(self.alloc, row, columns)?;
        Ok(self.at(&key))
    }

    // Adds a row. After a fault it isn't there.
    fn add(&mut self, row: &Record) -> Result<(), SetFault>
        ensures columns { self.new.columns ≡ self.old.columns }
        ensures side { (rows : List Row) → IsRowSet rows → AreByKey self.old.columns.items rows self.old.sets → MakesByKey self.old.columns.items (set_of (row.now ∷ rows)) self.new.sets result }
    {
        let key = copy_cells(self.alloc, row, &self.columns)?;
        if add_at(&mut self.sets, &key, row)? {
            return Ok(());
        }
        let set = one_row(self.alloc, row.copy()?)?;
        let _ = self.sets.insert(key, set)?;
        Ok(())
    }

    // Adds rows one by one, each of which moves those of its key that stand behind it. After a fault
    // it has lost some.
    fn add_each(&mut self, more: &RecordSet) -> Result<(), SetFault>
        ensures columns { self.new.columns ≡ self.old.columns }
        ensures side { (rows : List Row) → IsRowSet rows → AreByKey self.old.columns.items rows self.old.sets → MakesByKey self.old.columns.items (set_of (rows ++ more.now)) self.new.sets result }
    {
        for row in more.rows() {
            self.add(row)?;
        }
        Ok(())
    }

    // Adds the rows of a set at a key. After a fault they aren't there.
    fn add_set(&mut self, key: Record, set: RecordSet) -> Result<(), SetFault>
        ensures columns { self.new.columns ≡ self.old.columns }
        ensures rows { AddsSet key set self.old.sets self.new.sets result }
    {
        if let Some(set) = add_set_at(&mut self.sets, &key, set)? {
            // for the proof alone: what holds of the set
            let _rows = set.rows();
            let _ = self.sets.insert(key, set)?;
        }
        Ok(())
    }

    // Adds rows that stand by their keys, those of a key at once. After a fault it has lost some.
    fn merge(&mut self, more: BTreeMap<Record, RecordSet>) -> Result<(), SetFault>
        ensures columns { self.new.columns ≡ self.old.columns }
        ensures rows { HaveRowSets self.old.sets → Merges self.old.sets more self.new.sets result }
    {
        for (key, set) in more {
            self.add_set(key, set)?;
        }
        Ok(())
    }

    // Adds rows, those of a key at once where they are many. After a fault it has lost some.
    fn add_all(&mut self, more: &RecordSet) -> Result<(), SetFault>
        ensures columns { self.new.columns ≡ self.old.columns }
        ensures side { (rows : List Row) → IsRowSet rows → AreByKey self.old.columns.items rows self.old.sets → MakesByKey self.old.columns.items (set_of (rows ++ more.now)) self.new.sets result }
    {
        // in the empty side none of them moves, since they come in record order
        if more.len() < MANY_ROWS || self.sets.is_empty() {
            return self.add_each(more);
        }
        let columns = Vec::from_slice(self.alloc, &self.columns)?;
        let mut come = Side::new(self.alloc, columns);
        come.add_each(more)?;
        self.merge(come.sets)
    }

    /// Adds the rows that are new of a part that grows. After a fault it has lost some.
    pub fn grow(&mut self, fresh: &RecordSet) -> Result<(), SetFault>
        ensures columns { self.new.columns ≡ self.old.columns }
        ensures side { (columns : List ℕ) (old new : List Row) → SideGrows columns old new fresh.now self.old → SideGrown columns new self.new result }
    {
        self.add_all(fresh)
    }
}
