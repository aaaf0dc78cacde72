//! The rows of a part that rows enter and leave, by their values in the columns that a join or a notin
//! equates.
ghost use Rattle.std.specs.Prelude.{◌≡◌, ◌∷◌, ◌++◌, [], IsTrue, ℕ, List, IfOk, OnOk};
ghost use Rattle.blz_value.specs.Record.{Row};
ghost use Rattle.blz_value.specs.Sets.{set_of, IsRowSet};
ghost use Rattle.blz_set.specs.Missing.{missing_from};
ghost use Rattle.bloom_growth.specs.ByKey.{rows_found, AddsAt, AreByKey, NoneIsEmpty};

use crate::columns::copy_cells;
use crate::row_tree::{RowTree, push_copies};
use crate::turn::Turning;
use blz_set::RecordSet;
use blz_value::Record;
use std::alloc::{AllocError, Global};
use std::collections::BTreeMap;

/// An index of rows by some of their columns, which rows enter and leave: a key stands in it as long as
/// it has rows, and a row that comes or goes moves no other.
#[derive(Drop)]
pub struct KeyedRows {
    alloc: Global,
    /// The columns by whose values the rows stand.
    pub columns: Vec<u32>,
    pub(crate) sets: BTreeMap<Record, RowTree>,
    ghost none_is_empty: { NoneIsEmpty sets },
}

// Adds a row to those with a key, where there are some, and answers whether there are.
fn add_at(
    sets: &mut BTreeMap<Record, RowTree>,
    key: &Record,
    row: &Record,
) -> Result<bool, AllocError>
    ensures none { NoneIsEmpty sets.old → NoneIsEmpty sets.new }
    ensures added { IfOk result (λ there. AddsAt there key.now row.now sets.old sets.new) }
{
    match sets.get_mut(key) {
        Some(set) => {
            set.insert(row.copy()?)?;
            Ok(true)
        }
        None => Ok(false),
    }
}

impl KeyedRows {
    ghost use Rattle.bloom_growth.specs.Keyed.{IsFreshKeyed};

    /// The index of no rows by some columns.
    pub fn new(alloc: Global, columns: Vec<u32>) -> KeyedRows
        ensures { IsFreshKeyed columns.items result }
    {
        KeyedRows {
            alloc,
            columns,
            sets: BTreeMap::new(alloc),
        }
    }

    // The rows with a key, which are taken out.
    fn taken(&mut self, key: &Record) -> RowTree
        ensures columns { self.new.columns ≡ self.old.columns }
        ensures rows { result ≡ rows_found self.old.sets key.now }
        ensures none { rows_found self.new.sets key.now ≡ [] }
        ensures left { (other : Row) → ¬ (other ≡ key.now) → rows_found self.new.sets other ≡ rows_found self.old.sets other }
    {
        match self.sets.remove(key) {
            Some(set) => set,
            None => RowTree::new(self.alloc),
        }
    }

    // Puts rows at a key, unless there are none. After want of memory they are lost.
    fn put(&mut self, key: Record, set: RowTree) -> Result<(), AllocError>
        ensures columns { self.new.columns ≡ self.old.columns }
        ensures rows { OnOk result (rows_found self.old.sets key ≡ [] → rows_found self.new.sets key ≡ set) }
        ensures left { OnOk result ((other : Row) → ¬ (other ≡ key) → rows_found self.new.sets other ≡ rows_found self.old.sets other) }
    {
        if !set.is_empty() {
            let _ = self.sets.insert(key, set)?;
        }
        Ok(())
    }

    // Adds a row. After want of memory it isn't there.
    fn add(&mut self, row: &Record) -> Result<(), AllocError>
        ensures columns { self.new.columns ≡ self.old.columns }
        ensures rows { OnOk result ((rows : List Row) → IsRowSet rows → AreByKey self.old.columns.items rows self.old.sets → AreByKey self.old.columns.items (set_of (row.now ∷ rows)) self.new.sets) }
    {
        let key = copy_cells(self.alloc, row, &self.columns)?;
        if add_at(&mut self.sets, &key, row)? {
            return Ok(());
        }
        let mut set = RowTree::new(self.alloc);
        set.insert(row.copy()?)?;
        self.put(key, set)
    }

    // Takes a row away. After want of memory the rows with its key are lost.
    fn take(&mut self, row: &Record) -> Result<(), AllocError>
        ensures columns { self.new.columns ≡ self.old.columns }
        ensures rows { OnOk result ((rows : List Row) → IsRowSet rows → AreByKey self.old.columns.items rows self.old.sets → AreByKey self.old.columns.items (missing_from (row.now ∷ []) rows) self.new.sets) }
    {
        let key = copy_cells(self.alloc, row, &self.columns)?;
        let mut set = self.taken(&key);
        set.remove(row);
        self.put(key, set)
    }

    /// Adds at the end copies of the rows with a key.
    pub(crate) fn push_at(&self, rows: &mut Vec<Record>, key: &Record) -> Result<(), AllocError>
        ensures { OnOk result (rows.new.items ≡ rows.old.items ++ rows_found self.now.sets key.now) }
    {
        match self.sets.get(key) {
            Some(set) => push_copies(rows, set.as_tree()),
            None => Ok(()),
        }
    }

    /// Adds rows. After want of memory it has lost some.
    pub fn grow(&mut self, more: &RecordSet) -> Result<(), AllocError>
        ensures columns { self.new.columns ≡ self.old.columns }
        ensures rows { OnOk result ((rows : List Row) → IsRowSet rows → AreByKey self.old.columns.items rows self.old.sets → AreByKey self.old.columns.items (set_of (rows ++ more.now)) self.new.sets) }
    {
        for row in more.rows() {
            self.add(row)?;
        }
        Ok(())
    }

    /// Takes rows away. After want of memory it has lost some.
    pub fn shrink(&mut self, gone: &RecordSet) -> Result<(), AllocError>
        ensures columns { self.new.columns ≡ self.old.columns }
        ensures rows { OnOk result ((rows : List Row) → IsRowSet rows → AreByKey self.old.columns.items rows self.old.sets → AreByKey self.old.columns.items (missing_from gone.now rows) self.new.sets) }
    {
        for row in gone.rows() {
            self.take(row)?;
        }
        Ok(())
    }
}
