//! A set of records, kept as a sorted vector.
ghost use Rattle.std.specs.Prelude.{◌≡◌, ◌≤◌, ◌↔◌, ◌∷◌, ◌++◌, [], length, is_ok, IsTrue, IfOk, IfErr, OnOk, OnErr, All, slice_get, option_copied};
ghost use Rattle.std.specs.List.{insert};
ghost use Rattle.blz_value.specs.Members.{Has};
ghost use Rattle.blz_value.specs.Sets.{set_of};
ghost use Rattle.blz_value.specs.Test.{test_holds, TestFits};
ghost use Rattle.blz_value.specs.Operators.{select_rows, project_rows, join_rows, notin_rows};
ghost use Rattle.blz_value.specs.Groups.{group_rows, at_least_rows};
ghost use Rattle.blz_set.specs.RecordSet.{IsRecordSet, row_limit};
ghost use Rattle.blz_set.specs.Missing.{has_row, missing_from};
ghost use Rattle.blz_set.specs.References.{shown};
ghost use Rattle.blz_set.specs.Answers.{Gives, Becomes};

use crate::entry::copy_cells;
use crate::fault::SetFault;
use crate::group::grouped_row;
use crate::index::Index;
use crate::join::{add_joined, left_columns, right_columns};
use crate::merge::merge_in;
use crate::place::place;
use blz_value::{Agg, Record, Test, holds};
use std::alloc::{AllocError, Global};
use std::marker::Model;

/// The most rows of a set.
pub(crate) const ROW_LIMIT: usize = 262_144;

/// At most 262,144 records, each once, in record order.
#[derive(Drop)]
pub struct RecordSet {
    rows: Vec<Record>,
}

impl Model for RecordSet {
    ghost use Rattle.std.specs.Prelude.{List};
    ghost use Rattle.blz_value.specs.Record.{Row};
    ghost use Rattle.blz_set.specs.RecordSet.{IsRecordSet};

    ghost Value = { List Row };

    ghost view = { λ set. set.rows.items };

    ghost invariant = { λ set. IsRecordSet set.rows.items };
}

impl RecordSet {
    /// The empty set, whose rows will lie in memory of `alloc`.
    #[tactic(auto, using(crate::proofs::RecordSets::none_is_set))]
    pub fn new(alloc: Global) -> RecordSet
        ensures { result ≡ [] }
    {
        RecordSet {
            rows: Vec::new(alloc),
        }
    }

    /// The set of some rows, which may stand in any order and repeat.
    pub fn from_rows(mut rows: Vec<Record>) -> Result<RecordSet, SetFault>
        ensures { Gives (set_of rows.items) result }
    {
        rows.sort_unstable();
        rows.dedup();
        if rows.len() > ROW_LIMIT {
            return Err(SetFault::TooManyRows);
        }
        Ok(RecordSet { rows })
    }

    /// The number of rows.
    pub fn len(&self) -> usize
        ensures { result ≡ length self.now }
    {
        self.rows.len()
    }

    /// The rows in record order.
    pub fn rows(&self) -> &[Record]
        ensures all { result.now ≡ self.now }
        ensures set { IsRecordSet self.now }
    {
        self.rows.as_slice()
    }

    /// The row at a place, counted from 0 in record order.
    pub fn at(&self, index: usize) -> Option<&Record>
        ensures { option_copied result ≡ slice_get self.now index }
    {
        self.rows.get(index)
    }

    // The place of a row, or the place where it would go.
    fn place(&self, row: &Record) -> Result<usize, usize>
        ensures test { is_ok result ≡ has_row self.now row.now }
        ensures within { IfErr result (λ at. at ≤ length self.now) }
        ensures gap { IfErr result (λ at. insert self.now at row.now ≡ set_of (row.now ∷ self.now)) }
        ensures set { IsRecordSet self.now }
    {
        place(self.rows.as_slice(), row)
    }

    /// Whether a row is in the set.
    pub fn contains(&self, row: &Record) -> bool
        ensures { IsTrue result ↔ Has row.now self.now }
    {
        self.place(row).is_ok()
    }

    /// Adds a row, and answers whether it was new.
    pub fn insert(&mut self, row: Record) -> Result<bool, SetFault>
        ensures rows { Becomes self.old (set_of (row ∷ self.old)) self.new result }
        ensures added { IfOk result (λ added. IsTrue added ↔ ¬ Has row self.old) }
    {
        match self.place(&row) {
            Ok(_) => Ok(false),
            Err(at) => {
                if self.rows.len() >= ROW_LIMIT {
                    return Err(SetFault::TooManyRows);
                }
                self.rows.insert(at, row)?;
                Ok(true)
            }
        }
    }

    /// Adds the rows of another set.
    pub fn union_in(&mut self, other: &RecordSet) -> Result<(), SetFault>
        ensures { Becomes self.old (set_of (self.old ++ other.now)) self.new result }
    {
        let missing = self.missing(other)?;
        let room = ROW_LIMIT - self.rows().len();
        if missing.len() > room {
            return Err(SetFault::TooManyRows);
        }
        if let [row] = missing.as_slice() {
            let _ = self.insert(row.copy()?)?;
            return Ok(());
        }
        let mut copies = copies_of(*self.rows.allocator(), missing.as_slice())?;
        merge_in(&mut self.rows, &mut copies)?;
        Ok(())
    }

    /// Takes the rows of another set over.
    pub fn take_in(&mut self, other: RecordSet) -> Result<(), SetFault>
        ensures { Becomes self.old (set_of (self.old ++ other)) self.new result }
    {
        if !self.has_room(&other)? {
            return Err(SetFault::TooManyRows);
        }
        let RecordSet { mut rows } = other;
        merge_in(&mut self.rows, &mut rows)?;
        Ok(())
    }

    // Whether the union with another set isn't too large. The rows that are missing are counted only
    // where it may be.
    fn has_room(&self, other: &RecordSet) -> Result<bool, AllocError>
        ensures room { IfOk result (λ room. IsTrue room ↔ (length (set_of (self.now ++ other.now)) ≤ row_limit)) }
        ensures set { IsRecordSet other.now }
    {
        if self.rows().len() + other.rows().len() <= ROW_LIMIT {
            return Ok(true);
        }
        let missing = self.missing(other)?;
        Ok(missing.len() <= ROW_LIMIT - self.rows.len())
    }

    // The rows of another set that are missing from this one.
    fn missing<'a>(&self, other: &'a RecordSet) -> Result<Vec<&'a Record>, AllocError>
        ensures rows { IfOk result (λ rows. shown rows.items ≡ missing_from self.now other.now) }
        ensures set { IsRecordSet other.now }
    {
        let mut rows = Vec::new(*self.rows.allocator());
        for row in other.rows() {
            if self.place(row).is_err() {
                rows.push(row)?;
            }
        }
        Ok(rows)
    }

    /// A set with the same rows.
    pub fn copy(&self) -> Result<RecordSet, AllocError>
        ensures { IfOk result (λ set. set ≡ self.now) }
    {
        let mut rows = Vec::new(*self.rows.allocator());
        for row in self.rows() {
            rows.push(row.copy()?)?;
        }
        Ok(RecordSet { rows })
    }

    /// The rows for which a test holds.
    pub fn select(&self, test: &Test) -> Result<RecordSet, SetFault>
        requires { All (λ row. TestFits test.now (length row)) self.now }
        ensures { Gives (set_of (select_rows (test_holds test.now) self.now)) result }
    {
        let mut rows = Vec::new(*self.rows.allocator());
        for row in self.rows() {
            if holds(test, row) {
                rows.push(row.copy()?)?;
            }
        }
        Ok(RecordSet { rows })
    }

    /// Some columns of each row, in the order in which they are named. A column past the end of a
    /// row counts as the number 0.
    pub fn project(&self, columns: &[u32]) -> Result<RecordSet, SetFault>
        ensures { Gives (set_of (project_rows columns.now self.now)) result }
    {
        let alloc = *self.rows.allocator();
        let index = Index::new(alloc, self.rows(), columns)?;
        let firsts = index.firsts(alloc)?;
        let mut rows = Vec::new(alloc);
        for first in &firsts {
            rows.push(Record::from_values(copy_cells(alloc, first.row(), columns)?))?;
        }
        Ok(RecordSet { rows })
    }

    /// The joined row of each row of this set and each of the other that agree on all pairs. A pair
    /// equates a column of this set with one of the other; a column past the end of a row counts as
    /// the number 0.
    pub fn join(&self, other: &RecordSet, pairs: &[(u32, u32)]) -> Result<RecordSet, SetFault>
        ensures { Gives (set_of (join_rows pairs.now self.now other.now)) result }
    {
        let alloc = *self.rows.allocator();
        let lefts = left_columns(alloc, pairs)?;
        let rights = right_columns(alloc, pairs)?;
        let index = Index::new(alloc, other.rows(), &rights)?;
        let mut set = RecordSet::new(alloc);
        for left in self.rows() {
            add_joined(alloc, &mut set, left, index.run(left, &lefts), pairs)?;
        }
        Ok(set)
    }

    /// The rows that agree on all pairs with no row of the other set. A pair equates a column of this
    /// set with one of the other; a column past the end of a row counts as the number 0.
    pub fn antijoin(&self, other: &RecordSet, pairs: &[(u32, u32)]) -> Result<RecordSet, SetFault>
        ensures { Gives (set_of (notin_rows pairs.now self.now other.now)) result }
    {
        let alloc = *self.rows.allocator();
        let lefts = left_columns(alloc, pairs)?;
        let rights = right_columns(alloc, pairs)?;
        let index = Index::new(alloc, other.rows(), &rights)?;
        let mut rows = Vec::new(alloc);
        for left in self.rows() {
            if !index.has_run(left, &lefts) {
                rows.push(left.copy()?)?;
            }
        }
        Ok(RecordSet { rows })
    }

    /// A row for each key that some row has: the key's values and the aggregate over the rows with that key. A column past the end
    /// of a row counts as the number 0.
    pub fn group(&self, keys: &[u32], agg: Agg) -> Result<RecordSet, SetFault>
        ensures { Gives (set_of (group_rows keys.now agg self.now)) result }
    {
        let alloc = *self.rows.allocator();
        let index = Index::new(alloc, self.rows(), keys)?;
        let firsts = index.firsts(alloc)?;
        let mut rows = Vec::new(alloc);
        for first in &firsts {
            let row = first.row();
            rows.push(grouped_row(alloc, row, keys, index.run(row, keys), agg)?)?;
        }
        Ok(RecordSet { rows })
    }

    /// The key tuples that occur in at least so many rows. A column past the end of a row counts as
    /// the number 0.
    pub fn at_least(&self, keys: &[u32], bound: u64) -> Result<RecordSet, SetFault>
        ensures { Gives (set_of (at_least_rows keys.now bound self.now)) result }
    {
        let alloc = *self.rows.allocator();
        let index = Index::new(alloc, self.rows(), keys)?;
        let firsts = index.firsts(alloc)?;
        let mut rows = Vec::new(alloc);
        for first in &firsts {
            let row = first.row();
            if bound <= index.run(row, keys).len() as u64 {
                rows.push(Record::from_values(copy_cells(alloc, row, keys)?))?;
            }
        }
        Ok(RecordSet { rows })
    }
}

// Copies of the rows behind references.
fn copies_of(alloc: Global, refs: &[&Record]) -> Result<Vec<Record>, AllocError>
    ensures { IfOk result (λ rows. rows.items ≡ shown refs.now) }
{
    let mut rows = Vec::new(alloc);
    for row in refs {
        rows.push(row.copy()?)?;
    }
    Ok(rows)
}
