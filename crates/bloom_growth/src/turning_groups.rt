//! Running aggregates of a part that rows enter and leave, one for each key that occurs.
ghost use Rattle.std.specs.Prelude.{◌≡◌, ◌<◌, ◌≤◌, ◌&&◌, ◌∷◌, ◌++◌, [], ℕ, List, length, map, filter, nat_le, IfOk, OnOk};
ghost use Rattle.blz_value.specs.declared.aggregate.Agg.{Agg as TheAgg};
ghost use Rattle.blz_value.specs.declared.aggregate.Agg.TheVariants.{Count};
ghost use Rattle.blz_value.specs.Groups.{with_key, group_rows, at_least_rows};
ghost use Rattle.blz_value.specs.Members.{Has};
ghost use Rattle.blz_value.specs.Operators.{cells, project_rows};
ghost use Rattle.blz_value.specs.Record.{Row};
ghost use Rattle.blz_value.specs.Sets.{set_of, IsRowSet};
ghost use Rattle.blz_set.specs.Answers.{Gives};
ghost use Rattle.blz_set.specs.Missing.{has_row};
ghost use Rattle.blz_set.specs.RecordSet.{row_limit};
ghost use Rattle.bloom_growth.specs.Code.Aggregates.{grouped, rows_of};
ghost use Rattle.bloom_growth.specs.Tallies.{IsTally};
ghost use Rattle.bloom_growth.specs.Turned.{TurnsInto};

use crate::columns::{copy_cells, with_value};
use crate::tallies::{Step, Tallies, put_row, take_row};
use crate::tally::Tally;
use crate::turn::{Turn, Turning, differ, exchange, one_row, only_row};
use blz_set::{RecordSet, SetFault};
use blz_value::{Agg, HashKey, Record};
use indexmap::IndexMap;
use std::alloc::{AllocError, Global};

/// The aggregate of the rows with each key.
#[derive(Drop)]
pub struct TurningGroups {
    alloc: Global,
    keys: Vec<u32>,
    agg: Agg,
    tallies: Tallies,
}

impl TurningGroups {
    ghost use Rattle.bloom_growth.specs.TurningGroups.{AreTallied, AreFreshTallies, TalliesStand, GroupsTurn};

    /// The aggregates of no rows. Key values are hashed under `key`.
    pub fn new(alloc: Global, keys: Vec<u32>, agg: Agg, key: HashKey) -> TurningGroups
        ensures { AreFreshTallies keys.items agg result }
    {
        TurningGroups {
            alloc,
            keys,
            agg,
            tallies: IndexMap::with_hasher(alloc, key),
        }
    }

    // Adds a row that is new.
    fn put(&mut self, row: &Record) -> Result<(), AllocError>
        ensures keys { self.new.keys ≡ self.old.keys }
        ensures agg { self.new.agg ≡ self.old.agg }
        ensures tallied { OnOk result ((rows : List Row) → IsRowSet rows → length rows < row_limit → ¬ Has row.now rows → AreTallied self.old.keys.items self.old.agg rows self.old.tallies → AreTallied self.old.keys.items self.old.agg (set_of (row.now ∷ rows)) self.new.tallies) }
    {
        let key = copy_cells(self.alloc, row, &self.keys)?;
        let _ = put_row(&mut self.tallies, self.alloc, self.agg, &key, row)?;
        Ok(())
    }

    // Takes a row away.
    fn take(&mut self, row: &Record) -> Result<(), AllocError>
        ensures keys { self.new.keys ≡ self.old.keys }
        ensures agg { self.new.agg ≡ self.old.agg }
        ensures tallied { OnOk result ((rows : List Row) → IsRowSet rows → length rows < row_limit → ¬ Has row.now rows → AreTallied self.old.keys.items self.old.agg (set_of (row.now ∷ rows)) self.old.tallies → AreTallied self.old.keys.items self.old.agg rows self.new.tallies) }
    {
        let key = copy_cells(self.alloc, row, &self.keys)?;
        take_row(&mut self.tallies, self.agg, &key, row)
    }

    // Adds rows that are new.
    fn put_all(&mut self, more: &RecordSet) -> Result<(), AllocError>
        ensures keys { self.new.keys ≡ self.old.keys }
        ensures agg { self.new.agg ≡ self.old.agg }
        ensures tallied { OnOk result ((rows : List Row) → IsRowSet rows → length (set_of (rows ++ more.now)) ≤ row_limit → ((row : Row) → Has row more.now → ¬ Has row rows) → AreTallied self.old.keys.items self.old.agg rows self.old.tallies → AreTallied self.old.keys.items self.old.agg (set_of (rows ++ more.now)) self.new.tallies) }
    {
        for row in more.rows() {
            self.put(row)?;
        }
        Ok(())
    }

    // Takes rows away.
    fn take_all(&mut self, gone: &RecordSet) -> Result<(), AllocError>
        ensures keys { self.new.keys ≡ self.old.keys }
        ensures agg { self.new.agg ≡ self.old.agg }
        ensures tallied { OnOk result ((rows : List Row) → IsRowSet rows → length (set_of (rows ++ gone.now)) ≤ row_limit → ((row : Row) → Has row gone.now → ¬ Has row rows) → AreTallied self.old.keys.items self.old.agg (set_of (rows ++ gone.now)) self.old.tallies → AreTallied self.old.keys.items self.old.agg rows self.new.tallies) }
    {
        for row in gone.rows() {
            self.take(row)?;
        }
        Ok(())
    }

    // Goes on from the rows of before to those of after.
    fn go_on(&mut self, part: Turning<'_>) -> Result<(), AllocError>
        ensures { OnOk result ((keys : List ℕ) (agg : TheAgg) (old new : List Row) → GroupsTurn keys agg old new part.entry.more.now part.entry.gone.now self.old → TalliesStand keys agg new self.new) }
    {
        self.take_all(part.gone)?;
        self.put_all(part.more)
    }

    // Puts the keys of rows to others.
    fn push_keys(&self, keys: &mut Vec<Record>, rows: &RecordSet) -> Result<(), AllocError>
        ensures { OnOk result (keys.new.items ≡ keys.old.items ++ project_rows self.now.keys.items rows.now) }
    {
        for row in rows.rows() {
            keys.push(copy_cells(self.alloc, row, &self.keys)?)?;
        }
        Ok(())
    }

    // The keys of the rows that go or come, in order. There may be more than rows of a set.
    fn touched(&self, part: Turning<'_>) -> Result<Vec<Record>, AllocError>
        ensures { IfOk result (λ touched. touched.items ≡ set_of (project_rows self.now.keys.items part.entry.gone.now ++ project_rows self.now.keys.items part.entry.more.now)) }
    {
        let mut keys = Vec::new(self.alloc);
        self.push_keys(&mut keys, part.gone)?;
        self.push_keys(&mut keys, part.more)?;
        keys.sort_unstable();
        keys.dedup();
        Ok(keys)
    }

    // The row of a key.
    fn row_of(&self, key: &Record, tally: &Tally) -> Result<Record, AllocError>
        ensures { IfOk result (λ row. (rows : List Row) → IsTally self.now.agg (with_key self.now.keys.items key.now rows) tally.now → row ≡ grouped self.now.keys.items self.now.agg rows key.now) }
    {
        with_value(self.alloc, key, tally.value(self.agg)?)
    }

    // A row for each of some keys that occurs.
    fn rows_at(&self, keys: &[Record]) -> Result<RecordSet, SetFault>
        ensures { (rows : List Row) → AreTallied self.now.keys.items self.now.agg rows self.now.tallies → Gives (set_of (map (grouped self.now.keys.items self.now.agg rows) (filter (has_row (project_rows self.now.keys.items rows)) keys.now))) result }
    {
        let mut rows = Vec::new(self.alloc);
        for key in keys {
            if let Some(tally) = self.tallies.get(key) {
                rows.push(self.row_of(key, tally)?)?;
            }
        }
        RecordSet::from_rows(rows)
    }

    // Whether a key occurs in so many rows.
    fn is_often(&self, key: &Record, bound: u64) -> bool
        ensures { (rows : List Row) → AreTallied self.now.keys.items self.now.agg rows self.now.tallies → result ≡ (has_row (project_rows self.now.keys.items rows) key.now && nat_le bound (length (with_key self.now.keys.items key.now rows))) }
    {
        match self.tallies.get(key) {
            Some(tally) => tally.is_often(bound),
            None => false,
        }
    }

    // Those of some keys that occur in so many rows.
    fn often_at(&self, keys: &[Record], bound: u64) -> Result<RecordSet, SetFault>
        ensures { (rows : List Row) → AreTallied self.now.keys.items self.now.agg rows self.now.tallies → Gives (set_of (filter (λ key. has_row (project_rows self.now.keys.items rows) key && nat_le bound (length (with_key self.now.keys.items key rows))) keys.now)) result }
    {
        let mut rows = Vec::new(self.alloc);
        for key in keys {
            if self.is_often(key, bound) {
                rows.push(key.copy()?)?;
            }
        }
        RecordSet::from_rows(rows)
    }

    // What changes of the rows of a group where the aggregate at a key does.
    fn step_turn(&self, key: &Record, step: Step) -> Result<Turn, SetFault>
        ensures { TurnsInto (rows_of key.now step.before) ((key.now ++ step.after ∷ []) ∷ []) result }
    {
        let row = with_value(self.alloc, key, step.after)?;
        match step.before {
            Some(before) => exchange(self.alloc, with_value(self.alloc, key, before)?, row),
            None => {
                let more = one_row(self.alloc, row)?;
                let gone = RecordSet::new(self.alloc);
                Ok(Turn { more, gone })
            }
        }
    }

    // What the rows of a group become where its part gets one row: one search finds the key.
    fn turn_one(&mut self, row: &Record) -> Result<Turn, SetFault>
        ensures stand { OnOk result ((keys : List ℕ) (agg : TheAgg) (old new : List Row) → GroupsTurn keys agg old new (row.now ∷ []) [] self.old → TalliesStand keys agg new self.new) }
        ensures rows { (keys : List ℕ) (agg : TheAgg) (old new : List Row) → GroupsTurn keys agg old new (row.now ∷ []) [] self.old → TurnsInto (set_of (group_rows keys agg old)) (set_of (group_rows keys agg new)) result }
    {
        let key = copy_cells(self.alloc, row, &self.keys)?;
        let step = put_row(&mut self.tallies, self.alloc, self.agg, &key, row)?;
        self.step_turn(&key, step)
    }

    // The same for any turn, by the keys that it touches.
    fn turn_all(&mut self, part: Turning<'_>) -> Result<Turn, SetFault>
        ensures stand { OnOk result ((keys : List ℕ) (agg : TheAgg) (old new : List Row) → GroupsTurn keys agg old new part.entry.more.now part.entry.gone.now self.old → TalliesStand keys agg new self.new) }
        ensures rows { (keys : List ℕ) (agg : TheAgg) (old new : List Row) → GroupsTurn keys agg old new part.entry.more.now part.entry.gone.now self.old → TurnsInto (set_of (group_rows keys agg old)) (set_of (group_rows keys agg new)) result }
    {
        let touched = self.touched(part)?;
        let before = self.rows_at(&touched)?;
        self.go_on(part)?;
        let after = self.rows_at(&touched)?;
        differ(self.alloc, &before, &after)
    }

    /// What the rows of a group become where its part changes: the rows of keys that are touched go,
    /// and others come, where they differ. After a fault some rows may be missing.
    pub fn turn(&mut self, part: Turning<'_>) -> Result<Turn, SetFault>
        ensures stand { OnOk result ((keys : List ℕ) (agg : TheAgg) (old new : List Row) → GroupsTurn keys agg old new part.entry.more.now part.entry.gone.now self.old → TalliesStand keys agg new self.new) }
        ensures rows { (keys : List ℕ) (agg : TheAgg) (old new : List Row) → GroupsTurn keys agg old new part.entry.more.now part.entry.gone.now self.old → TurnsInto (set_of (group_rows keys agg old)) (set_of (group_rows keys agg new)) result }
    {
        match only_row(part) {
            Some(row) => self.turn_one(row),
            None => self.turn_all(part),
        }
    }

    /// What the keys that occur in so many rows become where the part changes. After a fault some rows
    /// may be missing.
    pub fn turn_often(&mut self, part: Turning<'_>, bound: u64) -> Result<Turn, SetFault>
        ensures stand { OnOk result ((keys : List ℕ) (agg : TheAgg) (old new : List Row) → GroupsTurn keys agg old new part.entry.more.now part.entry.gone.now self.old → TalliesStand keys agg new self.new) }
        ensures often { (keys : List ℕ) (agg : TheAgg) (old new : List Row) → GroupsTurn keys agg old new part.entry.more.now part.entry.gone.now self.old → TurnsInto (set_of (at_least_rows keys bound old)) (set_of (at_least_rows keys bound new)) result }
    {
        let touched = self.touched(part)?;
        let before = self.often_at(&touched, bound)?;
        self.go_on(part)?;
        let after = self.often_at(&touched, bound)?;
        differ(self.alloc, &before, &after)
    }
}
