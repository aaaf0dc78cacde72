//! The rows of a part by their values in some columns, whatever keeps them.
ghost use Rattle.std.specs.Prelude.{◌≡◌, ◌↔◌, ◌<◌, ◌≤◌, ◌++◌, [], ℕ, List, map, length, IsTrue, OnOk};
ghost use Rattle.blz_value.specs.Operators.{joined};
ghost use Rattle.blz_value.specs.Record.{Row};
ghost use Rattle.blz_value.specs.Sets.{IsRowSet};
ghost use Rattle.blz_set.specs.Missing.{missing_from};
ghost use Rattle.blz_set.specs.RecordSet.{row_limit};
ghost use Rattle.bloom_growth.specs.ByKey.{rows_found, AreByKey};
ghost use Rattle.bloom_growth.specs.Growth.{Extends};
ghost use Rattle.bloom_growth.specs.Kept.{Kept, KeepsForm, IsGrownTo, IsTurnedTo, PartTurns};

use crate::keyed::KeyedRows;
use crate::partners::{push_lefts, push_rights, push_tree_lefts, push_tree_rights};
use crate::side::Side;
use crate::turn::Turning;
use blz_set::{RecordSet, SetFault};
use blz_value::Record;
use std::alloc::{AllocError, Global};

/// The rows of a part by their values in the columns that a join or a notin equates.
pub trait RowsByKey {
    /// The columns, the rows at each key, and whether the part only grows.
    ghost kept: { Self → Kept };

    /// Whether there are rows with a key.
    fn has(&self, key: &Record) -> bool
        ensures { IsTrue result ↔ (0 < length (rows_found (kept self.now).sets key.now)) };

    /// Adds at the end the rows that a left row makes with those that have a key.
    fn push_rights(
        &self,
        alloc: Global,
        rows: &mut Vec<Record>,
        left: &Record,
        key: &Record,
        pairs: &[(u32, u32)],
    ) -> Result<(), AllocError>
        ensures { OnOk result (rows.new.items ≡ rows.old.items ++ map (joined pairs.now left.now) (rows_found (kept self.now).sets key.now)) };

    /// Adds at the end the rows that those with a key make with a right row.
    fn push_lefts(
        &self,
        alloc: Global,
        rows: &mut Vec<Record>,
        right: &Record,
        key: &Record,
        pairs: &[(u32, u32)],
    ) -> Result<(), AllocError>
        ensures { OnOk result (rows.new.items ≡ rows.old.items ++ map (λ left. joined pairs.now left right.now) (rows_found (kept self.now).sets key.now)) };

    /// Takes rows away that the part loses. After want of memory it has lost some.
    fn shrink(&mut self, gone: &RecordSet) -> Result<(), AllocError>
        ensures form { KeepsForm (kept self.old) (kept self.new) }
        ensures rows { OnOk result ((rows : List Row) → IsRowSet rows → (IsTrue (kept self.old).grows → gone.now ≡ []) → AreByKey (kept self.old).columns rows (kept self.old).sets → AreByKey (kept self.old).columns (missing_from gone.now rows) (kept self.new).sets) };

    /// Adds the rows that are new of the part. After want of memory it has lost some.
    fn grow(&mut self, more: &RecordSet) -> Result<(), SetFault>
        ensures form { KeepsForm (kept self.old) (kept self.new) }
        ensures rows { (old new : List Row) → Extends old new more.now → length new ≤ row_limit → AreByKey (kept self.old).columns old (kept self.old).sets → IsGrownTo (kept self.old).columns new (kept self.new).sets result };
}

impl RowsByKey for Side {
    ghost use Rattle.bloom_growth.specs.KeptForms.{side_kept};

    ghost kept = { side_kept };

    fn has(&self, key: &Record) -> bool {
        self.at(key).len() > 0
    }

    fn push_rights(
        &self,
        alloc: Global,
        rows: &mut Vec<Record>,
        left: &Record,
        key: &Record,
        pairs: &[(u32, u32)],
    ) -> Result<(), AllocError> {
        push_rights(alloc, rows, left, self.at(key).rows(), pairs)
    }

    fn push_lefts(
        &self,
        alloc: Global,
        rows: &mut Vec<Record>,
        right: &Record,
        key: &Record,
        pairs: &[(u32, u32)],
    ) -> Result<(), AllocError> {
        push_lefts(alloc, rows, self.at(key).rows(), right, pairs)
    }

    fn shrink(&mut self, _gone: &RecordSet) -> Result<(), AllocError> {
        Ok(())
    }

    fn grow(&mut self, more: &RecordSet) -> Result<(), SetFault> {
        Side::grow(self, more)
    }
}

impl RowsByKey for KeyedRows {
    ghost use Rattle.bloom_growth.specs.KeptForms.{keyed_kept};

    ghost kept = { keyed_kept };

    fn has(&self, key: &Record) -> bool {
        self.sets.contains_key(key)
    }

    fn push_rights(
        &self,
        alloc: Global,
        rows: &mut Vec<Record>,
        left: &Record,
        key: &Record,
        pairs: &[(u32, u32)],
    ) -> Result<(), AllocError> {
        match self.sets.get(key) {
            Some(set) => push_tree_rights(alloc, rows, left, set.as_tree(), pairs),
            None => Ok(()),
        }
    }

    fn push_lefts(
        &self,
        alloc: Global,
        rows: &mut Vec<Record>,
        right: &Record,
        key: &Record,
        pairs: &[(u32, u32)],
    ) -> Result<(), AllocError> {
        match self.sets.get(key) {
            Some(set) => push_tree_lefts(alloc, rows, set.as_tree(), right, pairs),
            None => Ok(()),
        }
    }

    fn shrink(&mut self, gone: &RecordSet) -> Result<(), AllocError> {
        KeyedRows::shrink(self, gone)
    }

    fn grow(&mut self, more: &RecordSet) -> Result<(), SetFault> {
        KeyedRows::grow(self, more)?;
        Ok(())
    }
}

/// Goes on from the rows of before to those of after: first rows go. After a fault it has lost some.
pub fn turn_part<S: RowsByKey>(side: &mut S, part: Turning<'_>) -> Result<(), SetFault>
    ensures form { KeepsForm (S.kept side.old) (S.kept side.new) }
    ensures rows { (columns : List ℕ) (old new : List Row) → PartTurns columns old new part.entry.more.now part.entry.gone.now (S.kept side.old) → IsTurnedTo columns new (S.kept side.new) result }
{
    side.shrink(part.gone)?;
    side.grow(part.more)
}
