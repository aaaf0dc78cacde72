//! A set of records that rows enter and leave, kept in a tree, so that such a row moves no other.
ghost use Rattle.std.specs.Prelude.{◌≡◌, ◌↔◌, ◌∷◌, ◌++◌, [], IsTrue, OnErr, OnOk, length};
ghost use Rattle.blz_value.specs.Sets.{set_of};
ghost use Rattle.blz_set.specs.Missing.{missing_from};

use blz_value::Record;
use std::alloc::{AllocError, Global};
use std::collections::BTreeSet;
use std::marker::Model;

/// Records, each once, in record order.
#[derive(Drop)]
pub(crate) struct RowTree {
    rows: BTreeSet<Record>,
}

impl Model for RowTree {
    ghost use Rattle.std.specs.Prelude.{List};
    ghost use Rattle.blz_value.specs.Record.{Row};
    ghost use Rattle.blz_value.specs.Sets.{IsRowSet};

    ghost Value = { List Row };

    ghost view = { λ set. set.rows.keys };

    ghost invariant = { λ set. IsRowSet set.rows.keys };
}

impl RowTree {
    /// The empty set.
    pub(crate) fn new(alloc: Global) -> RowTree
        ensures { result ≡ [] }
    {
        RowTree {
            rows: BTreeSet::new(alloc),
        }
    }

    /// Whether it has no row.
    pub(crate) fn is_empty(&self) -> bool
        ensures { IsTrue result ↔ (length self.now ≡ 0) }
    {
        self.rows.is_empty()
    }

    /// The rows as a tree.
    pub(crate) fn as_tree(&self) -> &BTreeSet<Record>
        ensures { result.now.keys ≡ self.now }
    {
        &self.rows
    }

    /// Adds a row. After want of memory it isn't there.
    pub(crate) fn insert(&mut self, row: Record) -> Result<(), AllocError>
        ensures rows { OnOk result (self.new ≡ set_of (row ∷ self.old)) }
        ensures same { OnErr result (self.new ≡ self.old) }
    {
        let _ = self.rows.insert(row)?;
        Ok(())
    }

    /// Takes a row away, where it is there.
    pub(crate) fn remove(&mut self, row: &Record)
        ensures { self.new ≡ missing_from (row.now ∷ []) self.old }
    {
        let _ = self.rows.remove(row);
    }
}

/// Adds at the end copies of the rows of a tree.
pub(crate) fn push_copies(rows: &mut Vec<Record>, more: &BTreeSet<Record>) -> Result<(), AllocError>
    ensures { OnOk result (rows.new.items ≡ rows.old.items ++ more.now.keys) }
{
    for row in more {
        rows.push(row.copy()?)?;
    }
    Ok(())
}
