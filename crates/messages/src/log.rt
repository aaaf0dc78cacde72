//! The log of an Order component, seen as the list of its entries.
ghost use Rattle.std.specs.Prelude.{◌≡◌, ◌<◌, ◌↔◌, [], ◌∷◌, ◌++◌, List, false, length, slice_get, IsTrue, Ok, IfOk, OnOk, OnErr};
ghost use Rattle.std.specs.List.{list_any};
ghost use Rattle.blz_pool.specs.Pool.{IsPool};
ghost use Rattle.blz_value.specs.Members.{Has};
ghost use Rattle.blz_value.specs.Record.{Row};
ghost use Rattle.blz_pool.specs.Entries.{entries_with_ids, row_with_id};
ghost use Rattle.messages.specs.Log.{IsLog, AreGiven, is_same_entry_id};
ghost use Rattle.messages.specs.Messages.{with_new, is_same_entry};

use crate::known::Known;
use blz_pool::Id;
use std::alloc::{AllocError, Global};
use std::marker::Model;

/// Pairs of a port and the id of a record, each once, in the order in which they were first
/// appended.
#[derive(Drop)]
pub struct Log {
    entries: Vec<(u32, Id)>,
    known: Known,
}

impl Model for Log {
    ghost use Rattle.std.specs.Prelude.{List};
    ghost use Rattle.blz_pool.specs.Entries.{EntryId};
    ghost use Rattle.messages.specs.Known.{IsKept};

    ghost Value = { List EntryId };

    ghost view = { λ log. log.entries.items };

    ghost invariant = { λ log. IsKept log.known log.entries.items };
}

impl Log {
    /// The log without entries.
    pub fn new(alloc: Global) -> Log
        ensures { result ≡ [] }
    {
        Log {
            entries: Vec::new(alloc),
            known: Known::new(alloc),
        }
    }

    /// Forgets all entries. It takes no memory.
    pub fn clear(&mut self)
        ensures { self.new ≡ [] }
    {
        self.entries.clear();
        self.known.clear();
    }

    /// The number of entries.
    pub fn len(&self) -> usize
        ensures count { result ≡ length self.now }
        ensures once { IsLog self.now }
    {
        self.entries.len()
    }

    /// The entry at a place, counted from 0: a port and the id of a record. None exactly past the
    /// end.
    pub fn entry(&self, n: usize) -> Option<(u32, Id)>
        ensures { result ≡ slice_get self.now n }
    {
        self.entries.get(n).copied()
    }

    /// Whether a pair stands in the log.
    pub fn knows(&self, entry: (u32, Id)) -> bool
        ensures { result ≡ list_any (is_same_entry_id entry) self.now }
    {
        self.known.knows(entry.0, entry.1.number())
    }

    // Puts a new pair behind the others.
    fn push(&mut self, entry: (u32, Id)) -> Result<(), AllocError>
        requires { list_any (is_same_entry_id entry) self.old ≡ false }
        ensures ok { OnOk result (self.new ≡ self.old ++ entry ∷ []) }
        ensures err { OnErr result (self.new ≡ self.old) }
    {
        let (port, id) = entry;
        self.entries.push((port, id))?;
        match self.known.know(port, id.number()) {
            Ok(()) => Ok(()),
            Err(error) => {
                let _ = self.entries.pop();
                Err(error)
            }
        }
    }

    /// Puts a pair at the end, unless the log has it, and answers whether it was new. A pair that
    /// the log has takes no memory. The log takes one bit at each port for each id up to the greatest
    /// there. The error is want of memory and leaves the log as it was.
    pub fn append(&mut self, port: u32, row: Id) -> Result<bool, AllocError>
        ensures log { OnOk result (self.new ≡ with_new is_same_entry_id self.old (port, row)) }
        ensures added { IfOk result (λ added. IsTrue added ↔ ¬ Has (port, row) self.old) }

        // In a pool that gave the ids, pairs of a port and a record are told apart by their ids.
        ensures records { OnOk result ((records : List Row) → IsPool records → AreGiven records self.old → row < length records
            → entries_with_ids records self.new ≡ with_new is_same_entry (entries_with_ids records self.old) (port, row_with_id records row)) }

        ensures held { Has (port, row) self.old → result ≡ Ok false }
        ensures err { OnErr result (self.new ≡ self.old) }
    {
        if self.knows((port, row)) {
            return Ok(false);
        }
        self.push((port, row))?;
        Ok(true)
    }
}
