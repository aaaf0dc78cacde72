//! What a step puts out, where a record that arrived is known by its id.
ghost use Rattle.std.specs.Prelude.{◌≡◌, ◌++◌, ◌∷◌, [], List, OnOk};
ghost use Rattle.blz_pool.specs.Entries.{EntryId};
ghost use Rattle.blz_value.specs.Record.{Row};
ghost use Rattle.bloom_eval.specs.Puts.{ArePutOf, puts_in};

use crate::sets::Outs;
use blz_pool::Id;
use blz_set::RecordSet;
use std::alloc::{AllocError, Global};
use std::marker::Model;

/// What a step puts out at an output.
#[derive(Drop)]
pub enum Put {
    /// One record, which arrived in the step, by its id in the pool.
    Arrived(Id),
    /// A set of rows.
    Rows(RecordSet),
}

/// What a step puts out, one for each output in declared order. It can be filled again and again.
#[derive(Drop)]
pub struct Puts {
    puts: Vec<Put>,
}

impl Model for Puts {
    ghost use Rattle.std.specs.Prelude.{List};
    ghost use Rattle.bloom_eval.specs.declared.puts.Put.{Put as ThePut};

    ghost Value = { List ThePut };

    ghost view = { λ puts. puts.puts.items };
}

impl Puts {
    /// Nothing is put out. It takes no memory.
    pub fn new(alloc: Global) -> Puts
        ensures { result ≡ [] }
    {
        Puts {
            puts: Vec::new(alloc),
        }
    }

    /// What is put out, output by output.
    pub fn as_slice(&self) -> &[Put]
        ensures { result.now ≡ self.now }
    {
        &self.puts
    }

    /// Nothing is put out from now on. The memory is kept.
    pub fn clear(&mut self)
        ensures { self.new ≡ [] }
    {
        self.puts.clear();
    }

    /// Puts something out at the next output. The error is want of memory.
    pub fn push(&mut self, put: Put) -> Result<(), AllocError>
        ensures { OnOk result (self.new ≡ self.old ++ put ∷ []) }
    {
        self.puts.push(put)?;
        Ok(())
    }

    /// Puts these sets out. The error is want of memory.
    pub fn put_sets(&mut self, outs: Outs) -> Result<(), AllocError>
        ensures rows { OnOk result ((records : List Row) → puts_in records self.new ≡ outs) }
        ensures ids { OnOk result ((entries : List EntryId) → ArePutOf entries self.new) }
    {
        self.clear();
        for set in outs.into_sets() {
            self.push(Put::Rows(set))?;
        }
        Ok(())
    }
}
