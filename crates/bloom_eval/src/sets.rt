//! What a program keeps, what arrives at its ports, and what it puts out: lists of sets.
ghost use Rattle.std.specs.Prelude.{◌≡◌, ◌<◌, [], length, map, slice_set};
ghost use Rattle.bloom_forms.specs.Step.{set_at};

use blz_set::RecordSet;
use std::alloc::Global;
use std::marker::Model;
use std::mem;

/// The tables of a program, one set for each in declared order.
#[derive(Drop)]
pub struct Kept {
    sets: Vec<RecordSet>,
}

impl Model for Kept {
    ghost use Rattle.bloom_forms.specs.Step.{Sets};

    ghost Value = { Sets };

    ghost view = { λ kept. kept.sets.items };
}

impl Kept {
    /// The list of these sets.
    pub fn from_sets(sets: Vec<RecordSet>) -> Kept
        ensures { result ≡ sets.items }
    {
        Kept { sets }
    }

    /// The sets in order.
    pub fn sets(&self) -> &[RecordSet]
        ensures { result.now ≡ self.now }
    {
        &self.sets
    }

    /// Empties each set.
    pub fn clear(&mut self, alloc: Global)
        ensures { self.new ≡ map (λ rows. []) self.old }
    {
        for set in self.sets.iter_mut() {
            *set = RecordSet::new(alloc);
        }
    }

    /// Takes a set, and leaves the empty one in its place.
    pub(crate) fn take(&mut self, alloc: Global, table: usize) -> RecordSet
        requires { table < length self.old }
        ensures taken { result ≡ set_at self.old table }
        ensures left { self.new ≡ slice_set self.old table [] }
    {
        mem::replace(&mut self.sets[table], RecordSet::new(alloc))
    }
}

/// What arrives in a step, one set for each port in declared order.
#[derive(Drop)]
pub struct Arrivals {
    sets: Vec<RecordSet>,
}

impl Model for Arrivals {
    ghost use Rattle.bloom_forms.specs.Step.{Sets};

    ghost Value = { Sets };

    ghost view = { λ arrivals. arrivals.sets.items };
}

impl Arrivals {
    /// The list of these sets.
    pub fn from_sets(sets: Vec<RecordSet>) -> Arrivals
        ensures { result ≡ sets.items }
    {
        Arrivals { sets }
    }

    /// The sets in order.
    pub fn sets(&self) -> &[RecordSet]
        ensures { result.now ≡ self.now }
    {
        &self.sets
    }
}

/// What a step puts out, one set for each output in declared order.
#[derive(Drop)]
pub struct Outs {
    sets: Vec<RecordSet>,
}

impl Model for Outs {
    ghost use Rattle.bloom_forms.specs.Step.{Sets};

    ghost Value = { Sets };

    ghost view = { λ outs. outs.sets.items };
}

impl Outs {
    /// The list of these sets.
    pub fn from_sets(sets: Vec<RecordSet>) -> Outs
        ensures { result ≡ sets.items }
    {
        Outs { sets }
    }

    /// The sets in order.
    pub fn sets(&self) -> &[RecordSet]
        ensures { result.now ≡ self.now }
    {
        &self.sets
    }

    /// The sets themselves.
    pub(crate) fn into_sets(self) -> Vec<RecordSet>
        ensures { result.items ≡ self }
    {
        self.sets
    }
}
