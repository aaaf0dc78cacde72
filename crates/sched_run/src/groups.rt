//! Lists of places, each with a number.
ghost use Rattle.std.specs.Prelude.{◌≡◌, ◌<◌, ◌++◌, ◌∷◌, [], length, replicate, slice_index_or, slice_set, IfOk, OnOk};

use std::alloc::{AllocError, Global};
use std::marker::Model;

// A list of places.
#[derive(Drop)]
struct Group {
    places: Vec<usize>,
}

impl Model for Group {
    ghost use Rattle.std.specs.Prelude.{List, ℕ};

    ghost Value = { List ℕ };

    ghost view = { λ group. group.places.items };
}

impl Group {
    // No place yet.
    fn new(alloc: Global) -> Group
        ensures { result ≡ [] }
    {
        Group {
            places: Vec::new(alloc),
        }
    }

    // Adds a place.
    fn add(&mut self, place: usize) -> Result<(), AllocError>
        ensures { OnOk result (self.new ≡ self.old ++ place ∷ []) }
    {
        self.places.push(place)?;
        Ok(())
    }

    // Its places.
    fn places(&self) -> &[usize]
        ensures { result.now ≡ self.now }
    {
        &self.places
    }
}

/// Lists of places, each with a number.
#[derive(Drop)]
pub(crate) struct Groups {
    groups: Vec<Group>,
}

impl Model for Groups {
    ghost use Rattle.std.specs.Prelude.{List, ℕ};

    ghost Value = { List (List ℕ) };

    ghost view = { λ groups. groups.groups.items };
}

impl Groups {
    /// So many empty lists. The error is want of memory.
    pub(crate) fn new(alloc: Global, count: usize) -> Result<Groups, AllocError>
        ensures { IfOk result (λ groups. groups ≡ replicate count []) }
    {
        let mut groups = Vec::new(alloc);
        for _ in 0..count {
            groups.push(Group::new(alloc))?;
        }
        Ok(Groups { groups })
    }

    /// The list with a number.
    pub(crate) fn list(&self, number: usize) -> &[usize]
        requires { number < length self.now }
        ensures { result.now ≡ slice_index_or self.now number [] }
    {
        self.groups[number].places()
    }

    /// Adds a place to the list with a number. The error is want of memory.
    pub(crate) fn add(&mut self, number: usize, place: usize) -> Result<(), AllocError>
        requires { number < length self.old }
        ensures { OnOk result (self.new ≡ slice_set self.old number (slice_index_or self.old number [] ++ place ∷ [])) }
    {
        self.groups[number].add(place)
    }
}
