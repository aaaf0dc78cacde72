//! Sizes in a tree of sums: a number below their sum finds its place in as many steps as the tree has
//! levels.
//!
//! The lowest level has the sizes, and each level above has the sums of the one below, two by two. A
//! number goes down from the top: to the left of a pair where it is below the left size, else to the
//! right with so much less.
ghost use Rattle.std.specs.Prelude.{◌≡◌, ◌<◌, ◌^◌, IfOk, length, slice_set, sum};
ghost use Rattle.sched_turns.specs.Sizes.{IsPlaceOf};

use crate::levels::Level;
use std::alloc::{AllocError, Global};
use std::marker::Model;

/// Sizes, seen as their list.
#[derive(Drop)]
pub struct Sizes {
    levels: Vec<Level>,
}

impl Model for Sizes {
    ghost use Rattle.std.specs.Prelude.{List, ℕ};
    ghost use Rattle.sched_turns.specs.Code.Levels.{AreLevels, lowest};

    ghost Value = { List ℕ };

    ghost view = { λ sizes. lowest sizes.levels.items };

    ghost invariant = { λ sizes. AreLevels sizes.levels.items };
}

impl Sizes {
    /// The tree of these sizes. The error is want of memory.
    pub fn of(alloc: Global, sizes: Vec<usize>) -> Result<Sizes, AllocError>
        requires { sum sizes.items < 2 ^ 64 }
        ensures { IfOk result (λ tree. tree ≡ sizes.items) }
    {
        let mut levels = Vec::new(alloc);
        let mut level = Level::of(sizes);
        while level.len() > 1 {
            let above = level.above(alloc)?;
            levels.push(level)?;
            level = above;
        }
        levels.push(level)?;
        Ok(Sizes { levels })
    }

    /// The number of sizes.
    pub fn len(&self) -> usize
        ensures { result ≡ length self.now }
    {
        self.levels[0].len()
    }

    /// The sum of all sizes.
    pub fn total(&self) -> usize
        ensures { result ≡ sum self.now }
    {
        self.levels[self.levels.len() - 1].size_at(0)
    }

    /// Sets the size at a place. Takes a step for each level, and none where the size stands there.
    pub fn set(&mut self, place: usize, size: usize)
        requires place { place < length self.old }
        requires few { sum (slice_set self.old place size) < 2 ^ 64 }
        ensures { self.new ≡ slice_set self.old place size }
    {
        if self.levels[0].size_at(place) == size {
            return;
        }
        let mut place = place;
        let mut size = size;
        for k in 0..self.levels.len() {
            self.levels[k].set(place, size);
            place /= 2;
            size = self.levels[k].pair_at(place);
        }
    }

    /// The place of the size in which a number stands, where the sizes stand one after another, and
    /// the number in it. Takes a step for each level.
    pub fn place_of(&self, number: usize) -> (usize, usize)
        requires { number < sum self.now }
        ensures { IsPlaceOf self.now number result.0 result.1 }
    {
        let mut place = 0;
        let mut rest = number;
        for k in (0..self.levels.len()).rev() {
            (place, rest) = self.levels[k].down(place, rest);
        }
        (place, rest)
    }
}
