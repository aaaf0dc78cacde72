//! A level of sizes: side by side, and two by two the sizes of the level above.
ghost use Rattle.std.specs.Prelude.{◌≡◌, ◌+◌, ◌*◌, ◌<◌, ◌^◌, IfOk, length, slice_index, slice_set, sum};
ghost use Rattle.sched_turns.specs.Code.Levels.{halved, GoesDown};

use std::alloc::{AllocError, Global};
use std::marker::Model;

/// Sizes side by side.
#[derive(Drop)]
pub(crate) struct Level {
    sizes: Vec<usize>,
}

impl Model for Level {
    ghost use Rattle.std.specs.Prelude.{List, ℕ};

    ghost Value = { List ℕ };

    ghost view = { λ level. level.sizes.items };
}

impl Level {
    /// The level of these sizes.
    pub(crate) fn of(sizes: Vec<usize>) -> Level
        ensures { result ≡ sizes.items }
    {
        Level { sizes }
    }

    /// The number of sizes.
    pub(crate) fn len(&self) -> usize
        ensures { result ≡ length self.now }
    {
        self.sizes.len()
    }

    /// The size at a place, 0 past the end.
    pub(crate) fn size_at(&self, place: usize) -> usize
        ensures { result ≡ slice_index self.now place }
    {
        match self.sizes.get(place) {
            Some(size) => *size,
            None => 0,
        }
    }

    /// Sets the size at a place.
    pub(crate) fn set(&mut self, place: usize, size: usize)
        requires { place < length self.old }
        ensures { self.new ≡ slice_set self.old place size }
    {
        self.sizes[place] = size;
    }

    // How many sizes there are at most; the call does nothing.
    fn bounded(&self)
        ensures { length self.now < 2 ^ 63 }
    {
        let _ = self.sizes.len();
    }

    /// The size of a pair, which is one size of the level above.
    pub(crate) fn pair_at(&self, pair: usize) -> usize
        requires pair { pair < length self.now }
        requires fits { sum self.now < 2 ^ 64 }
        ensures { result ≡ slice_index (halved self.now) pair }
    {
        self.bounded();
        self.size_at(2 * pair) + self.size_at(2 * pair + 1)
    }

    /// Goes down from a pair and a number in it to the one of the two in which the number stands, and
    /// to the number in that.
    pub(crate) fn down(&self, pair: usize, number: usize) -> (usize, usize)
        requires { number < slice_index (halved self.now) pair }
        ensures { GoesDown self.now pair number result.0 result.1 }
    {
        self.bounded();
        let left = self.size_at(2 * pair);
        if number < left {
            (2 * pair, number)
        } else {
            (2 * pair + 1, number - left)
        }
    }

    /// The level above. The error is want of memory.
    pub(crate) fn above(&self, alloc: Global) -> Result<Level, AllocError>
        requires { sum self.now < 2 ^ 64 }
        ensures { IfOk result (λ level. level ≡ halved self.now) }
    {
        let mut sizes = Vec::new(alloc);
        for pair in 0..self.len().div_ceil(2) {
            sizes.push(self.pair_at(pair))?;
        }
        Ok(Level { sizes })
    }
}
