//! Pairs of numbers that are known, as the messages of each feed by their indexes: for each first
//! number a set of second ones.
ghost use Rattle.std.specs.Prelude.{◌≡◌, ◌<◌, ℕ, [], length, slice_index_or, OnOk, OnErr};
ghost use Rattle.messages.specs.Numbers.{IsCountOf};
ghost use Rattle.messages.specs.Known.{is_known, KnowsAlso};

use crate::numbers::NumberSet;
use std::alloc::{AllocError, Global};
use std::marker::Model;

/// Whether a number is known at a place, as the index of a message at the number of its feed. Seen
/// as words: a number is known where its bit in the words of its place is 1. Takes a set for each
/// place up to the last at which something is known, and in it one bit for each number up to the
/// greatest.
#[derive(Drop)]
pub struct Known {
    alloc: Global,
    places: Vec<NumberSet>,
}

impl Model for Known {
    ghost use Rattle.std.specs.Prelude.{List, ℕ};

    ghost Value = { List (List ℕ) };

    ghost view = { λ known. known.places.items };
}

// Whether a number is in the set of a place; past the last nothing is.
fn knows_at(places: &[NumberSet], place: u32, number: u32) -> bool
    ensures { result ≡ is_known places.now place number }
{
    match places.get(place as usize) {
        Some(numbers) => numbers.contains(number),
        None => false,
    }
}

// How many numbers are known at a place.
fn count_of(places: &[NumberSet], place: u32) -> u64
    ensures { IsCountOf (is_known places.now place) result }
{
    match places.get(place as usize) {
        Some(numbers) => numbers.count(),
        None => 0,
    }
}

// Adds places at which nothing is known up to one with a number. The error is want of memory.
fn make_places(alloc: Global, places: &mut Vec<NumberSet>, place: u32) -> Result<(), AllocError>
    ensures room { OnOk result (place < length places.new.items) }
    ensures same { (n k : ℕ) → is_known places.new.items n k ≡ is_known places.old.items n k }
{
    while places.len() <= place as usize {
        places.push(NumberSet::new(alloc))?;
    }
    Ok(())
}

impl Known {
    /// Nothing is known. It takes no memory.
    pub fn new(alloc: Global) -> Known
        ensures { result ≡ [] }
    {
        Known {
            alloc,
            places: Vec::new(alloc),
        }
    }

    /// Whether a number is known at a place.
    pub fn knows(&self, place: u32, number: u32) -> bool
        ensures { result ≡ is_known self.now place number }
    {
        knows_at(self.places.as_slice(), place, number)
    }

    /// How many numbers are known at a place. The number is kept.
    pub fn count(&self, place: u32) -> u64
        ensures { IsCountOf (is_known self.now place) result }
    {
        count_of(self.places.as_slice(), place)
    }

    /// A number is known at a place from now on. The error is want of memory, and then as much is
    /// known as before.
    pub fn know(&mut self, place: u32, number: u32) -> Result<(), AllocError>
        ensures ok { OnOk result (KnowsAlso place number self.old self.new) }
        ensures err { OnErr result ((n k : ℕ) → is_known self.new n k ≡ is_known self.old n k) }
    {
        make_places(self.alloc, &mut self.places, place)?;
        self.places[place as usize].add(number)?;
        Ok(())
    }

    /// Forgets all. It takes no memory.
    pub fn clear(&mut self)
        ensures { self.new ≡ [] }
    {
        self.places.clear();
    }
}
