//! Sets of numbers, one bit for each number up to the greatest.
ghost use Rattle.std.specs.Prelude.{◌≡◌, ◌≤◌, ◌<◌, ◌/◌, ◌%◌, ℕ, [], not, length, slice_index, IfOk, OnOk, OnErr};
ghost use Rattle.blz_value.specs.Bits.{bit_of};
ghost use Rattle.messages.specs.Numbers.{has_number, HasAlso, IsCountOf, word_limit, number_limit};

use std::alloc::{AllocError, Global};
use std::marker::Model;

/// A set of numbers: number n is in it where bit n % 64 of word n / 64 is 1. Seen as the words.
#[derive(Drop)]
pub struct NumberSet {
    words: Vec<u64>,
    count: u64,
}

impl Model for NumberSet {
    ghost use Rattle.std.specs.Prelude.{List, ℕ};
    ghost use Rattle.messages.specs.Numbers.{AreCounted};

    ghost Value = { List ℕ };

    ghost view = { λ numbers. numbers.words.items };

    ghost invariant = { λ numbers. AreCounted numbers.words.items numbers.count };
}

// The bit of a number in its word.
fn bit_of(number: u32) -> u64
    ensures { result ≡ bit_of (number % 64) }
{
    1 << (number % 64)
}

// The word of a number, 0 past the end.
fn word_of(words: &[u64], number: u32) -> u64
    ensures { result ≡ slice_index words.now (number / 64) }
{
    match words.get(number as usize / 64) {
        Some(word) => *word,
        None => 0,
    }
}

// Whether the bit of a number is set.
fn has_number(words: &[u64], number: u32) -> bool
    ensures { result ≡ has_number words.now number }
{
    bit_of(number) & word_of(words, number) != 0
}

// Sets the bit of a number that has a word.
fn set_number(words: &mut Vec<u64>, number: u32)
    requires { number / 64 < length words.old.items }
    ensures also { HasAlso number words.old.items words.new.items }
    ensures count { length words.new.items ≡ length words.old.items }
{
    words[number as usize / 64] |= bit_of(number);
}

// Adds words of zeros up to that of a number. The error is want of memory.
fn make_room(words: &mut Vec<u64>, number: u32) -> Result<(), AllocError>
    ensures room { OnOk result (number / 64 < length words.new.items) }
    ensures same { (k : ℕ) → has_number words.new.items k ≡ has_number words.old.items k }
    ensures few { length words.old.items ≤ word_limit → length words.new.items ≤ word_limit }
{
    let count = number as usize / 64 + 1;
    if count <= words.len() {
        return Ok(());
    }
    words.resize(count, 0)?;
    Ok(())
}

impl NumberSet {
    /// The set without numbers. It takes no memory.
    pub fn new(alloc: Global) -> NumberSet
        ensures { result ≡ [] }
    {
        NumberSet {
            words: Vec::new(alloc),
            count: 0,
        }
    }

    /// Takes all numbers out. It takes no memory.
    pub fn clear(&mut self)
        ensures { self.new ≡ [] }
    {
        self.words.clear();
        self.count = 0;
    }

    /// Whether a number is in the set.
    pub fn contains(&self, number: u32) -> bool
        ensures { result ≡ has_number self.now number }
    {
        has_number(self.words.as_slice(), number)
    }

    /// How many numbers are in the set. The number is kept.
    pub fn count(&self) -> u64
        ensures count { IsCountOf (has_number self.now) result }
        ensures few { result ≤ number_limit }
    {
        self.count
    }

    /// Puts a number into the set, and answers whether it is new. The set takes one bit for each
    /// number up to its greatest. The error is want of memory and leaves the numbers as they were.
    pub fn add(&mut self, number: u32) -> Result<bool, AllocError>
        ensures also { OnOk result (HasAlso number self.old self.new) }
        ensures new { IfOk result (λ new. new ≡ not (has_number self.old number)) }
        ensures err { OnErr result ((k : ℕ) → has_number self.new k ≡ has_number self.old k) }
    {
        if has_number(self.words.as_slice(), number) {
            return Ok(false);
        }
        make_room(&mut self.words, number)?;
        set_number(&mut self.words, number);
        self.count += 1;
        Ok(true)
    }
}
