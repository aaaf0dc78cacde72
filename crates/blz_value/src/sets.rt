//! Sets of numbers below 64, one bit for each.
ghost use Rattle.std.specs.Prelude.{◌≡◌, ◌<◌, map, slice_index_or};
ghost use Rattle.blz_value.specs.Arrows as reads;
ghost use Rattle.blz_value.specs.Bits as bits;
ghost use Rattle.blz_value.specs.Closure as closures;
ghost use Rattle.blz_value.specs.Graph as graph;

use crate::attrs::{Attrs, Fd};
use crate::closing::closure;

/// The set of one number, which is empty for a number from 64 on.
pub fn bit_of(number: usize) -> u64
    ensures { result ≡ bits.bit_of number }
{
    Attrs::of(number).bits
}

/// The set of one number where the test holds, else the empty one.
pub fn bit_if(here: bool, number: usize) -> u64
    ensures { result ≡ reads.bit_if here number }
{
    if here { bit_of(number) } else { 0 }
}

/// Whether each number of a set is one of the other.
pub fn is_within(set: u64, other: u64) -> bool
    ensures { result ≡ closures.within set other }
{
    Attrs::from_bits(set).is_within(Attrs::from_bits(other))
}

/// The numbers of all of these sets.
pub fn union_of(sets: &[u64]) -> u64
    ensures { result ≡ reads.with_all 0 sets.now }
{
    let mut all = 0;
    for set in sets {
        all |= *set;
    }
    all
}

/// The set with a number, and the empty one past the end.
pub fn set_at(sets: &[u64], number: usize) -> u64
    ensures { result ≡ slice_index_or sets.now number 0 }
{
    match sets.get(number) {
        Some(set) => *set,
        None => 0,
    }
}

/// What a set leads to.
pub fn closed(start: u64, arrows: &[Fd]) -> u64
    ensures { result ≡ closures.closure start arrows.now }
{
    closure(Attrs::from_bits(start), arrows).bits
}

/// An arrow from a set to a set.
pub fn arrow(from: u64, to: u64) -> Fd
    ensures { result ≡ reads.arrow_from from to }
{
    Fd {
        from: Attrs::from_bits(from),
        to: Attrs::from_bits(to),
    }
}

/// Whether the number is in the set.
pub fn is_in(number: usize, set: u64) -> bool
    ensures { result ≡ graph.is_in number set }
{
    Attrs::of(number).meets(Attrs::from_bits(set))
}
