//! Sets of numbers below 64.
ghost use Rattle.std.specs.Prelude.{◌≡◌, IfOk};
ghost use Rattle.blz_value.specs.Bits as bits;
ghost use Rattle.blz_value.specs.Graph as graph;

use blz_value::Attrs;
use std::alloc::{AllocError, Global};

/// Whether a number is in a set.
pub(crate) fn is_in(number: u32, set: Attrs) -> bool
    ensures { result ≡ graph.is_in number set.bits }
{
    Attrs::of(number as usize).meets(set)
}

/// The members of a set, in order.
#[tactic(auto, using(crate::proofs::Loops::below_steps))]
pub fn members(alloc: Global, set: Attrs) -> Result<Vec<u32>, AllocError>
    ensures { IfOk result (λ members. members.items ≡ bits.members set.bits) }
{
    let mut members = Vec::new(alloc);
    for number in 0..64 {
        if is_in(number, set) {
            members.push(number)?;
        }
    }
    Ok(members)
}
