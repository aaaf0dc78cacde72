//! The closure of a set of attributes under dependencies.
ghost use Rattle.std.specs.Prelude.{◌≡◌};
ghost use Rattle.blz_value.specs.Closure as spec;
ghost use Rattle.blz_value.specs.Closure.{IsLeastClosed};

use crate::attrs::{Attrs, Fd};

/// The set after one pass over the dependencies.
#[tactic(auto, unfolding(crate::specs::Closure::step))]
fn grown(fds: &[Fd], start: Attrs) -> Attrs
    ensures { result.bits ≡ spec.grown fds.now start.bits }
{
    let mut reached = start;
    for fd in fds {
        if fd.from.is_within(reached) {
            reached = reached.union(fd.to);
        }
    }
    reached
}

/// The least set that holds `start` and, with all of a dependency's `from`, all of its `to`.
pub fn closure(start: Attrs, fds: &[Fd]) -> Attrs
    ensures least { IsLeastClosed start.bits fds.now result.bits }
    ensures computed { result.bits ≡ spec.closure start.bits fds.now }
{
    let mut reached = start;
    loop {
        let more = grown(fds, reached);
        if more == reached {
            return reached;
        }
        reached = more;
    }
}
