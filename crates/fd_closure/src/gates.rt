//! Keys and the gates that they go through.
ghost use Rattle.std.specs.Prelude.{◌≡◌, ◌↔◌, IsTrue};
ghost use Rattle.blz_value.specs.Closure.{IsCompatible};
ghost use Rattle.blz_value.specs.Closure as spec;

use blz_value::{Attrs, Fd, closure};

/// Whether the key isn't empty and lies in the closure of the gate.
#[tactic(auto, unfolding(blz_value::specs::Closure::compatible))]
pub fn compatible(gate: Attrs, key: Attrs, fds: &[Fd]) -> bool
    ensures exact { IsTrue result ↔ IsCompatible gate.bits key.bits fds.now }
    ensures computed { result ≡ spec.compatible gate.bits key.bits fds.now }
{
    !key.is_empty() && key.is_within(closure(gate, fds))
}
