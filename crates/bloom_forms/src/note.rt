//! The note of a path from a port to an output.
ghost use Rattle.std.specs.Prelude.{◌≡◌};
ghost use Rattle.std.proofs.Common.{rules};
ghost use Rattle.bloom_forms.specs.Note as spec;

use blz_value::{Attrs, Faithful};

/// What a component does on the way from a port to an output. C is confluent: the order of
/// arrival makes no difference. O depends on the order, but only among records that agree in all
/// attributes of its gate. R leaves the state of the component alone, W changes it.
#[derive(Clone, Copy, PartialEq, Eq)]
pub enum Note {
    /// Confluent, leaves state alone.
    CR,
    /// Confluent, changes state.
    CW,
    /// Depends on the order by its gate, leaves state alone.
    OR(Attrs),
    /// Depends on the order by its gate, changes state.
    OW(Attrs),
}

impl Faithful for Note {
    ghost equal = { Prim.search rules };
}

/// The note of two uses of one port together.
pub fn combine(a: Note, b: Note) -> Note
    ensures { result ≡ spec.combine a b }
{
    match (a, b) {
        (Note::CR, other) => other,
        (other, Note::CR) => other,
        (Note::CW, Note::CW) => Note::CW,
        (Note::CW, Note::OR(gate) | Note::OW(gate)) => Note::OW(gate),
        (Note::OR(gate) | Note::OW(gate), Note::CW) => Note::OW(gate),
        (Note::OR(gate), Note::OR(other)) => Note::OR(gate.intersection(other)),
        (Note::OR(gate) | Note::OW(gate), Note::OR(other) | Note::OW(other)) => {
            Note::OW(gate.intersection(other))
        }
    }
}

/// Whether a declared note allows for all that a derived one says.
pub fn covers(declared: Note, derived: Note) -> bool
    ensures { result ≡ spec.covers declared derived }
{
    match (declared, derived) {
        (_, Note::CR) => true,
        (Note::CW | Note::OW(_), Note::CW) => true,
        (Note::OR(gate) | Note::OW(gate), Note::OR(other)) => gate.is_within(other),
        (Note::OW(gate), Note::OW(other)) => gate.is_within(other),
        _ => false,
    }
}
