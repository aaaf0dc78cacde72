//! How a component coordinates.
ghost use Rattle.std.proofs.Common.{rules};

use blz_value::{Attrs, Faithful};

/// How a component coordinates. A key is a set of attributes.
#[derive(Clone, Copy, PartialEq, Eq)]
pub enum Mode {
    /// Takes what arrives as it arrives.
    Free,
    /// Takes what arrives as it arrives, and passes on the seals of this key.
    Pass(Attrs),
    /// Holds the records of a partition of this key until the partition is whole.
    Seal(Attrs),
    /// Takes what arrives in one order for all replicas.
    Order,
}

impl Faithful for Mode {
    ghost equal = { Prim.search rules };
}
