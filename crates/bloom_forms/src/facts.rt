//! What the rules of a module say of its collections.
use blz_value::{Attrs, Fd, Items};

/// What the rules of a module say of its collections, by their numbers.
#[derive(Drop)]
pub struct Facts {
    /// Who reads a rule's head reads what its body names.
    pub all: Items<Fd>,
    /// The same through scratches alone.
    pub scratches: Items<Fd>,
    /// The inputs.
    pub inputs: Attrs,
    /// The heads that have a momentary rule.
    pub momentary: Attrs,
}
