//! What is found of a view once: the streams into its ports, regions, dependencies and carried
//! seals.
ghost use Rattle.std.proofs.Common.{rules};

use blz_value::{Attrs, Faithful, Items};

/// What is found of a view.
#[derive(Clone, Drop)]
pub struct GraphFacts {
    /// The streams into each port of each component.
    pub into: Items<Items<u64>>,
    /// The members of each region.
    pub regions: Items<u64>,
    /// Whether each region is cyclic.
    pub cyclic: Items<bool>,
    /// The number of the region of each component.
    pub numbers: Items<u32>,
    /// The streams that uphold each dependency.
    pub upheld: Items<u64>,
    /// The components at which each dependency is usable.
    pub usable: Items<u64>,
    /// The key that each stream carries.
    pub carried: Items<Option<Attrs>>,
}

impl Faithful for GraphFacts {
    ghost equal = { Prim.search rules };
}
