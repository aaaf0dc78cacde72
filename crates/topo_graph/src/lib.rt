//! What is found of a view once: the streams into its ports, regions, the dependencies that streams uphold, and
//! carried seals; and the topology with another mode of a component.
#![tactic(auto)]

mod changing;
mod dependencies;
mod feeders;
mod finding;
mod laws;
mod lines;
mod lookups;
mod modes;
mod paths;
mod ports;

pub use changing::{WithMode, replace_mode};
pub use finding::{FoundRegions, found_with, regions_of};
pub use laws::{other_modes_law, with_mode_law};
pub use lookups::{is_order, mode_of, origin_of};
