//! The labels of all streams of a topology.
#![tactic(auto)]

mod cycles;
mod label_list;
mod laws;
mod paths;
mod region_walk;
mod sets;

pub use cycles::{cycle_of, is_replicated, region_inputs, region_members, region_note};
pub use label_list::Labels;
pub use laws::{labels_law, upstream_law};
pub use paths::{is_order, output_paths, port_attrs, usable_fds};
pub use region_walk::{labels, region_label};
pub use sets::members;
