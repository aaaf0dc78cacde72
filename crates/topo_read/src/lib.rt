//! Reads the topology that a TOML file gives, and writes a topology as one.
#![tactic(auto)]

mod component;
mod entries;
mod fault;
mod fields;
mod fill;
mod laws;
mod reading;
mod tables;
mod values;
mod words;
mod writing;

pub use fault::TopoTextFault;
pub use laws::read_back_law;
pub use reading::read;
pub use writing::{topology_of, write};
