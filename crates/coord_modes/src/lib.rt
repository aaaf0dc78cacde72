//! Which mode the plan gives a component outside cycles, and what it looks at for that: Pass or Seal with the
//! first key under which all its output streams are Seal or Async, and else Order, where its replicas would
//! differ; whether its output streams are so with the mode that it has or with one that is tried, its O notes,
//! and the keys that its ports carry.
#![tactic(auto)]

mod component;
mod goodness;
mod notes;
mod ports;
mod steps;
mod tried;

pub use component::chosen_mode;
pub use goodness::{is_bad, is_good};
pub use notes::has_order_note;
pub use ports::port_key;
pub use steps::Steps;
pub use tried::is_good_with;
