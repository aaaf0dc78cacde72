//! Where two executions of one topology differ.
#![tactic(auto)]

mod difference;
mod snapshot;

pub use difference::{Difference, Which, compare};
pub use snapshot::{Snapshot, take};
