//! The events of a schedule that a record needs: what is left after passes over its lines, each of which
//! goes where the others still yield the record.
#![tactic(auto)]

mod aside;
mod copies;
mod tracing;
mod trial;

pub use copies::copy_of_event;
pub use tracing::trace;
