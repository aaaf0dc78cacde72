//! The commands that say where two executions differ, and which events a record needs.

mod explaining;
mod finding;
mod second;
mod seeing;
mod why_lines;
mod witness_lines;
mod witnessing;

pub use explaining::why;
pub use witnessing::witness;
