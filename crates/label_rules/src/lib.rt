//! The rules of labels: what a path makes of a label, and what an output makes of its paths.
#![tactic(auto)]

mod label;
mod laws;
mod path;
mod reconciliation;

pub use label::{Base, Label, PathLabel, severity};
pub use laws::{diverge_law, first_worst_law, monotone_law, no_better_law, severity_law};
pub use path::{gate_read, label_read, pass_path};
pub use reconciliation::{is_protected, reconcile};
