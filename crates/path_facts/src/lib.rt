//! What is found of rules over plain numbers, before any expression is walked: lists of roots through
//! each operator, and what each rule reads, told what it says by itself.
#![tactic(auto)]

mod kinds;
mod readings;
mod roots;

pub use kinds::{gate_if, has_kind, kind_set, set_if};
pub use readings::{Graph, Reading, Readings, RuleFacts, readings_from};
pub use roots::{agreed_root, joined_roots, pairs_set, roots_at, set_of_roots};
