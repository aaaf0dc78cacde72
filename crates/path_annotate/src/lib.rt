//! The roots, the gate and the notes of every module and stock body, as its rules are walked. The notes
//! themselves lie in `bloom_forms`.
#![tactic(auto)]

mod annotation;
mod collection_roots;
mod facts;
mod kinds;
mod readings;
mod stock;
mod tracing;
mod uses;

pub use annotation::{annotate, gate_of, roots};
pub use bloom_forms::{
    Note, Notes, combine, combine_law, copies_law, covers, covers_law, feeds_law, good_law,
    roots_law, uses_law,
};
pub use facts::{ProgramFacts, program_facts};
