//! The front of the module language, and the check of a module: its first fault, or the module with its heads
//! in order. The types and what they mean lie in `bloom_forms`.
#![tactic(auto)]

mod bounds;
mod checking;
mod faults;
mod fits;
mod kinds;
mod laws;
mod reads;

pub use bloom_forms::{
    CheckFault, Checked, Collection, Expr, Facts, Kind, MOST_BYTES, MOST_COMPARISONS, MOST_LEVELS,
    Module, ModuleFault, ModuleKind, ModulePlace, NamedAgg, NumberedExpr, NumberedRule, Pred,
    Program, Rule, Term, borrowed, collection_named, collection_number, declared, joined,
    order_law, reads_law, seconds, standing_law, step_law, tables_law,
};
pub use checking::check;
pub use fits::repeats_column;
pub use laws::fault_law;
