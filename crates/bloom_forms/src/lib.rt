//! What modules are and mean: their trees, what an expression and a step stand for, programs, roots, notes and
//! the laws of rows under them, and how a component coordinates.
#![tactic(auto)]

mod checked;
mod columns;
mod copying;
mod expr;
mod facts;
mod fault;
mod laws;
mod limits;
mod lookup;
mod mode;
mod module;
mod note;
mod note_laws;
mod notes;
mod numbered;
mod numbering;
mod program;
mod row_laws;

pub use checked::Checked;
pub use columns::{borrowed, joined, seconds};
pub use expr::{Expr, NamedAgg, Pred, Term};
pub use facts::Facts;
pub use fault::{CheckFault, ModuleFault, ModuleKind, ModulePlace};
pub use laws::{order_law, reads_law, standing_law, step_law, tables_law};
pub use limits::{MOST_BYTES, MOST_COMPARISONS, MOST_LEVELS};
pub use lookup::{collection_named, collection_number, declared};
pub use mode::Mode;
pub use module::{Collection, Kind, Module, Rule};
pub use note::{Note, combine, covers};
pub use note_laws::{
    combine_law, copies_law, covers_law, feeds_law, good_law, roots_law, uses_law,
};
pub use notes::Notes;
pub use numbered::{NumberedExpr, NumberedRule};
pub use program::Program;
pub use row_laws::{confluent_law, keys_law, ports_law, rows_law, shard_law, split_law};
