//! Sets of records, with the operators of the module language.
#![tactic(auto)]

mod entry;
mod fault;
mod group;
mod index;
mod join;
mod merge;
mod place;
mod set;
mod value_ref;

pub use fault::SetFault;
pub use set::RecordSet;
