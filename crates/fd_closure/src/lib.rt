//! The front of sets of attributes, of what dependencies add to them, and of the names of attributes. The sets,
//! the dependencies and closures lie in `blz_value`.
#![tactic(auto)]

mod gates;
mod names;

pub use blz_value::{Attrs, Fd, closure, closure_law};
pub use gates::compatible;
pub use names::{AttrNames, NamesFault};
