//! The change of each part of an expression in a step: what comes and what goes of it, where it is kept,
//! from the changes of its own parts; and of the bodies of a head's rules together.
#![tactic(auto)]

mod bags;
mod bases;
mod change;
mod grouping;
mod joins;
mod nots;
mod part_rows;
mod picks;

pub use bags::{turn_bag, turn_bodies, with_bag};
pub use bases::base;
pub use change::{Change, Rows, one_row};
pub use grouping::{at_least, group};
pub use joins::{fresh_join, join};
pub use nots::{fresh_not_in, not_in};
pub use part_rows::PartRows;
pub use picks::{project, select};
