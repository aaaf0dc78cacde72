//! The parts of a turn by which a schedule is made: draws, windows of open places, and their sizes.
#![tactic(auto)]

mod draws;
mod levels;
mod sizes;
mod windows;

pub use draws::Draws;
pub use sizes::Sizes;
pub use windows::{OpenPlaces, Stale, Window};
