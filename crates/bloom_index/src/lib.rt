//! The shell of modules with indexes: it keeps what tables give, and a step costs what changes.
#![tactic(auto)]

mod arrived;
mod body;
mod by_rows;
mod copies;
mod empty;
mod evaluate;
mod grows;
mod heads;
mod places;
mod plan;
mod puts;
mod shell;
mod sides;
mod step;
mod step_ids;

pub use shell::IndexShell;
