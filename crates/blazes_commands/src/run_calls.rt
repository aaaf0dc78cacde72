//! The commands that run a schedule over a topology and its data, and what commands with a bench
//! share: a net that is opened with its shells, and the status and the text of what happened in it.

mod opening;
mod reporting;
mod restarting;
mod running;
mod steps;

pub use opening::opened;
pub use reporting::{event_refusal, status_of};
pub use restarting::restart;
pub use running::run;
