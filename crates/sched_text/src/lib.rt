//! Events, schedules of events, and their text.
#![tactic(auto)]

mod event;
mod fault;
mod fields;
mod lines;
mod printing;
mod reading;
mod schedule;

pub use event::{Event, Part, Sent};
pub use fault::{LineFault, ScheduleFault};
pub use fields::Fields;
pub use lines::{FromLine, read_lines};
pub use printing::{print, push_line};
pub use reading::{event_of, read, read_line};
pub use schedule::Schedule;
