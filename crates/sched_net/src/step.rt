//! What may happen in an execution in which instances forget.

use blz_value::Str;
use sched_text::Event;

/// A step of a restarted execution, with names as they are written.
#[derive(Drop)]
pub enum Step {
    /// An event.
    Event(Event),
    /// An instance loses all that it keeps.
    Forget {
        /// The component's name.
        component: Str,
        /// Its replica, counted from 0.
        replica: u32,
    },
}
