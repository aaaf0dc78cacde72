//! A schedule, seen as the list of its events with the numbers of their lines.
ghost use Rattle.std.specs.Prelude.{◌≡◌};

use crate::event::Event;
use std::marker::Model;

/// Events in order, each with the number of its line.
#[derive(Drop)]
pub struct Schedule {
    lines: Vec<(u32, Event)>,
}

impl Model for Schedule {
    ghost use Rattle.std.specs.Prelude.{List, ℕ};
    ghost use Rattle.sched_text.specs.declared.event.Event.{Event as ScheduleEvent};

    ghost Value = { List (ℕ × ScheduleEvent) };

    ghost view = { λ schedule. schedule.lines.items };
}

impl Schedule {
    /// The schedule of these pairs of a line's number and its event.
    pub fn from_lines(lines: Vec<(u32, Event)>) -> Schedule
        ensures { result ≡ lines.items }
    {
        Schedule { lines }
    }

    /// The pairs of a line's number and its event, in order.
    pub fn lines(&self) -> &[(u32, Event)]
        ensures { result.now ≡ self.now }
    {
        &self.lines
    }
}
