//! The events of a schedule that was made: by numbers while it is made, and with names at its end.
ghost use Rattle.std.specs.Prelude.{◌≡◌, ◌≤◌, ◌++◌, ◌∷◌, [], length, map, IfOk, OnOk};
ghost use Rattle.std.specs.List.{All};
ghost use Rattle.sched_text.specs.Text.{IsPrintable};
ghost use Rattle.sched_net.specs.Numbered.{event_by_numbers};
ghost use Rattle.sched_net.specs.ScheduleLines.{events_of};
ghost use Rattle.sched_run.specs.Made.{event_limit};
ghost use Rattle.sched_run.specs.Making.{CountFromOne, IsTextOf};
ghost use Rattle.sched_run.specs.Naming.{HasEventNames, CanBeWritten};
ghost use Rattle.sched_run.specs.Code.Pieces.{AreTexts};
ghost use Rattle.sched_run.specs.Code.Written.{AreLines, AddsLine};

use crate::naming::named;
use crate::pieces::Texts;
use crate::writing::push_line;
use sched_net::NumberedEvent;
use sched_text::{Event, Schedule};
use std::alloc::{AllocError, Global};
use std::marker::Model;
use topo_forms::Valid;

/// The events of a schedule that was made, in order and by numbers.
#[derive(Drop)]
pub struct Made {
    events: Vec<NumberedEvent>,
}

impl Model for Made {
    ghost use Rattle.std.specs.Prelude.{List, map};
    ghost use Rattle.inbox.specs.Events.{Event as Numbered};
    ghost use Rattle.sched_net.specs.Numbered.{event_by_numbers};

    ghost Value = { List Numbered };

    ghost view = { λ made. map event_by_numbers made.events.items };
}

// Events with their names, on lines numbered from 1.
fn lines_of(
    alloc: Global,
    valid: &Valid,
    events: &[NumberedEvent],
) -> Result<Vec<(u32, Event)>, AllocError>
    requires few { length events.now ≤ event_limit }
    requires named { All (λ event. HasEventNames valid.now.view (event_by_numbers event)) events.now }
    ensures lines { IfOk result (λ lines. AreLines lines.items) }
    ensures events { IfOk result (λ lines. events_of valid.now.view lines.items ≡ map event_by_numbers events.now) }
{
    let mut lines = Vec::new(alloc);
    for (place, event) in events.iter().enumerate() {
        let number = place as u32 + 1;
        lines.push((number, named(valid, event)?))?;
    }
    Ok(lines)
}

// Adds the line of an event.
fn push_named(
    valid: &Valid,
    event: &NumberedEvent,
    texts: &mut Texts,
    text: &mut Vec<u8>,
) -> Result<(), AllocError>
    requires named { HasEventNames valid.now.view (event_by_numbers event.now) }
    requires texts { AreTexts valid.now.view texts.old }
    ensures line { OnOk result (AddsLine valid.now.view (event_by_numbers event.now) text.old.items text.new.items) }
    ensures texts { AreTexts valid.now.view texts.new }
{
    valid.known();
    valid.whole();
    push_line(valid, event, texts, text)
}

// The text of events, one a line.
fn text_of(alloc: Global, valid: &Valid, events: &[NumberedEvent]) -> Result<Vec<u8>, AllocError>
    requires few { length events.now ≤ event_limit }
    requires named { All (λ event. HasEventNames valid.now.view (event_by_numbers event)) events.now }
    ensures { IfOk result (λ text. IsTextOf valid.now.view (map event_by_numbers events.now) text.items) }
{
    let mut text = Vec::new(alloc);
    let mut texts = Texts::new(alloc)?;
    for event in events {
        push_named(valid, event, &mut texts, &mut text)?;
    }
    Ok(text)
}

impl Made {
    /// No event.
    pub(crate) fn new(alloc: Global) -> Made
        ensures { result ≡ [] }
    {
        Made {
            events: Vec::new(alloc),
        }
    }

    /// How many events there are.
    pub fn len(&self) -> usize
        ensures { result ≡ length self.now }
    {
        self.events.len()
    }

    /// Adds an event. The error is want of memory.
    pub(crate) fn push(&mut self, event: NumberedEvent) -> Result<(), AllocError>
        ensures { OnOk result (self.new ≡ self.old ++ event_by_numbers event ∷ []) }
    {
        self.events.push(event)?;
        Ok(())
    }

    /// The schedule of these events, with the names that they have in their topology, on lines
    /// numbered from 1. The error is want of memory.
    pub fn schedule(&self, alloc: Global, valid: &Valid) -> Result<Schedule, AllocError>
        requires { CanBeWritten valid.now.view self.now }
        ensures events { IfOk result (λ schedule. events_of valid.now.view schedule ≡ self.now) }
        ensures numbers { IfOk result CountFromOne }
        ensures printable { IfOk result IsPrintable }
    {
        let lines = lines_of(alloc, valid, self.events.as_slice())?;
        Ok(Schedule::from_lines(lines))
    }

    /// The text of their schedule, one event a line, with names that the topology lends. The error is
    /// want of memory.
    pub fn text(&self, alloc: Global, valid: &Valid) -> Result<Vec<u8>, AllocError>
        requires { CanBeWritten valid.now.view self.now }
        ensures { IfOk result (λ text. IsTextOf valid.now.view self.now text.items) }
    {
        text_of(alloc, valid, self.events.as_slice())
    }
}
