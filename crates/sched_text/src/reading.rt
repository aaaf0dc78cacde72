//! Reading events, lines and schedules.
ghost use Rattle.std.specs.Prelude.{◌≡◌, true, IfOk, IfSome};
ghost use Rattle.sched_text.specs.Kinds as spec;
ghost use Rattle.sched_text.specs.Reading.{event_reading, GivesEntries, GivesEvent};
ghost use Rattle.sched_text.specs.Text.{is_printable, IsPrintable};
ghost use Rattle.sched_text.specs.Given.{TakesFront, GivesAll};

use crate::event::{Event, Part, Sent};
use crate::fault::{LineFault, ScheduleFault};
use crate::fields::{Fields, is_word};
use crate::lines::{FromLine, read_lines};
use crate::schedule::Schedule;
use blz_value::Items;
use std::alloc::Global;

const MAX_PARTS: usize = 64;

fn sent(alloc: Global, fields: &mut Fields<'_>) -> Result<Sent, LineFault>
    ensures { TakesFront (λ sent. sent) result fields.new (spec.sent_at fields.old) }
{
    let stream = fields.name(alloc)?;
    let replica = fields.number()?;
    let index = fields.number()?;
    Ok(Sent {
        stream,
        replica,
        index,
    })
}

fn part(alloc: Global, fields: &mut Fields<'_>) -> Result<Part, LineFault>
    ensures { TakesFront (λ part. part) result fields.new (spec.part_at fields.old) }
{
    let sent = sent(alloc, fields)?;
    let port = fields.name(alloc)?;
    Ok(Part { sent, port })
}

fn parts(alloc: Global, fields: &mut Fields<'_>) -> Result<Items<Part>, LineFault>
    ensures { GivesAll result (spec.groups_of fields.old) }
{
    let mut parts = Vec::new(alloc);
    while parts.len() < MAX_PARTS {
        parts.push(part(alloc, fields)?)?;
        if fields.is_empty() {
            return Ok(Items::from_vec(parts));
        }
    }
    Err(LineFault::Bad)
}

fn deliver(alloc: Global, fields: &mut Fields<'_>) -> Result<Event, LineFault>
    ensures { GivesAll result (spec.deliver_of fields.old) }
{
    let sent = sent(alloc, fields)?;
    fields.word(b"to")?;
    let (component, port) = fields.spot(alloc)?;
    let replica = fields.number()?;
    if !fields.is_empty() {
        return Err(LineFault::Bad);
    }
    Ok(Event::Deliver {
        sent,
        component,
        port,
        replica,
    })
}

fn order(alloc: Global, fields: &mut Fields<'_>) -> Result<Event, LineFault>
    ensures { GivesAll result (spec.order_of fields.old) }
{
    let sent = sent(alloc, fields)?;
    fields.word(b"to")?;
    let (component, port) = fields.spot(alloc)?;
    if !fields.is_empty() {
        return Err(LineFault::Bad);
    }
    Ok(Event::Order {
        sent,
        component,
        port,
    })
}

fn take(alloc: Global, fields: &mut Fields<'_>) -> Result<Event, LineFault>
    ensures { GivesAll result (spec.take_of fields.old) }
{
    let component = fields.name(alloc)?;
    let replica = fields.number()?;
    if !fields.is_empty() {
        return Err(LineFault::Bad);
    }
    Ok(Event::Take { component, replica })
}

fn batch(alloc: Global, fields: &mut Fields<'_>) -> Result<Event, LineFault>
    ensures { GivesAll result (spec.batch_of fields.old) }
{
    let component = fields.name(alloc)?;
    let replica = fields.number()?;
    let parts = parts(alloc, fields)?;
    Ok(Event::Batch {
        component,
        replica,
        parts,
    })
}

/// The event of a line with these fields: the first, and those behind it.
pub fn event_of(alloc: Global, first: &[u8], fields: &mut Fields<'_>) -> Result<Event, LineFault>
    ensures { GivesAll result (spec.event_of first.now fields.old) }
{
    if is_word(first, b"deliver") {
        deliver(alloc, fields)
    } else if is_word(first, b"order") {
        order(alloc, fields)
    } else if is_word(first, b"take") {
        take(alloc, fields)
    } else if is_word(first, b"batch") {
        batch(alloc, fields)
    } else {
        Err(LineFault::Bad)
    }
}

impl FromLine for Event {
    ghost reading = { event_reading };

    fn from_line(alloc: Global, line: &[u8]) -> Result<Option<Event>, LineFault> {
        let mut fields = Fields::of_line(line);
        match fields.next_field() {
            None | Some([b'#', ..]) => Ok(None),
            Some(first) => Ok(Some(event_of(alloc, first, &mut fields)?)),
        }
    }
}

/// The event of a line that has no LF, None exactly where it is passed over. One CR at its end is
/// ignored. The line of the fault is 1. The event can be printed.
pub fn read_line(alloc: Global, line: &[u8]) -> Result<Option<Event>, ScheduleFault>
    ensures read { GivesEvent (event_reading line.now) result }
    ensures printable { IfOk result (λ event. IfSome event (λ event. is_printable event ≡ true)) }
{
    match Event::from_line(alloc, line) {
        Ok(event) => Ok(event),
        Err(fault) => Err(fault.at(1)),
    }
}

/// The events of a text, each with the number of its line, counted from 1. The fault names the first
/// line that is neither an event nor passed over, as each line past the 1,000,000th. The schedule can
/// be printed. One pass, without a copy of the text.
pub fn read(alloc: Global, text: &[u8]) -> Result<Schedule, ScheduleFault>
    ensures read { GivesEntries (λ schedule. schedule) event_reading text.now result }
    ensures printable { IfOk result IsPrintable }
{
    Ok(Schedule::from_lines(read_lines(alloc, text)?))
}
