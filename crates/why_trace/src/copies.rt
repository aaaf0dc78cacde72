//! Copies of the lines of a schedule.
ghost use Rattle.std.specs.Prelude.{◌≡◌, IfOk};

use blz_value::{Items, Str};
use sched_text::{Event, Part, Sent};
use std::alloc::{AllocError, Global};

fn copy_of_sent(sent: &Sent) -> Result<Sent, AllocError>
    ensures { IfOk result (λ copy. copy ≡ sent.now) }
{
    Ok(Sent {
        stream: sent.stream.copy()?,
        replica: sent.replica,
        index: sent.index,
    })
}

fn copy_of_part(part: &Part) -> Result<Part, AllocError>
    ensures { IfOk result (λ copy. copy ≡ part.now) }
{
    Ok(Part {
        sent: copy_of_sent(&part.sent)?,
        port: part.port.copy()?,
    })
}

fn copies_of_parts(alloc: Global, parts: &[Part]) -> Result<Items<Part>, AllocError>
    ensures { IfOk result (λ copies. copies ≡ parts.now) }
{
    let mut copies = Vec::new(alloc);
    for part in parts {
        copies.push(copy_of_part(part)?)?;
    }
    Ok(Items::from_vec(copies))
}

// The same delivery.
fn deliver(sent: &Sent, component: &Str, port: &Str, replica: u32) -> Result<Event, AllocError>
    ensures { IfOk result (λ copy. copy ≡ Event.Deliver sent.now component.now port.now replica) }
{
    Ok(Event::Deliver {
        sent: copy_of_sent(sent)?,
        component: component.copy()?,
        port: port.copy()?,
        replica,
    })
}

// The same message to a log.
fn order(sent: &Sent, component: &Str, port: &Str) -> Result<Event, AllocError>
    ensures { IfOk result (λ copy. copy ≡ Event.Order sent.now component.now port.now) }
{
    Ok(Event::Order {
        sent: copy_of_sent(sent)?,
        component: component.copy()?,
        port: port.copy()?,
    })
}

/// A copy of an event.
pub fn copy_of_event(alloc: Global, event: &Event) -> Result<Event, AllocError>
    ensures { IfOk result (λ copy. copy ≡ event.now) }
{
    match event {
        Event::Deliver {
            sent,
            component,
            port,
            replica,
        } => deliver(sent, component, port, *replica),
        Event::Order {
            sent,
            component,
            port,
        } => order(sent, component, port),
        Event::Take { component, replica } => Ok(Event::Take {
            component: component.copy()?,
            replica: *replica,
        }),
        Event::Batch {
            component,
            replica,
            parts,
        } => Ok(Event::Batch {
            component: component.copy()?,
            replica: *replica,
            parts: copies_of_parts(alloc, parts.as_slice())?,
        }),
    }
}

/// Copies of the lines of a schedule, in their order.
pub fn copies_of_lines(
    alloc: Global,
    lines: &[(u32, Event)],
) -> Result<Vec<(u32, Event)>, AllocError>
    ensures { IfOk result (λ copies. copies.items ≡ lines.now) }
{
    let mut copies = Vec::new(alloc);
    for (number, event) in lines {
        copies.push((*number, copy_of_event(alloc, event)?))?;
    }
    Ok(copies)
}
