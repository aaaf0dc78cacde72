//! Printing events and schedules.
ghost use Rattle.std.specs.Prelude.{◌≡◌, ◌<◌, ◌^◌, ◌++◌, OnOk, IfOk, All, codes};
ghost use Rattle.std.specs.Fmt.{decimal};
ghost use Rattle.std.specs.List.{flat_map};
ghost use Rattle.sched_text.specs.Reading.{event_reading, ReadsAs};
ghost use Rattle.sched_text.specs.Text.{sent_text, part_text, event_text, schedule_text, IsPrintable, numbered_again};
ghost use Rattle.sched_text.specs.Small.{IsSmallSent, IsSmallPart, IsSmall};

use crate::event::{Event, Part, Sent};
use crate::schedule::Schedule;
use blz_value::Str;
use itoa::Buffer;
use std::alloc::{AllocError, Global};

fn push_number(number: u32, into: &mut Vec<u8>) -> Result<(), AllocError>
    ensures text { OnOk result (into.new.items ≡ into.old.items ++ decimal number) }
    ensures small { number < 2 ^ 32 }
{
    let mut buffer = Buffer::new();
    into.extend_from_slice(buffer.format(number).as_bytes())
}

fn push_name(name: &Str, into: &mut Vec<u8>) -> Result<(), AllocError>
    ensures { OnOk result (into.new.items ≡ into.old.items ++ name.now) }
{
    into.extend_from_slice(name.as_str().as_bytes())
}

fn push_spot(component: &Str, port: &Str, into: &mut Vec<u8>) -> Result<(), AllocError>
    ensures { OnOk result (into.new.items ≡ into.old.items ++ (component.now ++ codes "." ++ port.now)) }
{
    push_name(component, into)?;
    into.extend_from_slice(b".")?;
    push_name(port, into)
}

fn push_sent(sent: &Sent, into: &mut Vec<u8>) -> Result<(), AllocError>
    ensures text { OnOk result (into.new.items ≡ into.old.items ++ sent_text sent.now) }
    ensures small { OnOk result (IsSmallSent sent.now) }
{
    push_name(&sent.stream, into)?;
    into.extend_from_slice(b" ")?;
    push_number(sent.replica, into)?;
    into.extend_from_slice(b" ")?;
    push_number(sent.index, into)
}

fn push_part(part: &Part, into: &mut Vec<u8>) -> Result<(), AllocError>
    ensures text { OnOk result (into.new.items ≡ into.old.items ++ part_text part.now) }
    ensures small { OnOk result (IsSmallPart part.now) }
{
    into.extend_from_slice(b" ")?;
    push_sent(&part.sent, into)?;
    into.extend_from_slice(b" ")?;
    push_name(&part.port, into)
}

fn push_parts(parts: &[Part], into: &mut Vec<u8>) -> Result<(), AllocError>
    ensures text { OnOk result (into.new.items ≡ into.old.items ++ flat_map part_text parts.now) }
    ensures small { OnOk result (All IsSmallPart parts.now) }
{
    for part in parts {
        push_part(part, into)?;
    }
    Ok(())
}

fn push_event(event: &Event, into: &mut Vec<u8>) -> Result<(), AllocError>
    ensures text { OnOk result (into.new.items ≡ into.old.items ++ event_text event.now) }
    ensures small { OnOk result (IsSmall event.now) }
{
    match event {
        Event::Deliver {
            sent,
            component,
            port,
            replica,
        } => {
            into.extend_from_slice(b"deliver ")?;
            push_sent(sent, into)?;
            into.extend_from_slice(b" to ")?;
            push_spot(component, port, into)?;
            into.extend_from_slice(b" ")?;
            push_number(*replica, into)
        }
        Event::Order {
            sent,
            component,
            port,
        } => {
            into.extend_from_slice(b"order ")?;
            push_sent(sent, into)?;
            into.extend_from_slice(b" to ")?;
            push_spot(component, port, into)
        }
        Event::Take { component, replica } => {
            into.extend_from_slice(b"take ")?;
            push_name(component, into)?;
            into.extend_from_slice(b" ")?;
            push_number(*replica, into)
        }
        Event::Batch {
            component,
            replica,
            parts,
        } => {
            into.extend_from_slice(b"batch ")?;
            push_name(component, into)?;
            into.extend_from_slice(b" ")?;
            push_number(*replica, into)?;
            push_parts(parts.as_slice(), into)
        }
    }
}

/// Adds the line of an event to a text, as `print` writes it. The error is want of memory.
pub fn push_line(event: &Event, into: &mut Vec<u8>) -> Result<(), AllocError>
    ensures text { OnOk result (into.new.items ≡ into.old.items ++ (event_text event.now ++ codes "\n")) }
    ensures small { OnOk result (IsSmall event.now) }
{
    push_event(event, into)?;
    into.extend_from_slice(b"\n")
}

/// The text of a schedule: one event a line, with single spaces. Reading it gives the same events,
/// on lines that are numbered from 1.
pub fn print(alloc: Global, schedule: &Schedule) -> Result<Vec<u8>, AllocError>
    requires { IsPrintable schedule.now }
    ensures text { IfOk result (λ text. text.items ≡ schedule_text schedule.now) }
    ensures read_again { IfOk result (λ text. ReadsAs event_reading text.items (numbered_again schedule.now)) }
{
    let mut text = Vec::new(alloc);
    for (_, event) in schedule.lines() {
        push_line(event, &mut text)?;
    }
    Ok(text)
}
