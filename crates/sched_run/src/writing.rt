//! Lines of events by numbers, with names that the topology lends.
ghost use Rattle.std.specs.Prelude.{◌≡◌, ◌<◌, ◌++◌, OnOk, codes, length};
ghost use Rattle.sched_text.specs.Small.{IsSmallSent, IsSmall};
ghost use Rattle.sched_text.specs.Text.{sent_text, event_text};
ghost use Rattle.sched_net.specs.Numbered.{event_by_numbers};
ghost use Rattle.sched_run.specs.Naming.{HasEventNames, HasPartNames};
ghost use Rattle.sched_run.specs.Code.Pieces.{AreTexts};
ghost use Rattle.sched_run.specs.Code.Written.{event_named, sent_named};

use crate::pieces::{Piece, Texts, push_name, push_number, push_spot};
use sched_net::{NumberedEvent, NumberedPart};
use std::alloc::AllocError;
use topo_forms::Valid;

// Adds a message: its stream, its sender's replica and its index.
fn push_sent(valid: &Valid, part: &NumberedPart, into: &mut Vec<u8>) -> Result<(), AllocError>
    requires { part.now.sent.stream < length valid.now.view.streams }
    ensures text { OnOk result (into.new.items ≡ into.old.items ++ sent_text (sent_named valid.now.view part.now.sent)) }
    ensures small { OnOk result (IsSmallSent (sent_named valid.now.view part.now.sent)) }
{
    push_name(valid.stream_name(part.stream), into)?;
    into.push(b' ')?;
    push_number(part.replica, into)?;
    into.push(b' ')?;
    push_number(part.index, into)
}

/// Adds the line of an event. The error is want of memory.
pub(crate) fn push_line(
    valid: &Valid,
    event: &NumberedEvent,
    texts: &mut Texts,
    into: &mut Vec<u8>,
) -> Result<(), AllocError>
    requires named { HasEventNames valid.now.view (event_by_numbers event.now) }
    requires texts { AreTexts valid.now.view texts.old }
    ensures text { OnOk result (into.new.items ≡ into.old.items ++ (event_text (event_named valid.now.view (event_by_numbers event.now)) ++ codes "\n")) }
    ensures small { OnOk result (IsSmall (event_named valid.now.view (event_by_numbers event.now))) }
    ensures texts { AreTexts valid.now.view texts.new }
{
    match event {
        NumberedEvent::Deliver {
            part,
            component,
            replica,
        } => {
            let sender = Piece::Sender {
                stream: part.stream,
                replica: part.replica,
            };
            let receiver = Piece::Receiver {
                component: *component,
                port: part.port,
                replica: *replica,
            };
            texts.push(valid, sender, into)?;
            push_number(part.index, into)?;
            texts.push(valid, receiver, into)?;
        }
        NumberedEvent::Order { part, component } => {
            into.extend_from_slice(b"order ")?;
            push_sent(valid, part, into)?;
            into.extend_from_slice(b" to ")?;
            push_spot(valid, *component, part.port, into)?;
            into.push(b'\n')?;
        }
        NumberedEvent::Take { component, replica } => {
            into.extend_from_slice(b"take ")?;
            push_name(valid.component_name(*component), into)?;
            into.push(b' ')?;
            push_number(*replica, into)?;
            into.push(b'\n')?;
        }
    }
    Ok(())
}
