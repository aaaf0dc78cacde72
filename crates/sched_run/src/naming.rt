//! Events by numbers, written with names.
ghost use Rattle.std.specs.Prelude.{◌≡◌, ◌<◌, true, IfOk, length};
ghost use Rattle.sched_text.specs.Text.{is_printable};
ghost use Rattle.topo_forms.specs.View.{stream_at};
ghost use Rattle.inbox.specs.Events.{deliver, order, take_one};
ghost use Rattle.sched_net.specs.Numbered.{numbered, event_by_numbers};
ghost use Rattle.sched_run.specs.Naming.{HasPartNames, HasEventNames};

use sched_net::{NumberedEvent, NumberedPart};
use sched_text::{Event, Sent};
use std::alloc::AllocError;
use topo_forms::Valid;

// A message by the name of its stream.
fn sent_of(valid: &Valid, part: &NumberedPart) -> Result<Sent, AllocError>
    requires { part.now.sent.stream < length valid.now.view.streams }
    ensures { IfOk result (λ sent. sent ≡ record { stream = (stream_at valid.now.view part.now.sent.stream).name; replica = part.now.sent.replica; index = part.now.sent.index }) }
{
    Ok(Sent {
        stream: valid.stream_name(part.stream).copy()?,
        replica: part.replica,
        index: part.index,
    })
}

// The event by which an instance hears a message.
fn deliver_of(
    valid: &Valid,
    part: &NumberedPart,
    component: u32,
    replica: u32,
) -> Result<Event, AllocError>
    requires { HasPartNames valid.now.view component part.now }
    ensures event { IfOk result (λ event. numbered valid.now.view event ≡ deliver part.now component replica) }
    ensures printable { IfOk result (λ event. is_printable event ≡ true) }
{
    valid.known();
    valid.whole();
    Ok(Event::Deliver {
        sent: sent_of(valid, part)?,
        component: valid.component_name(component).copy()?,
        port: valid.port_name(component, part.port).copy()?,
        replica,
    })
}

// The event by which a message comes to the log of a component.
fn order_of(valid: &Valid, part: &NumberedPart, component: u32) -> Result<Event, AllocError>
    requires { HasPartNames valid.now.view component part.now }
    ensures event { IfOk result (λ event. numbered valid.now.view event ≡ order part.now component) }
    ensures printable { IfOk result (λ event. is_printable event ≡ true) }
{
    valid.known();
    valid.whole();
    Ok(Event::Order {
        sent: sent_of(valid, part)?,
        component: valid.component_name(component).copy()?,
        port: valid.port_name(component, part.port).copy()?,
    })
}

// The event by which a replica of a component takes.
fn take_of(valid: &Valid, component: u32, replica: u32) -> Result<Event, AllocError>
    requires { component < length valid.now.view.components }
    ensures event { IfOk result (λ event. numbered valid.now.view event ≡ take_one component replica) }
    ensures printable { IfOk result (λ event. is_printable event ≡ true) }
{
    valid.known();
    valid.whole();
    Ok(Event::Take {
        component: valid.component_name(component).copy()?,
        replica,
    })
}

/// The event with names that goes by these numbers. The error is want of memory.
pub(crate) fn named(valid: &Valid, event: &NumberedEvent) -> Result<Event, AllocError>
    requires { HasEventNames valid.now.view (event_by_numbers event.now) }
    ensures event { IfOk result (λ named. numbered valid.now.view named ≡ event_by_numbers event.now) }
    ensures printable { IfOk result (λ named. is_printable named ≡ true) }
{
    match event {
        NumberedEvent::Deliver {
            part,
            component,
            replica,
        } => deliver_of(valid, part, *component, *replica),
        NumberedEvent::Order { part, component } => order_of(valid, part, *component),
        NumberedEvent::Take { component, replica } => take_of(valid, *component, *replica),
    }
}
