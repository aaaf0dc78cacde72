//! What is said of a net after its events or steps: their refusal, or its status and its contents.
ghost use Rattle.std.specs.Prelude.{◌≡◌, IfOk, OnOk, Some};
ghost use Rattle.report_lines.specs.declared.refusal.Refusal.TheVariants as refusal;
ghost use Rattle.sched_net.specs.Net.{BooksRun};
ghost use Rattle.command_checks.specs.Ran.{answer_of};
ghost use Rattle.blazes_commands.specs.Runs.Checks as check;
ghost use Rattle.blazes_commands.specs.Runs.Code.Ran.{IsOutcomeOf, ReportsBooks};
ghost use Rattle.blazes_commands.specs.Runs.Contents.{TellsStatus};

use command_checks::{Reply, Status, Stop, stop_at};
use messages::EventFault;
use report_lines::{EventKind, Refusal};
use report_print::run_text;
use sched_net::{Net, StepRefusal};
use std::alloc::{AllocError, Global};
use topo_forms::Valid;

fn event(line: u32, kind: EventKind) -> Option<Refusal>
    ensures { result ≡ Some (refusal.Event line kind) }
{
    Some(Refusal::Event { line, kind })
}

/// The refusal of the event or the step in a line; want of memory is none.
pub fn event_refusal(line: u32, fault: &EventFault) -> Option<Refusal>
    ensures { result ≡ check.event_refusal line fault.now }
{
    match fault {
        EventFault::NoInstance => event(line, EventKind::NoInstance),
        EventFault::NoMessage => event(line, EventKind::NoMessage),
        EventFault::NothingToTake => event(line, EventKind::NothingToTake),
        EventFault::TooManyRows => event(line, EventKind::TooManyRows),
        EventFault::TooManyMessages => event(line, EventKind::TooManyMessages),
        EventFault::NoMemory => None,
    }
}

/// The status under which a net is written: Done where its execution is complete, and else Incomplete.
pub fn status_of(net: &Net<'_>) -> Status
    requires { BooksRun net.now.valid.now.view net.now.books }
    ensures { TellsStatus net.now.valid.now.view net.now.books result }
{
    if net.is_complete() {
        Status::Done
    } else {
        Status::Incomplete
    }
}

// What the instances of a net have emitted, and whether anything is left.
fn report(alloc: Global, valid: &Valid, net: &Net<'_>) -> Result<Reply, AllocError>
    requires same { net.now.valid.now.view ≡ valid.now.view }
    requires runs { BooksRun valid.now.view net.now.books }
    ensures { IfOk result (λ reply. ReportsBooks valid.now.view net.now.books (answer_of reply)) }
{
    // There for the proof alone.
    valid.known();
    Ok(Reply {
        status: status_of(net),
        text: run_text(alloc, valid, net)?,
    })
}

/// The outcome of a net to which all events were applied, or not.
pub(crate) fn outcome_of(
    alloc: Global,
    valid: &Valid,
    net: &Net<'_>,
    applied: Result<(), StepRefusal>,
) -> Result<Reply, Stop>
    requires same { net.now.valid.now.view ≡ valid.now.view }
    requires runs { OnOk applied (BooksRun valid.now.view net.now.books) }
    ensures { IsOutcomeOf valid.now.view net.now.books applied result }
{
    match applied {
        Ok(()) => Ok(report(alloc, valid, net)?),
        Err(refusal) => Err(stop_at(alloc, event_refusal(refusal.line, &refusal.fault))),
    }
}
