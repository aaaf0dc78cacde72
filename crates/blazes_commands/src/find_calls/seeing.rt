//! What is taken of one of two executions that are compared.
ghost use Rattle.std.specs.Prelude.{◌≡◌, IfOk, OnOk, map};
ghost use Rattle.sched_net.specs.Net.{BooksRun};
ghost use Rattle.sched_net.specs.Reading.{IsRead};
ghost use Rattle.topo_forms.specs.Data.{IsData};
ghost use Rattle.blazes_commands.specs.Finds.Code.Kinds.{LosesNone};
ghost use Rattle.blazes_commands.specs.Finds.Code.Seen as spec;

use crate::find_calls::second::second_event_refusal;
use crate::run_calls::{event_refusal, opened};
use bloom_eval::Component;
use command_checks::{Stop, stop_at};
use report_lines::Refusal;
use sched_net::{Net, StepRefusal, run};
use sched_text::Event;
use std::alloc::{AllocError, Global};
use topo_forms::{Data, Valid};
use witness_check::{Snapshot, Which, take};

/// What is taken of an execution: its contents, and whether it is complete.
#[derive(Drop)]
pub(crate) struct Seen {
    pub(crate) contents: Snapshot,
    pub(crate) complete: bool,
}

// What is taken of a net.
fn seen_of(alloc: Global, valid: &Valid, net: &Net<'_>) -> Result<Seen, AllocError>
    requires same { net.now.valid.now.view ≡ valid.now.view }
    requires runs { BooksRun valid.now.view net.now.books }
    ensures { IfOk result (IsRead valid.now.view net.now.books (spec.seen_of valid.now.view)) }
{
    Ok(Seen {
        contents: take(alloc, valid, net)?,
        complete: net.is_complete(),
    })
}

// The refusal of an event of one of two schedules; want of memory is none.
fn refusal_of(which: &Which, refused: &StepRefusal) -> Option<Refusal>
    ensures { result ≡ spec.refusal_of which.now refused.now }
{
    match which {
        Which::First => event_refusal(refused.line, &refused.fault),
        Which::Second => second_event_refusal(refused.line, &refused.fault),
    }
}

// What is taken of a net to which all events of one of two schedules were applied, or not.
fn outcome_of(
    alloc: Global,
    valid: &Valid,
    net: &Net<'_>,
    which: &Which,
    applied: Result<(), StepRefusal>,
) -> Result<Seen, Stop>
    requires same { net.now.valid.now.view ≡ valid.now.view }
    requires runs { OnOk applied (BooksRun valid.now.view net.now.books) }
    ensures { spec.IsSeenOf which.now valid.now.view net.now.books applied result }
{
    match applied {
        Ok(()) => Ok(seen_of(alloc, valid, net)?),
        Err(refused) => Err(stop_at(alloc, refusal_of(which, &refused))),
    }
}

/// Opens a net over the data with shells of the bench, applies the events of one of two schedules in
/// order and takes what they made; then the shells go back to the bench.
pub(crate) fn seen_after(
    alloc: Global,
    valid: &Valid,
    given: Data,
    which: &Which,
    lines: &[(u32, Event)],
    bench: &mut Vec<Box<dyn Component>>,
) -> Result<Seen, Stop>
    requires { IsData valid.now.view given }
    ensures sees { spec.Sees valid.now.view given (spec.run_in which.now (map (λ b. kind b) bench.old.items) valid.now.view given lines.now) result }
    ensures kinds { LosesNone (map (λ b. kind b) bench.old.items) (map (λ b. kind b) bench.new.items) result }
{
    let mut net = opened(alloc, valid, given, bench)?;
    let applied = run(&mut net, lines);
    let outcome = outcome_of(alloc, valid, &net, which, applied);
    net.close(bench)?;
    outcome
}
