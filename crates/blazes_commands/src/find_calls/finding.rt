//! The record of an execution that is looked for.
ghost use Rattle.std.specs.Prelude.{◌≡◌, ◌<◌, OnOk, Some, length, map, option_copied};
ghost use Rattle.sched_net.specs.Net.{BooksRun};
ghost use Rattle.topo_forms.specs.Data.{IsData};
ghost use Rattle.topo_forms.specs.View.{find_stream};
ghost use Rattle.blazes_words.specs.Requests.{why_shown};
ghost use Rattle.command_checks.specs.Ran.{Gives, RanAtOnce};
ghost use Rattle.blazes_commands.specs.Finds.Checks as check;
ghost use Rattle.blazes_commands.specs.Finds.Code.Kinds.{LosesNone};
ghost use Rattle.blazes_commands.specs.Finds.Code.Looked.{IsLookedIn, LooksIn, wanted_shown};
ghost use Rattle.blazes_commands.specs.Finds.Finds.{looking};

use crate::run_calls::{event_refusal, opened};
use blazes_words::WhyWords;
use bloom_eval::Component;
use blz_value::{Record, Str};
use command_checks::{Stop, refused, stop_at};
use report_lines::{Refusal, WhyKind};
use sched_net::{Net, StepRefusal, run};
use sched_text::Event;
use std::alloc::Global;
use topo_forms::{Data, Valid};

/// A record that a sending replica of a stream emits.
#[derive(Drop)]
pub(crate) struct Wanted {
    pub(crate) stream: u32,
    pub(crate) replica: u32,
    pub(crate) row: Record,
}

// The stream, where this replica sends it.
fn sent_by(alloc: Global, valid: &Valid, stream: u32, replica: u32) -> Result<u32, Stop>
    requires { stream < length valid.now.view.streams }
    ensures { Gives (λ stream. stream) result (check.sender_in valid.now.view replica (Some stream)) }
{
    if replica < valid.stream_replicas(stream) {
        Ok(stream)
    } else {
        Err(refused(alloc, &Refusal::Why(WhyKind::NoStream)))
    }
}

// The number of the stream of this name, where this replica sends it.
fn sender(alloc: Global, valid: &Valid, name: &str, replica: u32) -> Result<u32, Stop>
    ensures { Gives (λ stream. stream) result (check.sender_in valid.now.view replica (find_stream valid.now.view name.now)) }
{
    let name = Str::from_text(alloc, name)?;
    match valid.find_stream(&name) {
        Some(stream) => sent_by(alloc, valid, stream, replica),
        None => Err(refused(alloc, &Refusal::Why(WhyKind::NoStream))),
    }
}

// A copy of a record, where there is one.
fn record_in(alloc: Global, found: Option<&Record>) -> Result<Record, Stop>
    ensures { Gives (λ row. row) result (check.record_in (option_copied found.entry)) }
{
    match found {
        Some(row) => Ok(row.copy()?),
        None => Err(refused(alloc, &Refusal::Why(WhyKind::NoRecord))),
    }
}

// The record that the words name.
fn wanted_in(
    alloc: Global,
    valid: &Valid,
    net: &Net<'_>,
    words: &WhyWords<'_>,
) -> Result<Wanted, Stop>
    requires same { net.now.valid.now.view ≡ valid.now.view }
    requires runs { BooksRun valid.now.view net.now.books }
    ensures { LooksIn valid.now.view net.now.books (why_shown words.now) result }
{
    let stream = sender(alloc, valid, words.stream, words.replica)?;
    let row = record_in(alloc, net.record_at(stream, words.replica, words.index))?;
    Ok(Wanted {
        stream,
        replica: words.replica,
        row,
    })
}

// The same in a net to which all events were applied, or not.
fn outcome_of(
    alloc: Global,
    valid: &Valid,
    net: &Net<'_>,
    words: &WhyWords<'_>,
    applied: Result<(), StepRefusal>,
) -> Result<Wanted, Stop>
    requires same { net.now.valid.now.view ≡ valid.now.view }
    requires runs { OnOk applied (BooksRun valid.now.view net.now.books) }
    ensures { IsLookedIn valid.now.view net.now.books (why_shown words.now) applied result }
{
    match applied {
        Ok(()) => wanted_in(alloc, valid, net, words),
        Err(refused) => Err(stop_at(alloc, event_refusal(refused.line, &refused.fault))),
    }
}

/// Opens a net over the data with shells of the bench, applies the events in order and looks for the
/// record that the words name; then the shells go back to the bench.
pub(crate) fn wanted_after(
    alloc: Global,
    valid: &Valid,
    given: Data,
    lines: &[(u32, Event)],
    words: &WhyWords<'_>,
    bench: &mut Vec<Box<dyn Component>>,
) -> Result<Wanted, Stop>
    requires { IsData valid.now.view given }
    ensures looks { RanAtOnce wanted_shown result (looking (map (λ b. kind b) bench.old.items) valid.now.view given lines.now (why_shown words.now)) }
    ensures kinds { LosesNone (map (λ b. kind b) bench.old.items) (map (λ b. kind b) bench.new.items) result }
{
    let mut net = opened(alloc, valid, given, bench)?;
    let applied = run(&mut net, lines);
    let outcome = outcome_of(alloc, valid, &net, words, applied);
    net.close(bench)?;
    outcome
}
