//! The command that makes a schedule.
ghost use Rattle.std.specs.Prelude.{◌≡◌, IfOk, OnOk, Some, map};
ghost use Rattle.report_lines.specs.declared.refusal.Refusal.TheVariants as refusal;
ghost use Rattle.sched_run.specs.Naming.{CanBeWritten};
ghost use Rattle.sched_net.specs.Net.{BooksRun};
ghost use Rattle.topo_forms.specs.Data.{IsData};
ghost use Rattle.blazes_commands.specs.Checks as check;
ghost use Rattle.blazes_commands.specs.Code.Made.{IsMadeOf, PrintsBooks};
ghost use Rattle.command_checks.specs.Ran.{answer_of};
ghost use Rattle.blazes_commands.specs.Code.Ran.{RepliesTo};
ghost use Rattle.blazes_words.specs.Requests.{make_shown};
ghost use Rattle.blazes_commands.specs.Commands.{Says, making};
ghost use Rattle.command_checks.specs.Ends.{files_states, source};
ghost use Rattle.blazes_words.specs.Words.{Asked};
ghost use Rattle.blazes_commands.specs.Runs.Bench.{bench_states};
ghost use Rattle.blazes_commands.specs.Runs.Replies.{KeepsKinds, RepliesAtOnce};

use crate::run_calls::{opened, status_of};
use blazes_words::MakeWords;
use bloom_eval::Component;
use blz_outside::Files;
use command_checks::{Reply, Stop, data_file, stop_at, valid_topology};
use report_lines::{MakeKind, Refusal};
use sched_run::{Made, MakeFault, Net, make_numbered};
use std::alloc::{AllocError, Global};
use topo_forms::{Data, Valid};

// The number of the first event that is one too many.
const FIRST_TOO_MANY: u32 = 1_000_001;

fn at_event(event: u32, kind: MakeKind) -> Option<Refusal>
    ensures { result ≡ Some (refusal.Make event kind) }
{
    Some(Refusal::Make { event, kind })
}

/// The refusal of a schedule that can't be made; want of memory is none.
pub fn make_refusal(fault: &MakeFault) -> Option<Refusal>
    ensures { result ≡ check.make_refusal fault.now }
{
    match fault {
        MakeFault::TooManyEvents => at_event(FIRST_TOO_MANY, MakeKind::TooManyEvents),
        MakeFault::TooManyRows { event } => at_event(*event, MakeKind::TooManyRows),
        MakeFault::TooManyMessages { event } => at_event(*event, MakeKind::TooManyMessages),
        MakeFault::NoMemory => None,
    }
}

// The text of the schedule that a net has just made, and whether anything is held after it.
fn printed(alloc: Global, net: &Net<'_>, made: &Made) -> Result<Reply, AllocError>
    requires runs { BooksRun net.now.valid.now.view net.now.books }
    requires written { CanBeWritten net.now.valid.now.view made.now }
    ensures { IfOk result (λ reply. PrintsBooks net.now.valid.now.view net.now.books made.now (answer_of reply)) }
{
    Ok(Reply {
        status: status_of(net),
        text: made.text(alloc, net.valid())?,
    })
}

// The outcome of a net that made a schedule, or couldn't.
fn outcome_of(alloc: Global, net: &Net<'_>, made: Result<Made, MakeFault>) -> Result<Reply, Stop>
    requires runs { OnOk made (BooksRun net.now.valid.now.view net.now.books) }
    requires written { IfOk made (CanBeWritten net.now.valid.now.view) }
    ensures { IsMadeOf net.now.valid.now.view net.now.books made result }
{
    match made {
        Ok(made) => Ok(printed(alloc, net, &made)?),
        Err(fault) => Err(stop_at(alloc, make_refusal(&fault))),
    }
}

// Opens a net over the data with shells of the bench and lets it make the schedule of a seed; then the
// shells go back to the bench.
fn made_over(
    alloc: Global,
    valid: &Valid,
    given: Data,
    seed: u64,
    bench: &mut Vec<Box<dyn Component>>,
) -> Result<Reply, Stop>
    requires { IsData valid.now.view given }
    ensures replies { RepliesAtOnce Says
        (bench_states (map (λ b. kind b) bench.old.items) (map (λ b. kind b) bench.new.items)
        (map (λ b. program b) bench.new.items) (map (λ b. kept b) bench.new.items))
        result (making (map (λ b. kind b) bench.old.items) valid.now.view given seed) }
    ensures kinds { KeepsKinds
        (bench_states (map (λ b. kind b) bench.old.items) (map (λ b. kind b) bench.new.items)
        (map (λ b. program b) bench.new.items) (map (λ b. kept b) bench.new.items))
        result }
{
    let mut net = opened(alloc, valid, given, bench)?;
    let made = make_numbered(&mut net, seed);
    let outcome = outcome_of(alloc, &net, made);
    net.close(bench)?;
    outcome
}

/// The schedule that a seed gives over the topology and the data in these files, after which nothing is
/// left to deliver. It is tried with shells of the bench, which go back to its end.
pub fn make<F: Files>(
    alloc: Global,
    words: MakeWords<'_>,
    files: &mut F,
    bench: &mut Vec<Box<dyn Component>>,
) -> Result<Reply, Stop>
    ensures replies { RepliesTo (Asked.make (make_shown words.entry))
        (files_states (source (F.held files.old) (F.steady files.old) (F.faults files.old))
        (source (F.held files.new) (F.steady files.new) (F.faults files.new)))
        (bench_states (map (λ b. kind b) bench.old.items) (map (λ b. kind b) bench.new.items)
        (map (λ b. program b) bench.new.items) (map (λ b. kept b) bench.new.items))
        result }
    ensures kinds { KeepsKinds
        (bench_states (map (λ b. kind b) bench.old.items) (map (λ b. kind b) bench.new.items)
        (map (λ b. program b) bench.new.items) (map (λ b. kept b) bench.new.items))
        result }
{
    let valid = valid_topology(alloc, words.topology, files)?;
    let given = data_file(alloc, &valid, words.given, files)?;
    made_over(alloc, &valid, given, words.seed, bench)
}
