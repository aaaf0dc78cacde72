//! The command that says which events a record needs.
ghost use Rattle.std.specs.Prelude.{◌≡◌, ◌<◌, IfOk, None, OnOk, length, map, true};
ghost use Rattle.std.specs.List.Sorted.{IsPermutation};
ghost use Rattle.sched_net.specs.Bench.{fault_of_opening};
ghost use Rattle.sched_text.specs.Text.{IsPrintable};
ghost use Rattle.topo_forms.specs.Data.{IsData};
ghost use Rattle.why_trace.specs.Trim.{yields};
ghost use Rattle.blazes_words.specs.Requests.{why_shown};
ghost use Rattle.command_checks.specs.Ends.{files_states, source};
ghost use Rattle.command_checks.specs.Ran.{Gives, Ran, answer_of};
ghost use Rattle.blazes_commands.specs.Runs.Bench.{bench_states};
ghost use Rattle.blazes_commands.specs.Runs.Replies.{KeepsKinds, RepliesAtOnce, RepliesWith};
ghost use Rattle.blazes_commands.specs.Finds.Checks as check;
ghost use Rattle.blazes_commands.specs.Finds.Code.Looked.{explained_by, finding_file, wanted_shown};
ghost use Rattle.blazes_commands.specs.Finds.Finds.{HasReasons, SaysReasons, explaining, finding};

use crate::find_calls::finding::{Wanted, wanted_after};
use crate::find_calls::why_lines::why_text;
use blazes_words::WhyWords;
use bloom_eval::Component;
use blz_outside::Files;
use command_checks::{Reply, Stop, data_file, done, refused, schedule_file, valid_topology};
use report_lines::{Refusal, WhyKind};
use sched_text::Schedule;
use std::alloc::{AllocError, Global};
use topo_forms::{Data, Valid};
use why_trace::trace;

// The most events of a schedule in which a record is looked for.
const MAX_EVENTS: usize = 256;

// That a schedule has no more.
fn counted(alloc: Global, schedule: &Schedule) -> Result<(), Stop>
    ensures { Gives (λ counted. tt) result (check.counted (length schedule.now)) }
{
    if schedule.lines().len() > MAX_EVENTS {
        return Err(refused(alloc, &Refusal::Why(WhyKind::TooManyEvents)));
    }
    Ok(())
}

// The schedule in the file of this name, which has no more.
fn few_events_file<F: Files>(alloc: Global, name: &str, files: &mut F) -> Result<Schedule, Stop>
    ensures { Ran (λ schedule. schedule)
        (files_states (source (F.held files.old) (F.steady files.old) (F.faults files.old))
        (source (F.held files.new) (F.steady files.new) (F.faults files.new)))
        result (check.few_events_file name.now) }
{
    let schedule = schedule_file(alloc, name, files)?;
    counted(alloc, &schedule)?;
    Ok(schedule)
}

// The events that a record needs, which the schedule yields over the data.
fn reasons(
    alloc: Global,
    valid: &Valid,
    given: &Data,
    schedule: &Schedule,
    wanted: &Wanted,
    bench: &mut Vec<Box<dyn Component>>,
) -> Result<Reply, AllocError>
    requires fits { IsData valid.now.view given.now }
    requires opens { fault_of_opening valid.now.view (λ k. k) (map (λ b. kind b) bench.old.items) ≡ None }
    requires stream { wanted.now.stream < length valid.now.view.streams }
    requires yields { yields valid.now.view given.now (wanted_shown wanted.now) schedule.now ≡ true }
    requires printable { IsPrintable schedule.now }
    ensures says { IfOk result (λ reply. HasReasons (explained_by valid.now.view given.now schedule.now (wanted_shown wanted.now)) (answer_of reply)) }
    ensures kinds { OnOk result (IsPermutation (map (λ b. kind b) bench.old.items) (map (λ b. kind b) bench.new.items)) }
{
    let (stream, replica, row) = (wanted.stream, wanted.replica, &wanted.row);
    let needed = trace(alloc, valid, given, schedule, stream, replica, row, bench)?;
    Ok(done(why_text(alloc, valid, wanted, needed.lines())?))
}

// Runs the schedule, looks for the record that the words name and says which events it needs.
fn explained(
    alloc: Global,
    valid: &Valid,
    given: &Data,
    schedule: &Schedule,
    words: &WhyWords<'_>,
    bench: &mut Vec<Box<dyn Component>>,
) -> Result<Reply, Stop>
    requires fits { IsData valid.now.view given.now }
    requires printable { IsPrintable schedule.now }
    ensures replies { RepliesAtOnce SaysReasons
        (bench_states (map (λ b. kind b) bench.old.items) (map (λ b. kind b) bench.new.items)
        (map (λ b. program b) bench.new.items) (map (λ b. kept b) bench.new.items))
        result (finding (map (λ b. kind b) bench.old.items) valid.now.view given.now schedule.now (why_shown words.now)) }
    ensures kinds { KeepsKinds
        (bench_states (map (λ b. kind b) bench.old.items) (map (λ b. kind b) bench.new.items)
        (map (λ b. program b) bench.new.items) (map (λ b. kept b) bench.new.items))
        result }
{
    let wanted = wanted_after(alloc, valid, given.copy()?, schedule.lines(), words, bench)?;
    Ok(reasons(alloc, valid, given, schedule, &wanted, bench)?)
}

// The same under the schedule in the file that the words name.
fn explained_file<F: Files>(
    alloc: Global,
    valid: &Valid,
    given: &Data,
    words: &WhyWords<'_>,
    files: &mut F,
    bench: &mut Vec<Box<dyn Component>>,
) -> Result<Reply, Stop>
    requires { IsData valid.now.view given.now }
    ensures replies { RepliesWith SaysReasons
        (files_states (source (F.held files.old) (F.steady files.old) (F.faults files.old))
        (source (F.held files.new) (F.steady files.new) (F.faults files.new)))
        (bench_states (map (λ b. kind b) bench.old.items) (map (λ b. kind b) bench.new.items)
        (map (λ b. program b) bench.new.items) (map (λ b. kept b) bench.new.items))
        result (finding_file (map (λ b. kind b) bench.old.items) (why_shown words.now) valid.now.view given.now) }
    ensures kinds { KeepsKinds
        (bench_states (map (λ b. kind b) bench.old.items) (map (λ b. kind b) bench.new.items)
        (map (λ b. program b) bench.new.items) (map (λ b. kept b) bench.new.items))
        result }
{
    let schedule = few_events_file(alloc, words.schedule, files)?;
    explained(alloc, valid, given, &schedule, words, bench)
}

/// The record that the words name, and the events that it needs, in the execution of the topology in
/// one of their files over the data in another under the schedule in the third, with shells of the
/// bench, which go back to its end.
pub fn why<F: Files>(
    alloc: Global,
    words: WhyWords<'_>,
    files: &mut F,
    bench: &mut Vec<Box<dyn Component>>,
) -> Result<Reply, Stop>
    ensures replies { RepliesWith SaysReasons
        (files_states (source (F.held files.old) (F.steady files.old) (F.faults files.old))
        (source (F.held files.new) (F.steady files.new) (F.faults files.new)))
        (bench_states (map (λ b. kind b) bench.old.items) (map (λ b. kind b) bench.new.items)
        (map (λ b. program b) bench.new.items) (map (λ b. kept b) bench.new.items))
        result (explaining (map (λ b. kind b) bench.old.items) (why_shown words.entry)) }
    ensures kinds { KeepsKinds
        (bench_states (map (λ b. kind b) bench.old.items) (map (λ b. kind b) bench.new.items)
        (map (λ b. program b) bench.new.items) (map (λ b. kept b) bench.new.items))
        result }
{
    let valid = valid_topology(alloc, words.topology, files)?;
    let given = data_file(alloc, &valid, words.given, files)?;
    explained_file(alloc, &valid, &given, &words, files, bench)
}
