//! The command that runs a schedule.
ghost use Rattle.std.specs.Prelude.{map};
ghost use Rattle.topo_forms.specs.Data.{IsData};
ghost use Rattle.blazes_words.specs.Requests.{files_shown};
ghost use Rattle.command_checks.specs.Ends.{files_states, source};
ghost use Rattle.blazes_commands.specs.Runs.Bench.{bench_states};
ghost use Rattle.blazes_commands.specs.Runs.Checks as check;
ghost use Rattle.blazes_commands.specs.Runs.Code.Ran.{running_file};
ghost use Rattle.blazes_commands.specs.Runs.Replies.{KeepsKinds, RepliesAtOnce, RepliesWith};
ghost use Rattle.blazes_commands.specs.Runs.Runs.{SaysRun, running_by, runs};

use crate::run_calls::opening::opened;
use crate::run_calls::reporting::outcome_of;
use blazes_words::RunFiles;
use bloom_eval::Component;
use blz_outside::Files;
use command_checks::{Reply, Stop, data_file, schedule_file, valid_topology};
use sched_net::AsStep;
use std::alloc::Global;
use topo_forms::{Data, Valid};

// Opens a net over the data with shells of the bench, applies the steps or events in order and says
// what they made; then the shells go back to the bench.
pub(crate) fn run_lines<S: AsStep>(
    alloc: Global,
    valid: &Valid,
    given: Data,
    lines: &[(u32, S)],
    bench: &mut Vec<Box<dyn Component>>,
) -> Result<Reply, Stop>
    requires { IsData valid.now.view given }
    ensures replies { RepliesAtOnce SaysRun
        (bench_states (map (λ b. kind b) bench.old.items) (map (λ b. kind b) bench.new.items)
        (map (λ b. program b) bench.new.items) (map (λ b. kept b) bench.new.items))
        result (running_by (check.happening S.step valid.now.view given lines.now) (map (λ b. kind b) bench.old.items) valid.now.view given) }
    ensures kinds { KeepsKinds
        (bench_states (map (λ b. kind b) bench.old.items) (map (λ b. kind b) bench.new.items)
        (map (λ b. program b) bench.new.items) (map (λ b. kept b) bench.new.items))
        result }
{
    let mut net = opened(alloc, valid, given, bench)?;
    let applied = replay_run::run(&mut net, lines);
    let outcome = outcome_of(alloc, valid, &net, applied);
    net.close(bench)?;
    outcome
}

// The same under the schedule in the file of this name.
fn run_file<F: Files>(
    alloc: Global,
    valid: &Valid,
    given: Data,
    name: &str,
    files: &mut F,
    bench: &mut Vec<Box<dyn Component>>,
) -> Result<Reply, Stop>
    requires { IsData valid.now.view given }
    ensures replies { RepliesWith SaysRun
        (files_states (source (F.held files.old) (F.steady files.old) (F.faults files.old))
        (source (F.held files.new) (F.steady files.new) (F.faults files.new)))
        (bench_states (map (λ b. kind b) bench.old.items) (map (λ b. kind b) bench.new.items)
        (map (λ b. program b) bench.new.items) (map (λ b. kept b) bench.new.items))
        result (running_file (map (λ b. kind b) bench.old.items) valid.now.view given name.now) }
    ensures kinds { KeepsKinds
        (bench_states (map (λ b. kind b) bench.old.items) (map (λ b. kind b) bench.new.items)
        (map (λ b. program b) bench.new.items) (map (λ b. kept b) bench.new.items))
        result }
{
    let schedule = schedule_file(alloc, name, files)?;
    run_lines(alloc, valid, given, schedule.lines(), bench)
}

/// What the instances of the topology in one of these files emit over the data in another under the
/// schedule in the third, with shells of the bench, which go back to its end.
pub fn run<F: Files>(
    alloc: Global,
    names: RunFiles<'_>,
    files: &mut F,
    bench: &mut Vec<Box<dyn Component>>,
) -> Result<Reply, Stop>
    ensures replies { RepliesWith SaysRun
        (files_states (source (F.held files.old) (F.steady files.old) (F.faults files.old))
        (source (F.held files.new) (F.steady files.new) (F.faults files.new)))
        (bench_states (map (λ b. kind b) bench.old.items) (map (λ b. kind b) bench.new.items)
        (map (λ b. program b) bench.new.items) (map (λ b. kept b) bench.new.items))
        result (runs (map (λ b. kind b) bench.old.items) (files_shown names.entry)) }
    ensures kinds { KeepsKinds
        (bench_states (map (λ b. kind b) bench.old.items) (map (λ b. kind b) bench.new.items)
        (map (λ b. program b) bench.new.items) (map (λ b. kept b) bench.new.items))
        result }
{
    let valid = valid_topology(alloc, names.topology, files)?;
    let given = data_file(alloc, &valid, names.given, files)?;
    run_file(alloc, &valid, given, names.schedule, files, bench)
}
