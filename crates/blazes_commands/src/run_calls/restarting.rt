//! The command that runs a schedule in which instances may lose all that they have.
ghost use Rattle.std.specs.Prelude.{map};
ghost use Rattle.topo_forms.specs.Data.{IsData};
ghost use Rattle.blazes_words.specs.Requests.{files_shown};
ghost use Rattle.command_checks.specs.Ends.{files_states, source};
ghost use Rattle.blazes_commands.specs.Runs.Bench.{bench_states};
ghost use Rattle.blazes_commands.specs.Runs.Code.Ran.{restarting_file};
ghost use Rattle.blazes_commands.specs.Runs.Replies.{KeepsKinds, RepliesWith};
ghost use Rattle.blazes_commands.specs.Runs.Runs.{SaysRun, restarts};

use crate::run_calls::running::run_lines;
use crate::run_calls::steps::steps_file;
use blazes_words::RunFiles;
use bloom_eval::Component;
use blz_outside::Files;
use command_checks::{Reply, Stop, data_file, valid_topology};
use std::alloc::Global;
use topo_forms::{Data, Valid};

// What the steps in the file of this name make of a net that is opened over the data.
fn restart_file<F: Files>(
    alloc: Global,
    valid: &Valid,
    given: Data,
    name: &str,
    files: &mut F,
    bench: &mut Vec<Box<dyn Component>>,
) -> Result<Reply, Stop>
    requires { IsData valid.now.view given }
    ensures replies { RepliesWith SaysRun
        (files_states (source (F.held files.old) (F.steady files.old) (F.faults files.old))
        (source (F.held files.new) (F.steady files.new) (F.faults files.new)))
        (bench_states (map (λ b. kind b) bench.old.items) (map (λ b. kind b) bench.new.items)
        (map (λ b. program b) bench.new.items) (map (λ b. kept b) bench.new.items))
        result (restarting_file (map (λ b. kind b) bench.old.items) valid.now.view given name.now) }
    ensures kinds { KeepsKinds
        (bench_states (map (λ b. kind b) bench.old.items) (map (λ b. kind b) bench.new.items)
        (map (λ b. program b) bench.new.items) (map (λ b. kept b) bench.new.items))
        result }
{
    let steps = steps_file(alloc, name, files)?;
    run_lines(alloc, valid, given, &steps, bench)
}

/// What the instances of the topology in one of these files emit over the data in another under the
/// schedule with restarts in the third, with shells of the bench, which go back to its end.
pub fn restart<F: Files>(
    alloc: Global,
    names: RunFiles<'_>,
    files: &mut F,
    bench: &mut Vec<Box<dyn Component>>,
) -> Result<Reply, Stop>
    ensures replies { RepliesWith SaysRun
        (files_states (source (F.held files.old) (F.steady files.old) (F.faults files.old))
        (source (F.held files.new) (F.steady files.new) (F.faults files.new)))
        (bench_states (map (λ b. kind b) bench.old.items) (map (λ b. kind b) bench.new.items)
        (map (λ b. program b) bench.new.items) (map (λ b. kept b) bench.new.items))
        result (restarts (map (λ b. kind b) bench.old.items) (files_shown names.entry)) }
    ensures kinds { KeepsKinds
        (bench_states (map (λ b. kind b) bench.old.items) (map (λ b. kind b) bench.new.items)
        (map (λ b. program b) bench.new.items) (map (λ b. kept b) bench.new.items))
        result }
{
    let valid = valid_topology(alloc, names.topology, files)?;
    let given = data_file(alloc, &valid, names.given, files)?;
    restart_file(alloc, &valid, given, names.schedule, files, bench)
}
