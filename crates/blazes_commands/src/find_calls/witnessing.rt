//! The command that says where two executions differ.
ghost use Rattle.std.specs.Prelude.{map};
ghost use Rattle.topo_forms.specs.Data.{Holds, IsData};
ghost use Rattle.blazes_words.specs.Requests.{witness_shown};
ghost use Rattle.command_checks.specs.Ends.{files_states, source};
ghost use Rattle.blazes_commands.specs.Runs.Bench.{bench_states};
ghost use Rattle.blazes_commands.specs.Runs.Replies.{KeepsKinds, RepliesAtOnce, RepliesWith};
ghost use Rattle.blazes_commands.specs.Finds.Code.Seen.{comparing_files};
ghost use Rattle.blazes_commands.specs.Finds.Finds.{SaysWitness, comparing, witnessing};

use crate::find_calls::second::second_file;
use crate::find_calls::seeing::{Seen, seen_after};
use crate::find_calls::witness_lines::witness_text;
use blazes_words::WitnessFiles;
use bloom_eval::Component;
use blz_outside::Files;
use command_checks::{Reply, Stop, data_file, done, schedule_file, valid_topology};
use confluence::region_law;
use sched_text::Event;
use std::alloc::{AllocError, Global};
use topo_forms::{Data, Valid};
use witness_check::Which;

// Runs both schedules, each in a net of its own, and says where they differ.
fn compared(
    alloc: Global,
    valid: &Valid,
    given: Data,
    first: &[(u32, Event)],
    second: &[(u32, Event)],
    bench: &mut Vec<Box<dyn Component>>,
) -> Result<Reply, Stop>
    requires fits { IsData valid.now.view given }
    requires holds { Holds valid.now.view given }
    ensures replies { RepliesAtOnce SaysWitness
        (bench_states (map (λ b. kind b) bench.old.items) (map (λ b. kind b) bench.new.items)
        (map (λ b. program b) bench.new.items) (map (λ b. kept b) bench.new.items))
        result (comparing (map (λ b. kind b) bench.old.items) valid.now.view given first.now second.now) }
    ensures kinds { KeepsKinds
        (bench_states (map (λ b. kind b) bench.old.items) (map (λ b. kind b) bench.new.items)
        (map (λ b. program b) bench.new.items) (map (λ b. kept b) bench.new.items))
        result }
{
    // The next two are there for the proof alone.
    valid.known();
    region_law();
    let one = seen_after(alloc, valid, given.copy()?, &Which::First, first, bench)?;
    let other = seen_after(alloc, valid, given, &Which::Second, second, bench)?;
    Ok(done(witness_text(alloc, valid, &one, &other)?))
}

// The same under the schedules in the files of these names.
fn witness_files<F: Files>(
    alloc: Global,
    valid: &Valid,
    given: Data,
    names: WitnessFiles<'_>,
    files: &mut F,
    bench: &mut Vec<Box<dyn Component>>,
) -> Result<Reply, Stop>
    requires fits { IsData valid.now.view given }
    requires holds { Holds valid.now.view given }
    ensures replies { RepliesWith SaysWitness
        (files_states (source (F.held files.old) (F.steady files.old) (F.faults files.old))
        (source (F.held files.new) (F.steady files.new) (F.faults files.new)))
        (bench_states (map (λ b. kind b) bench.old.items) (map (λ b. kind b) bench.new.items)
        (map (λ b. program b) bench.new.items) (map (λ b. kept b) bench.new.items))
        result (comparing_files (map (λ b. kind b) bench.old.items) (witness_shown names.entry) valid.now.view given) }
    ensures kinds { KeepsKinds
        (bench_states (map (λ b. kind b) bench.old.items) (map (λ b. kind b) bench.new.items)
        (map (λ b. program b) bench.new.items) (map (λ b. kept b) bench.new.items))
        result }
{
    let first = schedule_file(alloc, names.first, files)?;
    let second = second_file(alloc, names.second, files)?;
    compared(alloc, valid, given, first.lines(), second.lines(), bench)
}

/// Where two executions of the topology in one of these files over the data in another differ, under
/// the schedules in the third and the fourth, and whether each is complete. Each has a net of its own,
/// with shells of the bench, which go back to its end.
pub fn witness<F: Files>(
    alloc: Global,
    names: WitnessFiles<'_>,
    files: &mut F,
    bench: &mut Vec<Box<dyn Component>>,
) -> Result<Reply, Stop>
    ensures replies { RepliesWith SaysWitness
        (files_states (source (F.held files.old) (F.steady files.old) (F.faults files.old))
        (source (F.held files.new) (F.steady files.new) (F.faults files.new)))
        (bench_states (map (λ b. kind b) bench.old.items) (map (λ b. kind b) bench.new.items)
        (map (λ b. program b) bench.new.items) (map (λ b. kept b) bench.new.items))
        result (witnessing (map (λ b. kind b) bench.old.items) (witness_shown names.entry)) }
    ensures kinds { KeepsKinds
        (bench_states (map (λ b. kind b) bench.old.items) (map (λ b. kind b) bench.new.items)
        (map (λ b. program b) bench.new.items) (map (λ b. kept b) bench.new.items))
        result }
{
    let valid = valid_topology(alloc, names.topology, files)?;
    let given = data_file(alloc, &valid, names.given, files)?;
    witness_files(alloc, &valid, given, names, files, bench)
}
