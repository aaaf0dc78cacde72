//! The commands by what is asked.
ghost use Rattle.std.specs.Prelude.{map};
ghost use Rattle.blazes_commands.specs.Code.Ran.{RepliesTo};
ghost use Rattle.blazes_words.specs.Requests.{asked_by};
ghost use Rattle.command_checks.specs.Ends.{files_states, source};
ghost use Rattle.blazes_words.specs.Words.{IsWithin};
ghost use Rattle.blazes_commands.specs.Runs.Bench.{bench_states};
ghost use Rattle.blazes_commands.specs.Runs.Replies.{KeepsKinds};

use crate::find_calls::{why, witness};
use crate::label_calls::{derive, label, plan, shard};
use crate::making::make;
use crate::run_calls::{restart, run};
use crate::soaking::soak;
use blazes_words::Request;
use bloom_eval::Component;
use blz_outside::Files;
use command_checks::{Reply, Stop};
use std::alloc::Global;

/// The reply of the command that is asked for, or what stopped it: its checks go in their order, and it
/// reads the files that they reach. Instances run in shells of the bench, which go back to its end, but
/// where memory runs out.
pub fn outcome_of<F: Files>(
    alloc: Global,
    request: Request<'_>,
    files: &mut F,
    bench: &mut Vec<Box<dyn Component>>,
) -> Result<Reply, Stop>
    requires { IsWithin (asked_by request) }
    ensures replies { RepliesTo (asked_by request.entry)
        (files_states (source (F.held files.old) (F.steady files.old) (F.faults files.old))
        (source (F.held files.new) (F.steady files.new) (F.faults files.new)))
        (bench_states (map (λ b. kind b) bench.old.items) (map (λ b. kind b) bench.new.items)
        (map (λ b. program b) bench.new.items) (map (λ b. kept b) bench.new.items))
        result }
    ensures kinds { KeepsKinds
        (bench_states (map (λ b. kind b) bench.old.items) (map (λ b. kind b) bench.new.items)
        (map (λ b. program b) bench.new.items) (map (λ b. kept b) bench.new.items))
        result }
{
    match request {
        Request::Label { topology } => label(alloc, topology, files),
        Request::Derive { topology } => derive(alloc, topology, files),
        Request::Plan { topology } => plan(alloc, topology, files),
        Request::Run(names) => run(alloc, names, files, bench),
        Request::Make(words) => make(alloc, words, files, bench),
        Request::Soak(words) => soak(alloc, words, bench),
        Request::Shard(words) => shard(alloc, &words, files),
        Request::Restart(names) => restart(alloc, names, files, bench),
        Request::Witness(names) => witness(alloc, names, files, bench),
        Request::Why(words) => why(alloc, words, files, bench),
    }
}
