//! The command that makes and runs a schedule of the built-in word count, and sums up what came of it.
ghost use Rattle.std.specs.Prelude.{◌≡◌, IfOk, OnOk, map};
ghost use Rattle.sched_net.specs.Net.{BooksRun};
ghost use Rattle.topo_forms.specs.Data.{IsData};
ghost use Rattle.coord_synth.specs.Laws.{AreCoordinated};
ghost use Rattle.command_checks.specs.Ran.{answer_of};
ghost use Rattle.blazes_words.specs.Requests.{soak_shown};
ghost use Rattle.blazes_commands.specs.Code.Soaked.{IsSummaryOf, SumsBooks};
ghost use Rattle.blazes_commands.specs.Commands.{Says, Work, making_for, script, soaking};
ghost use Rattle.blazes_words.specs.Words.{Asked};
ghost use Rattle.blazes_commands.specs.Runs.Bench.{bench_states};
ghost use Rattle.blazes_commands.specs.Runs.Replies.{KeepsKinds, RepliesAtOnce};

use crate::batches::tweets_data;
use crate::label_calls::{planned_count, sound_labels};
use crate::making::make_refusal;
use crate::run_calls::opened;
use blazes_words::SoakWords;
use bloom_eval::Component;
use command_checks::{Reply, Stop, done, stop_at};
use report_print::soak_text;
use sched_run::{Made, MakeFault, Net, make_numbered};
use std::alloc::{AllocError, Global};
use topo_forms::{Data, Valid};

// The summary of a net over so many batches.
fn summed(alloc: Global, valid: &Valid, batches: u32, net: &Net<'_>) -> Result<Reply, AllocError>
    requires same { net.now.valid.now.view ≡ valid.now.view }
    requires runs { BooksRun valid.now.view net.now.books }
    requires coordinated { AreCoordinated valid.now.view }
    ensures { IfOk result (λ reply. SumsBooks batches valid.now.view net.now.books (answer_of reply)) }
{
    let labels = sound_labels(alloc, valid)?;
    Ok(done(soak_text(alloc, batches, valid, &labels, net)?))
}

// The outcome of a net that made a schedule, or couldn't.
fn outcome_of(
    alloc: Global,
    valid: &Valid,
    batches: u32,
    net: &Net<'_>,
    made: Result<Made, MakeFault>,
) -> Result<Reply, Stop>
    requires same { net.now.valid.now.view ≡ valid.now.view }
    requires runs { OnOk made (BooksRun valid.now.view net.now.books) }
    requires coordinated { AreCoordinated valid.now.view }
    ensures { IsSummaryOf batches valid.now.view net.now.books made result }
{
    match made {
        Ok(_) => Ok(summed(alloc, valid, batches, net)?),
        Err(fault) => Err(stop_at(alloc, make_refusal(&fault))),
    }
}

// Opens a net over the data with shells of the bench, lets it make the schedule of the seed and sums
// it up; then the shells go back to the bench.
fn soaked_over(
    alloc: Global,
    valid: &Valid,
    given: Data,
    words: SoakWords,
    bench: &mut Vec<Box<dyn Component>>,
) -> Result<Reply, Stop>
    requires fits { IsData valid.now.view given }
    requires coordinated { AreCoordinated valid.now.view }
    ensures replies { RepliesAtOnce Says
        (bench_states (map (λ b. kind b) bench.old.items) (map (λ b. kind b) bench.new.items)
        (map (λ b. program b) bench.new.items) (map (λ b. kept b) bench.new.items))
        result (making_for (Work.soaked words.count valid.now.view given) (map (λ b. kind b) bench.old.items) valid.now.view given words.seed) }
    ensures kinds { KeepsKinds
        (bench_states (map (λ b. kind b) bench.old.items) (map (λ b. kind b) bench.new.items)
        (map (λ b. program b) bench.new.items) (map (λ b. kept b) bench.new.items))
        result }
{
    let mut net = opened(alloc, valid, given, bench)?;
    let made = make_numbered(&mut net, words.seed);
    let outcome = outcome_of(alloc, valid, words.count, &net, made);
    net.close(bench)?;
    outcome
}

// So over the tweets of as many batches as the words say.
fn soaked(
    alloc: Global,
    valid: &Valid,
    words: SoakWords,
    bench: &mut Vec<Box<dyn Component>>,
) -> Result<Reply, Stop>
    requires { AreCoordinated valid.now.view }
    ensures replies { RepliesAtOnce Says
        (bench_states (map (λ b. kind b) bench.old.items) (map (λ b. kind b) bench.new.items)
        (map (λ b. program b) bench.new.items) (map (λ b. kept b) bench.new.items))
        result (soaking words.count (map (λ b. kind b) bench.old.items) valid.now.view words.seed) }
    ensures kinds { KeepsKinds
        (bench_states (map (λ b. kind b) bench.old.items) (map (λ b. kind b) bench.new.items)
        (map (λ b. program b) bench.new.items) (map (λ b. kept b) bench.new.items))
        result }
{
    let given = tweets_data(alloc, valid, words.count)?;
    soaked_over(alloc, valid, given, words, bench)
}

/// The summary of the built-in word count under its plan, over as many batches as the words say and
/// under the schedule that their seed gives, with shells of the bench, which go back to its end.
pub fn soak(
    alloc: Global,
    words: SoakWords,
    bench: &mut Vec<Box<dyn Component>>,
) -> Result<Reply, Stop>
    ensures replies { RepliesAtOnce Says
        (bench_states (map (λ b. kind b) bench.old.items) (map (λ b. kind b) bench.new.items)
        (map (λ b. program b) bench.new.items) (map (λ b. kept b) bench.new.items))
        result (script (map (λ b. kind b) bench.old.items) (Asked.soak (soak_shown words))) }
    ensures kinds { KeepsKinds
        (bench_states (map (λ b. kind b) bench.old.items) (map (λ b. kind b) bench.new.items)
        (map (λ b. program b) bench.new.items) (map (λ b. kept b) bench.new.items))
        result }
{
    let valid = planned_count(alloc)?;
    soaked(alloc, &valid, words, bench)
}
