//! The call that the program makes.
ghost use Rattle.std.specs.Prelude.{◌≡◌, ◌≢◌, ◌<◌, None, Some, IfOk, IfSome, IsTrue, map, string_bytes};
ghost use Rattle.blz_outside.specs.Counts.{Rose};
ghost use Rattle.blazes_commands.specs.Runs.Bench.{bench_states, HasSameKinds};
ghost use Rattle.command_checks.specs.Ran.{answer_of};
ghost use Rattle.blazes_words.specs.Requests.{asked_by};
ghost use Rattle.command_checks.specs.Ends.{files_states, source};
ghost use Rattle.blazes_words.specs.Words.{IsWithin, request_of};
ghost use Rattle.blazes_cli.specs.Answer.{IsReply};
ghost use Rattle.blazes_cli.specs.Lines.{usage_line};
ghost use Rattle.blazes_cli.specs.Outcome.{sink_states, IsSaid, IsOutcome, IsUsageOrLost, IsReadFaultOrLost, Misses};

use blazes_commands::outcome_of;
use blazes_words::{Request, request_of};
use bloom_eval::Component;
use blz_outside::{Files, Sink};
use command_checks::{Reply, Status, conclusion, line};
use std::alloc::{AllocError, Global};

const USAGE: &str =
    "usage: blazes label|derive|plan TOPOLOGY | run TOPOLOGY DATA SCHEDULE | make TOPOLOGY DATA [--seed N] | soak [--seed N] [--count N] | shard TOPOLOGY COMPONENT COLUMN BOUND.. | restart TOPOLOGY DATA SCHEDULE | witness TOPOLOGY DATA SCHEDULE SCHEDULE | why TOPOLOGY DATA SCHEDULE STREAM REPLICA INDEX\n";

fn answer<F: Files>(
    alloc: Global,
    request: Request<'_>,
    files: &mut F,
    bench: &mut Vec<Box<dyn Component>>,
) -> Result<Reply, AllocError>
    requires { IsWithin (asked_by request) }
    ensures answered { IfOk result (λ reply. IsReply (Some (asked_by request.entry))
        (files_states (source (F.held files.old) (F.steady files.old) (F.faults files.old))
        (source (F.held files.new) (F.steady files.new) (F.faults files.new)))
        (bench_states (map (λ b. kind b) bench.old.items) (map (λ b. kind b) bench.new.items)
        (map (λ b. program b) bench.new.items) (map (λ b. kept b) bench.new.items))
        (answer_of reply)) }
    ensures kinds { IfOk result (λ reply. HasSameKinds
        (bench_states (map (λ b. kind b) bench.old.items) (map (λ b. kind b) bench.new.items)
        (map (λ b. program b) bench.new.items) (map (λ b. kept b) bench.new.items))) }
{
    let outcome = outcome_of(alloc, request, files, bench);
    conclusion(alloc, outcome)
}

fn usage_reply(alloc: Global) -> Result<Reply, AllocError>
    ensures { IfOk result (λ reply. answer_of reply ≡ record { status = Status.Usage; text = usage_line }) }
{
    Ok(Reply {
        status: Status::Usage,
        text: line(alloc, USAGE)?,
    })
}

fn reply_to<F: Files>(
    alloc: Global,
    words: &[String],
    files: &mut F,
    bench: &mut Vec<Box<dyn Component>>,
) -> Result<Reply, AllocError>
    ensures reply { IfOk result (λ reply. IsReply (request_of (map string_bytes words.now))
        (files_states (source (F.held files.old) (F.steady files.old) (F.faults files.old))
        (source (F.held files.new) (F.steady files.new) (F.faults files.new)))
        (bench_states (map (λ b. kind b) bench.old.items) (map (λ b. kind b) bench.new.items)
        (map (λ b. program b) bench.new.items) (map (λ b. kept b) bench.new.items))
        (answer_of reply)) }
    ensures kinds { IfOk result (λ reply. HasSameKinds
        (bench_states (map (λ b. kind b) bench.old.items) (map (λ b. kind b) bench.new.items)
        (map (λ b. program b) bench.new.items) (map (λ b. kept b) bench.new.items))) }
{
    match request_of(alloc, words)? {
        Some(request) => answer(alloc, request, files, bench),
        None => usage_reply(alloc),
    }
}

fn say<K: Sink>(out: &mut K, status: Status, text: &[u8]) -> Status
    ensures { IsSaid
        (sink_states (K.written out.old) (K.written out.new) (K.room out.old) (K.room out.new)
        (K.faults out.old) (K.faults out.new))
        status text.now result }
{
    match out.put(text) {
        Ok(()) => status,
        Err(_) => Status::WriteFault,
    }
}

/// Answers to the words after the program's name: reads the files that they name and writes one
/// text to `out`. Instances run in shells of the bench, which go back to its end. Memory may be wanting
/// at any point before that, and then nothing is written.
pub fn blazes<F: Files, K: Sink>(
    alloc: Global,
    words: &[String],
    files: &mut F,
    out: &mut K,
    bench: &mut Vec<Box<dyn Component>>,
) -> Status
    ensures outcome { IsOutcome (map string_bytes words.now)
        (files_states (source (F.held files.old) (F.steady files.old) (F.faults files.old))
        (source (F.held files.new) (F.steady files.new) (F.faults files.new)))
        (bench_states (map (λ b. kind b) bench.old.items) (map (λ b. kind b) bench.new.items)
        (map (λ b. program b) bench.new.items) (map (λ b. kept b) bench.new.items))
        (sink_states (K.written out.old) (K.written out.new) (K.room out.old) (K.room out.new)
        (K.faults out.old) (K.faults out.new))
        result }

    // The bench keeps as many shells of each kind.
    ensures bench { result ≢ Status.NoMemory → HasSameKinds
        (bench_states (map (λ b. kind b) bench.old.items) (map (λ b. kind b) bench.new.items)
        (map (λ b. program b) bench.new.items) (map (λ b. kept b) bench.new.items)) }

    // Usage comes exactly where the words ask for nothing that is built.
    ensures usage { result ≡ Status.Usage → request_of (map string_bytes words.now) ≡ None }
    ensures unmatched { request_of (map string_bytes words.now) ≡ None → IsUsageOrLost result }

    // ReadFault comes only where the count of the files' faults rose, and where it is greater no
    // answer but a lost one stands in its place.
    ensures read { result ≡ Status.ReadFault → Rose (F.faults files.old) (F.faults files.new) }
    ensures read_counted { F.faults files.old < F.faults files.new → IsReadFaultOrLost result }

    // A steady source gives no ReadFault where it holds each name that the order of checks reaches,
    // and no answer but ReadFault or a lost one where it doesn't.
    ensures steady_held { IsTrue (F.steady files.old) → IfSome (F.held files.old)
        (λ held. ¬ Misses (map (λ b. kind b) bench.old.items) held (map string_bytes words.now) → result ≢ Status.ReadFault) }
    ensures steady_absent { IsTrue (F.steady files.old) → IfSome (F.held files.old)
        (λ held. Misses (map (λ b. kind b) bench.old.items) held (map string_bytes words.now) → IsReadFaultOrLost result) }

    // WriteFault comes only where the count of the sink's faults rose, and always where it is greater.
    ensures write { result ≡ Status.WriteFault → Rose (K.faults out.old) (K.faults out.new) }
    ensures write_counted { K.faults out.old < K.faults out.new → result ≡ Status.WriteFault }
{
    match reply_to(alloc, words, files, bench) {
        Ok(reply) => say(out, reply.status, &reply.text),
        Err(_) => Status::NoMemory,
    }
}
