//! The command that splits a component into copies.
ghost use Rattle.std.specs.Prelude.{◌≡◌, IfOk, Some};
ghost use Rattle.report_lines.specs.declared.refusal.Refusal.TheVariants as refusal;
ghost use Rattle.topo_forms.specs.Allowed.{IsAllowed};
ghost use Rattle.blazes_commands.specs.Labels.Shards as check;
ghost use Rattle.command_checks.specs.Found.{HasModules, found_shown};
ghost use Rattle.command_checks.specs.Ran.{Gives, answer_of};
ghost use Rattle.blazes_words.specs.Requests.{shard_shown};
ghost use Rattle.blazes_commands.specs.Labels.Answers.{HasShards};
ghost use Rattle.blazes_commands.specs.Labels.Replies.{RepliesOf};
ghost use Rattle.command_checks.specs.Ends.{files_states, source};
ghost use Rattle.blazes_words.specs.Numbers.{AreFew};

use crate::label_calls::shard_text::shard_text;
use blazes_words::ShardWords;
use blz_outside::Files;
use blz_value::Str;
use command_checks::{Reply, Stop, WithModules, done, stop_at, with_modules};
use report_lines::{Refusal, ShardKind};
use shard_route::{ShardFault, Sharded};
use std::alloc::{AllocError, Global};
use topo_read::write;

fn kind(kind: ShardKind) -> Option<Refusal>
    ensures { result ≡ Some (refusal.Shard kind) }
{
    Some(Refusal::Shard(kind))
}

// The refusal of copies; want of memory is none.
fn shard_refusal(fault: ShardFault) -> Option<Refusal>
    ensures { result ≡ check.shard_refusal fault }
{
    match fault {
        ShardFault::NoComponent => kind(ShardKind::NoComponent),
        ShardFault::NoModule => kind(ShardKind::NoModule),
        ShardFault::InCycle => kind(ShardKind::InCycle),
        ShardFault::NoColumn => kind(ShardKind::NoColumn),
        ShardFault::NotInGate => kind(ShardKind::NotInGate),
        ShardFault::TooDeep => kind(ShardKind::TooDeep),
        ShardFault::Names => kind(ShardKind::Names),
        ShardFault::Topology(fault) => Some(Refusal::Topology(fault)),
        ShardFault::NoMemory => None,
    }
}

// The copies that are asked for, in the topology where they stand in the component's place.
fn copies(alloc: Global, found: &WithModules, words: &ShardWords<'_>) -> Result<Sharded, Stop>
    requires modules { HasModules (found_shown found.now) }
    requires few { AreFew words.now.bounds.items }
    ensures gives { Gives (λ sharded. sharded) result (check.copies_in (check.copies_of (found_shown found.now) (shard_shown words.now))) }
    ensures allowed { IfOk result (λ sharded. IsAllowed sharded.topology) }
    ensures format { IfOk result (λ sharded. sharded.topology.format ≡ 2) }
{
    let topology = found.valid.topology();
    let component = Str::from_text(alloc, words.component)?;
    let column = Str::from_text(alloc, words.column)?;
    let (modules, bounds) = (&found.modules, &words.bounds);
    match shard_route::shard(alloc, topology, modules, &component, &column, bounds) {
        Ok(sharded) => Ok(sharded),
        Err(fault) => Err(stop_at(alloc, shard_refusal(fault))),
    }
}

fn written(alloc: Global, sharded: &Sharded) -> Result<Reply, AllocError>
    requires allowed { IsAllowed sharded.now.topology }
    requires format { sharded.now.topology.format ≡ 2 }
    ensures { IfOk result (λ reply. HasShards sharded.now (answer_of reply)) }
{
    let topology = write(alloc, &sharded.topology)?;
    Ok(done(shard_text(alloc, &topology, sharded.files.as_slice())?))
}

/// The topology in a file with copies of a component in its place, and their modules.
pub fn shard<F: Files>(alloc: Global, words: &ShardWords<'_>, files: &mut F) -> Result<Reply, Stop>
    requires { AreFew words.now.bounds.items }
    ensures { RepliesOf HasShards
        (files_states (source (F.held files.old) (F.steady files.old) (F.faults files.old))
        (source (F.held files.new) (F.steady files.new) (F.faults files.new)))
        result (check.shards (shard_shown words.now)) }
{
    let found = with_modules(alloc, words.topology, files)?;
    let sharded = copies(alloc, &found, words)?;
    Ok(written(alloc, &sharded)?)
}
