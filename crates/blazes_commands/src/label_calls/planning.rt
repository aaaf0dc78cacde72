//! The command that plans a topology.
ghost use Rattle.std.specs.Prelude.{IfOk, Ok};
ghost use Rattle.topo_read.specs.Reading.{IsReading};
ghost use Rattle.command_checks.specs.Checks.{valid_topology};
ghost use Rattle.command_checks.specs.Ran.{answer_of};
ghost use Rattle.blazes_commands.specs.Labels.Answers.{HasPlan};
ghost use Rattle.blazes_commands.specs.Labels.Replies.{RepliesOf};
ghost use Rattle.command_checks.specs.Ends.{files_states, source};

use blz_outside::Files;
use command_checks::{Reply, Stop, done, valid_topology};
use std::alloc::{AllocError, Global};
use topo_forms::Valid;
use topo_read::{topology_of, write};

// The text of a file that is read as this topology, in format 2.
fn text_of(alloc: Global, planned: &Valid) -> Result<Vec<u8>, AllocError>
    ensures { IfOk result (λ text. IsReading text.items (Ok (record planned.now.topology { format = 2 }))) }
{
    let topology = topology_of(alloc, planned)?;
    write(alloc, &topology)
}

fn planned(alloc: Global, valid: &Valid) -> Result<Reply, AllocError>
    ensures { IfOk result (λ reply. HasPlan valid.now (answer_of reply)) }
{
    let planned = coord_synth::plan(alloc, valid)?;
    Ok(done(text_of(alloc, &planned)?))
}

/// The plan of the topology in the file of this name, as a file of a topology.
pub fn plan<F: Files>(alloc: Global, name: &str, files: &mut F) -> Result<Reply, Stop>
    ensures { RepliesOf HasPlan
        (files_states (source (F.held files.old) (F.steady files.old) (F.faults files.old))
        (source (F.held files.new) (F.steady files.new) (F.faults files.new)))
        result (valid_topology name.now) }
{
    let valid = valid_topology(alloc, name, files)?;
    Ok(planned(alloc, &valid)?)
}
