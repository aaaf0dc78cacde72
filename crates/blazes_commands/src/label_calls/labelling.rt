//! The commands that label a topology.
ghost use Rattle.std.specs.Prelude.{IfOk};
ghost use Rattle.confluence.specs.Sound.{Sound, RestartSound};
ghost use Rattle.label_walk.specs.Labels.{AreLabels};
ghost use Rattle.report_lines.specs.DeriveText.{derive_text as derivation};
ghost use Rattle.report_lines.specs.LabelText.{label_text as listing};
ghost use Rattle.command_checks.specs.Checks.{valid_topology};
ghost use Rattle.command_checks.specs.Ran.{answer_of};
ghost use Rattle.blazes_commands.specs.Labels.Answers.{HasLabels};
ghost use Rattle.blazes_commands.specs.Labels.Replies.{RepliesOf};
ghost use Rattle.command_checks.specs.Ends.{files_states, source};

use blz_outside::Files;
use command_checks::{Reply, Stop, done, valid_topology};
use confluence::{region_law, restart_law};
use label_walk::{Labels, labels};
use report_lines::{derive_text, label_text};
use std::alloc::{AllocError, Global};
use topo_forms::Valid;

/// The labels of a topology, which hold in every complete execution.
pub fn sound_labels(alloc: Global, valid: &Valid) -> Result<Labels, AllocError>
    ensures rules { IfOk result (λ labels. AreLabels valid.now.view labels) }
    ensures sound { IfOk result (λ labels. Sound valid.now.view labels) }
    ensures restarts { IfOk result (λ labels. RestartSound valid.now.view labels) }
{
    // The next three are there for the proof alone.
    valid.known();
    region_law();
    restart_law();
    labels(alloc, valid)
}

fn listed(alloc: Global, valid: &Valid) -> Result<Reply, AllocError>
    ensures { IfOk result (λ reply. HasLabels listing valid.now.view (answer_of reply)) }
{
    let labels = sound_labels(alloc, valid)?;
    Ok(done(label_text(alloc, valid, &labels)?))
}

fn derived(alloc: Global, valid: &Valid) -> Result<Reply, AllocError>
    ensures { IfOk result (λ reply. HasLabels derivation valid.now.view (answer_of reply)) }
{
    let labels = sound_labels(alloc, valid)?;
    Ok(done(derive_text(alloc, valid, &labels)?))
}

/// The labels of the topology in the file of this name.
pub fn label<F: Files>(alloc: Global, name: &str, files: &mut F) -> Result<Reply, Stop>
    ensures { RepliesOf (λ seen. HasLabels listing seen.view)
        (files_states (source (F.held files.old) (F.steady files.old) (F.faults files.old))
        (source (F.held files.new) (F.steady files.new) (F.faults files.new)))
        result (valid_topology name.now) }
{
    let valid = valid_topology(alloc, name, files)?;
    Ok(listed(alloc, &valid)?)
}

/// How the labels of the topology in the file of this name come about.
pub fn derive<F: Files>(alloc: Global, name: &str, files: &mut F) -> Result<Reply, Stop>
    ensures { RepliesOf (λ seen. HasLabels derivation seen.view)
        (files_states (source (F.held files.old) (F.steady files.old) (F.faults files.old))
        (source (F.held files.new) (F.steady files.new) (F.faults files.new)))
        result (valid_topology name.now) }
{
    let valid = valid_topology(alloc, name, files)?;
    Ok(derived(alloc, &valid)?)
}
