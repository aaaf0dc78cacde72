//! The text of `derive`.
ghost use Rattle.std.specs.Prelude.{◌≡◌, ◌<◌, ◌++◌, IfOk, OnOk, length};
ghost use Rattle.std.specs.List.{flat_map};
ghost use Rattle.blz_value.specs.NumberSets.{below};
ghost use Rattle.topo_forms.specs.View as view;
ghost use Rattle.report_lines.specs.Reports.{view_in, labels_in};
ghost use Rattle.report_lines.specs.DeriveText as spec;

use crate::component::push_component;
use crate::line::{Word, push_line};
use crate::report::{Report, label_word};
use label_walk::Labels;
use std::alloc::{AllocError, Global};
use topo_forms::Valid;

fn push_source(report: &Report<'_>, stream: u32, text: &mut Vec<u8>) -> Result<(), AllocError>
    requires { stream < length (view_in report.now).streams }
    ensures { OnOk result (text.new.items ≡ text.old.items ++ spec.source_line (view_in report.now) (labels_in report.now) stream) }
{
    let name = Word::Plain(report.valid.stream_name(stream).as_str());
    let label = label_word(report.valid.attr_names(), report.label(stream));
    push_line(report.alloc, &[Word::Plain("source"), name, label], text)
}

#[tactic(auto, using(label_walk::proofs::Loops::below_steps))]
fn push_sources(report: &Report<'_>, text: &mut Vec<u8>) -> Result<(), AllocError>
    ensures { OnOk result (text.new.items ≡ text.old.items ++ flat_map (spec.source_line (view_in report.now) (labels_in report.now)) (below (view.source_count (view_in report.now)))) }
{
    for stream in 0..report.valid.source_count() {
        push_source(report, stream, text)?;
    }
    Ok(())
}

#[tactic(auto, using(label_walk::proofs::Loops::below_steps))]
fn push_components(report: &Report<'_>, text: &mut Vec<u8>) -> Result<(), AllocError>
    ensures { OnOk result (text.new.items ≡ text.old.items ++ flat_map (spec.component_lines (view_in report.now) (labels_in report.now)) (view.component_numbers (view_in report.now))) }
{
    for component in 0..report.valid.component_count() {
        push_component(report, component, text)?;
    }
    Ok(())
}

/// The text of `derive`: the sources with their labels, and then each component with its paths, what
/// it reads and by which rule, and the labels of its outputs.
pub fn derive_text(alloc: Global, valid: &Valid, labels: &Labels) -> Result<Vec<u8>, AllocError>
    requires { length labels.now ≡ length valid.now.view.streams }
    ensures { IfOk result (λ text. text.items ≡ spec.derive_text valid.now.view labels.now) }
{
    let report = Report {
        alloc,
        valid,
        labels,
    };
    let mut text = Vec::new(alloc);
    push_sources(&report, &mut text)?;
    push_components(&report, &mut text)?;
    Ok(text)
}
