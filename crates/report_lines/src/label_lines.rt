//! The text of `label`.
ghost use Rattle.std.specs.Prelude.{◌≡◌, ◌<◌, ◌++◌, IfOk, OnOk, length};
ghost use Rattle.report_lines.specs.Reports.{view_in, labels_in};
ghost use Rattle.report_lines.specs.LabelText as spec;

use crate::line::{Word, push_line};
use crate::report::{Report, label_word};
use label_walk::Labels;
use std::alloc::{AllocError, Global};
use topo_forms::Valid;

fn push_label_line(report: &Report<'_>, stream: u32, text: &mut Vec<u8>) -> Result<(), AllocError>
    requires { stream < length (view_in report.now).streams }
    ensures { OnOk result (text.new.items ≡ text.old.items ++ spec.label_line (view_in report.now) (labels_in report.now) stream) }
{
    let name = Word::Plain(report.valid.stream_name(stream).as_str());
    let label = label_word(report.valid.attr_names(), report.label(stream));
    push_line(report.alloc, &[name, label], text)
}

/// The text of `label`: each stream in order, with its label.
#[tactic(auto, using(label_walk::proofs::Loops::below_steps))]
pub fn label_text(alloc: Global, valid: &Valid, labels: &Labels) -> Result<Vec<u8>, AllocError>
    requires { length labels.now ≡ length valid.now.view.streams }
    ensures { IfOk result (λ text. text.items ≡ spec.label_text valid.now.view labels.now) }
{
    let report = Report {
        alloc,
        valid,
        labels,
    };
    let mut text = Vec::new(alloc);
    for stream in 0..valid.stream_count() {
        push_label_line(&report, stream, &mut text)?;
    }
    Ok(text)
}
