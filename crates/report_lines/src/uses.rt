//! The lines of uses: what a component reads at its ports, and by which rule.
ghost use Rattle.std.specs.Prelude.{◌≡◌, ◌<◌, ◌++◌, OnOk, Some, length};
ghost use Rattle.std.specs.List.{flat_map};
ghost use Rattle.topo_forms.specs.Dependencies as dependencies;
ghost use Rattle.topo_forms.specs.Regions.{regions};
ghost use Rattle.topo_forms.specs.View as view;
ghost use Rattle.label_walk.specs.Paths.{AreInputs, region_at};
ghost use Rattle.report_lines.specs.Reports.{view_in, labels_in};
ghost use Rattle.report_lines.specs.Code.Uses as code;
ghost use Rattle.report_lines.specs.DeriveText as spec;

use crate::line::{Word, push_inner_line};
use crate::report::{Report, label_word, note_word};
use bloom_forms::{Mode, Note};
use blz_value::{Attrs, Fd};
use label_rules::{Label, PathLabel, gate_read, label_read, pass_path};
use label_walk::{is_order, port_attrs, region_inputs, region_note, usable_fds};
use std::alloc::AllocError;
use topo_forms::goes_to;

/// How a component reads what comes into a port: the note of the path, the columns of the port, its
/// mode, and the dependencies that it can use.
#[derive(Clone, Copy)]
pub(crate) struct Reading<'a> {
    note: Note,
    columns: Attrs,
    mode: Mode,
    fds: &'a [Fd],
}

fn rule_word(label: Label, path: PathLabel) -> &'static str
    ensures { result.now ≡ spec.rule_word label path }
{
    match (label, path) {
        (Label::Async | Label::Run, PathLabel::NdRead(_, _)) => "rule 1",
        (Label::Async | Label::Run, PathLabel::Taint) => "rule 2",
        (Label::Inst, PathLabel::Taint) => "rule 3",
        (Label::Seal(_), PathLabel::Taint) => "rule 4",
        (Label::Seal(_), PathLabel::NdRead(_, _)) => "rule 5",
        _ => "kept",
    }
}

// The note with its gate as it is read.
fn note_read(reading: &Reading<'_>) -> Note
    ensures { result ≡ spec.note_read reading.now.mode reading.now.columns reading.now.note }
{
    match reading.note {
        Note::OR(gate) => Note::OR(gate_read(reading.mode, reading.columns, gate)),
        Note::OW(gate) => Note::OW(gate_read(reading.mode, reading.columns, gate)),
        other => other,
    }
}

fn push_use(
    report: &Report<'_>,
    reading: &Reading<'_>,
    stream: u32,
    end: (u32, u32),
    text: &mut Vec<u8>,
) -> Result<(), AllocError>
    requires stream { stream < length (view_in report.now).streams }
    requires component { end.0 < length (view_in report.now).components }
    requires port { end.1 < length (view.component_at (view_in report.now) end.0).ports }
    ensures { OnOk result (text.new.items ≡ text.old.items ++ code.use_line report.now reading.now (stream, end)) }
{
    let names = report.valid.attr_names();
    let label = report.label(stream);
    let path = pass_path(
        label,
        reading.note,
        reading.columns,
        reading.mode,
        reading.fds,
    );
    let words = [
        Word::Plain("use"),
        Word::Plain(report.valid.stream_name(stream).as_str()),
        label_word(names, label),
        Word::Plain(report.valid.port_name(end.0, end.1).as_str()),
        note_word(names, note_read(reading)),
        Word::Plain(rule_word(label_read(reading.mode, label), path)),
    ];
    push_inner_line(report.alloc, &words, text)
}

#[tactic(auto, using(label_walk::proofs::Loops::below_steps))]
fn push_port_uses(
    report: &Report<'_>,
    reading: &Reading<'_>,
    component: u32,
    port: u32,
    text: &mut Vec<u8>,
) -> Result<(), AllocError>
    requires component { component < length (view_in report.now).components }
    requires port { port < length (view.component_at (view_in report.now) component).ports }
    ensures { OnOk result (text.new.items ≡ text.old.items ++ code.port_uses report.now reading.now component port) }
{
    for stream in 0..report.valid.stream_count() {
        if goes_to(report.valid, component, port, stream) {
            push_use(report, reading, stream, (component, port), text)?;
        }
    }
    Ok(())
}

fn push_note_uses(
    report: &Report<'_>,
    fds: &[Fd],
    component: u32,
    port: u32,
    note: Note,
    text: &mut Vec<u8>,
) -> Result<(), AllocError>
    requires fds { fds.now ≡ dependencies.usable_fds (view_in report.now) component }
    requires component { component < length (view_in report.now).components }
    requires port { port < length (view.component_at (view_in report.now) component).ports }
    ensures { OnOk result (text.new.items ≡ text.old.items ++ spec.port_uses (view_in report.now) (labels_in report.now) component port (Some note)) }
{
    let reading = Reading {
        note,
        columns: port_attrs(report.valid, component, port),
        mode: report.valid.mode(component),
        fds,
    };
    push_port_uses(report, &reading, component, port, text)
}

#[tactic(auto, using(label_walk::proofs::Loops::below_steps))]
fn push_output_uses(
    report: &Report<'_>,
    component: u32,
    output: u32,
    text: &mut Vec<u8>,
) -> Result<(), AllocError>
    requires component { component < length (view_in report.now).components }
    requires output { output < length (view.component_at (view_in report.now) component).outputs }
    ensures { OnOk result (text.new.items ≡ text.old.items ++ spec.output_uses (view_in report.now) (labels_in report.now) component output) }
{
    let valid = report.valid;
    let fds = usable_fds(report.alloc, valid, component)?;
    for port in 0..valid.port_count(component) {
        if let Some(note) = valid.note(component, port, output) {
            push_note_uses(report, &fds, component, port, note, text)?;
        }
    }
    Ok(())
}

/// Appends the uses of an output outside cycles. Those of an Order component aren't told.
pub(crate) fn push_uses(
    report: &Report<'_>,
    component: u32,
    output: u32,
    text: &mut Vec<u8>,
) -> Result<(), AllocError>
    requires component { component < length (view_in report.now).components }
    requires output { output < length (view.component_at (view_in report.now) component).outputs }
    ensures { OnOk result (text.new.items ≡ text.old.items ++ code.uses_unless_ordered report.now component output) }
{
    if is_order(report.valid, component) {
        return Ok(());
    }
    push_output_uses(report, component, output, text)
}

fn push_inputs(
    report: &Report<'_>,
    reading: &Reading<'_>,
    inputs: &[(u32, (u32, u32))],
    text: &mut Vec<u8>,
) -> Result<(), AllocError>
    requires { AreInputs (view_in report.now) inputs.now }
    ensures { OnOk result (text.new.items ≡ text.old.items ++ flat_map (code.use_line report.now reading.now) inputs.now) }
{
    for (stream, end) in inputs {
        push_use(report, reading, *stream, *end, text)?;
    }
    Ok(())
}

/// Appends the uses of a cyclic region, which is read as one node.
pub(crate) fn push_region_uses(
    report: &Report<'_>,
    region: u32,
    text: &mut Vec<u8>,
) -> Result<(), AllocError>
    requires { region < length (regions (view_in report.now)) }
    ensures { OnOk result (text.new.items ≡ text.old.items ++ spec.region_uses (view_in report.now) (labels_in report.now) (region_at (view_in report.now) region)) }
{
    let reading = Reading {
        note: region_note(report.alloc, report.valid, region)?,
        columns: Attrs::from_bits(0),
        mode: Mode::Free,
        fds: &[],
    };
    let inputs = region_inputs(report.alloc, report.valid, region)?;
    push_inputs(report, &reading, &inputs, text)
}
