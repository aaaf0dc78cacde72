//! The lines of a component: its paths, and its outputs behind their uses.
ghost use Rattle.std.specs.Prelude.{◌≡◌, ◌<◌, ◌++◌, IfOk, OnOk, IfSome, length, map};
ghost use Rattle.topo_forms.specs.Regions.{regions, region_set};
ghost use Rattle.topo_forms.specs.View as view;
ghost use Rattle.label_walk.specs.Paths.{AreComponents, IsCycleOf, region_at};
ghost use Rattle.report_lines.specs.Code.Components as code;
ghost use Rattle.report_lines.specs.Lines.{word_text};
ghost use Rattle.report_lines.specs.Reports.{view_in, labels_in};
ghost use Rattle.report_lines.specs.DeriveText as spec;

use crate::line::{Word, push_inner_line, push_line};
use crate::report::{Report, label_word, mode_word, note_word};
use crate::uses::{push_region_uses, push_uses};
use label_rules::is_protected;
use label_walk::{cycle_of, is_order, output_paths, region_members, usable_fds};
use std::alloc::AllocError;

fn push_path_line(
    report: &Report<'_>,
    component: u32,
    port: u32,
    output: u32,
    text: &mut Vec<u8>,
) -> Result<(), AllocError>
    requires component { component < length (view_in report.now).components }
    requires port { port < length (view.component_at (view_in report.now) component).ports }
    requires output { output < length (view.component_at (view_in report.now) component).outputs }
    ensures { OnOk result (text.new.items ≡ text.old.items ++ code.path_line report.now component port output) }
{
    let valid = report.valid;
    let Some(note) = valid.note(component, port, output) else {
        return Ok(());
    };
    let words = [
        Word::Plain("path"),
        Word::Plain(valid.port_name(component, port).as_str()),
        Word::Plain(valid.output_name(component, output).as_str()),
        note_word(valid.attr_names(), note),
    ];
    push_inner_line(report.alloc, &words, text)
}

#[tactic(auto, using(label_walk::proofs::Loops::below_steps))]
fn push_port_lines(
    report: &Report<'_>,
    component: u32,
    port: u32,
    text: &mut Vec<u8>,
) -> Result<(), AllocError>
    requires component { component < length (view_in report.now).components }
    requires port { port < length (view.component_at (view_in report.now) component).ports }
    ensures { OnOk result (text.new.items ≡ text.old.items ++ code.port_lines report.now component port) }
{
    for output in 0..report.valid.output_count(component) {
        push_path_line(report, component, port, output, text)?;
    }
    Ok(())
}

#[tactic(auto, using(label_walk::proofs::Loops::below_steps))]
fn push_path_lines(
    report: &Report<'_>,
    component: u32,
    text: &mut Vec<u8>,
) -> Result<(), AllocError>
    requires { component < length (view_in report.now).components }
    ensures { OnOk result (text.new.items ≡ text.old.items ++ spec.path_lines (view_in report.now) component) }
{
    for port in 0..report.valid.port_count(component) {
        push_port_lines(report, component, port, text)?;
    }
    Ok(())
}

fn push_word_if(here: bool, word: &'static str, words: &mut Vec<Word<'_>>) -> Result<(), AllocError>
    ensures { OnOk result (map word_text words.new.items ≡ map word_text words.old.items ++ spec.word_if here word.now) }
{
    if here {
        words.push(Word::Plain(word))?;
    }
    Ok(())
}

fn is_protected_output(report: &Report<'_>, component: u32, output: u32) -> Result<bool, AllocError>
    requires component { component < length (view_in report.now).components }
    requires output { output < length (view.component_at (view_in report.now) component).outputs }
    ensures { IfOk result (λ protected. protected ≡ code.is_protected_output report.now component output) }
{
    let valid = report.valid;
    let fds = usable_fds(report.alloc, valid, component)?;
    let labels = report.labels.as_slice();
    let paths = output_paths(report.alloc, valid, labels, component, output, &fds)?;
    Ok(is_protected(&paths, valid.mode(component), &fds))
}

fn push_out_line(
    report: &Report<'_>,
    component: u32,
    output: u32,
    stream: u32,
    text: &mut Vec<u8>,
) -> Result<(), AllocError>
    requires component { component < length (view_in report.now).components }
    requires output { output < length (view.component_at (view_in report.now) component).outputs }
    requires stream { stream < length (view_in report.now).streams }
    ensures { OnOk result (text.new.items ≡ text.old.items ++ spec.out_line (view_in report.now) (labels_in report.now) component output stream) }
{
    let valid = report.valid;
    let name = Word::Plain(valid.stream_name(stream).as_str());
    let label = label_word(valid.attr_names(), report.label(stream));
    let mut words = Vec::from_slice(report.alloc, &[Word::Plain("out"), name, label])?;
    push_word_if(
        is_protected_output(report, component, output)?,
        "protected",
        &mut words,
    )?;
    push_word_if(is_order(valid, component), "ordered", &mut words)?;
    push_inner_line(report.alloc, &words, text)
}

fn is_stream_of(report: &Report<'_>, component: u32, output: u32, stream: u32) -> bool
    requires { stream < length (view_in report.now).streams }
    ensures { result ≡ view.is_stream_of (view_in report.now) component output stream }
{
    match report.valid.origin(stream) {
        Some((other, there)) => component == other && output == there,
        None => false,
    }
}

#[tactic(auto, using(crate::proofs::Streams::none_further, crate::proofs::Streams::found_at))]
fn stream_of(report: &Report<'_>, component: u32, output: u32) -> Option<u32>
    ensures stream { result ≡ view.stream_of (view_in report.now) component output }
    ensures within { IfSome result (λ stream. stream < length (view_in report.now).streams) }
{
    for stream in 0..report.valid.stream_count() {
        if is_stream_of(report, component, output, stream) {
            return Some(stream);
        }
    }
    None
}

fn push_inside_output(
    report: &Report<'_>,
    component: u32,
    output: u32,
    text: &mut Vec<u8>,
) -> Result<(), AllocError>
    requires component { component < length (view_in report.now).components }
    requires output { output < length (view.component_at (view_in report.now) component).outputs }
    ensures { OnOk result (text.new.items ≡ text.old.items ++ code.inside_output report.now component output) }
{
    match stream_of(report, component, output) {
        Some(stream) => push_out_line(report, component, output, stream, text),
        None => Ok(()),
    }
}

fn push_outside_output(
    report: &Report<'_>,
    component: u32,
    output: u32,
    text: &mut Vec<u8>,
) -> Result<(), AllocError>
    requires component { component < length (view_in report.now).components }
    requires output { output < length (view.component_at (view_in report.now) component).outputs }
    ensures { OnOk result (text.new.items ≡ text.old.items ++ code.outside_output report.now component output) }
{
    let Some(stream) = stream_of(report, component, output) else {
        return Ok(());
    };
    push_uses(report, component, output, text)?;
    push_out_line(report, component, output, stream, text)
}

#[tactic(auto, using(label_walk::proofs::Loops::below_steps))]
fn push_inside_outputs(
    report: &Report<'_>,
    component: u32,
    text: &mut Vec<u8>,
) -> Result<(), AllocError>
    requires { component < length (view_in report.now).components }
    ensures { OnOk result (text.new.items ≡ text.old.items ++ code.inside_outputs report.now component) }
{
    for output in 0..report.valid.output_count(component) {
        push_inside_output(report, component, output, text)?;
    }
    Ok(())
}

#[tactic(auto, using(label_walk::proofs::Loops::below_steps))]
fn push_outside_outputs(
    report: &Report<'_>,
    component: u32,
    text: &mut Vec<u8>,
) -> Result<(), AllocError>
    requires { component < length (view_in report.now).components }
    ensures { OnOk result (text.new.items ≡ text.old.items ++ code.outside_outputs report.now component) }
{
    for output in 0..report.valid.output_count(component) {
        push_outside_output(report, component, output, text)?;
    }
    Ok(())
}

fn push_component_names<'a>(
    report: &Report<'a>,
    components: &[u32],
    words: &mut Vec<Word<'a>>,
) -> Result<(), AllocError>
    requires { AreComponents (view_in report.now) components.now }
    ensures { OnOk result (map word_text words.new.items ≡ map word_text words.old.items ++ code.component_names report.now components.now) }
{
    for component in components {
        let name = report.valid.component_name(*component);
        words.push(Word::Plain(name.as_str()))?;
    }
    Ok(())
}

fn push_cycle_line(report: &Report<'_>, region: u32, text: &mut Vec<u8>) -> Result<(), AllocError>
    requires { region < length (regions (view_in report.now)) }
    ensures { OnOk result (text.new.items ≡ text.old.items ++ spec.cycle_line (view_in report.now) (region_at (view_in report.now) region)) }
{
    let members = region_members(report.alloc, report.valid, region)?;
    let mut words = Vec::from_slice(report.alloc, &[Word::Plain("cycle")])?;
    push_component_names(report, &members, &mut words)?;
    push_inner_line(report.alloc, &words, text)
}

fn push_cycle_lines(
    report: &Report<'_>,
    component: u32,
    region: u32,
    text: &mut Vec<u8>,
) -> Result<(), AllocError>
    requires component { component < length (view_in report.now).components }
    requires region { IsCycleOf (view_in report.now) component region }
    ensures { OnOk result (text.new.items ≡ text.old.items ++ spec.cycle_lines (view_in report.now) (labels_in report.now) component (region_set (view_in report.now) component)) }
{
    push_cycle_line(report, region, text)?;
    push_region_uses(report, region, text)?;
    push_inside_outputs(report, component, text)
}

fn push_end_lines(report: &Report<'_>, component: u32, text: &mut Vec<u8>) -> Result<(), AllocError>
    requires { component < length (view_in report.now).components }
    ensures { OnOk result (text.new.items ≡ text.old.items ++ spec.end_lines (view_in report.now) (labels_in report.now) component) }
{
    match cycle_of(report.valid, component) {
        Some(region) => push_cycle_lines(report, component, region, text),
        None => push_outside_outputs(report, component, text),
    }
}

/// Appends the lines of a component.
pub(crate) fn push_component(
    report: &Report<'_>,
    component: u32,
    text: &mut Vec<u8>,
) -> Result<(), AllocError>
    requires { component < length (view_in report.now).components }
    ensures { OnOk result (text.new.items ≡ text.old.items ++ spec.component_lines (view_in report.now) (labels_in report.now) component) }
{
    let valid = report.valid;
    let words = [
        Word::Plain("component"),
        Word::Plain(valid.component_name(component).as_str()),
        mode_word(valid.attr_names(), valid.mode(component)),
        Word::Number(valid.replicas(component)),
    ];
    push_line(report.alloc, &words, text)?;
    push_path_lines(report, component, text)?;
    push_end_lines(report, component, text)
}
