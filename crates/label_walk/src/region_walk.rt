//! The labels of a valid topology, region by region: each region comes after those that feed it, so
//! the labels that go into it are known when its own are made.
ghost use Rattle.std.specs.Prelude.{◌≡◌, ◌<◌, IfOk, Some, length};
ghost use Rattle.topo_forms.specs.Regions.{regions};
ghost use Rattle.topo_forms.specs.View as view;
ghost use Rattle.label_walk.specs.Code.Remade as code;
ghost use Rattle.label_walk.specs.Labels as spec;
ghost use Rattle.label_walk.specs.Paths.{region_at};

use crate::cycles::{is_replicated, region_paths};
use crate::label_list::Labels;
use crate::paths::{is_order, label_at, output_paths, usable_fds};
use crate::sets::is_in;
use bloom_forms::Mode;
use blz_value::Attrs;
use label_rules::{Label, reconcile};
use std::alloc::{AllocError, Global};
use topo_forms::{Valid, carries};

#[tactic(auto, using(crate::proofs::Labelling::SourceLemmas::source_carries))]
fn source_label(valid: &Valid, stream: u32) -> Label
    requires stream { stream < length valid.now.view.streams }
    requires source { view.origin_of valid.now.view stream ≡ None }
    ensures { result ≡ spec.source_label valid.now.view stream }
{
    valid.known();
    match carries(valid, stream) {
        Some(key) => Label::Seal(key),
        None => Label::Async,
    }
}

fn first_label(valid: &Valid, stream: u32) -> Label
    requires { stream < length valid.now.view.streams }
    ensures { result ≡ spec.first_label valid.now.view stream (view.origin_of valid.now.view stream) }
{
    match valid.origin(stream) {
        None => source_label(valid, stream),
        Some(_) => Label::Async,
    }
}

#[tactic(auto, using(crate::proofs::Loops::below_steps))]
fn first_labels(alloc: Global, valid: &Valid) -> Result<Vec<Label>, AllocError>
    ensures { IfOk result (λ labels. labels.items ≡ spec.first_labels valid.now.view) }
{
    let mut labels = Vec::new(alloc);
    for stream in 0..valid.stream_count() {
        labels.push(first_label(valid, stream))?;
    }
    Ok(labels)
}

// Seal of a key is Async unless the stream carries the key.
fn as_carried(valid: &Valid, stream: u32, label: Label) -> Label
    requires { stream < length valid.now.view.streams }
    ensures { result ≡ spec.as_carried valid.now.view stream label }
{
    let Label::Seal(key) = label else {
        return label;
    };
    match carries(valid, stream) {
        Some(own) if own.bits() == key.bits() => label,
        _ => Label::Async,
    }
}

// The label of an output stream outside cycles.
fn alone_label(
    alloc: Global,
    valid: &Valid,
    labels: &[Label],
    stream: u32,
    component: u32,
    output: u32,
) -> Result<Label, AllocError>
    requires stream { stream < length valid.now.view.streams }
    requires component { component < length valid.now.view.components }
    requires output { output < length (view.component_at valid.now.view component).outputs }
    ensures { IfOk result (λ label. label ≡ code.alone_label valid.now.view labels.now stream (component, output)) }
{
    if is_order(valid, component) {
        return Ok(Label::Run);
    }
    let fds = usable_fds(alloc, valid, component)?;
    let paths = output_paths(alloc, valid, labels, component, output, &fds)?;
    let replicated = valid.replicas(component) > 1;
    let label = reconcile(&paths, valid.mode(component), replicated, &fds);
    Ok(as_carried(valid, stream, label))
}

/// The label of a region as one node, where the streams have these labels.
pub fn region_label(
    alloc: Global,
    valid: &Valid,
    labels: &[Label],
    region: u32,
) -> Result<Label, AllocError>
    requires { region < length (regions valid.now.view) }
    ensures { IfOk result (λ label. label ≡ spec.region_label valid.now.view labels.now (region_at valid.now.view region)) }
{
    let paths = region_paths(alloc, valid, labels, region)?;
    let replicated = is_replicated(alloc, valid, region)?;
    Ok(reconcile(&paths, Mode::Free, replicated, &[]))
}

// The label of a region where it is cyclic.
fn cycle_label(
    alloc: Global,
    valid: &Valid,
    labels: &[Label],
    region: u32,
) -> Result<Option<Label>, AllocError>
    requires { region < length (regions valid.now.view) }
    ensures { IfOk result (λ label. label ≡ code.cycle_label valid.now.view labels.now region) }
{
    if !valid.is_cyclic(region) {
        return Ok(None);
    }
    Ok(Some(region_label(alloc, valid, labels, region)?))
}

fn remade_label(
    alloc: Global,
    valid: &Valid,
    labels: &[Label],
    set: Attrs,
    cycle: Option<Label>,
    stream: u32,
) -> Result<Label, AllocError>
    requires { stream < length valid.now.view.streams }
    ensures { IfOk result (λ label. label ≡ code.remade_label valid.now.view labels.now set.bits cycle stream (view.origin_of valid.now.view stream)) }
{
    valid.known();
    match valid.origin(stream) {
        Some((component, output)) if is_in(component, set) => match cycle {
            Some(label) => Ok(label),
            None => alone_label(alloc, valid, labels, stream, component, output),
        },
        _ => Ok(label_at(labels, stream)),
    }
}

#[tactic(auto, using(crate::proofs::Loops::below_steps))]
fn remade_labels(
    alloc: Global,
    valid: &Valid,
    labels: &[Label],
    set: Attrs,
    cycle: Option<Label>,
) -> Result<Vec<Label>, AllocError>
    ensures { IfOk result (λ remade. remade.items ≡ code.remade_labels valid.now.view labels.now set.bits cycle) }
{
    let mut remade = Vec::new(alloc);
    for stream in 0..valid.stream_count() {
        remade.push(remade_label(alloc, valid, labels, set, cycle, stream)?)?;
    }
    Ok(remade)
}

// The labels, those of the streams from a region's members made anew.
#[tactic(auto, using(crate::proofs::Labelling::RemadeLemmas::remade_all))]
fn with_region(
    alloc: Global,
    valid: &Valid,
    labels: &[Label],
    region: u32,
) -> Result<Vec<Label>, AllocError>
    requires { region < length (regions valid.now.view) }
    ensures { IfOk result (λ remade. remade.items ≡ spec.with_region valid.now.view labels.now (region_at valid.now.view region)) }
{
    valid.known();
    let cycle = cycle_label(alloc, valid, labels, region)?;
    remade_labels(alloc, valid, labels, valid.region_members(region), cycle)
}

/// The labels of all streams of a valid topology: the one list that the rules allow. A path costs a
/// closure under the dependencies, and each stream is looked at once for each region and port.
pub fn labels(alloc: Global, valid: &Valid) -> Result<Labels, AllocError>
    ensures { IfOk result (λ labels. spec.AreLabels valid.now.view labels) }
{
    valid.known();
    let mut labels = first_labels(alloc, valid)?;
    for region in 0..valid.region_count() {
        labels = with_region(alloc, valid, &labels, region)?;
    }
    Ok(Labels::from_vec(labels))
}
