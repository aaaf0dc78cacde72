//! Regions as one node: what comes into a region from outside, and its one note.
ghost use Rattle.std.specs.Prelude.{◌≡◌, ◌<◌, ◌++◌, ℕ, IfOk, OnOk, MatchOption, false, [], fold, length, map, slice_index_or};
ghost use Rattle.std.specs.List.{filter_map, flat_map, list_any};
ghost use Rattle.bloom_forms.specs.declared.note.Note.TheVariants.{CR};
ghost use Rattle.topo_forms.specs.Regions as regions;
ghost use Rattle.topo_forms.specs.View as view;
ghost use Rattle.bloom_forms.specs.Note as notes;
ghost use Rattle.label_walk.specs.Paths as spec;
ghost use Rattle.label_walk.specs.Paths.{AreComponents, AreInputs, IsCycleOf, region_at};

use crate::paths::label_at;
use crate::sets::{is_in, members};
use bloom_forms::{Mode, Note, combine};
use blz_value::Attrs;
use label_rules::{Label, PathLabel, pass_path};
use std::alloc::{AllocError, Global};
use topo_forms::Valid;

fn is_from_outside(valid: &Valid, set: Attrs, stream: u32) -> bool
    requires { stream < length valid.now.view.streams }
    ensures { result ≡ spec.is_from_outside valid.now.view set.bits stream }
{
    match valid.origin(stream) {
        None => true,
        Some((component, _)) => !is_in(component, set),
    }
}

fn push_inputs(
    valid: &Valid,
    set: Attrs,
    stream: u32,
    inputs: &mut Vec<(u32, (u32, u32))>,
) -> Result<(), AllocError>
    requires { stream < length valid.now.view.streams }
    ensures { OnOk result (inputs.new.items ≡ inputs.old.items ++ map (λ end. (stream, end)) (spec.ends_in valid.now.view set.bits stream)) }
{
    for n in 0..valid.to_count(stream) {
        let end = valid.to(stream, n);
        if is_in(end.0, set) {
            inputs.push((stream, end))?;
        }
    }
    Ok(())
}

#[tactic(auto, using(crate::proofs::Loops::below_steps))]
fn set_inputs(
    alloc: Global,
    valid: &Valid,
    set: Attrs,
) -> Result<Vec<(u32, (u32, u32))>, AllocError>
    ensures { IfOk result (λ inputs. inputs.items ≡ spec.region_inputs valid.now.view set.bits) }
{
    let mut inputs = Vec::new(alloc);
    for stream in 0..valid.stream_count() {
        if is_from_outside(valid, set, stream) {
            push_inputs(valid, set, stream, &mut inputs)?;
        }
    }
    Ok(inputs)
}

/// The streams from outside into the members of a region, in order, each once for each component
/// and port of a member to which it goes.
pub fn region_inputs(
    alloc: Global,
    valid: &Valid,
    region: u32,
) -> Result<Vec<(u32, (u32, u32))>, AllocError>
    requires { region < length (regions.regions valid.now.view) }
    ensures inputs { IfOk result (λ inputs. inputs.items ≡ spec.region_inputs valid.now.view (region_at valid.now.view region)) }
    ensures within { IfOk result (λ inputs. AreInputs valid.now.view inputs.items) }
{
    valid.known();
    set_inputs(alloc, valid, valid.region_members(region))
}

/// The members of a region, in order.
pub fn region_members(alloc: Global, valid: &Valid, region: u32) -> Result<Vec<u32>, AllocError>
    requires { region < length (regions.regions valid.now.view) }
    ensures members { IfOk result (λ members. members.items ≡ regions.region_members valid.now.view region) }
    ensures within { IfOk result (λ members. AreComponents valid.now.view members.items) }
{
    valid.known();
    members(alloc, valid.region_members(region))
}

/// The number of the region of a component that is in a cycle, None where it is in none.
#[tactic(auto, using(crate::proofs::Labelling::RegionNumbers::number_within, crate::proofs::Labelling::RegionNumbers::is_cycle_of, crate::proofs::Labelling::RegionNumbers::no_cycle))]
pub fn cycle_of(valid: &Valid, component: u32) -> Option<u32>
    requires { component < length valid.now.view.components }
    ensures { MatchOption result (regions.is_in_cycle valid.now.view component ≡ false) (λ region. IsCycleOf valid.now.view component region) }
{
    valid.known();
    let region = valid.region(component);
    if valid.is_cyclic(region) {
        Some(region)
    } else {
        None
    }
}

// A note combined with those from a port.
#[tactic(auto, using(crate::proofs::Loops::note_steps))]
fn with_port_notes(valid: &Valid, component: u32, port: u32, note: Note) -> Note
    requires component { component < length valid.now.view.components }
    requires port { port < length (view.component_at valid.now.view component).ports }
    ensures { result ≡ fold notes.combine note (filter_map (λ n. n) (slice_index_or (view.component_at valid.now.view component).notes port [])) }
{
    valid.known();
    let mut combined = note;
    for output in 0..valid.output_count(component) {
        if let Some(other) = valid.note(component, port, output) {
            combined = combine(combined, other);
        }
    }
    combined
}

// A note combined with those of a component.
fn with_notes(valid: &Valid, component: u32, note: Note) -> Note
    requires { component < length valid.now.view.components }
    ensures { result ≡ fold notes.combine note (spec.notes_in valid.now.view component) }
{
    valid.known();
    let mut combined = note;
    for port in 0..valid.port_count(component) {
        combined = with_port_notes(valid, component, port, combined);
    }
    combined
}

fn without_gate(note: Note) -> Note
    ensures { result ≡ spec.without_gate note }
{
    match note {
        Note::OR(_) => Note::OR(Attrs::from_bits(0)),
        Note::OW(_) => Note::OW(Attrs::from_bits(0)),
        other => other,
    }
}

fn note_of_all(valid: &Valid, components: &[u32]) -> Note
    requires { AreComponents valid.now.view components.now }
    ensures { result ≡ fold notes.combine CR (flat_map (spec.notes_in valid.now.view) components.now) }
{
    let mut note = Note::CR;
    for component in components {
        note = with_notes(valid, *component, note);
    }
    note
}

/// The one note of a region: its members' notes combined, with an empty gate. It is CR where they
/// have none.
pub fn region_note(alloc: Global, valid: &Valid, region: u32) -> Result<Note, AllocError>
    requires { region < length (regions.regions valid.now.view) }
    ensures { IfOk result (λ note. note ≡ spec.region_note valid.now.view (region_at valid.now.view region)) }
{
    let members = region_members(alloc, valid, region)?;
    Ok(without_gate(note_of_all(valid, &members)))
}

fn is_one_replicated(valid: &Valid, components: &[u32]) -> bool
    requires { AreComponents valid.now.view components.now }
    ensures { result ≡ list_any (view.is_replicated valid.now.view) components.now }
{
    for component in components {
        if valid.replicas(*component) > 1 {
            return true;
        }
    }
    false
}

/// Whether a member of a region is replicated.
pub fn is_replicated(alloc: Global, valid: &Valid, region: u32) -> Result<bool, AllocError>
    requires { region < length (regions.regions valid.now.view) }
    ensures { IfOk result (λ replicated. replicated ≡ spec.is_replicated_set valid.now.view (region_at valid.now.view region)) }
{
    let members = region_members(alloc, valid, region)?;
    Ok(is_one_replicated(valid, &members))
}

/// The labels of the paths into a region, in the order of its inputs.
pub(crate) fn region_paths(
    alloc: Global,
    valid: &Valid,
    labels: &[Label],
    region: u32,
) -> Result<Vec<PathLabel>, AllocError>
    requires { region < length (regions.regions valid.now.view) }
    ensures { IfOk result (λ paths. paths.items ≡ spec.region_paths valid.now.view labels.now (region_at valid.now.view region)) }
{
    let note = region_note(alloc, valid, region)?;
    let none = Attrs::from_bits(0);
    let inputs = region_inputs(alloc, valid, region)?;
    inputs
        .iter()
        .map(|input| pass_path(label_at(labels, input.0), note, none, Mode::Free, &[]))
        .collect(alloc)
}
