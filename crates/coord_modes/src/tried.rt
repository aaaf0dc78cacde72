//! The output streams of a component with a mode that is tried. What comes into the component has
//! the labels that it has without the mode, so no topology is made for a trial.
ghost use Rattle.std.specs.Prelude.{◌≡◌, ◌<◌, ◌++◌, ◌&&◌, IsFalse, IfOk, OnOk, length, map, not};
ghost use Rattle.coord_modes.specs.Code.Tried as code;
ghost use Rattle.coord_modes.specs.Plan as spec;
ghost use Rattle.label_walk.specs.Labels.{AreLabels};
ghost use Rattle.topo_forms.specs.Dependencies as dependencies;
ghost use Rattle.topo_forms.specs.Regions.{is_in_cycle};
ghost use Rattle.topo_forms.specs.View as view;

use crate::goodness::{is_bad, label_of};
use bloom_forms::{Mode, Note};
use blz_value::Fd;
use label_rules::{PathLabel, pass_path, reconcile};
use label_walk::{Labels, port_attrs, usable_fds};
use std::alloc::{AllocError, Global};
use topo_forms::{Valid, goes_to};

// Adds the labels of the paths of all streams into a port of a component.
#[tactic(auto, using(label_walk::proofs::Loops::below_steps))]
fn push_port_paths(
    valid: &Valid,
    labels: &Labels,
    end: (u32, u32),
    mode: Mode,
    note: Note,
    fds: &[Fd],
    paths: &mut Vec<PathLabel>,
) -> Result<(), AllocError>
    requires component { end.0 < length valid.now.view.components }
    requires port { end.1 < length (view.component_at valid.now.view end.0).ports }
    requires labels { length labels.now ≡ length valid.now.view.streams }
    requires fds { fds.now ≡ dependencies.usable_fds valid.now.view end.0 }
    ensures { OnOk result (paths.new.items ≡ paths.old.items ++ map (code.path_with valid.now.view labels.now end.0 end.1 mode note) (view.streams_to valid.now.view end.0 end.1)) }
{
    let columns = port_attrs(valid, end.0, end.1);
    for stream in 0..valid.stream_count() {
        if goes_to(valid, end.0, end.1, stream) {
            paths.push(pass_path(label_of(labels, stream), note, columns, mode, fds))?;
        }
    }
    Ok(())
}

// Adds those of the paths through a port, none where it has no note.
fn push_noted_paths(
    valid: &Valid,
    labels: &Labels,
    end: (u32, u32),
    mode: Mode,
    note: Option<Note>,
    fds: &[Fd],
    paths: &mut Vec<PathLabel>,
) -> Result<(), AllocError>
    requires component { end.0 < length valid.now.view.components }
    requires port { end.1 < length (view.component_at valid.now.view end.0).ports }
    requires labels { length labels.now ≡ length valid.now.view.streams }
    requires fds { fds.now ≡ dependencies.usable_fds valid.now.view end.0 }
    ensures { OnOk result (paths.new.items ≡ paths.old.items ++ code.port_paths_with valid.now.view labels.now end.0 end.1 mode note) }
{
    match note {
        Some(note) => push_port_paths(valid, labels, end, mode, note, fds, paths),
        None => Ok(()),
    }
}

// The labels of the paths to an output, by port and then by stream.
fn paths_with(
    alloc: Global,
    valid: &Valid,
    labels: &Labels,
    component: u32,
    output: u32,
    mode: Mode,
    fds: &[Fd],
) -> Result<Vec<PathLabel>, AllocError>
    requires component { component < length valid.now.view.components }
    requires output { output < length (view.component_at valid.now.view component).outputs }
    requires labels { length labels.now ≡ length valid.now.view.streams }
    requires fds { fds.now ≡ dependencies.usable_fds valid.now.view component }
    ensures { IfOk result (λ paths. paths.items ≡ code.paths_with valid.now.view labels.now component output mode) }
{
    let mut paths = Vec::new(alloc);
    for port in 0..valid.port_count(component) {
        let note = valid.note(component, port, output);
        let end = (component, port);
        push_noted_paths(valid, labels, end, mode, note, fds, &mut paths)?;
    }
    Ok(paths)
}

// Whether an output is worse than Async.
fn is_bad_output(
    alloc: Global,
    valid: &Valid,
    labels: &Labels,
    component: u32,
    output: u32,
    mode: Mode,
) -> Result<bool, AllocError>
    requires component { component < length valid.now.view.components }
    requires output { output < length (view.component_at valid.now.view component).outputs }
    requires labels { length labels.now ≡ length valid.now.view.streams }
    ensures { IfOk result (λ bad. bad ≡ spec.is_bad (code.label_with valid.now.view labels.now component output mode)) }
{
    let fds = usable_fds(alloc, valid, component)?;
    let paths = paths_with(alloc, valid, labels, component, output, mode, &fds)?;
    let replicated = valid.replicas(component) > 1;
    Ok(is_bad(reconcile(&paths, mode, replicated, &fds)))
}

// Whether a stream comes from the component and is worse than Async.
fn is_bad_stream(
    alloc: Global,
    valid: &Valid,
    labels: &Labels,
    component: u32,
    mode: Mode,
    stream: u32,
) -> Result<bool, AllocError>
    requires stream { stream < length valid.now.view.streams }
    requires labels { length labels.now ≡ length valid.now.view.streams }
    ensures { IfOk result (λ bad. bad ≡ (view.comes_from valid.now.view component stream && not (code.is_fine_with valid.now.view labels.now mode (view.origin_of valid.now.view stream)))) }
{
    valid.known();
    match valid.origin(stream) {
        Some((other, output)) if other == component => {
            is_bad_output(alloc, valid, labels, other, output, mode)
        }
        _ => Ok(false),
    }
}

// Whether all output streams of a component are Seal or Async with a mode, where what comes into it
// has these labels.
fn are_good_with(
    alloc: Global,
    valid: &Valid,
    labels: &Labels,
    component: u32,
    mode: Mode,
) -> Result<bool, AllocError>
    requires { length labels.now ≡ length valid.now.view.streams }
    ensures { IfOk result (λ good. good ≡ code.is_good_with valid.now.view labels.now component mode) }
{
    for stream in 0..valid.stream_count() {
        let bad = is_bad_stream(alloc, valid, labels, component, mode, stream)?;
        if bad {
            return Ok(false);
        }
    }
    Ok(true)
}

/// Whether all output streams of a component outside cycles, whose mode isn't Order, are Seal or
/// Async with another mode that isn't Order either. `labels` are those of the topology without it.
pub fn is_good_with(
    alloc: Global,
    valid: &Valid,
    labels: &Labels,
    component: u32,
    mode: Mode,
) -> Result<bool, AllocError>
    requires component { component < length valid.now.view.components }
    requires unordered { IsFalse (view.is_order valid.now.view component) }
    requires outside { IsFalse (is_in_cycle valid.now.view component) }
    requires mode { IsFalse (view.is_order_mode mode) }
    requires labels { AreLabels valid.now.view labels.now }
    ensures { IfOk result (λ good. good ≡ spec.is_good (view.with_mode valid.now.view component mode) component) }
{
    valid.known();
    are_good_with(alloc, valid, labels, component, mode)
}
