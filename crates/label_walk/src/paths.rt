//! The paths to an output, and the labels that they have.
ghost use Rattle.std.specs.Prelude.{◌≡◌, ◌<◌, ◌++◌, IfOk, OnOk, length, map};
ghost use Rattle.topo_forms.specs.Dependencies as dependencies;
ghost use Rattle.topo_forms.specs.View as view;
ghost use Rattle.label_walk.specs.Paths as spec;

use bloom_forms::{Mode, Note};
use blz_value::{Attrs, Fd};
use label_rules::{Label, PathLabel, pass_path};
use std::alloc::{AllocError, Global};
use topo_forms::{Valid, goes_to, usable};

/// The label of a stream. Each stream has one.
pub(crate) fn label_at(labels: &[Label], stream: u32) -> Label
    ensures { result ≡ spec.label_at labels.now stream }
{
    match labels.get(stream as usize) {
        Some(label) => *label,
        None => Label::Async,
    }
}

/// Whether a component is Order.
pub fn is_order(valid: &Valid, component: u32) -> bool
    requires { component < length valid.now.view.components }
    ensures { result ≡ view.is_order valid.now.view component }
{
    match valid.mode(component) {
        Mode::Order => true,
        Mode::Free | Mode::Pass(_) | Mode::Seal(_) => false,
    }
}

/// The attributes of a port's columns.
pub fn port_attrs(valid: &Valid, component: u32, port: u32) -> Attrs
    requires component { component < length valid.now.view.components }
    requires port { port < length (view.component_at valid.now.view component).ports }
    ensures { result ≡ view.port_attrs valid.now.view component port }
{
    let mut attrs = Attrs::from_bits(0);
    for column in valid.port_columns(component, port) {
        attrs = attrs.union(Attrs::of(*column as usize));
    }
    attrs
}

/// The dependencies that are usable at a component, in their order.
#[tactic(auto, unfolding(topo_forms::specs::Dependencies::usable_fds))]
pub fn usable_fds(alloc: Global, valid: &Valid, component: u32) -> Result<Vec<Fd>, AllocError>
    requires { component < length valid.now.view.components }
    ensures { IfOk result (λ fds. fds.items ≡ dependencies.usable_fds valid.now.view component) }
{
    let mut fds = Vec::new(alloc);
    for fd in 0..valid.fd_count() {
        if usable(valid, component, fd) {
            fds.push(valid.fd(fd))?;
        }
    }
    Ok(fds)
}

#[tactic(auto, using(crate::proofs::Loops::below_steps))]
fn push_port_paths(
    valid: &Valid,
    labels: &[Label],
    component: u32,
    port: u32,
    note: Note,
    fds: &[Fd],
    paths: &mut Vec<PathLabel>,
) -> Result<(), AllocError>
    requires component { component < length valid.now.view.components }
    requires port { port < length (view.component_at valid.now.view component).ports }
    requires fds { fds.now ≡ dependencies.usable_fds valid.now.view component }
    ensures { OnOk result (paths.new.items ≡ paths.old.items ++ map (spec.path_label valid.now.view labels.now component port note) (view.streams_to valid.now.view component port)) }
{
    let columns = port_attrs(valid, component, port);
    let mode = valid.mode(component);
    for stream in 0..valid.stream_count() {
        if goes_to(valid, component, port, stream) {
            paths.push(pass_path(label_at(labels, stream), note, columns, mode, fds))?;
        }
    }
    Ok(())
}

/// The labels of the paths of all streams into the ports with a note towards an output, by port
/// and then by stream. `fds` are the dependencies that are usable at the component.
#[tactic(auto, using(crate::proofs::Loops::below_steps))]
pub fn output_paths(
    alloc: Global,
    valid: &Valid,
    labels: &[Label],
    component: u32,
    output: u32,
    fds: &[Fd],
) -> Result<Vec<PathLabel>, AllocError>
    requires component { component < length valid.now.view.components }
    requires output { output < length (view.component_at valid.now.view component).outputs }
    requires fds { fds.now ≡ dependencies.usable_fds valid.now.view component }
    ensures { IfOk result (λ paths. paths.items ≡ spec.output_paths valid.now.view labels.now component output) }
{
    let mut paths = Vec::new(alloc);
    for port in 0..valid.port_count(component) {
        if let Some(note) = valid.note(component, port, output) {
            push_port_paths(valid, labels, component, port, note, fds, &mut paths)?;
        }
    }
    Ok(paths)
}
