//! Which components have output streams that are Seal or Async alone.
ghost use Rattle.std.specs.Prelude.{◌≡◌, ◌<◌, ◌&&◌, length, not};
ghost use Rattle.std.specs.List.{list_all};
ghost use Rattle.coord_modes.specs.Plan as spec;
ghost use Rattle.label_walk.specs.Labels.{AreLabels};
ghost use Rattle.label_walk.specs.Paths.{label_at};
ghost use Rattle.topo_forms.specs.View as view;

use label_rules::{Label, severity};
use label_walk::Labels;
use topo_forms::Valid;

/// Whether a label is worse than Async.
pub fn is_bad(label: Label) -> bool
    ensures { result ≡ spec.is_bad label }
{
    severity(label) > 2
}

fn comes_from(valid: &Valid, component: u32, stream: u32) -> bool
    requires { stream < length valid.now.view.streams }
    ensures { result ≡ view.comes_from valid.now.view component stream }
{
    match valid.origin(stream) {
        Some((other, _)) => other == component,
        None => false,
    }
}

/// The label of a stream.
pub(crate) fn label_of(labels: &Labels, stream: u32) -> Label
    requires { stream < length labels.now }
    ensures { result ≡ label_at labels.now stream }
{
    labels.of(stream)
}

fn is_fine(labels: &Labels, stream: u32) -> bool
    requires { stream < length labels.now }
    ensures { result ≡ not (spec.is_bad (label_at labels.now stream)) }
{
    !is_bad(label_of(labels, stream))
}

// Whether a stream comes from a component and is worse than Async.
fn is_bad_output(valid: &Valid, labels: &Labels, component: u32, stream: u32) -> bool
    requires stream { stream < length valid.now.view.streams }
    requires labels { length labels.now ≡ length valid.now.view.streams }
    ensures { result ≡ (view.comes_from valid.now.view component stream && not (not (spec.is_bad (label_at labels.now stream)))) }
{
    comes_from(valid, component, stream) && !is_fine(labels, stream)
}

// Whether all output streams of a component are Seal or Async, where the streams have these labels.
fn are_good(valid: &Valid, labels: &Labels, component: u32) -> bool
    requires { length labels.now ≡ length valid.now.view.streams }
    ensures { result ≡ list_all (λ s. not (spec.is_bad (label_at labels.now s))) (view.streams_from valid.now.view component) }
{
    for stream in 0..valid.stream_count() {
        if is_bad_output(valid, labels, component, stream) {
            return false;
        }
    }
    true
}

/// Whether all output streams of a component are Seal or Async. `labels` are those of the
/// topology.
pub fn is_good(valid: &Valid, labels: &Labels, component: u32) -> bool
    requires { AreLabels valid.now.view labels.now }
    ensures { result ≡ spec.is_good valid.now.view component }
{
    valid.known();
    are_good(valid, labels, component)
}
