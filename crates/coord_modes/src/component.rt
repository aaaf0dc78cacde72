//! The mode of a component outside cycles: with a key that is kept, or Order.
ghost use Rattle.std.specs.Prelude.{◌≡◌, ◌<◌, ◌&&◌, IsFalse, IfOk, None, Some, if◌then◌else◌, length};
ghost use Rattle.std.specs.List.{filter_map, find};
ghost use Rattle.std.specs.Option.{option_and_then};
ghost use Rattle.coord_modes.specs.Choice.{chosen_mode, mode_with_key};
ghost use Rattle.coord_modes.specs.Code.Kept as code;
ghost use Rattle.coord_modes.specs.Plan as spec;
ghost use Rattle.label_walk.specs.Labels.{AreLabels};
ghost use Rattle.topo_forms.specs.Carried as carried;
ghost use Rattle.topo_forms.specs.Regions.{is_in_cycle};
ghost use Rattle.topo_forms.specs.View as view;

use crate::goodness::is_good;
use crate::notes::has_order_note;
use crate::ports::port_key;
use crate::steps::Steps;
use crate::tried::is_good_with;
use bloom_forms::Mode;
use blz_value::Attrs;
use label_walk::{Labels, labels};
use std::alloc::{AllocError, Global};
use topo_forms::Valid;

// The mode that is tried with a key.
fn tried_mode(now: &Valid, component: u32, key: Attrs) -> Mode
    requires { component < length now.now.view.components }
    ensures { result ≡ spec.tried_mode now.now.view component key }
{
    if has_order_note(now, component) {
        Mode::Seal(key)
    } else {
        Mode::Pass(key)
    }
}

// Whether all output streams are Seal or Async with the key.
fn is_kept(
    alloc: Global,
    now: &Valid,
    labels: &Labels,
    component: u32,
    key: Attrs,
) -> Result<bool, AllocError>
    requires component { component < length now.now.view.components }
    requires unordered { IsFalse (view.is_order now.now.view component) }
    requires outside { IsFalse (is_in_cycle now.now.view component) }
    requires labels { AreLabels now.now.view labels.now }
    ensures { IfOk result (λ kept. kept ≡ spec.is_good (spec.trial now.now.view component key) component) }
{
    let tried = tried_mode(now, component, key);
    is_good_with(alloc, now, labels, component, tried)
}

// The key, where it is kept.
fn if_kept(
    alloc: Global,
    now: &Valid,
    labels: &Labels,
    component: u32,
    key: Attrs,
) -> Result<Option<Attrs>, AllocError>
    requires component { component < length now.now.view.components }
    requires unordered { IsFalse (view.is_order now.now.view component) }
    requires outside { IsFalse (is_in_cycle now.now.view component) }
    requires labels { AreLabels now.now.view labels.now }
    ensures { IfOk result (λ kept. kept ≡ (if spec.is_good (spec.trial now.now.view component key) component then Some key else None)) }
{
    let kept = is_kept(alloc, now, labels, component, key)?;
    if kept { Ok(Some(key)) } else { Ok(None) }
}

// The key of a port, where it is kept.
fn kept_at(
    alloc: Global,
    now: &Valid,
    labels: &Labels,
    component: u32,
    port: u32,
) -> Result<Option<Attrs>, AllocError>
    requires component { component < length now.now.view.components }
    requires unordered { IsFalse (view.is_order now.now.view component) }
    requires outside { IsFalse (is_in_cycle now.now.view component) }
    requires labels { AreLabels now.now.view labels.now }
    ensures { IfOk result (λ kept. kept ≡ code.kept_at now.now.view component port) }
{
    match port_key(now, component, port) {
        Some(key) => if_kept(alloc, now, labels, component, key),
        None => Ok(None),
    }
}

// The first key of a port that is kept.
fn kept_key_of_ports(
    alloc: Global,
    now: &Valid,
    labels: &Labels,
    component: u32,
) -> Result<Option<Attrs>, AllocError>
    requires component { component < length now.now.view.components }
    requires unordered { IsFalse (view.is_order now.now.view component) }
    requires outside { IsFalse (is_in_cycle now.now.view component) }
    requires labels { AreLabels now.now.view labels.now }
    ensures { IfOk result (λ key. key ≡ find (λ k. spec.is_good (spec.trial now.now.view component k) component) (filter_map (carried.port_key now.now.view component) (view.port_numbers now.now.view component))) }
{
    for port in 0..now.port_count(component) {
        let kept = kept_at(alloc, now, labels, component, port)?;
        if kept.is_some() {
            return Ok(kept);
        }
    }
    Ok(None)
}

// The key that is kept, where keys are tried.
fn kept_key(
    alloc: Global,
    steps: Steps,
    now: &Valid,
    labels: &Labels,
    component: u32,
) -> Result<Option<Attrs>, AllocError>
    requires component { component < length now.now.view.components }
    requires unordered { IsFalse (view.is_order now.now.view component) }
    requires outside { IsFalse (is_in_cycle now.now.view component) }
    requires labels { AreLabels now.now.view labels.now }
    ensures { IfOk result (λ key. key ≡ spec.kept_key steps now.now.view component) }
{
    if steps.keys {
        kept_key_of_ports(alloc, now, labels, component)
    } else {
        Ok(None)
    }
}

// Whether the component has an O note, an output stream worse than Async and several replicas.
fn wants_order(now: &Valid, labels: &Labels, component: u32) -> bool
    requires component { component < length now.now.view.components }
    requires labels { AreLabels now.now.view labels.now }
    ensures { result ≡ spec.wants_order now.now.view component }
{
    let noted = has_order_note(now, component);
    let replicated = now.replicas(component) > 1;
    let good = is_good(now, labels, component);
    noted && (!good && replicated)
}

// Whether the component becomes Order, where it keeps no key.
fn becomes_order(steps: Steps, now: &Valid, labels: &Labels, component: u32) -> bool
    requires component { component < length now.now.view.components }
    requires labels { AreLabels now.now.view labels.now }
    ensures { result ≡ (steps.orders && spec.wants_order now.now.view component) }
{
    let wants = wants_order(now, labels, component);
    steps.orders && wants
}

// Order, where the component becomes so.
fn order_step(steps: Steps, now: &Valid, labels: &Labels, component: u32) -> Option<Mode>
    requires component { component < length now.now.view.components }
    requires labels { AreLabels now.now.view labels.now }
    ensures { result ≡ mode_with_key steps now.now.view component None }
{
    if becomes_order(steps, now, labels, component) {
        Some(Mode::Order)
    } else {
        None
    }
}

/// The mode that the plan gives a component outside cycles which isn't Order, where it gives one.
/// Costs the labels of a topology, and for each key that is tried those of the component.
pub fn chosen_mode(
    alloc: Global,
    steps: Steps,
    now: &Valid,
    component: u32,
) -> Result<Option<Mode>, AllocError>
    requires component { component < length now.now.view.components }
    requires unordered { IsFalse (view.is_order now.now.view component) }
    requires outside { IsFalse (is_in_cycle now.now.view component) }
    ensures { IfOk result (λ mode. mode ≡ chosen_mode steps now.now.view component) }
{
    now.known();
    let labels = labels(alloc, now)?;
    match kept_key(alloc, steps, now, &labels, component)? {
        Some(key) => {
            let mode = tried_mode(now, component, key);
            Ok(Some(mode))
        }
        None => Ok(order_step(steps, now, &labels, component)),
    }
}
