//! The plan of a cyclic region.
ghost use Rattle.std.specs.Prelude.{◌≡◌, ◌<◌, ◌&&◌, IfOk, fold, length};
ghost use Rattle.coord_synth.specs.Code.Chosen as chosen;
ghost use Rattle.coord_synth.specs.Code.Regions as code;
ghost use Rattle.coord_synth.specs.Code.Written.{StaysWritten};
ghost use Rattle.coord_modes.specs.Plan as spec;
ghost use Rattle.label_walk.specs.Paths.{AreComponents, region_at};
ghost use Rattle.topo_forms.specs.Regions as regions;

use crate::chosen::with_chosen;
use bloom_forms::Mode;
use coord_modes::{Steps, has_order_note, is_bad};
use label_walk::{is_order, is_replicated, labels, region_label, region_members};
use std::alloc::{AllocError, Global};
use topo_forms::Valid;

// Order, where the component has an O note and isn't Order yet.
fn member_mode(now: &Valid, component: u32) -> Option<Mode>
    requires { component < length now.now.view.components }
    ensures { result ≡ chosen.member_mode now.now.view component }
{
    if has_order_note(now, component) && !is_order(now, component) {
        Some(Mode::Order)
    } else {
        None
    }
}

// The topology in which the component is Order where it has an O note.
fn order_member(alloc: Global, now: Valid, component: u32) -> Result<Valid, AllocError>
    requires { component < length now.view.components }
    ensures view { IfOk result (λ next. next.view ≡ spec.order_member now.view component) }
    ensures written { IfOk result (λ next. StaysWritten now next) }
{
    let mode = member_mode(&now, component);
    with_chosen(alloc, now, component, mode)
}

// The topology in which all of these with an O note are Order.
fn order_members(alloc: Global, valid: Valid, members: &[u32]) -> Result<Valid, AllocError>
    requires { AreComponents valid.view members.now }
    ensures view { IfOk result (λ next. next.view ≡ fold spec.order_member valid.view members.now) }
    ensures written { IfOk result (λ next. StaysWritten valid next) }
{
    let mut now = valid;
    for member in members {
        now = order_member(alloc, now, *member)?;
    }
    Ok(now)
}

// Whether the label of a region is worse than Async.
fn is_bad_region(alloc: Global, now: &Valid, region: u32) -> Result<bool, AllocError>
    requires { region < length (regions.regions now.now.view) }
    ensures { IfOk result (λ bad. bad ≡ code.is_bad_region now.now.view (region_at now.now.view region)) }
{
    now.known();
    let labels = labels(alloc, now)?;
    let label = region_label(alloc, now, labels.as_slice(), region)?;
    Ok(is_bad(label))
}

// Whether the region is replicated and its label worse than Async.
fn wants_order(alloc: Global, now: &Valid, region: u32) -> Result<bool, AllocError>
    requires { region < length (regions.regions now.now.view) }
    ensures { IfOk result (λ wants. wants ≡ spec.cycle_wants_order now.now.view (region_at now.now.view region)) }
{
    let replicated = is_replicated(alloc, now, region)?;
    let bad = is_bad_region(alloc, now, region)?;
    Ok(replicated && bad)
}

// Whether the members of the region with an O note become Order.
fn takes_order(alloc: Global, steps: Steps, now: &Valid, region: u32) -> Result<bool, AllocError>
    requires { region < length (regions.regions now.now.view) }
    ensures { IfOk result (λ takes. takes ≡ (steps.orders && spec.cycle_wants_order now.now.view (region_at now.now.view region))) }
{
    let wants = wants_order(alloc, now, region)?;
    Ok(steps.orders && wants)
}

/// The topology with the steps that the plan takes at a cyclic region.
pub(crate) fn plan_cycle(
    alloc: Global,
    steps: Steps,
    now: Valid,
    region: u32,
) -> Result<Valid, AllocError>
    requires { region < length (regions.regions now.view) }
    ensures view { IfOk result (λ next. next.view ≡ spec.plan_cycle steps now.view (region_at now.view region)) }
    ensures written { IfOk result (λ next. StaysWritten now next) }
{
    let takes = takes_order(alloc, steps, &now, region)?;
    if !takes {
        return Ok(now);
    }
    let members = region_members(alloc, &now, region)?;
    order_members(alloc, now, &members)
}
