//! The plan of a topology: where it begins, and then region by region.
ghost use Rattle.std.specs.Prelude.{◌≡◌, ◌<◌, IfOk, fold, length, true};
ghost use Rattle.coord_synth.specs.Code.Shapes.{AreFirsts, plan_at};
ghost use Rattle.coord_synth.specs.Code.Written.{StaysWritten};
ghost use Rattle.coord_synth.specs.Laws.{AreCoordinated};
ghost use Rattle.coord_modes.specs.Plan as spec;
ghost use Rattle.label_walk.specs.Paths.{AreComponents, region_at};
ghost use Rattle.blz_value.specs.Graph.{is_in};
ghost use Rattle.topo_forms.specs.Regions.{regions};

use crate::component::plan_component;
use crate::cycle::plan_cycle;
use crate::start::freed;
use coord_modes::Steps;
use label_walk::{cycle_of, region_members};
use std::alloc::{AllocError, Global};
use topo_forms::Valid;

// The first member of a region.
fn first_member(alloc: Global, valid: &Valid, region: u32) -> Result<u32, AllocError>
    requires { region < length (regions valid.now.view) }
    ensures { IfOk result (λ member. is_in member (region_at valid.now.view region) ≡ true) }
{
    valid.known();
    let members = region_members(alloc, valid, region)?;
    Ok(members[0])
}

// The first member of each region.
fn first_members(alloc: Global, valid: &Valid) -> Result<Vec<u32>, AllocError>
    ensures { IfOk result (λ firsts. AreFirsts valid.now.view firsts.items) }
{
    let mut firsts = Vec::new(alloc);
    for region in 0..valid.region_count() {
        firsts.push(first_member(alloc, valid, region)?)?;
    }
    Ok(firsts)
}

// The topology with the steps that the plan takes at the region of a component.
fn plan_region(alloc: Global, steps: Steps, now: Valid, first: u32) -> Result<Valid, AllocError>
    requires { first < length now.view.components }
    ensures view { IfOk result (λ next. next.view ≡ plan_at steps now.view first) }
    ensures written { IfOk result (λ next. StaysWritten now next) }
{
    match cycle_of(&now, first) {
        Some(region) => plan_cycle(alloc, steps, now, region),
        None => plan_component(alloc, steps, now, first),
    }
}

// The topology with the steps that the plan takes at the regions of these components.
fn plan_regions(
    alloc: Global,
    steps: Steps,
    start: Valid,
    firsts: &[u32],
) -> Result<Valid, AllocError>
    requires { AreComponents start.view firsts.now }
    ensures view { IfOk result (λ next. next.view ≡ fold (plan_at steps) start.view firsts.now) }
    ensures written { IfOk result (λ next. StaysWritten start next) }
{
    let mut now = start;
    for first in firsts {
        now = plan_region(alloc, steps, now, *first)?;
    }
    Ok(now)
}

// The plan with these steps.
fn planned_by(alloc: Global, steps: Steps, valid: &Valid) -> Result<Valid, AllocError>
    ensures view { IfOk result (λ planned. planned.view ≡ spec.planned_by steps valid.now.view) }
    ensures topology { IfOk result (λ planned. planned.topology ≡ spec.topology_with_modes valid.now.topology (spec.planned_by steps valid.now.view)) }
{
    valid.known();
    let start = freed(alloc, valid)?;
    start.known();
    let firsts = first_members(alloc, &start)?;
    plan_regions(alloc, steps, start, &firsts)
}

/// The plan: components get keys that they pass on or wait for, and where no key helps and
/// replicas would differ they take what arrives in one order. After planning no stream is worse
/// than Run, and each stream of a component in mode Pass or Seal is Seal or Async.
///
/// Modes alone change, and what is written Order stays so. The topology is copied once. Each
/// component costs the labels of a topology, each key that is tried those of one component, and
/// each mode that is set what is found of a topology.
pub fn plan(alloc: Global, valid: &Valid) -> Result<Valid, AllocError>
    ensures view { IfOk result (λ planned. planned.view ≡ spec.planned valid.now.view) }
    ensures topology { IfOk result (λ planned. planned.topology ≡ spec.topology_with_modes valid.now.topology (spec.planned valid.now.view)) }
    ensures coordinated { IfOk result (λ planned. AreCoordinated planned.view) }
{
    valid.known();
    let steps = Steps {
        keys: true,
        orders: true,
    };
    planned_by(alloc, steps, valid)
}

/// The plan without the steps by which components become Order.
pub fn seal_plan(alloc: Global, valid: &Valid) -> Result<Valid, AllocError>
    ensures view { IfOk result (λ planned. planned.view ≡ spec.seal_planned valid.now.view) }
    ensures topology { IfOk result (λ planned. planned.topology ≡ spec.topology_with_modes valid.now.topology (spec.seal_planned valid.now.view)) }
{
    let steps = Steps {
        keys: true,
        orders: false,
    };
    planned_by(alloc, steps, valid)
}

/// The plan without its keys: no key is tried.
pub fn order_plan(alloc: Global, valid: &Valid) -> Result<Valid, AllocError>
    ensures view { IfOk result (λ planned. planned.view ≡ spec.order_planned valid.now.view) }
    ensures topology { IfOk result (λ planned. planned.topology ≡ spec.topology_with_modes valid.now.topology (spec.order_planned valid.now.view)) }
{
    let steps = Steps {
        keys: false,
        orders: true,
    };
    planned_by(alloc, steps, valid)
}
