//! The plan of a component outside cycles.
ghost use Rattle.std.specs.Prelude.{◌≡◌, ◌<◌, IsFalse, IfOk, length};
ghost use Rattle.coord_modes.specs.Plan as spec;
ghost use Rattle.coord_synth.specs.Code.Chosen as code;
ghost use Rattle.coord_synth.specs.Code.Written.{StaysWritten};
ghost use Rattle.topo_forms.specs.Regions.{is_in_cycle};

use crate::chosen::with_chosen;
use bloom_forms::Mode;
use coord_modes::{Steps, chosen_mode};
use label_walk::is_order;
use std::alloc::{AllocError, Global};
use topo_forms::Valid;

// The mode that the plan gives a component outside cycles, where it gives one.
fn component_mode(
    alloc: Global,
    steps: Steps,
    now: &Valid,
    component: u32,
) -> Result<Option<Mode>, AllocError>
    requires component { component < length now.now.view.components }
    requires outside { IsFalse (is_in_cycle now.now.view component) }
    ensures { IfOk result (λ mode. mode ≡ code.component_mode steps now.now.view component) }
{
    if is_order(now, component) {
        Ok(None)
    } else {
        chosen_mode(alloc, steps, now, component)
    }
}

/// The topology with the step that the plan takes at a component outside cycles. Costs the labels
/// of a topology, and for each key that is tried those of the component.
pub(crate) fn plan_component(
    alloc: Global,
    steps: Steps,
    now: Valid,
    component: u32,
) -> Result<Valid, AllocError>
    requires component { component < length now.view.components }
    requires outside { IsFalse (is_in_cycle now.view component) }
    ensures view { IfOk result (λ next. next.view ≡ spec.plan_component steps now.view component) }
    ensures written { IfOk result (λ next. StaysWritten now next) }
{
    now.known();
    now.whole();
    let chosen = component_mode(alloc, steps, &now, component)?;
    with_chosen(alloc, now, component, chosen)
}
