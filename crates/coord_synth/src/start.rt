//! Where a plan begins: with every component Free that isn't written Order.
ghost use Rattle.std.specs.Prelude.{◌≡◌, ◌<◌, IfOk, length};
ghost use Rattle.coord_synth.specs.Code.Start as code;
ghost use Rattle.coord_synth.specs.Code.Written.{IsWritten};
ghost use Rattle.coord_modes.specs.Plan as spec;
ghost use Rattle.topo_forms.specs.View as view;

use crate::chosen::with_chosen;
use bloom_forms::Mode;
use std::alloc::{AllocError, Global};
use topo_forms::{Valid, valid_copy};

// Free, where the component has a mode that the plan has to choose anew.
fn freed_mode(valid: &Valid, component: u32) -> Option<Mode>
    requires { component < length valid.now.view.components }
    ensures { result ≡ code.freed_mode (view.mode_of valid.now.view component) }
{
    match valid.mode(component) {
        Mode::Pass(_) | Mode::Seal(_) => Some(Mode::Free),
        Mode::Free | Mode::Order => None,
    }
}

// The topology in which the component is Free where it isn't Order.
fn free_component(alloc: Global, now: Valid, component: u32) -> Result<Valid, AllocError>
    requires { component < length now.view.components }
    ensures { IfOk result (λ next. next ≡ code.free_component now component) }
{
    now.whole();
    let mode = freed_mode(&now, component);
    with_chosen(alloc, now, component, mode)
}

/// The topology in which every component is Free that isn't Order.
pub(crate) fn freed(alloc: Global, valid: &Valid) -> Result<Valid, AllocError>
    ensures view { IfOk result (λ start. start.view ≡ spec.freed valid.now.view) }
    ensures written { IfOk result (λ start. IsWritten valid.now.topology start) }
{
    valid.whole();
    let mut now = valid_copy(alloc, valid)?;
    for component in 0..valid.component_count() {
        now = free_component(alloc, now, component)?;
    }
    Ok(now)
}
