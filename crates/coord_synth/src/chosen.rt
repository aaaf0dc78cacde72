//! A topology with the mode that was chosen for one of its components, if any was.
ghost use Rattle.std.specs.Prelude.{◌≡◌, IfOk, IfSome};
ghost use Rattle.coord_synth.specs.Code.Chosen as code;
ghost use Rattle.topo_forms.specs.Laws.{CanHaveMode};

use bloom_forms::Mode;
use std::alloc::{AllocError, Global};
use topo_forms::Valid;
use topo_graph::replace_mode;

/// The topology with this mode at the component, or as it is where none was chosen.
pub(crate) fn with_chosen(
    alloc: Global,
    now: Valid,
    component: u32,
    chosen: Option<Mode>,
) -> Result<Valid, AllocError>
    requires { IfSome chosen (CanHaveMode now.view component) }
    ensures { IfOk result (λ next. next ≡ code.with_chosen now component chosen) }
{
    match chosen {
        Some(mode) => replace_mode(alloc, now, component, mode),
        None => Ok(now),
    }
}
