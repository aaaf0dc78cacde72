//! A valid topology with another mode of one component.
ghost use Rattle.std.specs.Prelude.{◌≡◌, IfOk};
ghost use Rattle.topo_forms.specs.Laws.{CanHaveMode, validated_with_mode};
ghost use Rattle.topo_forms.specs.Valid.{Validated};

use crate::finding::found_again;
use crate::modes::{kept_with_mode, topology_with_mode};
use bloom_forms::Mode;
use blz_value::Faithful;
use std::alloc::{AllocError, Global};
use topo_forms::{Valid, valid_copy};

/// What a valid topology is with another mode of one of its components.
pub trait WithMode {
    /// The topology as it is written, and its view.
    ghost validated: { Self → Validated };

    /// The same topology with this mode and key written at a component, and all else as it was. The
    /// topology itself stays as it is, also after want of memory. It costs a copy of the topology,
    /// and what is found of the view is found anew.
    fn with_mode(&self, alloc: Global, component: u32, mode: Mode) -> Result<Valid, AllocError>
        requires { CanHaveMode (validated self.now).view component mode }
        ensures { IfOk result (λ other. other ≡ validated_with_mode (validated self.now) component mode) };
}

impl WithMode for Valid {
    ghost validated = { λ valid. valid };

    fn with_mode(&self, alloc: Global, component: u32, mode: Mode) -> Result<Valid, AllocError> {
        replace_mode(alloc, valid_copy(alloc, self)?, component, mode)
    }
}

/// The same topology with this mode and key written at a component, and all else as it was. Nothing
/// is copied but the streams into each port; all else that is found of the view is found anew. After
/// want of memory the topology is gone.
pub fn replace_mode(
    alloc: Global,
    valid: Valid,
    component: u32,
    mode: Mode,
) -> Result<Valid, AllocError>
    requires { CanHaveMode valid.view component mode }
    ensures { IfOk result (λ other. other ≡ validated_with_mode valid component mode) }
{
    valid.whole();
    valid.known();
    let number = component as usize;
    let rows = valid.found().into.copied()?;
    let (topology, kept) = valid.into_parts();
    let names = kept.attributes.names();
    let topology = topology_with_mode(alloc, names, topology, number, mode)?;
    let kept = kept_with_mode(kept, number, mode);
    let found = found_again(alloc, &kept, rows)?;
    Valid::new(alloc, topology, kept, found)
}
