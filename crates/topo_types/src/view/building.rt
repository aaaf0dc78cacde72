//! The making of a view.
ghost use Rattle.std.specs.Prelude.{◌≡◌, ◌≤◌, length, IfOk, All};
ghost use Rattle.topo_forms.specs.ViewOf.{view_with};
ghost use Rattle.topo_forms.specs.Kept.{view_kept};
ghost use Rattle.topo_types.specs.Code.Built.{sites_seen, IsBuilt};

use crate::view::components::components_of;
use crate::view::numbers::fds_of;
use crate::view::sites::Site;
use crate::view::streams::{add_streams, sources_of};
use blz_value::Items;
use fd_closure::AttrNames;
use std::alloc::{AllocError, Global};
use topo_forms::{Kept, Topology};

/// The parts of a topology by their numbers, of these components with their bodies and these
/// attributes, both of which they keep.
pub(crate) fn parts_of(
    alloc: Global,
    topology: &Topology,
    sites: Vec<Site<'_>>,
    attributes: AttrNames,
) -> Result<Kept, AllocError>
    requires few { length sites.items ≤ 32 }
    requires built { All IsBuilt (sites_seen sites.items) }
    ensures { IfOk result (λ kept. view_kept kept ≡ view_with attributes (sites_seen sites.entry.items) topology.now) }
{
    let mut streams = sources_of(alloc, &attributes, &sites, topology.sources.as_slice())?;
    let entries = topology.streams.as_slice();
    add_streams(alloc, &attributes, &sites, entries, &mut streams)?;
    let components = components_of(alloc, &attributes, sites)?;
    let fds = fds_of(alloc, &attributes, topology.fds.as_slice())?;
    Ok(Kept {
        attributes,
        streams: Items::from_vec(streams),
        components: Items::from_vec(components),
        fds: Items::from_vec(fds),
    })
}
