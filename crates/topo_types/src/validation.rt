//! The validation of a topology: sizes first, then names, then the view.
ghost use Rattle.std.specs.Prelude.{◌≡◌, ◌≤◌, ◌<◌, ◌+◌, length, map, IfSome, All};
ghost use Rattle.std.specs.List.{filter_map};
ghost use Rattle.blz_value.specs.Members.{Has};
ghost use Rattle.bloom_forms.specs.Checks.{IsChecked};
ghost use Rattle.bloom_forms.specs.Form.{Accepted};
ghost use Rattle.topo_forms.specs.Allowed.{IsAllowed};
ghost use Rattle.topo_types.specs.Code.Built.{sites_seen};
ghost use Rattle.topo_types.specs.Code.Validating as code;
ghost use Rattle.topo_forms.specs.Kept.{view_kept};
ghost use Rattle.topo_forms.specs.Regions.{is_in_cycle};
ghost use Rattle.topo_forms.specs.Sites as sites_spec;
ghost use Rattle.topo_forms.specs.Valid.{needs_module};
ghost use Rattle.topo_forms.specs.Validation.{Validates};
ghost use Rattle.topo_forms.specs.View.{component_numbers};

use crate::validity::of_view::{first_mismatched, first_sealed, first_understated};
use crate::validity::{Parts, at_places, names_fault, size_fault};
use crate::view::building::parts_of;
use crate::view::sites::{Site, sites_of};
use bloom_forms::Checked;
use blz_value::Faithful;
use fd_closure::AttrNames;
use std::alloc::Global;
use topo_forms::{Kept, TopoFault, TopoKind, Topology, Valid, ValidFault};
use topo_graph::{found_with, regions_of};

// The names of the attributes, or the first fault of size or of names.
fn names_of(alloc: Global, topology: &Topology, sites: &[Site<'_>]) -> Result<AttrNames, ValidFault>
    requires { length sites.now ≡ length topology.now.components }
    ensures { code.Names topology.now (sites_seen sites.now) result }
{
    let mut names = AttrNames::new(alloc);
    let size = size_fault(&mut names, topology, sites)?;
    if let Some(fault) = size {
        return Err(ValidFault::Bad(fault));
    }
    let parts = Parts {
        topology,
        sites,
        names: &names,
    };
    let fault = names_fault(alloc, &parts)?;
    if let Some(fault) = fault {
        return Err(ValidFault::Bad(fault));
    }
    Ok(names)
}

// The first fault of the view, told which components are in cyclic regions, and which is the first
// that is understated.
fn view_fault(
    topology: &Topology,
    kept: &Kept,
    cycles: &[bool],
    understated: Option<usize>,
) -> Option<TopoFault>
    requires streams { length topology.now.sources + length topology.now.streams ≤ 64 }
    requires components { length cycles.now ≤ 32 }
    requires understated { IfSome understated (λ i. i < 32) }
    requires cycles { cycles.now ≡ map (is_in_cycle (view_kept kept.now)) (component_numbers (view_kept kept.now)) }
    ensures { result ≡ code.view_fault topology.now (view_kept kept.now) cycles.now understated }
{
    let sources = topology.sources.as_slice().len();
    let mismatched = first_mismatched(kept, sources, topology.streams.as_slice());
    if mismatched.is_some() {
        return at_places(TopoKind::ReplicaMismatch, None, None, mismatched, None);
    }
    let sealed = first_sealed(kept, cycles);
    if sealed.is_some() {
        return at_places(TopoKind::SealInCycle, None, sealed, None, None);
    }
    at_places(TopoKind::Understated, None, understated, None, None)
}

// What holds of each of these modules.
fn known(modules: &[Checked])
    ensures { All (λ m. IsChecked m.form m.heads) modules.now }
{
    for checked in modules {
        let _written = checked.module();
    }
}

// The topology with its view, or the first fault of the view, where there is none of size or of
// names, and these are the components with their bodies and the names of the attributes. The view
// keeps the programs of the bodies.
fn valid_of(
    alloc: Global,
    topology: &Topology,
    modules: &[Checked],
    sites: Vec<Site<'_>>,
    names: AttrNames,
) -> Result<Valid, ValidFault>
    requires each { length modules.now ≡ length (filter_map needs_module topology.now.components) }
    requires allowed { IsAllowed topology.now }
    requires sites { sites_seen sites.items ≡ sites_spec.sites_of topology.now.components modules.now }
    requires named { code.IsNamed topology.now (sites_seen sites.items) names }
    ensures { Validates topology.now modules.now result }
{
    let understated = first_understated(alloc, &names, &sites)?;
    let kept = parts_of(alloc, topology, sites, names)?;
    let regions = regions_of(alloc, &kept)?;
    let fault = view_fault(topology, &kept, &regions.cycles, understated);
    if let Some(fault) = fault {
        return Err(ValidFault::Bad(fault));
    }
    known(modules);
    let found = found_with(alloc, &kept, regions)?;
    let copied = topology.copied()?;
    Ok(Valid::new(alloc, copied, kept, found)?)
}

/// The topology with its view, or its first fault: the first kind that holds, at its first place.
/// The modules are those of the components with one, in their order. The error is that fault or
/// want of memory.
pub fn validate(
    alloc: Global,
    topology: &Topology,
    modules: &[Checked],
) -> Result<Valid, ValidFault>
    requires each { length modules.now ≡ length (filter_map needs_module topology.now.components) }
    requires allowed { IsAllowed topology.now }
    ensures { Validates topology.now modules.now result }
{
    let sites = sites_of(alloc, topology.components.as_slice(), modules)?;
    let names = names_of(alloc, topology, &sites)?;
    valid_of(alloc, topology, modules, sites, names)
}
