//! The first fault of a topology: the first kind that holds, at its first place.
ghost use Rattle.std.specs.Prelude.{◌≡◌, ◌≤◌, ◌<◌, [], length, All, IfOk, IfNone, IfSome};
ghost use Rattle.blz_value.specs.FirstPlace.{first_place};
ghost use Rattle.topo_types.specs.Code.Built.{site_seen, sites_seen};
ghost use Rattle.topo_types.specs.Code.Named.{sized, named};
ghost use Rattle.topo_forms.specs.Sites.{attributes_in};
ghost use Rattle.topo_forms.specs.Validity as spec;
ghost use Rattle.topo_forms.specs.Validity.{AreFew, IsOfNames};
ghost use Rattle.topo_forms.specs.declared.fault.TopoKind.TheVariants.{TooMany};

pub(crate) mod columns;
pub(crate) mod of_view;
pub(crate) mod spots;
pub(crate) mod too_many;
pub(crate) mod twice;
pub(crate) mod unknown;

use crate::validity::columns::{is_clashing_component, is_unlike_source, is_unlike_stream};
use crate::validity::too_many::{
    first_large_component, first_large_fd, first_large_source, first_large_stream,
};
use crate::validity::twice::{is_twice_component, is_twice_fd, is_twice_source, is_twice_stream};
use crate::validity::unknown::{
    is_unknown_component, is_unknown_fd, is_unknown_source, is_unknown_stream,
};
use crate::view::sites::Site;
use fd_closure::AttrNames;
use std::alloc::{AllocError, Global};
use topo_forms::{FdEntry, SourceEntry, StreamEntry, TopoFault, TopoKind, TopoPlace, Topology};

/// What the kinds before ReplicaMismatch look at: a topology, its components with their bodies, and
/// the names of its attributes.
#[derive(Drop)]
pub(crate) struct Parts<'p, 'a> {
    pub(crate) topology: &'p Topology,
    pub(crate) sites: &'p [Site<'a>],
    pub(crate) names: &'p AttrNames,
}

/// The fault at the first of the numbers that is there.
pub(crate) fn at_places(
    kind: TopoKind,
    source: Option<usize>,
    component: Option<usize>,
    stream: Option<usize>,
    fd: Option<usize>,
) -> Option<TopoFault>
    requires sources { IfSome source (λ i. i ≤ 64) }
    requires components { IfSome component (λ i. i ≤ 64) }
    requires streams { IfSome stream (λ i. i ≤ 64) }
    requires fds { IfSome fd (λ i. i ≤ 64) }
    ensures { result ≡ spec.at_places kind source component stream fd }
{
    let place = match (source, component, stream, fd) {
        (Some(i), _, _, _) => TopoPlace::Source(i as u32 + 1),
        (None, Some(i), _, _) => TopoPlace::Component(i as u32 + 1),
        (None, None, Some(i), _) => TopoPlace::Stream(i as u32 + 1),
        (None, None, None, Some(i)) => TopoPlace::Fd(i as u32 + 1),
        (None, None, None, None) => return None,
    };
    Some(TopoFault { kind, place })
}

/// The first fault of size. Where there is none, the names are those of the attributes.
pub(crate) fn size_fault(
    names: &mut AttrNames,
    topology: &Topology,
    sites: &[Site<'_>],
) -> Result<Option<TopoFault>, AllocError>
    requires { names.old ≡ [] }
    ensures fault { IfOk result (λ fault. fault ≡ spec.kind_fault TooMany (sized topology.now (sites_seen sites.now))) }
    ensures few { IfOk result (λ fault. IfNone fault (AreFew topology.now (sites_seen sites.now))) }
    ensures names { IfOk result (λ fault. IfNone fault (names.new ≡ attributes_in topology.now.sources (sites_seen sites.now))) }
{
    let kind = TopoKind::TooMany;
    let sources = topology.sources.as_slice();
    let source = first_large_source(names, sources)?;
    if source.is_some() {
        return Ok(at_places(kind, source, None, None, None));
    }
    let component = first_large_component(names, sources, sites)?;
    if component.is_some() {
        return Ok(at_places(kind, None, component, None, None));
    }
    let stream = first_large_stream(sources.len(), topology.streams.as_slice());
    let fd = first_large_fd(topology.fds.as_slice());
    Ok(at_places(kind, None, None, stream, fd))
}

// Whether the source with this number has a fault of the kind, which is one of names.
fn is_bad_source(
    alloc: Global,
    kind: TopoKind,
    parts: &Parts<'_, '_>,
    number: usize,
    source: &SourceEntry,
) -> Result<bool, AllocError>
    requires kind { IsOfNames kind }
    requires within { number ≤ length parts.now.topology.now.sources }
    ensures { IfOk result (λ bad. bad ≡ spec.bad_source kind (named parts.now) number source.now) }
{
    let sources = parts.topology.sources.as_slice();
    match kind {
        TopoKind::TooMany => unreachable!(),
        TopoKind::Twice => is_twice_source(alloc, &sources[..number], source),
        TopoKind::Unknown => Ok(is_unknown_source(parts.sites, source)),
        TopoKind::Columns => Ok(is_unlike_source(parts.sites, source)),
        TopoKind::ReplicaMismatch | TopoKind::SealInCycle | TopoKind::Understated => {
            unreachable!()
        }
    }
}

// Whether the component with this number has a fault of the kind, which is one of names.
fn is_bad_component(
    alloc: Global,
    kind: TopoKind,
    parts: &Parts<'_, '_>,
    number: usize,
    site: &Site<'_>,
) -> Result<bool, AllocError>
    requires kind { IsOfNames kind }
    requires within { number ≤ length parts.now.topology.now.components }
    ensures { IfOk result (λ bad. bad ≡ spec.bad_component kind (named parts.now) number (site_seen site.now)) }
{
    let components = parts.topology.components.as_slice();
    match kind {
        TopoKind::TooMany => unreachable!(),
        TopoKind::Twice => is_twice_component(alloc, &components[..number], site.entry),
        TopoKind::Unknown => Ok(is_unknown_component(parts.names.names(), site)),
        TopoKind::Columns => Ok(is_clashing_component(site)),
        TopoKind::ReplicaMismatch | TopoKind::SealInCycle | TopoKind::Understated => {
            unreachable!()
        }
    }
}

// Whether the stream with this number has a fault of the kind, which is one of names.
fn is_bad_stream(
    alloc: Global,
    kind: TopoKind,
    parts: &Parts<'_, '_>,
    number: usize,
    stream: &StreamEntry,
) -> Result<bool, AllocError>
    requires kind { IsOfNames kind }
    requires within { number ≤ length parts.now.topology.now.streams }
    ensures { IfOk result (λ bad. bad ≡ spec.bad_stream kind (named parts.now) number stream.now) }
{
    let sources = parts.topology.sources.as_slice();
    let streams = parts.topology.streams.as_slice();
    match kind {
        TopoKind::TooMany => unreachable!(),
        TopoKind::Twice => is_twice_stream(alloc, sources, &streams[..number], stream),
        TopoKind::Unknown => Ok(is_unknown_stream(parts.sites, stream)),
        TopoKind::Columns => Ok(is_unlike_stream(parts.sites, stream)),
        TopoKind::ReplicaMismatch | TopoKind::SealInCycle | TopoKind::Understated => {
            unreachable!()
        }
    }
}

// Whether the dependency with this number has a fault of the kind, which is one of names.
fn is_bad_fd(
    alloc: Global,
    kind: TopoKind,
    parts: &Parts<'_, '_>,
    number: usize,
    fd: &FdEntry,
) -> Result<bool, AllocError>
    requires kind { IsOfNames kind }
    requires within { number ≤ length parts.now.topology.now.fds }
    ensures { IfOk result (λ bad. bad ≡ spec.bad_fd kind (named parts.now) number fd.now) }
{
    let fds = parts.topology.fds.as_slice();
    match kind {
        TopoKind::TooMany => unreachable!(),
        TopoKind::Twice => is_twice_fd(alloc, &fds[..number], fd),
        TopoKind::Unknown => Ok(is_unknown_fd(parts.names.names(), fd)),
        TopoKind::Columns => Ok(false),
        TopoKind::ReplicaMismatch | TopoKind::SealInCycle | TopoKind::Understated => {
            unreachable!()
        }
    }
}

fn first_source(
    alloc: Global,
    kind: TopoKind,
    parts: &Parts<'_, '_>,
) -> Result<Option<usize>, AllocError>
    requires { IsOfNames kind }
    ensures place { IfOk result (λ place. place ≡ first_place (spec.bad_source kind (named parts.now)) 0 parts.now.topology.now.sources) }
    ensures within { IfOk result (λ place. IfSome place (λ i. i < length parts.now.topology.now.sources)) }
{
    for (number, source) in parts.topology.sources.as_slice().iter().enumerate() {
        if is_bad_source(alloc, kind, parts, number, source)? {
            return Ok(Some(number));
        }
    }
    Ok(None)
}

fn first_component(
    alloc: Global,
    kind: TopoKind,
    parts: &Parts<'_, '_>,
) -> Result<Option<usize>, AllocError>
    requires kind { IsOfNames kind }
    requires each { length parts.now.sites.now ≤ length parts.now.topology.now.components }
    ensures place { IfOk result (λ place. place ≡ first_place (spec.bad_component kind (named parts.now)) 0 (sites_seen parts.now.sites.now)) }
    ensures within { IfOk result (λ place. IfSome place (λ i. i < length parts.now.sites.now)) }
{
    for (number, site) in parts.sites.iter().enumerate() {
        if is_bad_component(alloc, kind, parts, number, site)? {
            return Ok(Some(number));
        }
    }
    Ok(None)
}

fn first_stream(
    alloc: Global,
    kind: TopoKind,
    parts: &Parts<'_, '_>,
) -> Result<Option<usize>, AllocError>
    requires { IsOfNames kind }
    ensures place { IfOk result (λ place. place ≡ first_place (spec.bad_stream kind (named parts.now)) 0 parts.now.topology.now.streams) }
    ensures within { IfOk result (λ place. IfSome place (λ i. i < length parts.now.topology.now.streams)) }
{
    for (number, stream) in parts.topology.streams.as_slice().iter().enumerate() {
        if is_bad_stream(alloc, kind, parts, number, stream)? {
            return Ok(Some(number));
        }
    }
    Ok(None)
}

fn first_fd(
    alloc: Global,
    kind: TopoKind,
    parts: &Parts<'_, '_>,
) -> Result<Option<usize>, AllocError>
    requires { IsOfNames kind }
    ensures place { IfOk result (λ place. place ≡ first_place (spec.bad_fd kind (named parts.now)) 0 parts.now.topology.now.fds) }
    ensures within { IfOk result (λ place. IfSome place (λ i. i < length parts.now.topology.now.fds)) }
{
    for (number, fd) in parts.topology.fds.as_slice().iter().enumerate() {
        if is_bad_fd(alloc, kind, parts, number, fd)? {
            return Ok(Some(number));
        }
    }
    Ok(None)
}

// The fault of a kind of names at its first place.
fn kind_fault(
    alloc: Global,
    kind: TopoKind,
    parts: &Parts<'_, '_>,
) -> Result<Option<TopoFault>, AllocError>
    requires kind { IsOfNames kind }
    requires few { AreFew parts.now.topology.now (sites_seen parts.now.sites.now) }
    requires each { length parts.now.sites.now ≡ length parts.now.topology.now.components }
    ensures { IfOk result (λ fault. fault ≡ spec.kind_fault kind (named parts.now)) }
{
    let source = first_source(alloc, kind, parts)?;
    let component = first_component(alloc, kind, parts)?;
    let stream = first_stream(alloc, kind, parts)?;
    let fd = first_fd(alloc, kind, parts)?;
    Ok(at_places(kind, source, component, stream, fd))
}

// The fault of the first of these kinds that has one.
fn fault_in(
    alloc: Global,
    kinds: &[TopoKind],
    parts: &Parts<'_, '_>,
) -> Result<Option<TopoFault>, AllocError>
    requires kinds { All (λ kind. IsOfNames kind) kinds.now }
    requires few { AreFew parts.now.topology.now (sites_seen parts.now.sites.now) }
    requires each { length parts.now.sites.now ≡ length parts.now.topology.now.components }
    ensures { IfOk result (λ fault. fault ≡ spec.fault_in kinds.now (named parts.now)) }
{
    for kind in kinds {
        let fault = kind_fault(alloc, *kind, parts)?;
        if fault.is_some() {
            return Ok(fault);
        }
    }
    Ok(None)
}

/// The first fault of names: of the kinds Twice, Unknown and Columns.
pub(crate) fn names_fault(
    alloc: Global,
    parts: &Parts<'_, '_>,
) -> Result<Option<TopoFault>, AllocError>
    requires few { AreFew parts.now.topology.now (sites_seen parts.now.sites.now) }
    requires each { length parts.now.sites.now ≡ length parts.now.topology.now.components }
    ensures { IfOk result (λ fault. fault ≡ spec.fault_in spec.kinds_of_names (named parts.now)) }
{
    let kinds = [TopoKind::Twice, TopoKind::Unknown, TopoKind::Columns];
    fault_in(alloc, &kinds, parts)
}
