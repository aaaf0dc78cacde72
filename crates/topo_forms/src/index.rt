//! The numbers of streams, components and ports, by their names.
ghost use Rattle.std.specs.Prelude.{◌≡◌, ◌<◌, map, length, slice_index_or, IfOk};
ghost use Rattle.std.specs.BTreeMap.{get};
ghost use Rattle.topo_forms.specs.Code.Index as spec;
ghost use Rattle.topo_forms.specs.Kept.{view_kept};

use crate::kept::{Kept, KeptComponent, KeptPort, KeptStream};
use blz_value::{Items, Str};
use std::alloc::{AllocError, Global};
use std::collections::BTreeMap;

/// The numbers of streams, components and ports, by their names.
#[derive(Drop)]
pub(crate) struct Index {
    pub(crate) streams: BTreeMap<Str, usize>,
    pub(crate) components: BTreeMap<Str, usize>,
    /// For each component the numbers of its ports.
    pub(crate) ports: Items<BTreeMap<Str, usize>>,
}

// Each of some names with its first place.
fn places_of(alloc: Global, names: &[&Str]) -> Result<BTreeMap<Str, usize>, AllocError>
    ensures { IfOk result (spec.Places (map (λ name. name.now) names.now)) }
{
    let mut places = BTreeMap::new(alloc);
    for (place, name) in names.iter().enumerate() {
        if !places.contains_key(*name) {
            let _ = places.insert(name.copy()?, place)?;
        }
    }
    Ok(places)
}

fn stream_names<'a>(alloc: Global, streams: &'a [KeptStream]) -> Result<Vec<&'a Str>, AllocError>
    ensures { IfOk result (λ names. map (λ name. name.now) names.items ≡ map (λ s. s.name) streams.now) }
{
    let mut names = Vec::new(alloc);
    for stream in streams {
        names.push(&stream.name)?;
    }
    Ok(names)
}

fn component_names<'a>(
    alloc: Global,
    components: &'a [KeptComponent],
) -> Result<Vec<&'a Str>, AllocError>
    ensures { IfOk result (λ names. map (λ name. name.now) names.items ≡ map (λ c. c.name) components.now) }
{
    let mut names = Vec::new(alloc);
    for component in components {
        names.push(&component.name)?;
    }
    Ok(names)
}

fn port_names<'a>(alloc: Global, ports: &'a [KeptPort]) -> Result<Vec<&'a Str>, AllocError>
    ensures { IfOk result (λ names. map (λ name. name.now) names.items ≡ map (λ p. p.name) ports.now) }
{
    let mut names = Vec::new(alloc);
    for port in ports {
        names.push(&port.name)?;
    }
    Ok(names)
}

fn ports_of(alloc: Global, ports: &[KeptPort]) -> Result<BTreeMap<Str, usize>, AllocError>
    ensures { IfOk result (spec.Places (map (λ p. p.name) ports.now)) }
{
    places_of(alloc, &port_names(alloc, ports)?)
}

// For each component the places of its ports.
fn all_ports(
    alloc: Global,
    components: &[KeptComponent],
) -> Result<Vec<BTreeMap<Str, usize>>, AllocError>
    ensures each { IfOk result (λ all. length all.items ≡ length components.now) }
    ensures ports { IfOk result (λ all. spec.AllPlaces components.now all.items) }
{
    let mut all = Vec::new(alloc);
    for component in components {
        all.push(ports_of(alloc, component.ports.as_slice())?)?;
    }
    Ok(all)
}

impl Index {
    /// The numbers of the parts that are kept.
    pub(crate) fn of(alloc: Global, kept: &Kept) -> Result<Index, AllocError>
        ensures { IfOk result (spec.IsIndex (view_kept kept.now)) }
    {
        let streams = stream_names(alloc, kept.streams.as_slice())?;
        let components = component_names(alloc, kept.components.as_slice())?;
        let ports = all_ports(alloc, kept.components.as_slice())?;
        Ok(Index {
            streams: places_of(alloc, &streams)?,
            components: places_of(alloc, &components)?,
            ports: Items::from_vec(ports),
        })
    }
}

/// The number of a name, None where it has none.
pub(crate) fn number_in(places: &BTreeMap<Str, usize>, name: &Str) -> Option<usize>
    ensures { result ≡ get spec.name_cmp places.now name.now }
{
    places.get(name).copied()
}
