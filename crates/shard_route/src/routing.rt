//! The topology in which copies stand in the place of a component.
ghost use Rattle.std.specs.Prelude.{◌≡◌, ◌++◌, map, IfOk, OnOk};
ghost use Rattle.std.specs.List.{flat_map};
ghost use Rattle.shard_route.specs.Routing as spec;

use crate::names::{file_of, numbered};
use blz_value::{Faithful, Items, Str, copy_all};
use std::alloc::{AllocError, Global};
use topo_forms::{Body, ComponentEntry, SourceEntry, Spot, StreamEntry, Topology};

// ---- ports and outputs

// The port or output of a copy.
fn copied_spot(alloc: Global, spot: &Spot, number: u32) -> Result<Spot, AllocError>
    ensures { IfOk result (λ copy. copy ≡ spec.copied_spot spot.now number) }
{
    let component = numbered(alloc, &spot.component, number)?;
    let port = spot.port.copy()?;
    Ok(Spot { component, port })
}

fn push_copied_spots(
    alloc: Global,
    spot: &Spot,
    numbers: &[u32],
    into: &mut Vec<Spot>,
) -> Result<(), AllocError>
    ensures { OnOk result (into.new.items ≡ into.old.items ++ map (spec.copied_spot spot.now) numbers.now) }
{
    for number in numbers {
        into.push(copied_spot(alloc, spot, *number)?)?;
    }
    Ok(())
}

fn push_spot(
    alloc: Global,
    name: &Str,
    numbers: &[u32],
    spot: &Spot,
    into: &mut Vec<Spot>,
) -> Result<(), AllocError>
    ensures { OnOk result (into.new.items ≡ into.old.items ++ spec.sharded_spot name.now numbers.now spot.now) }
{
    if spot.component.equals(name) {
        push_copied_spots(alloc, spot, numbers, into)
    } else {
        Ok(into.push(spot.copied()?)?)
    }
}

// The ends of a stream, with those at the component as ends at each copy.
fn sharded_ends(
    alloc: Global,
    name: &Str,
    numbers: &[u32],
    ends: &[Spot],
) -> Result<Items<Spot>, AllocError>
    ensures { IfOk result (λ others. others ≡ spec.sharded_ends name.now numbers.now ends.now) }
{
    let mut others = Vec::new(alloc);
    for end in ends {
        push_spot(alloc, name, numbers, end, &mut others)?;
    }
    Ok(Items::from_vec(others))
}

// ---- sources

fn sharded_source(
    alloc: Global,
    name: &Str,
    numbers: &[u32],
    source: &SourceEntry,
) -> Result<SourceEntry, AllocError>
    ensures { IfOk result (λ other. other ≡ spec.sharded_source name.now numbers.now source.now) }
{
    Ok(SourceEntry {
        name: source.name.copy()?,
        columns: source.columns.copied()?,
        types: source.types.copied()?,
        seal: source.seal.copied()?,
        to: sharded_ends(alloc, name, numbers, source.to.as_slice())?,
    })
}

fn sharded_sources(
    alloc: Global,
    name: &Str,
    numbers: &[u32],
    sources: &[SourceEntry],
) -> Result<Items<SourceEntry>, AllocError>
    ensures { IfOk result (λ others. others ≡ map (spec.sharded_source name.now numbers.now) sources.now) }
{
    let mut others = Vec::new(alloc);
    for source in sources {
        others.push(sharded_source(alloc, name, numbers, source)?)?;
    }
    Ok(Items::from_vec(others))
}

// ---- components

// A copy, which has the replicas, the mode, the key and the notes of the component.
fn copied_component(
    alloc: Global,
    component: &ComponentEntry,
    number: u32,
) -> Result<ComponentEntry, AllocError>
    ensures { IfOk result (λ copy. copy ≡ spec.copied_component component.now number) }
{
    Ok(ComponentEntry {
        name: numbered(alloc, &component.name, number)?,
        body: Body::Module(file_of(alloc, &component.name, number)?),
        inputs: Items::from_vec(Vec::new(alloc)),
        outputs: Items::from_vec(Vec::new(alloc)),
        notes: component.notes.copied()?,
        replicas: component.replicas,
        mode: component.mode,
        key: component.key.copied()?,
    })
}

fn push_copied_components(
    alloc: Global,
    component: &ComponentEntry,
    numbers: &[u32],
    into: &mut Vec<ComponentEntry>,
) -> Result<(), AllocError>
    ensures { OnOk result (into.new.items ≡ into.old.items ++ map (spec.copied_component component.now) numbers.now) }
{
    for number in numbers {
        into.push(copied_component(alloc, component, *number)?)?;
    }
    Ok(())
}

fn push_component(
    alloc: Global,
    name: &Str,
    numbers: &[u32],
    component: &ComponentEntry,
    into: &mut Vec<ComponentEntry>,
) -> Result<(), AllocError>
    ensures { OnOk result (into.new.items ≡ into.old.items ++ spec.sharded_component name.now numbers.now component.now) }
{
    if component.name.equals(name) {
        push_copied_components(alloc, component, numbers, into)
    } else {
        Ok(into.push(component.copied()?)?)
    }
}

fn sharded_components(
    alloc: Global,
    name: &Str,
    numbers: &[u32],
    components: &[ComponentEntry],
) -> Result<Items<ComponentEntry>, AllocError>
    ensures { IfOk result (λ others. others ≡ flat_map (spec.sharded_component name.now numbers.now) components.now) }
{
    let mut others = Vec::new(alloc);
    for component in components {
        push_component(alloc, name, numbers, component, &mut others)?;
    }
    Ok(Items::from_vec(others))
}

// ---- streams

// The stream of a copy.
fn copied_stream(
    alloc: Global,
    ends: &[Spot],
    stream: &StreamEntry,
    number: u32,
) -> Result<StreamEntry, AllocError>
    ensures { IfOk result (λ copy. copy ≡ spec.copied_stream ends.now stream.now number) }
{
    Ok(StreamEntry {
        name: numbered(alloc, &stream.name, number)?,
        from: copied_spot(alloc, &stream.from, number)?,
        to: copy_all(alloc, ends)?,
    })
}

fn push_copied_streams(
    alloc: Global,
    ends: &[Spot],
    stream: &StreamEntry,
    numbers: &[u32],
    into: &mut Vec<StreamEntry>,
) -> Result<(), AllocError>
    ensures { OnOk result (into.new.items ≡ into.old.items ++ map (spec.copied_stream ends.now stream.now) numbers.now) }
{
    for number in numbers {
        into.push(copied_stream(alloc, ends, stream, *number)?)?;
    }
    Ok(())
}

fn push_stream(
    alloc: Global,
    name: &Str,
    numbers: &[u32],
    stream: &StreamEntry,
    into: &mut Vec<StreamEntry>,
) -> Result<(), AllocError>
    ensures { OnOk result (into.new.items ≡ into.old.items ++ spec.sharded_stream name.now numbers.now stream.now) }
{
    let to = sharded_ends(alloc, name, numbers, stream.to.as_slice())?;
    if stream.from.component.equals(name) {
        return push_copied_streams(alloc, to.as_slice(), stream, numbers, into);
    }
    let name = stream.name.copy()?;
    let from = stream.from.copied()?;
    Ok(into.push(StreamEntry { name, from, to })?)
}

fn sharded_streams(
    alloc: Global,
    name: &Str,
    numbers: &[u32],
    streams: &[StreamEntry],
) -> Result<Items<StreamEntry>, AllocError>
    ensures { IfOk result (λ others. others ≡ flat_map (spec.sharded_stream name.now numbers.now) streams.now) }
{
    let mut others = Vec::new(alloc);
    for stream in streams {
        push_stream(alloc, name, numbers, stream, &mut others)?;
    }
    Ok(Items::from_vec(others))
}

// ---- the whole

/// The topology, of format 2, in which copies with these numbers stand in the place of the component:
/// each has a stream where the component has one, and each end at the component is one at each copy.
pub(crate) fn sharded_topology(
    alloc: Global,
    topology: &Topology,
    name: &Str,
    numbers: &[u32],
) -> Result<Topology, AllocError>
    ensures { IfOk result (λ other. other ≡ spec.sharded_topology topology.now name.now numbers.now) }
{
    Ok(Topology {
        format: 2,
        sources: sharded_sources(alloc, name, numbers, topology.sources.as_slice())?,
        components: sharded_components(alloc, name, numbers, topology.components.as_slice())?,
        streams: sharded_streams(alloc, name, numbers, topology.streams.as_slice())?,
        fds: topology.fds.copied()?,
    })
}
