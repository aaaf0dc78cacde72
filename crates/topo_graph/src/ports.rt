//! The streams into each port, found once: a walk over the ends of all streams gives those at a
//! component, and each of its ports takes its own from these.
ghost use Rattle.std.specs.Prelude.{◌≡◌, ◌++◌, map, IfOk, OnOk};
ghost use Rattle.topo_graph.specs.Code.Ports as spec;
ghost use Rattle.topo_forms.specs.Kept.{view_kept};
ghost use Rattle.blz_value.specs.Arrows.{with_all};
ghost use Rattle.blz_value.specs.NumberSets.{below};

use crate::lookups::{component_count, port_count, stream_count};
use blz_value::{Items, bit_of, set_at, union_of};
use std::alloc::{AllocError, Global};
use topo_forms::Kept;

/// A port of a component to which a stream goes, with the set of that stream.
#[derive(Clone, Copy)]
pub(crate) struct Feed {
    pub(crate) port: usize,
    pub(crate) stream: u64,
}

// Adds the ends of a stream that are ports of a component.
fn push_ends(
    ends: &[(u32, u32)],
    component: usize,
    stream: u64,
    feeds: &mut Vec<Feed>,
) -> Result<(), AllocError>
    ensures { OnOk result (feeds.new.items ≡ feeds.old.items ++ spec.feeds_in ends.now component stream) }
{
    for end in ends {
        if component == end.0 as usize {
            let port = end.1 as usize;
            feeds.push(Feed { port, stream })?;
        }
    }
    Ok(())
}

// Adds the ports of a component to which a stream goes.
fn push_feeds(
    kept: &Kept,
    component: usize,
    stream: usize,
    feeds: &mut Vec<Feed>,
) -> Result<(), AllocError>
    ensures { OnOk result (feeds.new.items ≡ feeds.old.items ++ spec.feeds_at (view_kept kept.now) component stream) }
{
    match kept.streams.as_slice().get(stream) {
        Some(s) => push_ends(s.to.as_slice(), component, bit_of(stream), feeds),
        None => Ok(()),
    }
}

// The ports of a component to which streams go, by stream.
#[tactic(auto, using(crate::proofs::PortsFound::feed_steps))]
fn feeds_of(alloc: Global, kept: &Kept, component: usize) -> Result<Vec<Feed>, AllocError>
    ensures { IfOk result (λ feeds. feeds.items ≡ spec.feeds_of (view_kept kept.now) component) }
{
    let mut feeds = Vec::new(alloc);
    for stream in 0..stream_count(kept) {
        push_feeds(kept, component, stream, &mut feeds)?;
    }
    Ok(feeds)
}

// The streams into a port.
fn set_of_port(feeds: &[Feed], port: usize) -> u64
    ensures { result ≡ spec.set_of_port feeds.now port }
{
    let mut set = 0;
    for feed in feeds {
        if port == feed.port {
            set |= feed.stream;
        }
    }
    set
}

fn sets_of_ports(alloc: Global, feeds: &[Feed], count: usize) -> Result<Vec<u64>, AllocError>
    ensures { IfOk result (λ sets. sets.items ≡ map (spec.set_of_port feeds.now) (below count)) }
{
    (0..count)
        .map(|port| set_of_port(feeds, port))
        .collect(alloc)
}

// The streams into each port of a component.
fn row_of(alloc: Global, kept: &Kept, component: usize) -> Result<Items<u64>, AllocError>
    ensures { IfOk result (λ row. row ≡ spec.row_of (view_kept kept.now) component) }
{
    let feeds = feeds_of(alloc, kept, component)?;
    let sets = sets_of_ports(alloc, &feeds, port_count(kept, component))?;
    Ok(Items::from_vec(sets))
}

/// The streams into each port of each component.
#[tactic(auto, using(blz_value::proofs::Ranges::map_below_more))]
pub(crate) fn all_rows(alloc: Global, kept: &Kept) -> Result<Vec<Items<u64>>, AllocError>
    ensures { IfOk result (λ rows. rows.items ≡ spec.all_rows (view_kept kept.now)) }
{
    let mut rows = Vec::new(alloc);
    for component in 0..component_count(kept) {
        rows.push(row_of(alloc, kept, component)?)?;
    }
    Ok(rows)
}

/// The streams into each component, told those into each of its ports.
pub(crate) fn all_unions(alloc: Global, rows: &[Items<u64>]) -> Result<Vec<u64>, AllocError>
    ensures { IfOk result (λ sets. sets.items ≡ map (with_all 0) rows.now) }
{
    rows.iter()
        .map(|row| union_of(row.as_slice()))
        .collect(alloc)
}

/// The streams into a port, none past the ends of the lists.
pub(crate) fn set_of(rows: &[Items<u64>], component: usize, port: usize) -> u64
    ensures { result ≡ spec.at_port rows.now component port }
{
    match rows.get(component) {
        Some(row) => set_at(row.as_slice(), port),
        None => 0,
    }
}
