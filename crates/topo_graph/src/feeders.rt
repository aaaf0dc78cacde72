//! The components that feed each component, told the streams into each.
ghost use Rattle.std.specs.Prelude.{◌≡◌, map, IfOk};
ghost use Rattle.topo_graph.specs.Code.Feeders as spec;
ghost use Rattle.topo_forms.specs.Kept.{view_kept};
ghost use Rattle.topo_forms.specs.View.{stream_numbers};
ghost use Rattle.blz_value.specs.Arrows.{bit_if};

use crate::lookups::{component_count, is_order, origin_of, stream_count};
use blz_value::{bit_if, is_in, set_at, union_of};
use std::alloc::{AllocError, Global};
use topo_forms::Kept;

// A stream of an output among those into a component which isn't Order.
fn counts_into(kept: &Kept, into: u64, component: usize, stream: usize) -> bool
    ensures { result ≡ spec.counts_by (view_kept kept.now) into component stream }
{
    let sent = origin_of(kept, stream).is_some();
    let ordered = is_order(kept, component);
    sent && !ordered && is_in(stream, into)
}

fn sender_of(kept: &Kept, stream: usize) -> usize
    ensures { result ≡ spec.sender_of (view_kept kept.now) stream }
{
    match origin_of(kept, stream) {
        Some((component, _)) => component as usize,
        None => 0,
    }
}

// For each stream the set of its sender, which is empty where the stream doesn't count.
fn sender_sets(
    alloc: Global,
    kept: &Kept,
    into: u64,
    component: usize,
) -> Result<Vec<u64>, AllocError>
    ensures { IfOk result (λ sets. sets.items ≡ map (λ s. bit_if (spec.counts_by (view_kept kept.now) into component s) (spec.sender_of (view_kept kept.now) s)) (stream_numbers (view_kept kept.now))) }
{
    (0..stream_count(kept))
        .map(|stream| bit_if(
            counts_into(kept, into, component, stream),
            sender_of(kept, stream),
        ))
        .collect(alloc)
}

// The components that feed a component.
fn feeders(alloc: Global, kept: &Kept, into: &[u64], component: usize) -> Result<u64, AllocError>
    ensures { IfOk result (λ set. set ≡ spec.feeders_at (view_kept kept.now) into.now component) }
{
    let sets = sender_sets(alloc, kept, set_at(into, component), component)?;
    Ok(union_of(&sets))
}

/// The components that feed each component, told the streams into each.
#[tactic(auto, using(blz_value::proofs::Ranges::map_below_more))]
pub(crate) fn all_feeders(alloc: Global, kept: &Kept, into: &[u64]) -> Result<Vec<u64>, AllocError>
    ensures { IfOk result (λ sets. sets.items ≡ spec.all_feeders_by (view_kept kept.now) into.now) }
{
    let mut sets = Vec::new(alloc);
    for component in 0..component_count(kept) {
        sets.push(feeders(alloc, kept, into, component)?)?;
    }
    Ok(sets)
}
