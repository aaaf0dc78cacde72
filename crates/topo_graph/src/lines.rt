//! What is asked of a stream again and again, found once.
ghost use Rattle.std.specs.Prelude.{◌≡◌, false, map, slice_index_or, IfOk};
ghost use Rattle.blz_value.specs.Bits as bits;
ghost use Rattle.topo_graph.specs.Code.Lines as spec;
ghost use Rattle.topo_forms.specs.Kept.{view_kept};
ghost use Rattle.topo_forms.specs.View as view;

use crate::lookups::{
    component_count, goes_into, has_body, is_order, origin_of, own_attrs, stream_attrs,
    stream_count,
};
use blz_value::{bit_of, set_at, union_of};
use std::alloc::{AllocError, Global};
use topo_forms::Kept;

/// A stream, as dependencies look at it.
#[derive(Drop)]
pub(crate) struct Line {
    /// The attributes of its columns.
    pub(crate) columns: u64,
    /// Whether it is a source.
    pub(crate) source: bool,
    /// Whether its component can hand on: with a body, outside of cyclic regions and in another mode than order.
    pub(crate) hands: bool,
    /// The attributes that its output has with themselves as their roots.
    pub(crate) own: u64,
    /// The streams into its component.
    pub(crate) before: u64,
}

// The sets of the streams into a component.
fn sets_into(alloc: Global, kept: &Kept, component: usize) -> Result<Vec<u64>, AllocError>
    ensures { IfOk result (λ sets. sets.items ≡ map bits.bit_of (view.streams_into (view_kept kept.now) component)) }
{
    (0..stream_count(kept))
        .filter(|stream| goes_into(kept, component, *stream))
        .map(|stream| bit_of(stream))
        .collect(alloc)
}

// The streams into a component.
fn streams_into(alloc: Global, kept: &Kept, component: usize) -> Result<u64, AllocError>
    ensures { IfOk result (λ set. set ≡ spec.into_set (view_kept kept.now) component) }
{
    let sets = sets_into(alloc, kept, component)?;
    Ok(union_of(&sets))
}

/// The streams into each component.
#[tactic(auto, using(blz_value::proofs::Ranges::map_below_more))]
pub(crate) fn all_into(alloc: Global, kept: &Kept) -> Result<Vec<u64>, AllocError>
    ensures { IfOk result (λ sets. sets.items ≡ spec.all_into (view_kept kept.now)) }
{
    let mut sets = Vec::new(alloc);
    for component in 0..component_count(kept) {
        sets.push(streams_into(alloc, kept, component)?)?;
    }
    Ok(sets)
}

fn is_cyclic_at(cycles: &[bool], component: usize) -> bool
    ensures { result ≡ slice_index_or cycles.now component false }
{
    match cycles.get(component) {
        Some(cyclic) => *cyclic,
        None => false,
    }
}

// Whether the component of an output hands dependencies on.
fn may_hand(kept: &Kept, cycles: &[bool], component: usize) -> bool
    ensures { result ≡ spec.may_hand_by (view_kept kept.now) cycles.now component }
{
    let ordered = is_order(kept, component);
    let cyclic = is_cyclic_at(cycles, component);
    has_body(kept, component) && !ordered && !cyclic
}

fn line_of(
    alloc: Global,
    kept: &Kept,
    cycles: &[bool],
    into: &[u64],
    stream: usize,
) -> Result<Line, AllocError>
    ensures { IfOk result (λ line. line ≡ spec.line_by (view_kept kept.now) cycles.now into.now stream) }
{
    let columns = stream_attrs(alloc, kept, stream)?;
    match origin_of(kept, stream) {
        None => Ok(Line {
            columns,
            source: true,
            hands: false,
            own: 0,
            before: 0,
        }),
        Some((component, output)) => Ok(Line {
            columns,
            source: false,
            hands: may_hand(kept, cycles, component as usize),
            own: own_attrs(alloc, kept, component as usize, output as usize)?,
            before: set_at(into, component as usize),
        }),
    }
}

/// Each stream, as dependencies look at it.
#[tactic(auto, using(blz_value::proofs::Ranges::map_below_more))]
pub(crate) fn lines_of(
    alloc: Global,
    kept: &Kept,
    cycles: &[bool],
    into: &[u64],
) -> Result<Vec<Line>, AllocError>
    ensures { IfOk result (λ lines. lines.items ≡ spec.lines_by (view_kept kept.now) cycles.now into.now) }
{
    let mut lines = Vec::new(alloc);
    for stream in 0..stream_count(kept) {
        lines.push(line_of(alloc, kept, cycles, into, stream)?)?;
    }
    Ok(lines)
}
