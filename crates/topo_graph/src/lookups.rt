//! Parts of a view by their numbers; past the end of a list stands a part that holds nothing.
ghost use Rattle.std.specs.Prelude.{◌≡◌, ◌==◌, None, [], length, map, slice_index_or, IfOk};
ghost use Rattle.bloom_forms.specs.Gates as gates;
ghost use Rattle.std.specs.List.{list_any, zip};
ghost use Rattle.std.specs.Option.{option_map_or};
ghost use Rattle.topo_forms.specs.Kept.{view_kept, output_kept};
ghost use Rattle.topo_forms.specs.View as view;

use bloom_forms::{Mode, Note};
use blz_value::{Attrs, Items, bit_of, union_of};
use std::alloc::{AllocError, Global};
use topo_forms::{Kept, KeptOutput};

// The set of a root.
fn root_set(root: Option<u8>) -> u64
    ensures { result ≡ gates.root_set root }
{
    match root {
        Some(attribute) => bit_of(attribute as usize),
        None => 0,
    }
}

fn set_of_roots(alloc: Global, roots: &[Option<u8>]) -> Result<u64, AllocError>
    ensures { IfOk result (λ set. set ≡ gates.set_of_roots roots.now) }
{
    let sets: Vec<u64> = roots.iter().map(|root| root_set(*root)).collect(alloc)?;
    Ok(union_of(&sets))
}

// The attribute of a column that has itself as its root.
fn own_root(column: Option<u8>, root: Option<u8>) -> Option<u8>
    ensures { result ≡ view.own_root (column, root) }
{
    match (column, root) {
        (Some(a), Some(b)) if a == b => column,
        _ => None,
    }
}

fn own_roots(
    alloc: Global,
    columns: &[Option<u8>],
    roots: &[Option<u8>],
) -> Result<Vec<Option<u8>>, AllocError>
    ensures { IfOk result (λ own. own.items ≡ map view.own_root (zip columns.now roots.now)) }
{
    columns
        .iter()
        .zip(roots)
        .map(|(column, root)| own_root(*column, *root))
        .collect(alloc)
}

fn own_of(alloc: Global, output: &KeptOutput) -> Result<u64, AllocError>
    ensures { IfOk result (λ set. set ≡ view.own_attrs (output_kept output.now)) }
{
    let roots = own_roots(alloc, output.columns.as_slice(), output.roots.as_slice())?;
    set_of_roots(alloc, &roots)
}

fn output_at(kept: &Kept, component: usize, output: usize) -> Option<&KeptOutput>
    ensures { option_map_or (λ o. output_kept o.now) result view.no_output ≡ view.output_at (view_kept kept.now) component output }
{
    match kept.components.as_slice().get(component) {
        Some(c) => c.outputs.as_slice().get(output),
        None => None,
    }
}

/// How many streams there are.
pub(crate) fn stream_count(kept: &Kept) -> usize
    ensures { result ≡ length (view_kept kept.now).streams }
{
    kept.streams.as_slice().len()
}

/// How many components there are.
pub(crate) fn component_count(kept: &Kept) -> usize
    ensures { result ≡ length (view_kept kept.now).components }
{
    kept.components.as_slice().len()
}

/// The output from which a stream comes, and none for a source.
pub fn origin_of(kept: &Kept, stream: usize) -> Option<(u32, u32)>
    ensures { result ≡ view.origin_of (view_kept kept.now) stream }
{
    match kept.streams.as_slice().get(stream) {
        Some(s) => s.origin,
        None => None,
    }
}

fn have_component(ends: &[(u32, u32)], component: usize) -> bool
    ensures { result ≡ list_any (λ end. component == end.0) ends.now }
{
    ends.iter().any(|end| component == end.0 as usize)
}

/// Whether a stream goes to some port of a component.
pub(crate) fn goes_into(kept: &Kept, component: usize, stream: usize) -> bool
    ensures { result ≡ view.goes_into (view_kept kept.now) component stream }
{
    match kept.streams.as_slice().get(stream) {
        Some(s) => have_component(s.to.as_slice(), component),
        None => false,
    }
}

/// How a component coordinates.
pub fn mode_of(kept: &Kept, component: usize) -> Mode
    ensures { result ≡ view.mode_of (view_kept kept.now) component }
{
    match kept.components.as_slice().get(component) {
        Some(c) => c.mode,
        None => Mode::Free,
    }
}

/// Whether a component is Order.
pub fn is_order(kept: &Kept, component: usize) -> bool
    ensures { result ≡ view.is_order (view_kept kept.now) component }
{
    matches!(&mode_of(kept, component), Mode::Order)
}

/// Whether a component has a body.
pub(crate) fn has_body(kept: &Kept, component: usize) -> bool
    ensures { result ≡ view.has_body (view_kept kept.now) component }
{
    match kept.components.as_slice().get(component) {
        Some(c) => c.program.is_some(),
        None => false,
    }
}

/// The key of the seals of a source.
pub(crate) fn key_of(kept: &Kept, stream: usize) -> Option<Attrs>
    ensures { result ≡ (view.stream_at (view_kept kept.now) stream).key }
{
    match kept.streams.as_slice().get(stream) {
        Some(s) => s.key,
        None => None,
    }
}

/// How many ports a component has.
pub(crate) fn port_count(kept: &Kept, component: usize) -> usize
    ensures { result ≡ length (view.component_at (view_kept kept.now) component).ports }
{
    match kept.components.as_slice().get(component) {
        Some(c) => c.ports.as_slice().len(),
        None => 0,
    }
}

/// The note of the path from a port to an output.
pub(crate) fn note_at(kept: &Kept, component: usize, port: usize, output: usize) -> Option<Note>
    ensures { result ≡ view.note_at (view_kept kept.now) component port output }
{
    match kept.components.as_slice().get(component) {
        Some(c) => note_in(c.notes.as_slice(), port, output),
        None => None,
    }
}

fn note_in(rows: &[Items<Option<Note>>], port: usize, output: usize) -> Option<Note>
    ensures { result ≡ slice_index_or (slice_index_or rows.now port []) output None }
{
    match rows.get(port) {
        Some(row) => match row.as_slice().get(output) {
            Some(note) => *note,
            None => None,
        },
        None => None,
    }
}

/// The gate of an output.
pub(crate) fn gate_at(kept: &Kept, component: usize, output: usize) -> u64
    ensures { result ≡ (view.output_at (view_kept kept.now) component output).gate.bits }
{
    match output_at(kept, component, output) {
        Some(o) => o.gate.bits,
        None => 0,
    }
}

/// The attributes of a stream's columns.
pub(crate) fn stream_attrs(alloc: Global, kept: &Kept, stream: usize) -> Result<u64, AllocError>
    ensures { IfOk result (λ set. set ≡ (view.stream_attrs (view_kept kept.now) stream).bits) }
{
    match kept.streams.as_slice().get(stream) {
        Some(s) => set_of_roots(alloc, s.columns.as_slice()),
        None => Ok(0),
    }
}

/// The attributes that an output has as a column whose root is that attribute.
pub(crate) fn own_attrs(
    alloc: Global,
    kept: &Kept,
    component: usize,
    output: usize,
) -> Result<u64, AllocError>
    ensures { IfOk result (λ set. set ≡ view.own_attrs (view.output_at (view_kept kept.now) component output)) }
{
    match output_at(kept, component, output) {
        Some(o) => own_of(alloc, o),
        None => Ok(0),
    }
}
