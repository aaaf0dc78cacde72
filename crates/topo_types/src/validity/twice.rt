//! The kind Twice: what stands twice.
ghost use Rattle.std.specs.Prelude.{◌≡◌, IfOk};
ghost use Rattle.std.specs.List.{list_any};
ghost use Rattle.std.specs.Str.{bytes_eq};
ghost use Rattle.topo_forms.specs.Validity.Twice as spec;

use blz_value::Str;
use std::alloc::{AllocError, Global};
use std::collections::BTreeSet;
use topo_forms::{
    Body, ComponentEntry, Declared, FdEntry, Side, SourceEntry, Spot, Stock, StreamEntry,
};

// ---- lists in which nothing stands twice

/// Whether no name stands twice.
pub(crate) fn names_are_distinct(alloc: Global, names: &[Str]) -> Result<bool, AllocError>
    ensures { IfOk result (λ distinct. distinct ≡ spec.names_are_distinct names.now) }
{
    let distinct: BTreeSet<&Str> = names.iter().collect(alloc)?;
    Ok(distinct.len() == names.len())
}

/// Whether no spot stands twice.
pub(crate) fn spots_are_distinct(alloc: Global, spots: &[Spot]) -> Result<bool, AllocError>
    ensures { IfOk result (λ distinct. distinct ≡ spec.spots_are_distinct spots.now) }
{
    let distinct: BTreeSet<(&Str, &Str)> = spots
        .iter()
        .map(|spot| (&spot.component, &spot.port))
        .collect(alloc)?;
    Ok(distinct.len() == spots.len())
}

/// Whether no two notes have one `from` and `to`.
pub(crate) fn notes_are_distinct(alloc: Global, notes: &[Declared]) -> Result<bool, AllocError>
    ensures { IfOk result (λ distinct. distinct ≡ spec.notes_are_distinct notes.now) }
{
    let distinct: BTreeSet<(&Str, &Str)> = notes
        .iter()
        .map(|note| (&note.from, &note.to))
        .collect(alloc)?;
    Ok(distinct.len() == notes.len())
}

/// Whether no two of the ports, or outputs, have one name.
pub(crate) fn sides_are_distinct(alloc: Global, sides: &[Side]) -> Result<bool, AllocError>
    ensures { IfOk result (λ distinct. distinct ≡ spec.sides_are_distinct sides.now) }
{
    let distinct: BTreeSet<&Str> = sides.iter().map(|side| &side.name).collect(alloc)?;
    Ok(distinct.len() == sides.len())
}

/// Whether one of the ports, or outputs, has a column twice.
pub(crate) fn repeats_column(alloc: Global, sides: &[Side]) -> Result<bool, AllocError>
    ensures { IfOk result (λ repeats. repeats ≡ spec.repeats_column sides.now) }
{
    for side in sides {
        if !names_are_distinct(alloc, side.columns.as_slice())? {
            return Ok(true);
        }
    }
    Ok(false)
}

// Whether two of the ports, or outputs, have one name, or one of them has a column twice.
fn repeat_in(alloc: Global, sides: &[Side]) -> Result<bool, AllocError>
    ensures { IfOk result (λ repeat. repeat ≡ spec.repeat_in sides.now) }
{
    if !sides_are_distinct(alloc, sides)? {
        return Ok(true);
    }
    repeats_column(alloc, sides)
}

fn repeats_in_stock(alloc: Global, stock: &Stock) -> Result<bool, AllocError>
    ensures { IfOk result (λ repeats. repeats ≡ spec.repeats_in_stock stock.now) }
{
    match stock {
        Stock::Split { columns, .. } | Stock::Number { columns } => {
            Ok(!names_are_distinct(alloc, columns.as_slice())?)
        }
        Stock::Latest { columns, keys } => {
            if !names_are_distinct(alloc, columns.as_slice())? {
                return Ok(true);
            }
            Ok(!names_are_distinct(alloc, keys.as_slice())?)
        }
    }
}

fn repeats_in_body(alloc: Global, body: &Body) -> Result<bool, AllocError>
    ensures { IfOk result (λ repeats. repeats ≡ spec.repeats_in_body body.now) }
{
    match body {
        Body::Module(_) | Body::None => Ok(false),
        Body::Stock(stock) => repeats_in_stock(alloc, stock),
    }
}

fn repeats_in_gate(alloc: Global, notes: &[Declared]) -> Result<bool, AllocError>
    ensures { IfOk result (λ repeats. repeats ≡ spec.repeats_in_gate notes.now) }
{
    for note in notes {
        if !names_are_distinct(alloc, note.gate.as_slice())? {
            return Ok(true);
        }
    }
    Ok(false)
}

// ---- parts that are there

/// Whether the name is one of these.
pub(crate) fn has_name(names: &[Str], name: &Str) -> bool
    ensures { result ≡ list_any (bytes_eq name.now) names.now }
{
    names.iter().any(|other| *name == *other)
}

/// Whether each name of the first list is one of the second.
pub(crate) fn names_within(names: &[Str], others: &[Str]) -> bool
    ensures { result ≡ spec.names_within names.now others.now }
{
    names.iter().all(|name| has_name(others, name))
}

/// Whether one of the sources has the name.
pub(crate) fn has_source(sources: &[SourceEntry], name: &Str) -> bool
    ensures { result ≡ spec.has_source sources.now name.now }
{
    sources.iter().any(|source| source.name == *name)
}

/// Whether one of the components has the name.
pub(crate) fn has_component(components: &[ComponentEntry], name: &Str) -> bool
    ensures { result ≡ spec.has_component components.now name.now }
{
    components.iter().any(|component| component.name == *name)
}

fn has_stream(streams: &[StreamEntry], name: &Str) -> bool
    ensures { result ≡ spec.has_stream streams.now name.now }
{
    streams.iter().any(|stream| stream.name == *name)
}

fn same_spot(a: &Spot, b: &Spot) -> bool
    ensures { result ≡ spec.same_pair (spec.spot_pair a.now) (spec.spot_pair b.now) }
{
    a.component == b.component && a.port == b.port
}

// Whether one of the streams comes from the output.
fn has_start(streams: &[StreamEntry], output: &Spot) -> bool
    ensures { result ≡ spec.has_start streams.now output.now }
{
    streams.iter().any(|stream| same_spot(&stream.from, output))
}

fn same_names(a: &[Str], b: &[Str]) -> bool
    ensures { result ≡ spec.same_names a.now b.now }
{
    names_within(a, b) && names_within(b, a)
}

fn same_fd(a: &FdEntry, b: &FdEntry) -> bool
    ensures { result ≡ spec.same_fd a.now b.now }
{
    same_names(a.from.as_slice(), b.from.as_slice()) && same_names(a.to.as_slice(), b.to.as_slice())
}

// Whether one of the dependencies has the same two sets.
fn has_fd(fds: &[FdEntry], fd: &FdEntry) -> bool
    ensures { result ≡ spec.has_fd fds.now fd.now }
{
    fds.iter().any(|other| same_fd(fd, other))
}

// ---- the kind

/// Whether the source has an earlier one's name or holds something twice.
pub(crate) fn is_twice_source(
    alloc: Global,
    earlier: &[SourceEntry],
    source: &SourceEntry,
) -> Result<bool, AllocError>
    ensures { IfOk result (λ twice. twice ≡ spec.twice_source earlier.now source.now) }
{
    if has_source(earlier, &source.name) {
        return Ok(true);
    }
    if !names_are_distinct(alloc, source.columns.as_slice())? {
        return Ok(true);
    }
    if !spots_are_distinct(alloc, source.to.as_slice())? {
        return Ok(true);
    }
    Ok(!names_are_distinct(alloc, source.seal.as_slice())?)
}

// Whether the component has a note of one path, or a name in its key or in a gate, twice.
fn repeats_in_notes(alloc: Global, component: &ComponentEntry) -> Result<bool, AllocError>
    ensures { IfOk result (λ repeats. repeats ≡ spec.repeats_in_notes component.now) }
{
    let notes = component.notes.as_slice();
    if !notes_are_distinct(alloc, notes)? {
        return Ok(true);
    }
    if !names_are_distinct(alloc, component.key.as_slice())? {
        return Ok(true);
    }
    repeats_in_gate(alloc, notes)
}

/// Whether the component has an earlier one's name or holds something twice.
pub(crate) fn is_twice_component(
    alloc: Global,
    earlier: &[ComponentEntry],
    component: &ComponentEntry,
) -> Result<bool, AllocError>
    ensures { IfOk result (λ twice. twice ≡ spec.twice_component earlier.now component.now) }
{
    if has_component(earlier, &component.name) {
        return Ok(true);
    }
    if repeat_in(alloc, component.inputs.as_slice())? {
        return Ok(true);
    }
    if repeat_in(alloc, component.outputs.as_slice())? {
        return Ok(true);
    }
    if repeats_in_body(alloc, &component.body)? {
        return Ok(true);
    }
    repeats_in_notes(alloc, component)
}

/// Whether the stream has a name or a beginning that another has, or a `to` entry twice.
pub(crate) fn is_twice_stream(
    alloc: Global,
    sources: &[SourceEntry],
    earlier: &[StreamEntry],
    stream: &StreamEntry,
) -> Result<bool, AllocError>
    ensures { IfOk result (λ twice. twice ≡ spec.twice_stream sources.now earlier.now stream.now) }
{
    if has_source(sources, &stream.name) {
        return Ok(true);
    }
    if has_stream(earlier, &stream.name) || has_start(earlier, &stream.from) {
        return Ok(true);
    }
    Ok(!spots_are_distinct(alloc, stream.to.as_slice())?)
}

/// Whether the dependency has a name twice in one list, or the two sets of an earlier one.
pub(crate) fn is_twice_fd(
    alloc: Global,
    earlier: &[FdEntry],
    fd: &FdEntry,
) -> Result<bool, AllocError>
    ensures { IfOk result (λ twice. twice ≡ spec.twice_fd earlier.now fd.now) }
{
    if !names_are_distinct(alloc, fd.from.as_slice())? {
        return Ok(true);
    }
    if !names_are_distinct(alloc, fd.to.as_slice())? {
        return Ok(true);
    }
    Ok(has_fd(earlier, fd))
}
