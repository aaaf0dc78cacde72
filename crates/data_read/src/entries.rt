//! The rows and parts of each source, or the first break of their form.
ghost use Rattle.std.specs.Prelude.{◌≡◌, ◌+◌, ◌<◌, ◌≤◌, ◌^◌, IfOk, IfSome, length, map, option_map};
ghost use Rattle.serde_json.specs.Events.{items_len};
ghost use Rattle.serde_json.specs.Find.{get};
ghost use Rattle.serde_json.specs.View.{view, items_view, members_view};
ghost use Rattle.data_read.specs.Code.Weight.{weight, weight_or_none};
ghost use Rattle.data_read.specs.declared.fault.DataFault.TheVariants as faults;
ghost use Rattle.data_read.specs.Entry as entry;
ghost use Rattle.data_read.specs.Form as spec;
ghost use Rattle.data_read.specs.Gives.{Gives, IsFault};
ghost use Rattle.data_read.specs.Keys as keys;
ghost use Rattle.data_read.specs.Values as values;

use crate::fault::{DataFault, ValueFault, break_at};
use crate::keys::{has_only, unknown_key};
use crate::shape::Shape;
use crate::values::record_in;
use blz_value::{Record, Str};
use serde_json::{Map, Value as Json};
use std::alloc::{AllocError, Global};
use topo_forms::{ColumnType, SourceLists};

fn record_at(
    alloc: Global,
    types: &[ColumnType],
    name: &Str,
    row: usize,
    value: &Json,
) -> Result<Record, DataFault>
    requires { row < 2 ^ 32 }
    ensures { Gives (λ row. row) result (spec.or_break name.now row (values.record_in types.now (view value.now))) }
{
    match record_in(alloc, types, value) {
        Ok(record) => Ok(record),
        Err(ValueFault::Break) => Err(break_at(name, row)),
        Err(ValueFault::NoMemory) => Err(DataFault::NoMemory),
    }
}

fn records_in(
    alloc: Global,
    types: &[ColumnType],
    name: &Str,
    row: usize,
    values: &[Json],
) -> Result<Vec<Record>, DataFault>
    requires { row + length values.now ≤ 2 ^ 32 }
    ensures { Gives (λ records. records.items) result (spec.records_in types.now name.now row (items_view values.now)) }
{
    let mut records = Vec::with_capacity(alloc, values.len())?;
    for (place, value) in values.iter().enumerate() {
        records.push(record_at(alloc, types, name, row + place, value)?)?;
    }
    Ok(records)
}

fn list_or_none(value: Option<&Json>) -> Option<&[Json]>
    ensures { option_map (λ list. items_view list.now) result ≡ entry.list_or_none (option_map (λ x. view x.now) value.entry) }
{
    match value {
        Some(value) => match value.as_array() {
            Some(list) => Some(list.as_slice()),
            None => None,
        },
        None => Some(&[]),
    }
}

fn has_entry_keys(is_sealed: bool, object: &Map<String, Json>) -> bool
    ensures { result ≡ keys.has_only (entry.entry_keys is_sealed) (members_view object.now.entries) }
{
    if is_sealed {
        has_only(object, &["rows", "parts"])
    } else {
        has_only(object, &["rows"])
    }
}

fn parts_in(is_sealed: bool, value: &Json) -> Option<&[Json]>
    ensures { option_map (λ list. items_view list.now) result ≡ entry.parts_in is_sealed (view value.now) }
{
    if is_sealed {
        list_or_none(value.get("parts"))
    } else {
        Some(&[])
    }
}

fn object_in<'a>(is_sealed: bool, value: &'a Json) -> Option<(&'a [Json], &'a [Json])>
    ensures { option_map (λ lists. (items_view lists.0.now, items_view lists.1.now)) result ≡ entry.object_in is_sealed (view value.now) }
{
    let object = value.as_object()?;
    let rows = list_or_none(value.get("rows"))?;
    let parts = parts_in(is_sealed, value)?;
    if has_entry_keys(is_sealed, object) {
        Some((rows, parts))
    } else {
        None
    }
}

fn entry_in<'a>(is_sealed: bool, value: &'a Json) -> Option<(&'a [Json], &'a [Json])>
    ensures { option_map (λ lists. (items_view lists.0.now, items_view lists.1.now)) result ≡ entry.entry_in is_sealed (view value.now) }
{
    match value.as_array() {
        Some(rows) => Some((rows.as_slice(), &[])),
        None => object_in(is_sealed, value),
    }
}

// The two lists of a source's entry, with fewer items than there are values in the entry.
fn entry_of<'a>(is_sealed: bool, value: &'a Json) -> Option<(&'a [Json], &'a [Json])>
    ensures lists { option_map (λ lists. (items_view lists.0.now, items_view lists.1.now)) result ≡ entry.entry_in is_sealed (view value.now) }
    ensures small { IfSome result (λ lists. 1 + length lists.0.now + length lists.1.now ≤ weight (view value.now)) }
{
    entry_in(is_sealed, value)
}

// The row of the first part, behind the rows.
#[tactic(auto, using(crate::proofs::WeightLemmas::items_length))]
fn first_part(rows: &[Json]) -> usize
    requires { 1 + length rows.now ≤ 2 ^ 32 }
    ensures row { result ≡ 1 + items_len (items_view rows.now) }
    ensures count { result ≡ 1 + length rows.now }
{
    1 + rows.len()
}

#[tactic(auto, unfolding(crate::specs::Form::lists_in))]
fn lists_in(alloc: Global, shape: &Shape, value: &Json) -> Result<SourceLists, DataFault>
    requires { weight (view value.now) ≤ 2 ^ 32 }
    ensures { Gives (λ lists. lists) result (spec.lists_in shape.now (view value.now)) }
{
    let Some((rows, parts)) = entry_of(shape.is_sealed, value) else {
        return Err(break_at(&shape.name, 0));
    };
    let after = first_part(rows);
    let rows = records_in(alloc, shape.types.as_slice(), &shape.name, 1, rows)?;
    let parts = records_in(alloc, shape.key.as_slice(), &shape.name, after, parts)?;
    Ok(SourceLists { rows, parts })
}

fn source_in(alloc: Global, shape: &Shape, value: Option<&Json>) -> Result<SourceLists, DataFault>
    requires { weight_or_none (option_map (λ x. view x.now) value) ≤ 2 ^ 32 }
    ensures { Gives (λ lists. lists) result (spec.source_in shape.now (option_map (λ x. view x.now) value.entry)) }
{
    match value {
        Some(value) => lists_in(alloc, shape, value),
        None => Ok(SourceLists {
            rows: Vec::new(alloc),
            parts: Vec::new(alloc),
        }),
    }
}

#[tactic(auto, using(crate::proofs::WeightLemmas::get_within))]
fn named_in(alloc: Global, shape: &Shape, top: &Json) -> Result<SourceLists, DataFault>
    requires { weight (view top.now) ≤ 2 ^ 32 }
    ensures { Gives (λ lists. lists) result (spec.source_in shape.now (get shape.now.name (view top.now))) }
{
    source_in(alloc, shape, top.get(shape.name.as_str()))
}

fn sources_in(alloc: Global, shapes: &[Shape], top: &Json) -> Result<Vec<SourceLists>, DataFault>
    requires { weight (view top.now) ≤ 2 ^ 32 }
    ensures { Gives (λ sources. sources.items) result (spec.sources_in shapes.now (view top.now)) }
{
    let mut sources = Vec::new(alloc);
    for shape in shapes {
        sources.push(named_in(alloc, shape, top)?)?;
    }
    Ok(sources)
}

fn first_break(alloc: Global, shapes: &[Shape]) -> DataFault
    ensures { IsFault (faults.DataForm (spec.first_name shapes.now) 0) result }
{
    match shapes {
        [first, ..] => break_at(&first.name, 0),
        [] => break_at_text(alloc, ""),
    }
}

fn break_at_text(alloc: Global, name: &str) -> DataFault
    ensures { IsFault (faults.DataForm name.now 0) result }
{
    match Str::from_text(alloc, name) {
        Ok(name) => DataFault::DataForm { name, row: 0 },
        Err(_) => DataFault::NoMemory,
    }
}

fn names_of(alloc: Global, shapes: &[Shape]) -> Result<Vec<&str>, AllocError>
    ensures { IfOk result (λ names. map (λ name. name.now) names.items ≡ spec.names_of shapes.now) }
{
    let mut names = Vec::new(alloc);
    for shape in shapes {
        names.push(shape.name.as_str())?;
    }
    Ok(names)
}

fn no_other(alloc: Global, shapes: &[Shape], object: &Map<String, Json>) -> Result<(), DataFault>
    ensures { Gives (λ _. tt) result (spec.no_entry (keys.unknown_key (spec.names_of shapes.now) (members_view object.now.entries))) }
{
    let names = names_of(alloc, shapes)?;
    match unknown_key(object, &names) {
        Some(name) => Err(break_at_text(alloc, name)),
        None => Ok(()),
    }
}

/// The rows and the parts of each source; each name in the value is that of a source.
#[tactic(auto, unfolding(crate::specs::Form::form_of))]
pub(crate) fn form_of(
    alloc: Global,
    shapes: &[Shape],
    top: &Json,
) -> Result<Vec<SourceLists>, DataFault>
    requires { weight (view top.now) ≤ 2 ^ 32 }
    ensures { Gives (λ sources. sources.items) result (spec.form_of shapes.now (view top.now)) }
{
    let Some(object) = top.as_object() else {
        return Err(first_break(alloc, shapes));
    };
    let sources = sources_in(alloc, shapes, top)?;
    no_other(alloc, shapes, object)?;
    Ok(sources)
}
