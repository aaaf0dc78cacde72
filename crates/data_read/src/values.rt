//! The values and the record that a JSON value gives.
ghost use Rattle.std.specs.Prelude.{◌≡◌, length};
ghost use Rattle.serde_json.specs.View.{view, items_view};
ghost use Rattle.data_read.specs.Gives.{GivesValue};
ghost use Rattle.data_read.specs.Values as spec;

use crate::fault::ValueFault;
use blz_value::{Record, Str, Value};
use serde_json::Value as Json;
use std::alloc::Global;
use topo_forms::ColumnType;

pub(crate) const MAX_TEXT: usize = 64;

fn number_in(value: &Json) -> Result<Value, ValueFault>
    ensures { GivesValue (λ x. x) result (spec.int_in (view value.now)) }
{
    match value.as_i64() {
        Some(number) => Ok(Value::Int(number)),
        None => Err(ValueFault::Break),
    }
}

fn short_text(alloc: Global, text: &str) -> Result<Value, ValueFault>
    ensures { GivesValue (λ x. x) result (spec.short_text text.now) }
{
    if text.len() > MAX_TEXT {
        return Err(ValueFault::Break);
    }
    Ok(Value::Text(Str::from_text(alloc, text)?))
}

fn text_in(alloc: Global, value: &Json) -> Result<Value, ValueFault>
    ensures { GivesValue (λ x. x) result (spec.text_in (view value.now)) }
{
    match value.as_str() {
        Some(text) => short_text(alloc, text),
        None => Err(ValueFault::Break),
    }
}

fn either_in(alloc: Global, value: &Json) -> Result<Value, ValueFault>
    ensures { GivesValue (λ x. x) result (spec.or_else (spec.int_in (view value.now)) (spec.text_in (view value.now))) }
{
    match value.as_i64() {
        Some(number) => Ok(Value::Int(number)),
        None => text_in(alloc, value),
    }
}

fn value_in(alloc: Global, column_type: ColumnType, value: &Json) -> Result<Value, ValueFault>
    ensures { GivesValue (λ x. x) result (spec.value_in column_type (view value.now)) }
{
    match column_type {
        ColumnType::Int => number_in(value),
        ColumnType::Text => text_in(alloc, value),
        ColumnType::Any => either_in(alloc, value),
    }
}

fn values_in(alloc: Global, types: &[ColumnType], values: &[Json]) -> Result<Vec<Value>, ValueFault>
    requires { length values.now ≡ length types.now }
    ensures { GivesValue (λ row. row.items) result (spec.values_in types.now (items_view values.now)) }
{
    let mut row = Vec::with_capacity(alloc, values.len())?;
    for (place, value) in values.iter().enumerate() {
        row.push(value_in(alloc, types[place], value)?)?;
    }
    Ok(row)
}

#[tactic(auto, using(crate::proofs::RowLemmas::row_wide, crate::proofs::RowLemmas::row_other))]
fn row_in(alloc: Global, types: &[ColumnType], values: &[Json]) -> Result<Record, ValueFault>
    ensures { GivesValue (λ row. row) result (spec.row_in types.now (items_view values.now)) }
{
    if values.len() != types.len() {
        return Err(ValueFault::Break);
    }
    Ok(Record::from_values(values_in(alloc, types, values)?))
}

/// The record that a list of as many values as types gives, each of its type.
pub(crate) fn record_in(
    alloc: Global,
    types: &[ColumnType],
    value: &Json,
) -> Result<Record, ValueFault>
    ensures { GivesValue (λ row. row) result (spec.record_in types.now (view value.now)) }
{
    match value.as_array() {
        Some(values) => row_in(alloc, types, values.as_slice()),
        None => Err(ValueFault::Break),
    }
}
