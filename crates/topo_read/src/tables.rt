//! The keys of a table, and the tables that stand in a list of an entry.
ghost use Rattle.std.specs.Prelude.{◌≡◌, [], ◌∷◌, IfOk, option_map, map};
ghost use Rattle.std.specs.List.{list_any};
ghost use Rattle.std.specs.Str.{bytes_eq};
ghost use Rattle.toml.specs.Data.{get_member};
ghost use Rattle.toml.specs.View.{view, table_view};
ghost use Rattle.topo_read.specs.Gives.{GivesValue};
ghost use Rattle.topo_read.specs.Tables as spec;
ghost use Rattle.topo_read.specs.Tables.{side_in, declared_in};
ghost use Rattle.topo_read.specs.Values as values;

use crate::fault::ValueFault;
use crate::values::{Format, FromValue, list_in};
use blz_value::{Items, Str};
use std::alloc::{AllocError, Global};
use toml::{Table, Value};
use topo_forms::{Declared, NoteName, Side};

/// The value at a key.
pub(crate) fn get<'a>(table: &'a Table, key: &str) -> Option<&'a Value>
    ensures { option_map (λ value. view value.now) result ≡ get_member key.now (table_view table.now) }
{
    table.get(key)
}

/// What the value of a key gives; a missing key is a break.
pub(crate) fn at_key<T: FromValue>(alloc: Global, table: &Table, key: &str) -> Result<T, ValueFault>
    ensures { GivesValue (λ x. x) result (spec.at_key T.reading key.now (table_view table.now)) }
{
    match get(table, key) {
        Some(value) => T::from_value(alloc, value),
        None => Err(ValueFault::Break),
    }
}

/// What the value of a key gives, None where the key is missing.
pub(crate) fn maybe_at_key<T: FromValue>(
    alloc: Global,
    table: &Table,
    key: &str,
) -> Result<Option<T>, ValueFault>
    ensures { GivesValue (λ x. x) result (spec.maybe_at_key T.reading key.now (table_view table.now)) }
{
    match get(table, key) {
        Some(value) => Ok(Some(T::from_value(alloc, value)?)),
        None => Ok(None),
    }
}

/// The list at a key; a missing key is a break.
pub(crate) fn list_of_key<T: FromValue>(
    alloc: Global,
    table: &Table,
    key: &str,
) -> Result<Items<T>, ValueFault>
    ensures { GivesValue (λ x. x) result (spec.at_key (values.list_in T.reading) key.now (table_view table.now)) }
{
    match get(table, key) {
        Some(value) => list_in(alloc, value),
        None => Err(ValueFault::Break),
    }
}

/// The list at a key, empty where the key is missing.
pub(crate) fn list_at_key<T: FromValue>(
    alloc: Global,
    table: &Table,
    key: &str,
) -> Result<Items<T>, ValueFault>
    ensures { GivesValue (λ x. x) result (spec.list_at_key T.reading key.now (table_view table.now)) }
{
    match get(table, key) {
        Some(value) => list_in(alloc, value),
        None => Ok(Items::from_vec(Vec::new(alloc))),
    }
}

/// Whether the key is missing.
pub(crate) fn lacks(table: &Table, key: &str) -> bool
    ensures { result ≡ spec.lacks key.now (table_view table.now) }
{
    match get(table, key) {
        Some(_) => false,
        None => true,
    }
}

fn is_among(known: &[&str], key: &str) -> bool
    ensures { result ≡ list_any (bytes_eq key.now) (map (λ other. other.now) known.now) }
{
    for other in known {
        if key == *other {
            return true;
        }
    }
    false
}

/// The first key in byte order that isn't one of these.
#[tactic(auto, using(crate::proofs::Keys::unknown_of_keys))]
pub(crate) fn unknown_key<'a>(table: &'a Table, known: &[&str]) -> Option<&'a str>
    ensures { option_map (λ key. key.now) result ≡ spec.unknown_key (map (λ key. key.now) known.now) (table_view table.now) }
{
    for key in table.keys() {
        if !is_among(known, key.as_str()) {
            return Some(key.as_str());
        }
    }
    None
}

/// Whether there is no key but these.
pub(crate) fn has_only(table: &Table, known: &[&str]) -> bool
    ensures { result ≡ spec.has_only (map (λ key. key.now) known.now) (table_view table.now) }
{
    unknown_key(table, known).is_none()
}

#[tactic(auto, unfolding(crate::specs::Tables::side_of))]
fn side_of(alloc: Global, table: &Table) -> Result<Side, ValueFault>
    ensures { GivesValue (λ side. side) result (spec.side_of (table_view table.now)) }
{
    let name = at_key(alloc, table, "name")?;
    let columns = list_of_key(alloc, table, "columns")?;
    if !has_only(table, &["name", "columns"]) {
        return Err(ValueFault::Break);
    }
    Ok(Side { name, columns })
}

impl FromValue for Side {
    ghost reading = { side_in };

    fn from_value(alloc: Global, value: &Value) -> Result<Side, ValueFault> {
        match value.as_table() {
            Some(table) => side_of(alloc, table),
            None => Err(ValueFault::Break),
        }
    }
}

fn is_ordered(note: NoteName) -> bool
    ensures { result ≡ spec.is_ordered note }
{
    match note {
        NoteName::CR | NoteName::CW => false,
        NoteName::OR | NoteName::OW => true,
    }
}

fn gate_of(alloc: Global, note: NoteName, table: &Table) -> Result<Items<Str>, ValueFault>
    ensures { GivesValue (λ gate. gate) result (spec.gate_of note (table_view table.now)) }
{
    if is_ordered(note) {
        return list_at_key(alloc, table, "gate");
    }
    if !lacks(table, "gate") {
        return Err(ValueFault::Break);
    }
    Ok(Items::from_vec(Vec::new(alloc)))
}

#[tactic(auto, unfolding(crate::specs::Tables::declared_of))]
fn declared_of(alloc: Global, table: &Table) -> Result<Declared, ValueFault>
    ensures { GivesValue (λ declared. declared) result (spec.declared_of (table_view table.now)) }
{
    let from = at_key(alloc, table, "from")?;
    let to = at_key(alloc, table, "to")?;
    let note = at_key(alloc, table, "note")?;
    let gate = gate_of(alloc, note, table)?;
    if !has_only(table, &["from", "to", "note", "gate"]) {
        return Err(ValueFault::Break);
    }
    Ok(Declared {
        from,
        to,
        note,
        gate,
    })
}

impl FromValue for Declared {
    ghost reading = { declared_in };

    fn from_value(alloc: Global, value: &Value) -> Result<Declared, ValueFault> {
        match value.as_table() {
            Some(table) => declared_of(alloc, table),
            None => Err(ValueFault::Break),
        }
    }
}

fn one_name(alloc: Global, name: Str) -> Result<Items<Str>, AllocError>
    ensures { IfOk result (λ names. names ≡ name ∷ []) }
{
    let mut names = Vec::new(alloc);
    names.push(name)?;
    Ok(Items::from_vec(names))
}

fn up_to_eight<T: Drop>(items: Items<T>) -> Result<Items<T>, ValueFault>
    ensures { GivesValue (λ items. items) result (spec.up_to_eight items) }
{
    if items.as_slice().len() > 8 {
        return Err(ValueFault::Break);
    }
    Ok(items)
}

/// The names on a side of a dependency.
pub(crate) fn fd_names_at(
    alloc: Global,
    format: Format,
    table: &Table,
    key: &str,
) -> Result<Items<Str>, ValueFault>
    ensures { GivesValue (λ names. names) result (spec.fd_names_at format key.now (table_view table.now)) }
{
    match format {
        Format::One => {
            let name = at_key(alloc, table, key)?;
            Ok(one_name(alloc, name)?)
        }
        Format::Two => {
            let names = at_key(alloc, table, key)?;
            up_to_eight(names)
        }
    }
}
