//! The ports of an instance: where the key of its mode stands among a port's columns.
ghost use Rattle.std.specs.Prelude.{◌≡◌, ℕ, false, length, map, slice_get, IfOk};
ghost use Rattle.std.specs.Option.{option_map, option_map_or, option_and_then};
ghost use Rattle.blz_value.specs.Operators.{cells};
ghost use Rattle.messages.specs.Ports.{port_keys};

use crate::keys::value_in;
use blz_value::{Items, Record};
use std::alloc::{AllocError, Global};

/// A port: the places of the key among its columns, where it has them all, and whether it carries
/// the key.
#[derive(Drop)]
pub struct Port {
    pub places: Option<Items<usize>>,
    pub carries: bool,
}

// A record's values in some columns.
fn cells_of(alloc: Global, row: &Record, columns: &[usize]) -> Result<Record, AllocError>
    ensures { IfOk result (λ key. key ≡ cells columns.now row.now) }
{
    let mut values = Vec::with_capacity(alloc, columns.len())?;
    for column in columns {
        values.push(value_in(row, *column)?)?;
    }
    Ok(Record::from_values(values))
}

/// The key value of a record at a port, where the port has all columns of the key.
pub(crate) fn key_at(
    alloc: Global,
    ports: &[Port],
    port: u32,
    row: &Record,
) -> Result<Option<Record>, AllocError>
    ensures { IfOk result (λ key. key ≡ option_map (λ places. cells places row.now) (option_and_then (λ p. p.places) (slice_get (port_keys ports.now) port))) }
{
    let Some(at) = ports.get(port as usize) else {
        return Ok(None);
    };
    match &at.places {
        None => Ok(None),
        Some(places) => Ok(Some(cells_of(alloc, row, places.as_slice())?)),
    }
}

/// Whether a port carries the key.
pub(crate) fn is_carrying(ports: &[Port], port: u32) -> bool
    ensures { result ≡ option_map_or (λ p. p.carries) (slice_get (port_keys ports.now) port) false }
{
    match ports.get(port as usize) {
        Some(at) => at.carries,
        None => false,
    }
}
