//! The fields of a table, each with the path of its break.
ghost use Rattle.std.specs.Prelude.{map};
ghost use Rattle.toml.specs.View.{table_view};
ghost use Rattle.topo_read.specs.Fields as spec;
ghost use Rattle.topo_read.specs.Gives.{Gives};
ghost use Rattle.topo_read.specs.Values.{list_in};

use crate::fault::{TopoTextFault, break_at};
use crate::tables::{at_key, lacks, list_at_key, list_of_key, maybe_at_key, unknown_key};
use crate::values::FromValue;
use blz_value::Items;
use std::alloc::Global;
use toml::Table;

/// What the value of a required key gives.
pub(crate) fn required<T: FromValue>(
    alloc: Global,
    table: &Table,
    key: &str,
) -> Result<T, TopoTextFault>
    ensures { Gives (λ x. x) result (spec.required T.reading key.now (table_view table.now)) }
{
    at_key(alloc, table, key).map_err(|fault| fault.at(alloc, key))
}

/// The list at a required key.
pub(crate) fn required_list<T: FromValue>(
    alloc: Global,
    table: &Table,
    key: &str,
) -> Result<Items<T>, TopoTextFault>
    ensures { Gives (λ items. items) result (spec.required (list_in T.reading) key.now (table_view table.now)) }
{
    list_of_key(alloc, table, key).map_err(|fault| fault.at(alloc, key))
}

/// What the value of a key that may be missing gives.
pub(crate) fn optional<T: FromValue>(
    alloc: Global,
    table: &Table,
    key: &str,
) -> Result<Option<T>, TopoTextFault>
    ensures { Gives (λ x. x) result (spec.optional T.reading key.now (table_view table.now)) }
{
    maybe_at_key(alloc, table, key).map_err(|fault| fault.at(alloc, key))
}

/// The list at a key that may be missing.
pub(crate) fn optional_list<T: FromValue>(
    alloc: Global,
    table: &Table,
    key: &str,
) -> Result<Items<T>, TopoTextFault>
    ensures { Gives (λ items. items) result (spec.optional_list T.reading key.now (table_view table.now)) }
{
    list_at_key(alloc, table, key).map_err(|fault| fault.at(alloc, key))
}

/// Breaks where the key stands there.
pub(crate) fn absent(alloc: Global, table: &Table, key: &str) -> Result<(), TopoTextFault>
    ensures { Gives (λ x. x) result (spec.absent key.now (table_view table.now)) }
{
    if lacks(table, key) {
        return Ok(());
    }
    Err(break_at(alloc, key))
}

/// Breaks at the first key in byte order that isn't one of these.
pub(crate) fn only_keys(alloc: Global, table: &Table, known: &[&str]) -> Result<(), TopoTextFault>
    ensures { Gives (λ x. x) result (spec.only_keys (map (λ key. key.now) known.now) (table_view table.now)) }
{
    match unknown_key(table, known) {
        None => Ok(()),
        Some(key) => Err(break_at(alloc, key)),
    }
}
