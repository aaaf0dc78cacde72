//! The topology that the bytes of a file give.
ghost use Rattle.std.specs.Prelude.{◌≡◌, IfOk, option_map, map};
ghost use Rattle.toml.specs.Data.{as_table};
ghost use Rattle.toml.specs.View.{table_view, items_view};
ghost use Rattle.topo_read.specs.Document as document;
ghost use Rattle.topo_read.specs.Gives.{Gives, GivesValue, IsBreakAt, GivesDocument};
ghost use Rattle.topo_read.specs.Reading.{IsReading};
ghost use Rattle.topo_read.specs.Code.TopologyParts as parts;
ghost use Rattle.topo_read.specs.Topology as spec;
ghost use Rattle.topo_read.specs.Values.{all_in};
ghost use Rattle.topo_forms.specs.Allowed.{IsAllowed};
ghost use Rattle.topo_read.specs.Tables.{list_at_key};

use crate::entries::FromTable;
use crate::fault::{TopoTextFault, ValueFault, break_at};
use crate::fields::{only_keys, required};
use crate::tables::get;
use crate::values::Format;
use blz_value::Items;
use std::alloc::Global;
use toml::{Table, Value};
use topo_forms::Topology;

fn tables_in<'a>(alloc: Global, values: &'a [Value]) -> Result<Vec<&'a Table>, ValueFault>
    ensures { GivesValue (λ tables. map (λ table. table_view table.now) tables.items) result (all_in as_table (items_view values.now)) }
{
    let mut tables = Vec::new(alloc);
    for value in values {
        match value.as_table() {
            Some(table) => tables.push(table)?,
            None => return Err(ValueFault::Break),
        }
    }
    Ok(tables)
}

fn table_list<'a>(alloc: Global, top: &'a Table, key: &str) -> Result<Vec<&'a Table>, ValueFault>
    ensures { GivesValue (λ tables. map (λ table. table_view table.now) tables.items) result (list_at_key as_table key.now (table_view top.now)) }
{
    let Some(value) = get(top, key) else {
        return Ok(Vec::new(alloc));
    };
    match value.as_array() {
        Some(values) => tables_in(alloc, values.as_slice()),
        None => Err(ValueFault::Break),
    }
}

/// The tables in the list under a top key, none where the key is missing.
fn tables_at<'a>(alloc: Global, top: &'a Table, key: &str) -> Result<Vec<&'a Table>, TopoTextFault>
    ensures { Gives (λ tables. map (λ table. table_view table.now) tables.items) result (spec.tables_at key.now (table_view top.now)) }
{
    table_list(alloc, top, key).map_err(|fault| fault.at(alloc, key))
}

fn entry_break(alloc: Global, list: &str, number: usize, key: &str) -> TopoTextFault
    ensures { IsBreakAt (spec.entry_path list.now number key.now) result }
{
    match format!(in alloc; "{list}[{number}].{key}") {
        Ok(path) => break_at(alloc, path.as_str()),
        Err(_) => TopoTextFault::NoMemory,
    }
}

/// The entry of a table that has this number in its list.
fn numbered<T: FromTable>(
    alloc: Global,
    format: Format,
    list: &str,
    number: usize,
    table: &Table,
) -> Result<T, TopoTextFault>
    ensures { Gives (λ entry. entry) result (spec.numbered list.now number (T.reading format (table_view table.now))) }
{
    match T::from_table(alloc, format, table) {
        Ok(entry) => Ok(entry),
        Err(TopoTextFault::Form { path }) => Err(entry_break(alloc, list, number, path.as_str())),
        Err(fault) => Err(fault),
    }
}

fn entries<T: FromTable>(
    alloc: Global,
    format: Format,
    list: &str,
    tables: &[&Table],
) -> Result<Items<T>, TopoTextFault>
    ensures { Gives (λ entries. entries) result (spec.entries (T.reading format) list.now (map (λ table. table_view table.now) tables.now)) }
{
    let mut entries = Vec::new(alloc);
    for (place, table) in tables.iter().enumerate() {
        entries.push(numbered(alloc, format, list, place + 1, table)?)?;
    }
    Ok(Items::from_vec(entries))
}

/// The topology whose entries these tables are.
fn from_tables(
    alloc: Global,
    format: Format,
    sources: &[&Table],
    components: &[&Table],
    streams: &[&Table],
    fds: &[&Table],
) -> Result<Topology, TopoTextFault>
    ensures { Gives (λ topology. topology) result (parts.from_tables format (map (λ table. table_view table.now) sources.now) (map (λ table. table_view table.now) components.now) (map (λ table. table_view table.now) streams.now) (map (λ table. table_view table.now) fds.now)) }
{
    let sources = entries(alloc, format, "source", sources)?;
    let components = entries(alloc, format, "component", components)?;
    let streams = entries(alloc, format, "stream", streams)?;
    let fds = entries(alloc, format, "fd", fds)?;
    Ok(Topology {
        format: 2,
        sources,
        components,
        streams,
        fds,
    })
}

/// The topology whose sources and components these tables are.
fn from_streams(
    alloc: Global,
    format: Format,
    sources: &[&Table],
    components: &[&Table],
    top: &Table,
) -> Result<Topology, TopoTextFault>
    ensures { Gives (λ topology. topology) result (parts.from_streams format (map (λ table. table_view table.now) sources.now) (map (λ table. table_view table.now) components.now) (table_view top.now)) }
{
    let streams = tables_at(alloc, top, "stream")?;
    let fds = tables_at(alloc, top, "fd")?;
    only_keys(
        alloc,
        top,
        &["format", "source", "component", "stream", "fd"],
    )?;
    from_tables(alloc, format, sources, components, &streams, &fds)
}

#[tactic(auto, unfolding(crate::specs::Topology::topology_of))]
fn topology_in(alloc: Global, top: &Table) -> Result<Topology, TopoTextFault>
    ensures { Gives (λ topology. topology) result (spec.topology_of (table_view top.now)) }
{
    let format: Format = required(alloc, top, "format")?;
    let sources = tables_at(alloc, top, "source")?;
    let components = tables_at(alloc, top, "component")?;
    from_streams(alloc, format, &sources, &components, top)
}

fn text_of(bytes: &[u8]) -> Option<&str>
    ensures { option_map (λ text. text.now) result ≡ document.text_of bytes.now }
{
    match std::str::from_utf8(bytes) {
        Ok(text) => Some(text),
        Err(_) => None,
    }
}

fn document_of(alloc: Global, bytes: &[u8]) -> Result<Table, TopoTextFault>
    ensures { GivesDocument result (document.document_of bytes.now) }
{
    let Some(text) = text_of(bytes) else {
        return Err(TopoTextFault::NotToml);
    };
    match toml::table_from_str(alloc, text) {
        Ok(top) => Ok(top),
        Err(fault) => {
            if fault.is_memory() {
                return Err(TopoTextFault::NoMemory);
            }
            Err(TopoTextFault::NotToml)
        }
    }
}

/// The topology that the bytes of a TOML file give. A file of format 1 or 2 is read as format 2.
///
/// NotToml comes where the bytes are no TOML document, and Form where the document isn't of the form of
/// a topology, with the path of its first break.
#[tactic(auto, using(crate::proofs::GivenEntries::good_topology))]
pub fn read(alloc: Global, text: &[u8]) -> Result<Topology, TopoTextFault>
    ensures reading { IsReading text.now result }
    ensures allowed { IfOk result IsAllowed }
{
    let top = document_of(alloc, text)?;
    topology_in(alloc, &top)
}
