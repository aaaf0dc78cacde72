//! A topology as the text of a TOML file.
ghost use Rattle.std.specs.Prelude.{◌≡◌, Ok, Some, IfOk, OnOk, codes, fold, string_bytes, ◌≤◌};
ghost use Rattle.std.specs.List.{list_all};
ghost use Rattle.toml.specs.Data.{members_depth};
ghost use Rattle.toml.specs.Parse.{parse_document};
ghost use Rattle.toml.specs.View.{table_view};
ghost use Rattle.topo_read.specs.Document.{document_of};
ghost use Rattle.topo_read.specs.Fill.{table_with, with_field, with_value};
ghost use Rattle.topo_read.specs.Reading.{IsReading};
ghost use Rattle.topo_read.specs.Written as spec;
ghost use Rattle.topo_forms.specs.Allowed.{IsAllowed};

use crate::fill::{
    IntoValue, number, put, put_any_list, put_item, put_list, put_text, table_value,
};
use blz_value::Faithful;
use std::alloc::{AllocError, Global};
use toml::{Table, Value};
use topo_forms::{
    Body, ColumnType, ComponentEntry, Declared, FdEntry, ModeName, Side, SourceEntry, Stock,
    StreamEntry, Topology, Valid,
};

// ---- sources

fn is_any(column_type: ColumnType) -> bool
    ensures { result ≡ spec.is_any column_type }
{
    match column_type {
        ColumnType::Any => true,
        ColumnType::Int | ColumnType::Text => false,
    }
}

fn are_any(types: &[ColumnType]) -> bool
    ensures { result ≡ list_all spec.is_any types.now }
{
    types.iter().all(|column_type| is_any(*column_type))
}

fn put_types(alloc: Global, table: &mut Table, types: &[ColumnType]) -> Result<(), AllocError>
    ensures { OnOk result (table_view table.new ≡ with_value (table_view table.old) (codes "types") (spec.types_data types.now)) }
{
    if are_any(types) {
        return Ok(());
    }
    put_any_list(alloc, table, "types", types)
}

fn source_table(alloc: Global, source: &SourceEntry) -> Result<Table, AllocError>
    ensures { IfOk result (λ table. table_view table ≡ table_with (spec.source_fields source.now)) }
{
    let mut table = Table::new(alloc);
    put_item(alloc, &mut table, "name", &source.name)?;
    put_any_list(alloc, &mut table, "columns", source.columns.as_slice())?;
    put_types(alloc, &mut table, source.types.as_slice())?;
    put_list(alloc, &mut table, "seal", source.seal.as_slice())?;
    put_list(alloc, &mut table, "to", source.to.as_slice())?;
    Ok(table)
}

impl IntoValue for SourceEntry {
    ghost use Rattle.topo_read.specs.Fill.{table_data};
    ghost use Rattle.topo_read.specs.Written.{source_fields};

    ghost written = { λ source. table_data (source_fields source) };

    fn into_value(&self, alloc: Global) -> Result<Value, AllocError> {
        Ok(table_value(source_table(alloc, self)?))
    }
}

// ---- components

fn side_table(alloc: Global, side: &Side) -> Result<Table, AllocError>
    ensures { IfOk result (λ table. table_view table ≡ table_with (spec.side_fields side.now)) }
{
    let mut table = Table::new(alloc);
    put_item(alloc, &mut table, "name", &side.name)?;
    put_any_list(alloc, &mut table, "columns", side.columns.as_slice())?;
    Ok(table)
}

impl IntoValue for Side {
    ghost written = { spec.side_data };

    fn into_value(&self, alloc: Global) -> Result<Value, AllocError> {
        Ok(table_value(side_table(alloc, self)?))
    }
}

fn declared_table(alloc: Global, declared: &Declared) -> Result<Table, AllocError>
    ensures { IfOk result (λ table. table_view table ≡ table_with (spec.declared_fields declared.now)) }
{
    let mut table = Table::new(alloc);
    put_item(alloc, &mut table, "from", &declared.from)?;
    put_item(alloc, &mut table, "to", &declared.to)?;
    put_item(alloc, &mut table, "note", &declared.note)?;
    put_list(alloc, &mut table, "gate", declared.gate.as_slice())?;
    Ok(table)
}

impl IntoValue for Declared {
    ghost written = { spec.declared_data };

    fn into_value(&self, alloc: Global) -> Result<Value, AllocError> {
        Ok(table_value(declared_table(alloc, self)?))
    }
}

fn put_stock(alloc: Global, table: &mut Table, stock: &Stock) -> Result<(), AllocError>
    ensures { OnOk result (table_view table.new ≡ fold with_field (table_view table.old) (spec.body_fields (Body.Stock stock.now))) }
{
    match stock {
        Stock::Split { columns, split } => {
            put_text(alloc, table, "stock", "split")?;
            put_any_list(alloc, table, "columns", columns.as_slice())?;
            put_item(alloc, table, "split", split)
        }
        Stock::Latest { columns, keys } => {
            put_text(alloc, table, "stock", "latest")?;
            put_any_list(alloc, table, "columns", columns.as_slice())?;
            put_any_list(alloc, table, "keys", keys.as_slice())
        }
        Stock::Number { columns } => {
            put_text(alloc, table, "stock", "number")?;
            put_any_list(alloc, table, "columns", columns.as_slice())
        }
    }
}

fn put_body(alloc: Global, table: &mut Table, body: &Body) -> Result<(), AllocError>
    ensures { OnOk result (table_view table.new ≡ fold with_field (table_view table.old) (spec.body_fields body.now)) }
{
    match body {
        Body::Module(file) => put_item(alloc, table, "module", file),
        Body::Stock(stock) => put_stock(alloc, table, stock),
        Body::None => Ok(()),
    }
}

fn put_replicas(alloc: Global, table: &mut Table, replicas: i64) -> Result<(), AllocError>
    ensures { OnOk result (table_view table.new ≡ with_value (table_view table.old) (codes "replicas") (spec.replicas_data replicas)) }
{
    if replicas == 1 {
        return Ok(());
    }
    put(alloc, table, "replicas", number(replicas))
}

fn put_mode(alloc: Global, table: &mut Table, mode: ModeName) -> Result<(), AllocError>
    ensures { OnOk result (table_view table.new ≡ with_value (table_view table.old) (codes "mode") (spec.mode_data mode)) }
{
    match mode {
        ModeName::Free => Ok(()),
        ModeName::Pass => put_text(alloc, table, "mode", "pass"),
        ModeName::Seal => put_text(alloc, table, "mode", "seal"),
        ModeName::Order => put_text(alloc, table, "mode", "order"),
    }
}

fn component_table(alloc: Global, component: &ComponentEntry) -> Result<Table, AllocError>
    ensures { IfOk result (λ table. table_view table ≡ table_with (spec.component_fields component.now)) }
{
    let mut table = Table::new(alloc);
    put_item(alloc, &mut table, "name", &component.name)?;
    put_body(alloc, &mut table, &component.body)?;
    put_list(alloc, &mut table, "inputs", component.inputs.as_slice())?;
    put_list(alloc, &mut table, "outputs", component.outputs.as_slice())?;
    put_list(alloc, &mut table, "notes", component.notes.as_slice())?;
    put_replicas(alloc, &mut table, component.replicas)?;
    put_mode(alloc, &mut table, component.mode)?;
    put_list(alloc, &mut table, "key", component.key.as_slice())?;
    Ok(table)
}

impl IntoValue for ComponentEntry {
    ghost use Rattle.topo_read.specs.Fill.{table_data};
    ghost use Rattle.topo_read.specs.Written.{component_fields};

    ghost written = { λ component. table_data (component_fields component) };

    fn into_value(&self, alloc: Global) -> Result<Value, AllocError> {
        Ok(table_value(component_table(alloc, self)?))
    }
}

// ---- streams and dependencies

fn stream_table(alloc: Global, stream: &StreamEntry) -> Result<Table, AllocError>
    ensures { IfOk result (λ table. table_view table ≡ table_with (spec.stream_fields stream.now)) }
{
    let mut table = Table::new(alloc);
    put_item(alloc, &mut table, "name", &stream.name)?;
    put_item(alloc, &mut table, "from", &stream.from)?;
    put_list(alloc, &mut table, "to", stream.to.as_slice())?;
    Ok(table)
}

impl IntoValue for StreamEntry {
    ghost use Rattle.topo_read.specs.Fill.{table_data};
    ghost use Rattle.topo_read.specs.Written.{stream_fields};

    ghost written = { λ stream. table_data (stream_fields stream) };

    fn into_value(&self, alloc: Global) -> Result<Value, AllocError> {
        Ok(table_value(stream_table(alloc, self)?))
    }
}

fn fd_table(alloc: Global, fd: &FdEntry) -> Result<Table, AllocError>
    ensures { IfOk result (λ table. table_view table ≡ table_with (spec.fd_fields fd.now)) }
{
    let mut table = Table::new(alloc);
    put_any_list(alloc, &mut table, "from", fd.from.as_slice())?;
    put_any_list(alloc, &mut table, "to", fd.to.as_slice())?;
    Ok(table)
}

impl IntoValue for FdEntry {
    ghost use Rattle.topo_read.specs.Fill.{table_data};
    ghost use Rattle.topo_read.specs.Written.{fd_fields};

    ghost written = { λ fd. table_data (fd_fields fd) };

    fn into_value(&self, alloc: Global) -> Result<Value, AllocError> {
        Ok(table_value(fd_table(alloc, self)?))
    }
}

// ---- the whole

#[tactic(auto, unfolding(crate::specs::Written::table_of))]
fn table_of(alloc: Global, topology: &Topology) -> Result<Table, AllocError>
    ensures { IfOk result (λ table. table_view table ≡ spec.table_of topology.now) }
{
    let mut table = Table::new(alloc);
    put(alloc, &mut table, "format", number(2))?;
    put_list(alloc, &mut table, "source", topology.sources.as_slice())?;
    put_list(
        alloc,
        &mut table,
        "component",
        topology.components.as_slice(),
    )?;
    put_list(alloc, &mut table, "stream", topology.streams.as_slice())?;
    put_list(alloc, &mut table, "fd", topology.fds.as_slice())?;
    Ok(table)
}

fn text_of(alloc: Global, table: &Table) -> Result<String, AllocError>
    ensures { IfOk result (λ text. members_depth (table_view table.now) ≤ 80 → parse_document (string_bytes text) ≡ Some (table_view table.now)) }
{
    match toml::table_to_string(alloc, table) {
        Ok(text) => Ok(text),
        Err(_) => Err(AllocError),
    }
}

fn bytes_of(text: String) -> Vec<u8>
    ensures { document_of result.items ≡ parse_document (string_bytes text) }
{
    // That a text is UTF-8 is known of what it lends.
    let _lent = text.as_str();
    text.into_bytes()
}

/// The text of a TOML file of format 2 that is read as this topology: every list in its order, and
/// of the keys that may be missing those whose value isn't the one that a missing key gives. The
/// error is want of memory.
pub fn write(alloc: Global, topology: &Topology) -> Result<Vec<u8>, AllocError>
    requires allowed { IsAllowed topology.now }
    requires format { topology.now.format ≡ 2 }
    ensures document { IfOk result (λ text. document_of text.items ≡ Some (spec.table_of topology.now)) }
    ensures reading { IfOk result (λ text. IsReading text.items (Ok topology.now)) }
{
    let table = table_of(alloc, topology)?;
    let text = text_of(alloc, &table)?;
    Ok(bytes_of(text))
}

/// The topology with the modes that the valid one has, as one of format 2. Its lists have their
/// memory from where those of the valid one have it. The error is want of memory.
pub fn topology_of(_alloc: Global, valid: &Valid) -> Result<Topology, AllocError>
    ensures topology { IfOk result (λ topology. topology ≡ record valid.now.topology { format = 2 }) }
    ensures allowed { IfOk result IsAllowed }
{
    valid.whole();
    let mut topology = valid.topology().copied()?;
    topology.format = 2;
    Ok(topology)
}
