//! Sources, streams and dependencies, each of the table of its kind.
ghost use Rattle.std.specs.Prelude.{◌≡◌, IfOk, Result, codes};
ghost use Rattle.toml.specs.Data.{Members};
ghost use Rattle.toml.specs.View.{table_view};
ghost use Rattle.topo_read.specs.Code.SourceParts as parts;
ghost use Rattle.topo_read.specs.Code.StreamParts as stream_parts;
ghost use Rattle.topo_read.specs.Entries as spec;
ghost use Rattle.topo_read.specs.Fields.{Path};
ghost use Rattle.topo_read.specs.Fields as fields;
ghost use Rattle.topo_read.specs.Gives.{Gives, GivesValue};
ghost use Rattle.topo_read.specs.Tables as tables;
ghost use Rattle.topo_read.specs.Values as values;

use crate::fault::{TopoTextFault, ValueFault};
use crate::fields::{only_keys, optional, optional_list, required};
use crate::tables::{fd_names_at, get};
use crate::values::{Format, types_in};
use blz_value::{Items, Str};
use std::alloc::{AllocError, Global};
use toml::Table;
use topo_forms::{ColumnType, FdEntry, SourceEntry, Spot, StreamEntry};

/// An entry that a table gives in a file of this format. The path of a break is the key in the table.
pub(crate) trait FromTable: Drop + Sized {
    ghost use Rattle.topo_read.specs.declared.values.Format.{Format};

    ghost reading: { Format → Members → Result Self Path };

    /// Reads a table.
    fn from_table(alloc: Global, format: Format, table: &Table) -> Result<Self, TopoTextFault>
        ensures { Gives (λ entry. entry) result (reading format (table_view table.now)) };
}

fn any_types(alloc: Global, columns: &[Str]) -> Result<Items<ColumnType>, AllocError>
    ensures { IfOk result (λ types. types ≡ spec.any_types columns.now) }
{
    let mut types = Vec::new(alloc);
    for _column in columns {
        types.push(ColumnType::Any)?;
    }
    Ok(Items::from_vec(types))
}

fn maybe_types(
    alloc: Global,
    count: usize,
    table: &Table,
) -> Result<Option<Items<ColumnType>>, ValueFault>
    ensures { GivesValue (λ types. types) result (tables.maybe_at_key (values.types_in count) (codes "types") (table_view table.now)) }
{
    match get(table, "types") {
        Some(value) => Ok(Some(types_in(alloc, count, value)?)),
        None => Ok(None),
    }
}

fn optional_types(
    alloc: Global,
    count: usize,
    table: &Table,
) -> Result<Option<Items<ColumnType>>, TopoTextFault>
    ensures { Gives (λ types. types) result (fields.optional (values.types_in count) (codes "types") (table_view table.now)) }
{
    maybe_types(alloc, count, table).map_err(|fault| fault.at(alloc, "types"))
}

/// The types of the columns of a source.
fn types_of(
    alloc: Global,
    format: Format,
    columns: &[Str],
    table: &Table,
) -> Result<Items<ColumnType>, TopoTextFault>
    ensures { Gives (λ types. types) result (spec.types_of format columns.now (table_view table.now)) }
{
    match format {
        Format::One => Ok(any_types(alloc, columns)?),
        Format::Two => match optional_types(alloc, columns.len(), table)? {
            Some(types) => Ok(types),
            None => Ok(any_types(alloc, columns)?),
        },
    }
}

fn or_no_names(alloc: Global, names: Option<Items<Str>>) -> Items<Str>
    ensures { result ≡ spec.or_no_names names }
{
    match names {
        Some(names) => names,
        None => Items::from_vec(Vec::new(alloc)),
    }
}

fn only_source_keys(alloc: Global, format: Format, table: &Table) -> Result<(), TopoTextFault>
    ensures { Gives (λ x. x) result (fields.only_keys (spec.source_keys format) (table_view table.now)) }
{
    match format {
        Format::One => only_keys(alloc, table, &["name", "columns", "seal", "to"]),
        Format::Two => only_keys(alloc, table, &["name", "columns", "types", "seal", "to"]),
    }
}

/// The columns of a source with their types.
#[derive(Drop)]
struct Typed {
    columns: Items<Str>,
    types: Items<ColumnType>,
}

#[tactic(auto, unfolding(crate::specs::Code::SourceParts::typed_of))]
fn typed_of(alloc: Global, format: Format, table: &Table) -> Result<Typed, TopoTextFault>
    ensures { Gives (λ typed. typed) result (parts.typed_of format (table_view table.now)) }
{
    let columns: Items<Str> = required(alloc, table, "columns")?;
    let types = types_of(alloc, format, columns.as_slice(), table)?;
    Ok(Typed { columns, types })
}

/// How a source is sealed, and where it leads.
#[derive(Drop)]
struct Leading {
    seal: Items<Str>,
    to: Items<Spot>,
}

/// The last fields of a source; no key is there but those of a source.
#[tactic(auto, unfolding(crate::specs::Code::SourceParts::leading_of))]
fn leading_of(alloc: Global, format: Format, table: &Table) -> Result<Leading, TopoTextFault>
    ensures { Gives (λ leading. leading) result (parts.leading_of format (table_view table.now)) }
{
    let seal: Option<Items<Str>> = optional(alloc, table, "seal")?;
    let seal = or_no_names(alloc, seal);
    let to = optional_list(alloc, table, "to")?;
    only_source_keys(alloc, format, table)?;
    Ok(Leading { seal, to })
}

fn whole_of(name: Str, typed: Typed, leading: Leading) -> SourceEntry
    ensures { result ≡ parts.whole_of name typed leading }
{
    let Typed { columns, types } = typed;
    let Leading { seal, to } = leading;
    SourceEntry {
        name,
        columns,
        types,
        seal,
        to,
    }
}

/// A source, a part after the other.
#[tactic(auto, unfolding(crate::specs::Code::SourceParts::by_parts))]
fn source_by_parts(
    alloc: Global,
    format: Format,
    table: &Table,
) -> Result<SourceEntry, TopoTextFault>
    ensures { Gives (λ entry. entry) result (parts.by_parts format (table_view table.now)) }
{
    let name = required(alloc, table, "name")?;
    let typed = typed_of(alloc, format, table)?;
    let leading = leading_of(alloc, format, table)?;
    Ok(whole_of(name, typed, leading))
}

impl FromTable for SourceEntry {
    ghost reading = { spec.source_of };

    #[tactic(auto, using(crate::proofs::SourceParts::is_whole))]
    fn from_table(
        alloc: Global,
        format: Format,
        table: &Table,
    ) -> Result<SourceEntry, TopoTextFault> {
        source_by_parts(alloc, format, table)
    }
}

/// Where a stream comes from and where it leads; no key is there but those of a stream.
#[derive(Drop)]
struct Flow {
    from: Spot,
    to: Items<Spot>,
}

#[tactic(auto, unfolding(crate::specs::Code::StreamParts::flow_of))]
fn flow_of(alloc: Global, table: &Table) -> Result<Flow, TopoTextFault>
    ensures { Gives (λ flow. flow) result (stream_parts.flow_of (table_view table.now)) }
{
    let from = required(alloc, table, "from")?;
    let to = optional_list(alloc, table, "to")?;
    only_keys(alloc, table, &["name", "from", "to"])?;
    Ok(Flow { from, to })
}

/// A stream, a part after the other.
#[tactic(auto, unfolding(crate::specs::Code::StreamParts::by_parts))]
fn stream_by_parts(alloc: Global, table: &Table) -> Result<StreamEntry, TopoTextFault>
    ensures { Gives (λ entry. entry) result (stream_parts.by_parts (table_view table.now)) }
{
    let name = required(alloc, table, "name")?;
    let Flow { from, to } = flow_of(alloc, table)?;
    Ok(StreamEntry { name, from, to })
}

impl FromTable for StreamEntry {
    ghost reading = { λ format. spec.stream_of };

    #[tactic(auto, using(crate::proofs::StreamParts::is_whole))]
    fn from_table(
        alloc: Global,
        _format: Format,
        table: &Table,
    ) -> Result<StreamEntry, TopoTextFault> {
        stream_by_parts(alloc, table)
    }
}

fn fd_names(
    alloc: Global,
    format: Format,
    table: &Table,
    key: &str,
) -> Result<Items<Str>, TopoTextFault>
    ensures { Gives (λ names. names) result (spec.fd_names format key.now (table_view table.now)) }
{
    fd_names_at(alloc, format, table, key).map_err(|fault| fault.at(alloc, key))
}

impl FromTable for FdEntry {
    ghost reading = { spec.fd_of };

    #[tactic(auto, unfolding(crate::specs::Entries::fd_of))]
    fn from_table(alloc: Global, format: Format, table: &Table) -> Result<FdEntry, TopoTextFault> {
        let from = fd_names(alloc, format, table, "from")?;
        let to = fd_names(alloc, format, table, "to")?;
        only_keys(alloc, table, &["from", "to"])?;
        Ok(FdEntry { from, to })
    }
}
