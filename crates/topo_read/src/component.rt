//! Components, each of its table.
ghost use Rattle.std.specs.Prelude.{◌≡◌};
ghost use Rattle.toml.specs.View.{table_view};
ghost use Rattle.topo_read.specs.Code.ComponentParts as parts;
ghost use Rattle.topo_read.specs.Component as spec;
ghost use Rattle.topo_read.specs.Fields as fields;
ghost use Rattle.topo_read.specs.Gives.{Gives};

use crate::entries::FromTable;
use crate::fault::{TopoTextFault, break_at};
use crate::fields::{absent, only_keys, optional, optional_list, required, required_list};
use crate::values::{FileName, Format, StockName};
use blz_value::{Items, Str};
use std::alloc::Global;
use toml::Table;
use topo_forms::{Body, ComponentEntry, Declared, ModeName, Side, Stock};

#[tactic(auto, unfolding(crate::specs::Component::stock_with))]
fn stock_with(
    alloc: Global,
    name: StockName,
    columns: Items<Str>,
    table: &Table,
) -> Result<Stock, TopoTextFault>
    ensures { Gives (λ stock. stock) result (spec.stock_with name columns (table_view table.now)) }
{
    match name {
        StockName::Split => {
            let split = required(alloc, table, "split")?;
            absent(alloc, table, "keys")?;
            Ok(Stock::Split { columns, split })
        }
        StockName::Latest => {
            absent(alloc, table, "split")?;
            let keys = required(alloc, table, "keys")?;
            Ok(Stock::Latest { columns, keys })
        }
        StockName::Number => {
            absent(alloc, table, "split")?;
            absent(alloc, table, "keys")?;
            Ok(Stock::Number { columns })
        }
    }
}

/// The stock body of this name.
#[tactic(auto, unfolding(crate::specs::Component::stock_of))]
fn stock_of(alloc: Global, name: StockName, table: &Table) -> Result<Stock, TopoTextFault>
    ensures { Gives (λ stock. stock) result (spec.stock_of name (table_view table.now)) }
{
    let columns = required_list(alloc, table, "columns")?;
    stock_with(alloc, name, columns, table)
}

/// Breaks at the first field of stock bodies that stands there.
#[tactic(auto, unfolding(crate::specs::Component::no_stock))]
fn no_stock(alloc: Global, table: &Table) -> Result<(), TopoTextFault>
    ensures { Gives (λ x. x) result (spec.no_stock (table_view table.now)) }
{
    absent(alloc, table, "columns")?;
    absent(alloc, table, "split")?;
    absent(alloc, table, "keys")
}

#[tactic(auto, unfolding(crate::specs::Component::body_with))]
fn body_with(
    alloc: Global,
    file: Option<FileName>,
    stock: Option<StockName>,
    table: &Table,
) -> Result<Body, TopoTextFault>
    ensures { Gives (λ body. body) result (spec.body_with file stock (table_view table.now)) }
{
    match (file, stock) {
        (Some(_), Some(_)) => Err(break_at(alloc, "stock")),
        (Some(file), None) => {
            no_stock(alloc, table)?;
            Ok(Body::Module(file.name))
        }
        (None, Some(name)) => {
            let stock = stock_of(alloc, name, table)?;
            Ok(Body::Stock(stock))
        }
        (None, None) => {
            no_stock(alloc, table)?;
            Ok(Body::None)
        }
    }
}

#[tactic(auto, unfolding(crate::specs::Component::body_of))]
fn body_of(alloc: Global, table: &Table) -> Result<Body, TopoTextFault>
    ensures { Gives (λ body. body) result (spec.body_of (table_view table.now)) }
{
    let file = optional(alloc, table, "module")?;
    let stock = optional(alloc, table, "stock")?;
    body_with(alloc, file, stock, table)
}

/// An empty list, where the key isn't there.
fn empty_at<T: Drop>(alloc: Global, table: &Table, key: &str) -> Result<Items<T>, TopoTextFault>
    ensures { Gives (λ items. items) result (spec.empty_at key.now (table_view table.now)) }
{
    absent(alloc, table, key)?;
    Ok(Items::from_vec(Vec::new(alloc)))
}

/// The ports or the outputs under this key.
#[tactic(auto, unfolding(crate::specs::Component::sides_of))]
fn sides_of(
    alloc: Global,
    body: &Body,
    table: &Table,
    key: &str,
) -> Result<Items<Side>, TopoTextFault>
    ensures { Gives (λ sides. sides) result (spec.sides_of body.now key.now (table_view table.now)) }
{
    match body {
        Body::Module(_) => empty_at(alloc, table, key),
        Body::Stock(_) => empty_at(alloc, table, key),
        Body::None => optional_list(alloc, table, key),
    }
}

#[tactic(auto, unfolding(crate::specs::Component::key_of))]
fn key_of(alloc: Global, mode: ModeName, table: &Table) -> Result<Items<Str>, TopoTextFault>
    ensures { Gives (λ key. key) result (spec.key_of mode (table_view table.now)) }
{
    match mode {
        ModeName::Free => empty_at(alloc, table, "key"),
        ModeName::Pass => required(alloc, table, "key"),
        ModeName::Seal => required(alloc, table, "key"),
        ModeName::Order => empty_at(alloc, table, "key"),
    }
}

fn only_component_keys(alloc: Global, table: &Table) -> Result<(), TopoTextFault>
    ensures { Gives (λ x. x) result (fields.only_keys spec.component_keys (table_view table.now)) }
{
    only_keys(
        alloc,
        table,
        &[
            "name", "module", "stock", "columns", "split", "keys", "inputs", "outputs", "notes",
            "replicas", "mode", "key",
        ],
    )
}

/// The body of a component with its ports and its outputs.
#[derive(Drop)]
struct Frame {
    body: Body,
    inputs: Items<Side>,
    outputs: Items<Side>,
}

#[tactic(auto, unfolding(crate::specs::Code::ComponentParts::frame_of))]
fn frame_of(alloc: Global, table: &Table) -> Result<Frame, TopoTextFault>
    ensures { Gives (λ frame. frame) result (parts.frame_of (table_view table.now)) }
{
    let body = body_of(alloc, table)?;
    let inputs = sides_of(alloc, &body, table, "inputs")?;
    let outputs = sides_of(alloc, &body, table, "outputs")?;
    Ok(Frame {
        body,
        inputs,
        outputs,
    })
}

/// How many instances of a component run, and how their inputs are ordered.
#[derive(Drop)]
struct Running {
    replicas: i64,
    mode: ModeName,
    key: Items<Str>,
}

/// The last fields of a component; no key is there but those of a component.
#[tactic(auto, unfolding(crate::specs::Code::ComponentParts::running_of))]
fn running_of(alloc: Global, table: &Table) -> Result<Running, TopoTextFault>
    ensures { Gives (λ running. running) result (parts.running_of (table_view table.now)) }
{
    let replicas: Option<i64> = optional(alloc, table, "replicas")?;
    let mode: Option<ModeName> = optional(alloc, table, "mode")?;
    let mode = mode.unwrap_or(ModeName::Free);
    let key = key_of(alloc, mode, table)?;
    only_component_keys(alloc, table)?;
    Ok(Running {
        replicas: replicas.unwrap_or(1),
        mode,
        key,
    })
}

/// The fields of a component that come after its frame.
#[derive(Drop)]
struct Rest {
    notes: Items<Declared>,
    running: Running,
}

#[tactic(auto, unfolding(crate::specs::Code::ComponentParts::rest_of))]
fn rest_of(alloc: Global, table: &Table) -> Result<Rest, TopoTextFault>
    ensures { Gives (λ rest. rest) result (parts.rest_of (table_view table.now)) }
{
    let notes = optional_list(alloc, table, "notes")?;
    let running = running_of(alloc, table)?;
    Ok(Rest { notes, running })
}

fn whole_of(name: Str, frame: Frame, rest: Rest) -> ComponentEntry
    ensures { result ≡ parts.whole_of name frame rest }
{
    let Frame {
        body,
        inputs,
        outputs,
    } = frame;
    let Rest { notes, running } = rest;
    let Running {
        replicas,
        mode,
        key,
    } = running;
    ComponentEntry {
        name,
        body,
        inputs,
        outputs,
        notes,
        replicas,
        mode,
        key,
    }
}

/// A component, a part after the other.
#[tactic(auto, unfolding(crate::specs::Code::ComponentParts::by_parts))]
fn by_parts(alloc: Global, table: &Table) -> Result<ComponentEntry, TopoTextFault>
    ensures { Gives (λ entry. entry) result (parts.by_parts (table_view table.now)) }
{
    let name = required(alloc, table, "name")?;
    let frame = frame_of(alloc, table)?;
    let rest = rest_of(alloc, table)?;
    Ok(whole_of(name, frame, rest))
}

impl FromTable for ComponentEntry {
    ghost reading = { λ format. spec.component_of };

    #[tactic(auto, using(crate::proofs::ComponentParts::is_whole))]
    fn from_table(
        alloc: Global,
        _format: Format,
        table: &Table,
    ) -> Result<ComponentEntry, TopoTextFault> {
        by_parts(alloc, table)
    }
}
