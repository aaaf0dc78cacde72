//! What the value of a key gives.
ghost use Rattle.std.specs.Prelude.{◌≡◌, Option, option_map};
ghost use Rattle.toml.specs.Data.{Data, as_integer};
ghost use Rattle.toml.specs.View.{view, items_view};
ghost use Rattle.topo_read.specs.Gives.{GivesValue};
ghost use Rattle.topo_read.specs.Values as spec;

use crate::fault::ValueFault;
use blz_value::{Items, Str, is_name};
use std::alloc::Global;
use toml::Value;
use topo_forms::{ColumnType, ModeName, NoteName, Spot};

/// What a value of one form gives.
pub(crate) trait FromValue: Drop + Sized {
    ghost reading: { Data → Option Self };

    /// Reads a value.
    fn from_value(alloc: Global, value: &Value) -> Result<Self, ValueFault>
        ensures { GivesValue (λ x. x) result (reading (view value.now)) };
}

/// The number of a file's format.
#[derive(Clone, Copy, PartialEq, Eq)]
pub(crate) enum Format {
    One,
    Two,
}

/// The name of a module's file.
#[derive(Drop)]
pub(crate) struct FileName {
    pub(crate) name: Str,
}

/// The name of a stock body.
#[derive(Clone, Copy, PartialEq, Eq)]
pub(crate) enum StockName {
    Split,
    Latest,
    Number,
}

impl FromValue for Format {
    ghost reading = { spec.format_in };

    fn from_value(_alloc: Global, value: &Value) -> Result<Format, ValueFault> {
        match value.as_integer() {
            Some(number) => format_of(number),
            None => Err(ValueFault::Break),
        }
    }
}

impl FromValue for Str {
    ghost reading = { spec.name_in };

    fn from_value(alloc: Global, value: &Value) -> Result<Str, ValueFault> {
        match value.as_str() {
            Some(text) => name_of(alloc, text),
            None => Err(ValueFault::Break),
        }
    }
}

/// One or more names.
impl FromValue for Items<Str> {
    ghost reading = { spec.some_names_in };

    fn from_value(alloc: Global, value: &Value) -> Result<Items<Str>, ValueFault> {
        let names = list_in(alloc, value)?;
        one_or_more(names)
    }
}

impl FromValue for Spot {
    ghost reading = { spec.spot_in };

    fn from_value(alloc: Global, value: &Value) -> Result<Spot, ValueFault> {
        match value.as_str() {
            Some(text) => spot_of(alloc, text),
            None => Err(ValueFault::Break),
        }
    }
}

impl FromValue for FileName {
    ghost reading = { spec.file_in };

    fn from_value(alloc: Global, value: &Value) -> Result<FileName, ValueFault> {
        match value.as_str() {
            Some(text) => file_of(alloc, text),
            None => Err(ValueFault::Break),
        }
    }
}

impl FromValue for ColumnType {
    ghost reading = { spec.type_in };

    fn from_value(_alloc: Global, value: &Value) -> Result<ColumnType, ValueFault> {
        match value.as_str() {
            Some(text) => type_of(text),
            None => Err(ValueFault::Break),
        }
    }
}

impl FromValue for StockName {
    ghost reading = { spec.stock_in };

    fn from_value(_alloc: Global, value: &Value) -> Result<StockName, ValueFault> {
        match value.as_str() {
            Some(text) => stock_of(text),
            None => Err(ValueFault::Break),
        }
    }
}

impl FromValue for i64 {
    ghost reading = { as_integer };

    fn from_value(_alloc: Global, value: &Value) -> Result<i64, ValueFault> {
        match value.as_integer() {
            Some(number) => Ok(number),
            None => Err(ValueFault::Break),
        }
    }
}

impl FromValue for ModeName {
    ghost reading = { spec.mode_in };

    fn from_value(_alloc: Global, value: &Value) -> Result<ModeName, ValueFault> {
        match value.as_str() {
            Some(text) => mode_of(text),
            None => Err(ValueFault::Break),
        }
    }
}

impl FromValue for NoteName {
    ghost reading = { spec.note_in };

    fn from_value(_alloc: Global, value: &Value) -> Result<NoteName, ValueFault> {
        match value.as_str() {
            Some(text) => note_of(text),
            None => Err(ValueFault::Break),
        }
    }
}

fn format_of(number: i64) -> Result<Format, ValueFault>
    ensures { GivesValue (λ format. format) result (spec.format_of number) }
{
    match number {
        1 => Ok(Format::One),
        2 => Ok(Format::Two),
        _ => Err(ValueFault::Break),
    }
}

fn name_of(alloc: Global, text: &str) -> Result<Str, ValueFault>
    ensures { GivesValue (λ name. name) result (spec.name_of text.now) }
{
    if !is_name(text) {
        return Err(ValueFault::Break);
    }
    Ok(Str::from_text(alloc, text)?)
}

fn one_or_more<T: Drop>(items: Items<T>) -> Result<Items<T>, ValueFault>
    ensures { GivesValue (λ items. items) result (spec.one_or_more items) }
{
    if items.as_slice().is_empty() {
        return Err(ValueFault::Break);
    }
    Ok(items)
}

fn parts_of(text: &str) -> Option<(&str, &str)>
    ensures { option_map (λ parts. (parts.0.now, parts.1.now)) result ≡ spec.parts_of text.now }
{
    text.split_once('.')
}

#[tactic(auto, unfolding(crate::specs::Values::spot_of))]
fn spot_of(alloc: Global, text: &str) -> Result<Spot, ValueFault>
    ensures { GivesValue (λ spot. spot) result (spec.spot_of text.now) }
{
    let Some(parts) = parts_of(text) else {
        return Err(ValueFault::Break);
    };
    let component = name_of(alloc, parts.0)?;
    let port = name_of(alloc, parts.1)?;
    Ok(Spot { component, port })
}

fn is_file_name(text: &str) -> bool
    ensures { result ≡ spec.is_file_name text.now }
{
    1 <= text.len() && text.len() <= 255
}

fn file_of(alloc: Global, text: &str) -> Result<FileName, ValueFault>
    ensures { GivesValue (λ file. file) result (spec.file_of text.now) }
{
    if !is_file_name(text) {
        return Err(ValueFault::Break);
    }
    let name = Str::from_text(alloc, text)?;
    Ok(FileName { name })
}

fn type_of(text: &str) -> Result<ColumnType, ValueFault>
    ensures { GivesValue (λ of_column. of_column) result (spec.type_of text.now) }
{
    match text {
        "int" => Ok(ColumnType::Int),
        "text" => Ok(ColumnType::Text),
        "any" => Ok(ColumnType::Any),
        _ => Err(ValueFault::Break),
    }
}

fn stock_of(text: &str) -> Result<StockName, ValueFault>
    ensures { GivesValue (λ stock. stock) result (spec.stock_of text.now) }
{
    match text {
        "split" => Ok(StockName::Split),
        "latest" => Ok(StockName::Latest),
        "number" => Ok(StockName::Number),
        _ => Err(ValueFault::Break),
    }
}

fn mode_of(text: &str) -> Result<ModeName, ValueFault>
    ensures { GivesValue (λ mode. mode) result (spec.mode_of text.now) }
{
    match text {
        "free" => Ok(ModeName::Free),
        "pass" => Ok(ModeName::Pass),
        "seal" => Ok(ModeName::Seal),
        "order" => Ok(ModeName::Order),
        _ => Err(ValueFault::Break),
    }
}

fn note_of(text: &str) -> Result<NoteName, ValueFault>
    ensures { GivesValue (λ note. note) result (spec.note_of text.now) }
{
    match text {
        "CR" => Ok(NoteName::CR),
        "CW" => Ok(NoteName::CW),
        "OR" => Ok(NoteName::OR),
        "OW" => Ok(NoteName::OW),
        _ => Err(ValueFault::Break),
    }
}

fn all_in<T: FromValue>(alloc: Global, values: &[Value]) -> Result<Items<T>, ValueFault>
    ensures { GivesValue (λ items. items) result (spec.all_in T.reading (items_view values.now)) }
{
    let mut items = Vec::new(alloc);
    for value in values {
        items.push(T::from_value(alloc, value)?)?;
    }
    Ok(Items::from_vec(items))
}

/// The items of a list, each read as a T.
pub(crate) fn list_in<T: FromValue>(alloc: Global, value: &Value) -> Result<Items<T>, ValueFault>
    ensures { GivesValue (λ items. items) result (spec.list_in T.reading (view value.now)) }
{
    match value.as_array() {
        Some(values) => all_in(alloc, values.as_slice()),
        None => Err(ValueFault::Break),
    }
}

/// The types of as many columns.
pub(crate) fn types_in(
    alloc: Global,
    count: usize,
    value: &Value,
) -> Result<Items<ColumnType>, ValueFault>
    ensures { GivesValue (λ types. types) result (spec.types_in count (view value.now)) }
{
    let types: Items<ColumnType> = list_in(alloc, value)?;
    if types.as_slice().len() != count {
        return Err(ValueFault::Break);
    }
    Ok(types)
}
