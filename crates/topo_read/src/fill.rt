//! Tables by their fields, and the values in them.
ghost use Rattle.std.specs.Prelude.{◌≡◌, IfOk, OnOk, Option, option_map, map};
ghost use Rattle.toml.specs.Data.{integer, string, table as members};
ghost use Rattle.toml.specs.View.{items_of, table_view, view};
ghost use Rattle.topo_read.specs.Fill as spec;

use blz_value::Str;
use std::alloc::{AllocError, Global};
use toml::{Table, Value};

/// What is written as a value.
pub(crate) trait IntoValue: Drop + Sized {
    ghost use Rattle.toml.specs.Data.{Data};

    ghost written: { Self → Data };

    /// The value.
    fn into_value(&self, alloc: Global) -> Result<Value, AllocError>
        ensures { IfOk result (λ value. view value ≡ written self.now) };
}

/// A text as a value.
pub(crate) fn text(alloc: Global, text: &str) -> Result<Value, AllocError>
    ensures { IfOk result (λ value. view value ≡ string text.now) }
{
    Value::string(alloc, text)
}

impl IntoValue for Str {
    ghost written = { string };

    fn into_value(&self, alloc: Global) -> Result<Value, AllocError> {
        text(alloc, self.as_str())
    }
}

/// A number as a value.
pub(crate) fn number(number: i64) -> Value
    ensures { view result ≡ integer number }
{
    Value::Integer(number)
}

/// A table as a value.
pub(crate) fn table_value(table: Table) -> Value
    ensures { view result ≡ members (table_view table) }
{
    Value::Table(table)
}

fn values<T: IntoValue>(alloc: Global, items: &[T]) -> Result<Vec<Value>, AllocError>
    ensures { IfOk result (λ values. map view values.items ≡ map T.written items.now) }
{
    let mut values = Vec::new(alloc);
    for item in items {
        values.push(item.into_value(alloc)?)?;
    }
    Ok(values)
}

/// A list as a value.
fn list<T: IntoValue>(alloc: Global, items: &[T]) -> Result<Value, AllocError>
    ensures { IfOk result (λ value. view value ≡ spec.list_data T.written items.now) }
{
    Ok(Value::Array(values(alloc, items)?))
}

/// Puts a value at a key.
pub(crate) fn put(
    alloc: Global,
    table: &mut Table,
    key: &str,
    value: Value,
) -> Result<(), AllocError>
    ensures { OnOk result (table_view table.new ≡ spec.with_member key.now (view value) (table_view table.old)) }
{
    let key = String::from_str(alloc, key)?;
    table.insert(key, value)?;
    Ok(())
}

/// Puts a text at a key.
pub(crate) fn put_text(
    alloc: Global,
    table: &mut Table,
    key: &str,
    words: &str,
) -> Result<(), AllocError>
    ensures { OnOk result (table_view table.new ≡ spec.with_member key.now (string words.now) (table_view table.old)) }
{
    put(alloc, table, key, text(alloc, words)?)
}

/// Puts an item at a key.
pub(crate) fn put_item<T: IntoValue>(
    alloc: Global,
    table: &mut Table,
    key: &str,
    item: &T,
) -> Result<(), AllocError>
    ensures { OnOk result (table_view table.new ≡ spec.with_member key.now (T.written item.now) (table_view table.old)) }
{
    put(alloc, table, key, item.into_value(alloc)?)
}

/// Puts a list at a key, an empty one too.
pub(crate) fn put_any_list<T: IntoValue>(
    alloc: Global,
    table: &mut Table,
    key: &str,
    items: &[T],
) -> Result<(), AllocError>
    ensures { OnOk result (table_view table.new ≡ spec.with_member key.now (spec.list_data T.written items.now) (table_view table.old)) }
{
    put(alloc, table, key, list(alloc, items)?)
}

/// Puts a list at a key, and nothing where it is empty.
pub(crate) fn put_list<T: IntoValue>(
    alloc: Global,
    table: &mut Table,
    key: &str,
    items: &[T],
) -> Result<(), AllocError>
    ensures { OnOk result (table_view table.new ≡ spec.with_value (table_view table.old) key.now (spec.unless_empty T.written items.now)) }
{
    if items.is_empty() {
        return Ok(());
    }
    put_any_list(alloc, table, key, items)
}
