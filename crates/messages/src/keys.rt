//! Keys of records.
ghost use Rattle.std.specs.Prelude.{◌≡◌, IfOk};
ghost use Rattle.blz_value.specs.Operators.{cells};
ghost use Rattle.blz_value.specs.Test.{cell};

use blz_value::{Record, Value};
use std::alloc::{AllocError, Global};

/// The value of a record in a column; past the end the number 0.
pub(crate) fn value_in(row: &Record, column: usize) -> Result<Value, AllocError>
    ensures { IfOk result (λ value. value ≡ cell row.now column) }
{
    match row.values().get(column) {
        Some(value) => value.copy(),
        None => Ok(Value::Int(0)),
    }
}

/// The key value of a record in some columns; past the end stands the number 0.
pub fn key_of(alloc: Global, row: &Record, columns: &[u32]) -> Result<Record, AllocError>
    ensures { IfOk result (λ key. key ≡ cells columns.now row.now) }
{
    let mut values = Vec::with_capacity(alloc, columns.len())?;
    for column in columns {
        values.push(value_in(row, *column as usize)?)?;
    }
    Ok(Record::from_values(values))
}
