//! The columns of pairs, and the values of a row in some columns.
ghost use Rattle.std.specs.Prelude.{◌≡◌, ◌∷◌, ◌++◌, [], IfOk};
ghost use Rattle.blz_value.specs.Operators.{cells};
ghost use Rattle.blz_value.specs.Test.{cell};
ghost use Rattle.blz_set.specs.Pairs.{lefts_of, rights_of};

use blz_value::{Record, Value};
use std::alloc::{AllocError, Global};

/// A copy of the value in a column of a row, and the number 0 past the end.
pub(crate) fn copy_cell(row: &Record, column: u32) -> Result<Value, AllocError>
    ensures { IfOk result (λ value. value ≡ cell row.now column) }
{
    match row.values().get(column as usize) {
        Some(value) => value.copy(),
        None => Ok(Value::Int(0)),
    }
}

/// Copies of the values in some columns.
pub(crate) fn copy_cells(alloc: Global, row: &Record, columns: &[u32]) -> Result<Record, AllocError>
    ensures { IfOk result (λ key. key ≡ cells columns.now row.now) }
{
    let mut values = Vec::with_capacity(alloc, columns.len())?;
    for column in columns {
        values.push(copy_cell(row, *column)?)?;
    }
    Ok(Record::from_values(values))
}

// Copies of the values of a record, with room for one more.
fn copies(alloc: Global, key: &Record) -> Result<Vec<Value>, AllocError>
    ensures { IfOk result (λ values. values.items ≡ key.now) }
{
    let mut values = Vec::with_capacity(alloc, key.values().len() + 1)?;
    for other in key.values() {
        values.push(other.copy()?)?;
    }
    Ok(values)
}

/// A key, followed by a value.
pub(crate) fn with_value(alloc: Global, key: &Record, value: Value) -> Result<Record, AllocError>
    ensures { IfOk result (λ row. row ≡ key.now ++ value ∷ []) }
{
    let mut values = copies(alloc, key)?;
    values.push(value)?;
    Ok(Record::from_values(values))
}

/// The left columns of pairs.
pub fn left_columns(alloc: Global, pairs: &[(u32, u32)]) -> Result<Vec<u32>, AllocError>
    ensures { IfOk result (λ columns. columns.items ≡ lefts_of pairs.now) }
{
    pairs.iter().map(|pair| pair.0).collect(alloc)
}

/// The right columns of pairs.
pub fn right_columns(alloc: Global, pairs: &[(u32, u32)]) -> Result<Vec<u32>, AllocError>
    ensures { IfOk result (λ columns. columns.items ≡ rights_of pairs.now) }
{
    pairs.iter().map(|pair| pair.1).collect(alloc)
}
