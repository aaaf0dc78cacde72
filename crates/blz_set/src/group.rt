//! What a group makes of the rows with one key.
ghost use Rattle.std.specs.Prelude.{◌≡◌, ◌≤◌, ◌++◌, ◌∷◌, [], length, IfOk};
ghost use Rattle.blz_value.specs.Operators.{cells};
ghost use Rattle.blz_value.specs.Groups.{column_values, exact_sum, nearest, least, greatest, aggregate};
ghost use Rattle.blz_set.specs.RecordSet.{row_limit};
ghost use Rattle.blz_set.specs.Code.Entry.{rows_of};
ghost use Rattle.blz_set.specs.Code.ValueRef.{value_of};

use crate::entry::{Entry, copy_cells};
use crate::value_ref::ValueRef;
use blz_value::{Agg, Record, Value};
use std::alloc::{AllocError, Global};

/// The values of a row in the key columns, followed by the aggregate of the rows with that key.
pub(crate) fn grouped_row(
    alloc: Global,
    row: &Record,
    keys: &[u32],
    rows: &[Entry<'_>],
    agg: Agg,
) -> Result<Record, AllocError>
    requires { length rows.now ≤ row_limit }
    ensures { IfOk result (λ made. made ≡ cells keys.now row.now ++ aggregate agg (rows_of rows.now) ∷ []) }
{
    let mut values = copy_cells(alloc, row, keys)?;
    values.push(aggregate_of(alloc, rows, agg)?)?;
    Ok(Record::from_values(values))
}

fn aggregate_of(alloc: Global, rows: &[Entry<'_>], agg: Agg) -> Result<Value, AllocError>
    requires { length rows.now ≤ row_limit }
    ensures { IfOk result (λ value. value ≡ aggregate agg (rows_of rows.now)) }
{
    match agg {
        Agg::Count => Ok(Value::Int(rows.len() as i64)),
        Agg::Sum(column) => Ok(Value::Int(sum_of(rows, column))),
        Agg::Min(column) => least_of(rows, column).to_value(alloc),
        Agg::Max(column) => greatest_of(rows, column).to_value(alloc),
    }
}

// The sum of the numbers in a column, moved to the nearest i64.
fn sum_of(rows: &[Entry<'_>], column: u32) -> i64
    requires { length rows.now ≤ row_limit }
    ensures { result ≡ nearest (exact_sum (column_values column (rows_of rows.now))) }
{
    let mut sum = 0i128;
    for entry in rows {
        if let ValueRef::Number(number) = ValueRef::at(entry.row(), column) {
            sum += i128::from(number);
        }
    }
    sum.clamp(i128::from(i64::MIN), i128::from(i64::MAX)) as i64
}

// The least value in a column, and the number 0 of no rows.
fn least_of<'a>(rows: &[Entry<'a>], column: u32) -> ValueRef<'a>
    ensures { value_of result ≡ least (column_values column (rows_of rows.now)) }
{
    rows.iter()
        .map(|entry| ValueRef::at(entry.row(), column))
        .min()
        .unwrap_or(ValueRef::Number(0))
}

// The greatest value in a column, and the number 0 of no rows.
fn greatest_of<'a>(rows: &[Entry<'a>], column: u32) -> ValueRef<'a>
    ensures { value_of result ≡ greatest (column_values column (rows_of rows.now)) }
{
    rows.iter()
        .map(|entry| ValueRef::at(entry.row(), column))
        .max()
        .unwrap_or(ValueRef::Number(0))
}
