//! Rows with a value at hand.
ghost use Rattle.std.specs.Prelude.{◌≡◌, length, IfOk};
ghost use Rattle.blz_value.specs.Record.{record_cmp};
ghost use Rattle.blz_value.specs.Operators.{cells};
ghost use Rattle.blz_set.specs.Code.Entry.{row_of, entry_key};

use crate::value_ref::ValueRef;
use blz_value::{Record, Value};
use std::alloc::{AllocError, Global};
use std::cmp::Ordering;

/// A row, with its value in the first of some columns at hand.
#[derive(Clone, Copy)]
pub(crate) struct Entry<'a> {
    first: ValueRef<'a>,
    row: &'a Record,
}

impl<'a> Entry<'a> {
    /// The entry of a row by some columns.
    pub(crate) fn new(row: &'a Record, columns: &[u32]) -> Entry<'a>
        ensures row { row_of result ≡ row.now }
        ensures key { entry_key columns.now result ≡ cells columns.now row.now }
    {
        let first = match columns {
            [column, ..] => ValueRef::at(row, *column),
            [] => ValueRef::Number(0),
        };
        Entry { first, row }
    }

    pub(crate) fn row(&self) -> &'a Record
        ensures { result.now ≡ row_of self.now }
    {
        self.row
    }

    /// How it compares with another entry, each by columns of its own.
    pub(crate) fn compare(
        &self,
        columns: &[u32],
        other: &Entry<'_>,
        other_columns: &[u32],
    ) -> Ordering
        requires { length columns.now ≡ length other_columns.now }
        ensures { result ≡ record_cmp (entry_key columns.now self.now) (entry_key other_columns.now other.now) }
    {
        match (columns, other_columns) {
            ([_, columns @ ..], [_, other_columns @ ..]) => match self.first.cmp(&other.first) {
                Ordering::Equal => compare_cells(self.row, columns, other.row, other_columns),
                order => order,
            },
            _ => Ordering::Equal,
        }
    }
}

// How two rows compare, each by columns of its own.
fn compare_cells(a: &Record, a_columns: &[u32], b: &Record, b_columns: &[u32]) -> Ordering
    requires { length a_columns.now ≡ length b_columns.now }
    ensures { result ≡ record_cmp (cells a_columns.now a.now) (cells b_columns.now b.now) }
{
    for (i, a_column) in a_columns.iter().enumerate() {
        let order = ValueRef::at(a, *a_column).cmp(&ValueRef::at(b, b_columns[i]));
        if order.is_ne() {
            return order;
        }
    }
    Ordering::Equal
}

/// Copies of the values in some columns.
pub(crate) fn copy_cells(
    alloc: Global,
    row: &Record,
    columns: &[u32],
) -> Result<Vec<Value>, AllocError>
    ensures { IfOk result (λ values. values.items ≡ cells columns.now row.now) }
{
    let mut values = Vec::with_capacity(alloc, columns.len())?;
    for column in columns {
        values.push(ValueRef::at(row, *column).to_value(alloc)?)?;
    }
    Ok(values)
}
