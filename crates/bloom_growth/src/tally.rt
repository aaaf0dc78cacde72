//! The aggregate of some rows, as a value that goes on with each row that comes and each that goes.
ghost use Rattle.std.specs.Prelude.{◌≡◌, ◌<◌, ◌∷◌, ◌↔◌, [], List, length, nat_le, IsTrue, IfOk, OnOk};
ghost use Rattle.blz_value.specs.declared.aggregate.Agg.{Agg as TheAgg};
ghost use Rattle.blz_value.specs.Groups.{least, greatest, aggregate, summand};
ghost use Rattle.blz_value.specs.Record.{Row};
ghost use Rattle.blz_value.specs.Test.{cell};
ghost use Rattle.blz_value.specs.Value.{value_cmp};
ghost use Rattle.blz_set.specs.RecordSet.{row_limit};
ghost use Rattle.bloom_growth.specs.Code.Aggregates.{column_of};
ghost use Rattle.bloom_growth.specs.Counts.{AreCounted};

use crate::columns::copy_cell;
use crate::counts::{put_key, take_key};
use blz_value::{Agg, Record, Value};
use std::alloc::{AllocError, Global};
use std::collections::BTreeMap;

/// What an aggregate needs of rows besides their number.
#[derive(Drop)]
pub(crate) enum Kept {
    /// Nothing.
    Nothing,
    /// The exact sum.
    Sum(i128),
    /// The values, each with how many rows have it.
    Values(BTreeMap<Value, u32>),
}

/// The number of rows, and what else an aggregate needs of them.
#[derive(Drop)]
pub(crate) struct Tally {
    count: u32,
    kept: Kept,
}

// The number that a row adds to a sum.
fn summand_at(row: &Record, column: u32) -> i64
    ensures { result ≡ summand (cell row.now column) }
{
    match row.values().get(column as usize) {
        Some(Value::Int(number)) => *number,
        _ => 0,
    }
}

// The column that an aggregate reads; counting reads none.
fn column_of(agg: Agg) -> u32
    ensures { result ≡ column_of agg }
{
    match agg {
        Agg::Count => 0,
        Agg::Sum(column) => column,
        Agg::Min(column) => column,
        Agg::Max(column) => column,
    }
}

// The least of some values, and the number 0 of none.
fn first_value(values: &BTreeMap<Value, u32>) -> Result<Value, AllocError>
    ensures { IfOk result (λ value. (all : List Value) → AreCounted value_cmp all values.now → value ≡ least all) }
{
    match values.first_key_value() {
        Some((value, _)) => value.copy(),
        None => Ok(Value::Int(0)),
    }
}

// The greatest of some values, and the number 0 of none.
fn last_value(values: &BTreeMap<Value, u32>) -> Result<Value, AllocError>
    ensures { IfOk result (λ value. (all : List Value) → AreCounted value_cmp all values.now → value ≡ greatest all) }
{
    match values.last_key_value() {
        Some((value, _)) => value.copy(),
        None => Ok(Value::Int(0)),
    }
}

impl Kept {
    ghost use Rattle.bloom_growth.specs.Tallies.{IsKept};

    // What is kept of no rows.
    fn none(alloc: Global, agg: Agg) -> Kept
        ensures { IsKept agg [] result }
    {
        match agg {
            Agg::Count => Kept::Nothing,
            Agg::Sum(_) => Kept::Sum(0),
            Agg::Min(_) => Kept::Values(BTreeMap::new(alloc)),
            Agg::Max(_) => Kept::Values(BTreeMap::new(alloc)),
        }
    }

    // Goes on with one row more.
    fn put(&mut self, agg: Agg, row: &Record) -> Result<(), AllocError>
        ensures { OnOk result ((rows : List Row) → length rows < row_limit → IsKept agg rows self.old → IsKept agg (row.now ∷ rows) self.new) }
    {
        let column = column_of(agg);
        match self {
            Kept::Nothing => Ok(()),
            Kept::Sum(sum) => {
                *sum = sum.saturating_add(i128::from(summand_at(row, column)));
                Ok(())
            }
            Kept::Values(values) => put_key(values, copy_cell(row, column)?),
        }
    }

    // Goes on with one row less.
    fn take(&mut self, agg: Agg, row: &Record) -> Result<(), AllocError>
        ensures { OnOk result ((rows : List Row) → length rows < row_limit → IsKept agg (row.now ∷ rows) self.old → IsKept agg rows self.new) }
    {
        let column = column_of(agg);
        match self {
            Kept::Nothing => Ok(()),
            Kept::Sum(sum) => {
                *sum = sum.saturating_sub(i128::from(summand_at(row, column)));
                Ok(())
            }
            Kept::Values(values) => {
                let _ = take_key(values, &copy_cell(row, column)?);
                Ok(())
            }
        }
    }
}

impl Tally {
    ghost use Rattle.bloom_growth.specs.Tallies.{IsTally};

    /// The aggregate of no rows.
    pub(crate) fn none(alloc: Global, agg: Agg) -> Tally
        ensures { IsTally agg [] result }
    {
        Tally {
            count: 0,
            kept: Kept::none(alloc, agg),
        }
    }

    /// Goes on with one row more.
    pub(crate) fn put(&mut self, agg: Agg, row: &Record) -> Result<(), AllocError>
        ensures { OnOk result ((rows : List Row) → length rows < row_limit → IsTally agg rows self.old → IsTally agg (row.now ∷ rows) self.new) }
    {
        self.count = self.count.saturating_add(1);
        self.kept.put(agg, row)
    }

    /// Goes on with one row less, and answers whether it was the last.
    pub(crate) fn take(&mut self, agg: Agg, row: &Record) -> Result<bool, AllocError>
        ensures tally { OnOk result ((rows : List Row) → length rows < row_limit → IsTally agg (row.now ∷ rows) self.old → IsTally agg rows self.new) }
        ensures last { IfOk result (λ last. (rows : List Row) → IsTally agg (row.now ∷ rows) self.old → IsTrue last ↔ (length rows ≡ 0)) }
    {
        self.count = self.count.saturating_sub(1);
        self.kept.take(agg, row)?;
        Ok(self.count == 0)
    }

    /// The value of the aggregate.
    pub(crate) fn value(&self, agg: Agg) -> Result<Value, AllocError>
        ensures { IfOk result (λ value. (rows : List Row) → IsTally agg rows self.now → value ≡ aggregate agg rows) }
    {
        match &self.kept {
            Kept::Nothing => Ok(Value::Int(i64::from(self.count))),
            Kept::Sum(sum) => Ok(Value::Int(
                (*sum).clamp(i128::from(i64::MIN), i128::from(i64::MAX)) as i64,
            )),
            Kept::Values(values) => match agg {
                Agg::Count => first_value(values),
                Agg::Sum(_) => first_value(values),
                Agg::Min(_) => first_value(values),
                Agg::Max(_) => last_value(values),
            },
        }
    }

    /// Whether there are at least so many rows.
    pub(crate) fn is_often(&self, bound: u64) -> bool
        ensures { (agg : TheAgg) (rows : List Row) → IsTally agg rows self.now → result ≡ nat_le bound (length rows) }
    {
        bound <= u64::from(self.count)
    }
}
