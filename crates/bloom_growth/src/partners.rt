//! The rows that have a partner in a side, joined.
ghost use Rattle.std.specs.Prelude.{◌≡◌, ◌<◌, ◌++◌, List, map, length, Err, IfOk, OnOk};
ghost use Rattle.blz_value.specs.Operators.{is_paired, unpaired, joined, join_rows};
ghost use Rattle.blz_value.specs.Record.{Row};
ghost use Rattle.blz_value.specs.Sets.{set_of};
ghost use Rattle.blz_set.specs.Growth.{Grows};
ghost use Rattle.blz_set.specs.Pairs.{lefts_of, rights_of};
ghost use Rattle.blz_set.specs.RecordSet.{IsRecordSet, row_limit};
ghost use Rattle.blz_set.specs.declared.fault.SetFault.TheVariants.{TooManyRows};
ghost use Rattle.bloom_growth.specs.ByKey.{AreByKey};
ghost use Rattle.bloom_growth.specs.Code.Joins.{turned_rows};

use crate::by_key::RowsByKey;
use crate::columns::{copy_cells, left_columns, right_columns};
use crate::grow_set::ROW_LIMIT;
use blz_set::{RecordSet, SetFault};
use blz_value::{Record, Value};
use std::alloc::{AllocError, Global};
use std::collections::BTreeSet;
use std::mem;

// Whether a right column stands in a pair.
fn is_paired(pairs: &[(u32, u32)], column: usize) -> bool
    ensures { result ≡ is_paired pairs.now column }
{
    pairs.iter().any(|pair| pair.1 as usize == column)
}

fn push_values(values: &mut Vec<Value>, row: &Record) -> Result<(), AllocError>
    ensures { OnOk result (values.new.items ≡ values.old.items ++ row.now) }
{
    for value in row.values() {
        values.push(value.copy()?)?;
    }
    Ok(())
}

fn push_unpaired(
    values: &mut Vec<Value>,
    right: &Record,
    pairs: &[(u32, u32)],
) -> Result<(), AllocError>
    ensures { OnOk result (values.new.items ≡ values.old.items ++ unpaired pairs.now right.now) }
{
    for (column, value) in right.values().iter().enumerate() {
        if !is_paired(pairs, column) {
            values.push(value.copy()?)?;
        }
    }
    Ok(())
}

// A left row, followed by the right row's values whose columns stand in no pair.
fn joined_row(
    alloc: Global,
    left: &Record,
    right: &Record,
    pairs: &[(u32, u32)],
) -> Result<Record, AllocError>
    ensures { IfOk result (λ row. row ≡ joined pairs.now left.now right.now) }
{
    let most = left.values().len() + right.values().len();
    let mut values = Vec::with_capacity(alloc, most)?;
    push_values(&mut values, left)?;
    push_unpaired(&mut values, right, pairs)?;
    Ok(Record::from_values(values))
}

/// Adds at the end the rows that a left row makes with some right rows.
pub(crate) fn push_rights(
    alloc: Global,
    rows: &mut Vec<Record>,
    left: &Record,
    rights: &[Record],
    pairs: &[(u32, u32)],
) -> Result<(), AllocError>
    ensures { OnOk result (rows.new.items ≡ rows.old.items ++ map (joined pairs.now left.now) rights.now) }
{
    for right in rights {
        rows.push(joined_row(alloc, left, right, pairs)?)?;
    }
    Ok(())
}

/// Adds at the end the rows that some left rows make with a right row.
pub(crate) fn push_lefts(
    alloc: Global,
    rows: &mut Vec<Record>,
    lefts: &[Record],
    right: &Record,
    pairs: &[(u32, u32)],
) -> Result<(), AllocError>
    ensures { OnOk result (rows.new.items ≡ rows.old.items ++ map (λ left. joined pairs.now left right.now) lefts.now) }
{
    for left in lefts {
        rows.push(joined_row(alloc, left, right, pairs)?)?;
    }
    Ok(())
}

/// Adds at the end the rows that a left row makes with the right rows of a tree.
pub(crate) fn push_tree_rights(
    alloc: Global,
    rows: &mut Vec<Record>,
    left: &Record,
    rights: &BTreeSet<Record>,
    pairs: &[(u32, u32)],
) -> Result<(), AllocError>
    ensures { OnOk result (rows.new.items ≡ rows.old.items ++ map (joined pairs.now left.now) rights.now.keys) }
{
    for right in rights {
        rows.push(joined_row(alloc, left, right, pairs)?)?;
    }
    Ok(())
}

/// Adds at the end the rows that the left rows of a tree make with a right row.
pub(crate) fn push_tree_lefts(
    alloc: Global,
    rows: &mut Vec<Record>,
    lefts: &BTreeSet<Record>,
    right: &Record,
    pairs: &[(u32, u32)],
) -> Result<(), AllocError>
    ensures { OnOk result (rows.new.items ≡ rows.old.items ++ map (λ left. joined pairs.now left right.now) lefts.now.keys) }
{
    for left in lefts {
        rows.push(joined_row(alloc, left, right, pairs)?)?;
    }
    Ok(())
}

// Adds rows to a set. After a fault it is as it was.
fn add_rows(set: &mut RecordSet, rows: Vec<Record>) -> Result<(), SetFault>
    ensures { Grows set.old rows.items set.new result }
{
    let more = RecordSet::from_rows(rows)?;
    if set.len() == 0 {
        *set = more;
        return Ok(());
    }
    set.take_in(more)
}

// Adds rows to a set and takes them away once they are more than a set may have, so that few sets
// are joined.
fn add_many(alloc: Global, set: &mut RecordSet, rows: &mut Vec<Record>) -> Result<(), SetFault>
    requires { IsRecordSet set.old }
    ensures set { OnOk result (IsRecordSet set.new) }
    ensures all { OnOk result (set_of (set.new ++ rows.new.items) ≡ set_of (set.old ++ rows.old.items)) }
    ensures too_many { result ≡ Err TooManyRows → row_limit < length (set_of (set.old ++ rows.old.items)) }
{
    if rows.len() > ROW_LIMIT {
        let many = mem::replace(rows, Vec::new(alloc));
        add_rows(set, many)?;
    }
    Ok(())
}

/// Adds the joined rows of some left rows and all rows of a side, by its columns.
pub(crate) fn join_to_right<S: RowsByKey>(
    alloc: Global,
    set: &mut RecordSet,
    lefts: &RecordSet,
    side: &S,
    pairs: &[(u32, u32)],
) -> Result<(), SetFault>
    requires { IsRecordSet set.old }
    ensures { (rights : List Row) → AreByKey (rights_of pairs.now) rights (S.kept side.now).sets → Grows set.old (join_rows pairs.now lefts.now rights) set.new result }
{
    let columns = left_columns(alloc, pairs)?;
    let mut rows = Vec::new(alloc);
    for left in lefts.rows() {
        let key = copy_cells(alloc, left, &columns)?;
        side.push_rights(alloc, &mut rows, left, &key, pairs)?;
        add_many(alloc, set, &mut rows)?;
    }
    add_rows(set, rows)
}

/// Adds the joined rows of all rows of a side and some right rows.
pub(crate) fn join_to_left<S: RowsByKey>(
    alloc: Global,
    set: &mut RecordSet,
    side: &S,
    rights: &RecordSet,
    pairs: &[(u32, u32)],
) -> Result<(), SetFault>
    requires { IsRecordSet set.old }
    ensures { (lefts : List Row) → AreByKey (lefts_of pairs.now) lefts (S.kept side.now).sets → Grows set.old (turned_rows pairs.now lefts rights.now) set.new result }
{
    let columns = right_columns(alloc, pairs)?;
    let mut rows = Vec::new(alloc);
    for right in rights.rows() {
        let key = copy_cells(alloc, right, &columns)?;
        side.push_lefts(alloc, &mut rows, right, &key, pairs)?;
        add_many(alloc, set, &mut rows)?;
    }
    add_rows(set, rows)
}
