//! Joined rows.
ghost use Rattle.std.specs.Prelude.{◌≡◌, ◌++◌, map, IfOk, OnOk};
ghost use Rattle.blz_value.specs.Operators.{is_paired, unpaired, joined};
ghost use Rattle.blz_set.specs.RecordSet.{IsRecordSet};
ghost use Rattle.blz_set.specs.Code.Entry.{rows_of};
ghost use Rattle.blz_set.specs.Pairs.{lefts_of, rights_of};
ghost use Rattle.blz_set.specs.Growth.{Grows};

use crate::entry::Entry;
use crate::fault::SetFault;
use crate::set::RecordSet;
use blz_value::{Record, Value};
use std::alloc::{AllocError, Global};

/// The left columns of pairs.
pub(crate) fn left_columns(alloc: Global, pairs: &[(u32, u32)]) -> Result<Vec<u32>, AllocError>
    ensures { IfOk result (λ columns. columns.items ≡ lefts_of pairs.now) }
{
    pairs.iter().map(|pair| pair.0).collect(alloc)
}

/// The right columns of pairs.
pub(crate) fn right_columns(alloc: Global, pairs: &[(u32, u32)]) -> Result<Vec<u32>, AllocError>
    ensures { IfOk result (λ columns. columns.items ≡ rights_of pairs.now) }
{
    pairs.iter().map(|pair| pair.1).collect(alloc)
}

/// Adds the row that a left row makes with each of some right rows. After a fault the set has some
/// of them.
pub(crate) fn add_joined(
    alloc: Global,
    set: &mut RecordSet,
    left: &Record,
    rights: &[Entry<'_>],
    pairs: &[(u32, u32)],
) -> Result<(), SetFault>
    requires { IsRecordSet set.old }
    ensures { Grows set.old (map (joined pairs.now left.now) (rows_of rights.now)) set.new result }
{
    for right in rights {
        let _ = set.insert(joined_row(alloc, left, right.row(), pairs)?)?;
    }
    Ok(())
}

// A left row, followed by the right row's values whose columns stand in no pair.
fn joined_row(
    alloc: Global,
    left: &Record,
    right: &Record,
    pairs: &[(u32, u32)],
) -> Result<Record, AllocError>
    ensures { IfOk result (λ row. row ≡ joined pairs.now left.now right.now) }
{
    let most = left.values().len().saturating_add(right.values().len());
    let mut values = Vec::with_capacity(alloc, most)?;
    push_values(&mut values, left)?;
    push_unpaired(&mut values, right, pairs)?;
    Ok(Record::from_values(values))
}

fn push_values(values: &mut Vec<Value>, row: &Record) -> Result<(), AllocError>
    ensures { OnOk result (values.new.items ≡ values.old.items ++ row.now) }
{
    for value in row.values() {
        values.push(value.copy()?)?;
    }
    Ok(())
}

fn push_unpaired(
    values: &mut Vec<Value>,
    right: &Record,
    pairs: &[(u32, u32)],
) -> Result<(), AllocError>
    ensures { OnOk result (values.new.items ≡ values.old.items ++ unpaired pairs.now right.now) }
{
    for (column, value) in right.values().iter().enumerate() {
        if !is_paired(pairs, column) {
            values.push(value.copy()?)?;
        }
    }
    Ok(())
}

// Whether a right column stands in a pair.
fn is_paired(pairs: &[(u32, u32)], column: usize) -> bool
    ensures { result ≡ is_paired pairs.now column }
{
    pairs.iter().any(|pair| pair.1 as usize == column)
}
