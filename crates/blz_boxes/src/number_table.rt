//! The records that Number keeps, with their numbers.
ghost use Rattle.std.specs.Prelude.{◌≡◌, ◌<◌, ◌≤◌, ◌⊎◌, ◌+◌, ◌^◌, [], ◌++◌, pos, not, filter, is_some, Err, None, IfOk, OnOk, OnErr, length};
ghost use Rattle.std.proofs.Props.{props};
ghost use Rattle.std.specs.BTreeMap.{get, btree_map_len, IsOrdered};
ghost use Rattle.blz_value.specs.Members.{Has};
ghost use Rattle.blz_value.specs.Record.{Row, record_cmp};
ghost use Rattle.blz_value.specs.Sets.{set_of, IsRowSet};
ghost use Rattle.blz_set.specs.RecordSet.{row_limit};
ghost use Rattle.blz_set.specs.References.{shown};
ghost use Rattle.bloom_forms.specs.StockSteps.{number_kept, number_out};
ghost use Rattle.bloom_eval.specs.declared.fault.StepFault.TheVariants.{TooManyRows};
ghost use Rattle.blz_boxes.specs.Code.Numbers.{with_number, numbered_records, numbered_from};

use crate::program::ROW_LIMIT;
use bloom_eval::StepFault;
use blz_set::{RecordSet, SetFault};
use blz_value::{Record, Value};
use std::alloc::{AllocError, Global};
use std::collections::BTreeMap;
use std::mem;

/// A number for each record that came.
#[derive(Drop)]
pub(crate) struct NumberTable {
    alloc: Global,
    numbers: BTreeMap<Record, i64>,
    ghost ordered: { IsOrdered record_cmp numbers } by { Prim.hlevel props },
    ghost small: { btree_map_len numbers ≤ row_limit },
}

// The number at a place among those from the first one on.
fn number_at(first: usize, place: usize) -> i64
    requires { first + place < 2 ^ 63 }
    ensures { result ≡ pos (first + place) }
{
    (first + place) as i64
}

// A record with its number.
fn with_number(alloc: Global, row: &Record, number: i64) -> Result<Record, AllocError>
    ensures { IfOk result (λ made. made ≡ with_number row.now number) }
{
    let mut values = Vec::with_capacity(alloc, row.values().len().saturating_add(1))?;
    for value in row.values() {
        values.push(value.copy()?)?;
    }
    values.push(Value::Int(number))?;
    Ok(Record::from_values(values))
}

// Records with the numbers from the first one on.
fn numbered(alloc: Global, rows: &[&Record], first: usize) -> Result<Vec<Record>, AllocError>
    requires { first + length rows.now < 2 ^ 63 }
    ensures { IfOk result (λ made. made.items ≡ numbered_from first (shown rows.now)) }
{
    let mut made = Vec::new(alloc);
    for (i, row) in rows.iter().enumerate() {
        made.push(with_number(alloc, *row, number_at(first, i))?)?;
    }
    Ok(made)
}

// Keeps new records with the numbers from the first one on.
fn keep_all(
    numbers: &mut BTreeMap<Record, i64>,
    rows: &[&Record],
    first: usize,
) -> Result<(), AllocError>
    requires fits { first + length rows.now < 2 ^ 63 }
    requires ordered { IsOrdered record_cmp numbers.old }
    requires sorted { IsRowSet (shown rows.now) }
    requires fresh { (row : Row) → Has row (shown rows.now) → get record_cmp numbers.old row ≡ None }
    ensures ordered { IsOrdered record_cmp numbers.new }
    ensures few { btree_map_len numbers.new ≤ btree_map_len numbers.old + length rows.now }
    ensures kept { OnOk result (numbered_records numbers.new ≡ set_of (numbered_records numbers.old ++ numbered_from first (shown rows.now))) }
{
    for (i, row) in rows.iter().enumerate() {
        let _ = numbers.insert(row.copy()?, number_at(first, i))?;
    }
    Ok(())
}

impl NumberTable {
    /// A table without records.
    pub(crate) fn new(alloc: Global) -> NumberTable
        ensures { numbered_records result.numbers ≡ [] }
    {
        NumberTable {
            alloc,
            numbers: BTreeMap::new(alloc),
        }
    }

    // The records that aren't kept yet.
    fn fresh<'a>(&self, rows: &'a [Record]) -> Result<Vec<&'a Record>, AllocError>
        ensures { IfOk result (λ found. shown found.items ≡ filter (λ row. not (is_some (get record_cmp self.now.numbers row))) rows.now) }
    {
        let mut found = Vec::new(self.alloc);
        for row in rows {
            if !self.numbers.contains_key(row) {
                found.push(row)?;
            }
        }
        Ok(found)
    }

    /// Keeps the records that aren't kept yet, with the next numbers in their order, and answers
    /// with them. After a fault it keeps what it kept, or nothing.
    pub(crate) fn number(&mut self, rows: &[Record]) -> Result<RecordSet, StepFault>
        requires { IsRowSet rows.now }
        ensures kept { OnOk result (numbered_records self.new.numbers ≡ number_kept (numbered_records self.old.numbers) rows.now) }
        ensures out { IfOk result (λ out. out ≡ number_out (numbered_records self.old.numbers) rows.now) }
        ensures few { OnOk result (length (number_kept (numbered_records self.old.numbers) rows.now) ≤ row_limit) }
        ensures too_many { result ≡ Err TooManyRows → row_limit < length (number_kept (numbered_records self.old.numbers) rows.now) }
        ensures err { OnErr result ((numbered_records self.new.numbers ≡ numbered_records self.old.numbers) ⊎ (numbered_records self.new.numbers ≡ [])) }
    {
        let fresh = self.fresh(rows)?;
        let count = self.numbers.len();
        if fresh.len() > ROW_LIMIT - count {
            return Err(StepFault::TooManyRows);
        }
        let out = RecordSet::from_rows(numbered(self.alloc, &fresh, count + 1)?)?;
        let mut numbers = mem::replace(&mut self.numbers, BTreeMap::new(self.alloc));
        keep_all(&mut numbers, &fresh, count + 1)?;
        self.numbers = numbers;
        Ok(out)
    }

    /// All records with their numbers.
    pub(crate) fn rows(&self) -> Result<RecordSet, AllocError>
        ensures { IfOk result (λ set. set ≡ numbered_records self.now.numbers) }
    {
        let mut rows = Vec::new(self.alloc);
        for (row, number) in self.numbers.iter() {
            rows.push(with_number(self.alloc, row, *number)?)?;
        }
        match RecordSet::from_rows(rows) {
            Ok(set) => Ok(set),
            Err(SetFault::NoMemory) => Err(AllocError),
            Err(SetFault::TooManyRows) => unreachable!(),
        }
    }

    /// Forgets all records.
    pub(crate) fn clear(&mut self)
        ensures { numbered_records self.new.numbers ≡ [] }
    {
        self.numbers.clear();
    }
}
