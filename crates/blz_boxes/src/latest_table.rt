//! The records that Latest keeps, by their keys.
ghost use Rattle.std.specs.Prelude.{◌≡◌, ◌<◌, ◌≤◌, [], Err, IfOk, OnOk, OnErr, length};
ghost use Rattle.std.specs.List.{filter_map};
ghost use Rattle.std.proofs.Props.{props};
ghost use Rattle.std.specs.BTreeMap.{get, btree_map_len, IsOrdered};
ghost use Rattle.blz_value.specs.Record.{record_cmp};
ghost use Rattle.blz_value.specs.Sets.{IsRowSet};
ghost use Rattle.blz_value.specs.Operators.{cells};
ghost use Rattle.blz_set.specs.RecordSet.{row_limit};
ghost use Rattle.blz_set.specs.Answers.{Gives};
ghost use Rattle.bloom_forms.specs.StockSteps.{latest_kept, latest_out};
ghost use Rattle.bloom_eval.specs.declared.fault.StepFault.TheVariants.{TooManyRows};
ghost use Rattle.blz_boxes.specs.Code.KeptRecords.{HaveKeys, records_of};

use crate::program::ROW_LIMIT;
use bloom_eval::StepFault;
use blz_set::{RecordSet, SetFault};
use blz_value::{Record, Value};
use std::alloc::{AllocError, Global};
use std::collections::BTreeMap;
use std::mem;

/// A record for each key.
#[derive(Drop)]
pub(crate) struct LatestTable {
    alloc: Global,
    columns: Vec<u32>,
    records: BTreeMap<Record, Record>,
    ghost have_keys: { HaveKeys columns.items records },
    ghost ordered: { IsOrdered record_cmp records } by { Prim.hlevel props },
    ghost small: { btree_map_len records ≤ row_limit },
}

// A record's values in the key columns.
fn key_of(alloc: Global, row: &Record, columns: &[u32]) -> Result<Record, AllocError>
    ensures { IfOk result (λ key. key ≡ cells columns.now row.now) }
{
    let mut values = Vec::with_capacity(alloc, columns.len())?;
    for column in columns {
        let value = match row.values().get(*column as usize) {
            Some(value) => value.copy()?,
            None => Value::Int(0),
        };
        values.push(value)?;
    }
    Ok(Record::from_values(values))
}

// Puts each of some records in the place of the one that is kept of its key.
fn put_all(
    alloc: Global,
    records: &mut BTreeMap<Record, Record>,
    columns: &[u32],
    rows: &[Record],
) -> Result<(), AllocError>
    requires have_keys { HaveKeys columns.now records.old }
    requires sorted { IsRowSet rows.now }
    ensures have_keys { OnOk result (HaveKeys columns.now records.new) }
    ensures kept { OnOk result (records_of records.new ≡ latest_kept columns.now (records_of records.old) rows.now) }
{
    for row in rows {
        let _ = records.insert(key_of(alloc, row, columns)?, row.copy()?)?;
    }
    Ok(())
}

impl LatestTable {
    /// A table without records, for keys in these columns.
    pub(crate) fn new(alloc: Global, columns: Vec<u32>) -> LatestTable
        ensures columns { result.columns.items ≡ columns.items }
        ensures kept { records_of result.records ≡ [] }
    {
        LatestTable {
            alloc,
            columns,
            records: BTreeMap::new(alloc),
        }
    }

    /// Keeps the greatest of some records with each key that occurs there. After a fault it keeps
    /// nothing.
    pub(crate) fn put(&mut self, rows: &[Record]) -> Result<(), StepFault>
        requires { IsRowSet rows.now }
        ensures columns { self.new.columns.items ≡ self.old.columns.items }
        ensures kept { OnOk result (records_of self.new.records ≡ latest_kept self.old.columns.items (records_of self.old.records) rows.now) }
        ensures few { OnOk result (length (records_of self.new.records) ≤ row_limit) }
        ensures too_many { result ≡ Err TooManyRows → row_limit < length (latest_kept self.old.columns.items (records_of self.old.records) rows.now) }
        ensures err { OnErr result (records_of self.new.records ≡ []) }
    {
        let mut records = mem::replace(&mut self.records, BTreeMap::new(self.alloc));
        put_all(self.alloc, &mut records, &self.columns, rows)?;
        if records.len() > ROW_LIMIT {
            return Err(StepFault::TooManyRows);
        }
        self.records = records;
        Ok(())
    }

    // Copies of the records that are kept of some keys.
    fn found(&self, keys: &[Record]) -> Result<Vec<Record>, AllocError>
        ensures { IfOk result (λ rows. rows.items ≡ filter_map (get record_cmp self.now.records) keys.now) }
    {
        let mut rows = Vec::new(self.alloc);
        for key in keys {
            if let Some(row) = self.records.get(key) {
                rows.push(row.copy()?)?;
            }
        }
        Ok(rows)
    }

    /// The records that are kept of some keys.
    pub(crate) fn asked(&self, keys: &[Record]) -> Result<RecordSet, SetFault>
        ensures { Gives (latest_out self.now.columns.items (records_of self.now.records) keys.now) result }
    {
        RecordSet::from_rows(self.found(keys)?)
    }

    /// All records.
    pub(crate) fn rows(&self) -> Result<RecordSet, AllocError>
        ensures { IfOk result (λ set. set ≡ records_of self.now.records) }
    {
        let mut rows = Vec::new(self.alloc);
        for row in self.records.values() {
            rows.push(row.copy()?)?;
        }
        match RecordSet::from_rows(rows) {
            Ok(set) => Ok(set),
            Err(SetFault::NoMemory) => Err(AllocError),
            Err(SetFault::TooManyRows) => unreachable!(),
        }
    }

    /// Forgets all records.
    pub(crate) fn clear(&mut self)
        ensures columns { self.new.columns.items ≡ self.old.columns.items }
        ensures kept { records_of self.new.records ≡ [] }
    {
        self.records.clear();
    }
}
