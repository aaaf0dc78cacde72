//! The rows of a part by the columns that a join or a notin equates, in one of two forms: a part that
//! grows has a side, whose sets are lent, and any other an index that rows leave too.
ghost use Rattle.bloom_parts.specs.FreshParts.{IsFreshPart};
ghost use Rattle.bloom_parts.specs.PartForms.{kept_of};

use bloom_growth::{KeyedRows, RowsByKey, Side};
use blz_set::{RecordSet, SetFault};
use blz_value::Record;
use std::alloc::{AllocError, Global};

/// What is kept by key of a part that grows or of another.
#[derive(Drop)]
pub enum PartRows {
    Growing(Side),
    Keyed(KeyedRows),
}

/// What is kept of a part without rows, by some columns.
pub(crate) fn part_rows(alloc: Global, grows: bool, columns: Vec<u32>) -> PartRows
    ensures { IsFreshPart columns.items grows (kept_of result) }
{
    if grows {
        PartRows::Growing(Side::new(alloc, columns))
    } else {
        PartRows::Keyed(KeyedRows::new(alloc, columns))
    }
}

impl RowsByKey for PartRows {
    ghost kept = { kept_of };

    fn has(&self, key: &Record) -> bool {
        match self {
            PartRows::Growing(side) => side.has(key),
            PartRows::Keyed(keyed) => keyed.has(key),
        }
    }

    fn push_rights(
        &self,
        alloc: Global,
        rows: &mut Vec<Record>,
        left: &Record,
        key: &Record,
        pairs: &[(u32, u32)],
    ) -> Result<(), AllocError> {
        match self {
            PartRows::Growing(side) => side.push_rights(alloc, rows, left, key, pairs),
            PartRows::Keyed(keyed) => keyed.push_rights(alloc, rows, left, key, pairs),
        }
    }

    fn push_lefts(
        &self,
        alloc: Global,
        rows: &mut Vec<Record>,
        right: &Record,
        key: &Record,
        pairs: &[(u32, u32)],
    ) -> Result<(), AllocError> {
        match self {
            PartRows::Growing(side) => side.push_lefts(alloc, rows, right, key, pairs),
            PartRows::Keyed(keyed) => keyed.push_lefts(alloc, rows, right, key, pairs),
        }
    }

    fn shrink(&mut self, gone: &RecordSet) -> Result<(), AllocError> {
        match self {
            PartRows::Growing(side) => RowsByKey::shrink(side, gone),
            PartRows::Keyed(keyed) => RowsByKey::shrink(keyed, gone),
        }
    }

    fn grow(&mut self, more: &RecordSet) -> Result<(), SetFault> {
        match self {
            PartRows::Growing(side) => RowsByKey::grow(side, more),
            PartRows::Keyed(keyed) => RowsByKey::grow(keyed, more),
        }
    }
}
