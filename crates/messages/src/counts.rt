//! How many records of a list there are of each key value.
ghost use Rattle.std.specs.Prelude.{◌≡◌, ◌+◌, ◌<◌, ◌^◌, ◌↔◌, ◌++◌, ◌∷◌, [], List, false, IsTrue, IfOk, IfSome, OnOk, if◌then◌else◌};
ghost use Rattle.std.specs.BTreeMap.{IsUnchanged};
ghost use Rattle.blz_value.specs.Operators.{cells};
ghost use Rattle.blz_value.specs.Record.{Row};
ghost use Rattle.blz_value.specs.Message.{Message, row, is_same_row};
ghost use Rattle.messages.specs.EmittedCounts.{count_of, HasRoom, IsTallied};
ghost use Rattle.messages.specs.Code.Counting.{CountsOne};

use crate::keys::key_of;
use blz_value::{Items, Record};
use std::alloc::{AllocError, Global};
use std::collections::BTreeMap;

/// How many records were counted of each key value, where the key has these columns.
#[derive(Drop)]
pub struct Tally {
    pub columns: Items<u32>,
    pub counts: BTreeMap<Record, u32>,
}

// Counts a record of a key value where some were counted, and answers whether there were some.
fn is_again(counts: &mut BTreeMap<Record, u32>, key: &Record) -> bool
    requires { count_of counts.old key.now + 1 < 2 ^ 32 }
    ensures more { IsTrue result → CountsOne counts.old counts.new key.now }
    ensures none { result ≡ false → count_of counts.old key.now ≡ 0 }
    ensures same { result ≡ false → IsUnchanged counts.old counts.new }
{
    match counts.get_mut(key) {
        Some(count) => {
            *count += 1;
            true
        }
        None => false,
    }
}

// Counts a record of a key value.
fn count_one(counts: &mut BTreeMap<Record, u32>, key: Record) -> Result<(), AllocError>
    requires { count_of counts.old key + 1 < 2 ^ 32 }
    ensures { OnOk result (CountsOne counts.old counts.new key) }
{
    if is_again(counts, &key) {
        return Ok(());
    }
    let _ = counts.insert(key, 1)?;
    Ok(())
}

impl Tally {
    /// The tally without records. The error is want of memory.
    pub fn new(alloc: Global, columns: &[u32]) -> Result<Tally, AllocError>
        ensures columns { IfOk result (λ tally. tally.columns ≡ columns.now) }
        ensures none { IfOk result (λ tally. (key : Row) → count_of tally.counts key ≡ 0) }
    {
        Ok(Tally {
            columns: Items::from_vec(Vec::from_slice(alloc, columns)?),
            counts: BTreeMap::new(alloc),
        })
    }

    /// Whether the key has these columns.
    pub fn is_by(&self, columns: &[u32]) -> bool
        ensures { IsTrue result ↔ (self.now.columns ≡ columns.now) }
    {
        self.columns.as_slice() == columns
    }

    /// How many records of a key value were counted.
    pub fn count(&self, key: &Record) -> u32
        ensures { result ≡ count_of self.now.counts key.now }
    {
        match self.counts.get(key) {
            Some(count) => *count,
            None => 0,
        }
    }

    /// Counts a record. The error is want of memory.
    pub fn add(&mut self, alloc: Global, added: &Record) -> Result<(), AllocError>
        requires room { HasRoom self.old }
        ensures columns { self.new.columns ≡ self.old.columns }
        ensures counts { OnOk result ((k : Row) → count_of self.new.counts k ≡ count_of self.old.counts k + (if is_same_row (cells self.old.columns added.now) k then 1 else 0)) }
    {
        let key = key_of(alloc, added, self.columns.as_slice())?;
        count_one(&mut self.counts, key)
    }
}

/// The tally of a list, where there is one, after a record was put behind the list. The error is want
/// of memory.
pub fn with_one(
    alloc: Global,
    tally: Option<Tally>,
    added: &Record,
) -> Result<Option<Tally>, AllocError>
    requires room { IfSome tally HasRoom }
    ensures { IfOk result (λ next. (list : List Message) → IsTallied tally list → IsTallied next (list ++ row added.now ∷ [])) }
{
    match tally {
        Some(mut tally) => {
            tally.add(alloc, added)?;
            Ok(Some(tally))
        }
        None => Ok(None),
    }
}
