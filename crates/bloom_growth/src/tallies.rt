//! Aggregates by keys, where one row comes or goes.
ghost use Rattle.std.specs.Prelude.{IfOk, OnOk};
ghost use Rattle.bloom_growth.specs.Code.Tallies.{GoesOn, GoesBack, IsStep, LeavesAt, StepsAt};

use crate::tally::Tally;
use blz_value::{Agg, HashKey, Record, Value};
use indexmap::IndexMap;
use std::alloc::{AllocError, Global};

/// Aggregates by keys, in no order. Files of strangers give the keys, so they are hashed under a key that
/// these can't choose.
pub(crate) type Tallies = IndexMap<Record, Tally, HashKey>;

/// What the aggregate at a key was, where it was there, and what it is.
#[derive(Drop)]
pub(crate) struct Step {
    pub(crate) before: Option<Value>,
    pub(crate) after: Value,
}

// Goes on with a row more at a key, where it is there.
fn step_at(
    tallies: &mut Tallies,
    agg: Agg,
    key: &Record,
    row: &Record,
) -> Result<Option<Step>, AllocError>
    ensures { IfOk result (λ step. StepsAt step agg key.now row.now tallies.old tallies.new) }
{
    match tallies.get_mut(key) {
        Some(tally) => {
            let before = tally.value(agg)?;
            tally.put(agg, row)?;
            let after = tally.value(agg)?;
            Ok(Some(Step {
                before: Some(before),
                after,
            }))
        }
        None => Ok(None),
    }
}

/// Goes on with a row more at a key.
pub(crate) fn put_row(
    tallies: &mut Tallies,
    alloc: Global,
    agg: Agg,
    key: &Record,
    row: &Record,
) -> Result<Step, AllocError>
    ensures goes { OnOk result (GoesOn agg key.now row.now tallies.old tallies.new) }
    ensures step { IfOk result (IsStep agg key.now tallies.old tallies.new) }
{
    match step_at(tallies, agg, key, row)? {
        Some(step) => Ok(step),
        None => {
            let mut one = Tally::none(alloc, agg);
            one.put(agg, row)?;
            let after = one.value(agg)?;
            let _ = tallies.insert(key.copy()?, one)?;
            Ok(Step {
                before: None,
                after,
            })
        }
    }
}

// Goes on with a row less at a key, and answers whether it was the last.
fn take_at(tallies: &mut Tallies, agg: Agg, key: &Record, row: &Record) -> Result<bool, AllocError>
    ensures { IfOk result (λ last. LeavesAt last agg key.now row.now tallies.old tallies.new) }
{
    match tallies.get_mut(key) {
        Some(tally) => tally.take(agg, row),
        None => Ok(false),
    }
}

/// Goes on with a row less at a key, which goes with its last row.
pub(crate) fn take_row(
    tallies: &mut Tallies,
    agg: Agg,
    key: &Record,
    row: &Record,
) -> Result<(), AllocError>
    ensures { OnOk result (GoesBack agg key.now row.now tallies.old tallies.new) }
{
    if take_at(tallies, agg, key, row)? {
        let _ = tallies.swap_remove(key);
    }
    Ok(())
}
