//! The first place at which two executions differ.
//!
//! Contents are sorted, so of two that differ the records are equal up to a place at which one ends
//! or the lesser of two records is in that one alone: it is the least that exactly one has.
ghost use Rattle.std.specs.Prelude.{◌≡◌, ◌<◌, ◌^◌, ◌↔◌, IfNone, IfOk, IsNone, length};
ghost use Rattle.std.specs.Option.{option_map};
ghost use Rattle.blz_value.specs.Sets.{IsRowSet};
ghost use Rattle.witness_check.specs.Difference as spec;
ghost use Rattle.witness_check.specs.Code.Walk.{first_unequal};

use crate::snapshot::Snapshot;
use blz_set::RecordSet;
use blz_value::{Record, compare as order};
use std::alloc::AllocError;
use std::cmp::Ordering;

/// One of two executions.
#[derive(Drop)]
pub enum Which {
    /// The first.
    First,
    /// The second.
    Second,
}

/// A record that exactly one of two executions has in the contents of a sending replica of a stream.
#[derive(Drop)]
pub struct Difference {
    /// The number of the stream.
    pub stream: u32,
    /// The number of the replica.
    pub replica: u32,
    /// Which execution has the record there.
    pub held_by: Which,
    /// The record.
    pub row: Record,
}

// The first record that isn't at the same place in both of two sets, the lesser of two, and which of
// them has it.
fn first_unequal<'a>(first: &'a [Record], second: &'a [Record]) -> Option<(Which, &'a Record)>
    ensures { option_map (λ p. (p.0, p.1.now)) result ≡ first_unequal first.now second.now }
{
    for (i, row) in first.iter().enumerate() {
        let Some(other) = second.get(i) else {
            return Some((Which::First, row));
        };
        match order(row, other) {
            Ordering::Less => return Some((Which::First, row)),
            Ordering::Equal => {}
            Ordering::Greater => return Some((Which::Second, other)),
        }
    }
    match second.get(first.len()) {
        Some(other) => Some((Which::Second, other)),
        None => None,
    }
}

// The difference of a sending replica.
fn difference_at(
    stream: u32,
    replica: u32,
    first: &RecordSet,
    second: &RecordSet,
) -> Result<Option<Difference>, AllocError>
    ensures difference { IfOk result (λ found. found ≡ spec.difference_at stream replica first.now second.now) }
    ensures none { IfOk result (λ found. IfNone found (first.now ≡ second.now)) }
{
    match first_unequal(first.rows(), second.rows()) {
        Some((held_by, row)) => Ok(Some(Difference {
            stream,
            replica,
            held_by,
            row: row.copy()?,
        })),
        None => Ok(None),
    }
}

// The first difference of a stream.
fn difference_of(
    stream: u32,
    first: &[RecordSet],
    second: &[RecordSet],
) -> Result<Option<Difference>, AllocError>
    requires alike { length first.now ≡ length second.now }
    requires few { length first.now < 2 ^ 32 }
    ensures difference { IfOk result (λ found. found ≡ spec.difference_of stream first.now second.now) }
    ensures none { IfOk result (λ found. IfNone found (first.now ≡ second.now)) }
{
    for (replica, contents) in first.iter().enumerate() {
        let found = difference_at(stream, replica as u32, contents, &second[replica])?;
        if found.is_some() {
            return Ok(found);
        }
    }
    Ok(None)
}

/// The first difference between two executions of one topology: in the contents of the first stream,
/// and of its first sending replica, where they differ, the least record that exactly one execution
/// has there. None comes exactly where all contents are the same. It takes a step for each record up
/// to that one. The error is want of memory.
pub fn compare(first: &Snapshot, second: &Snapshot) -> Result<Option<Difference>, AllocError>
    requires { spec.AreAlike first.now second.now }
    ensures difference { IfOk result (λ found. found ≡ spec.difference first.now second.now) }
    ensures same { IfOk result (λ found. IsNone found ↔ (first.now ≡ second.now)) }
{
    let others = second.as_slice();
    for (stream, contents) in first.as_slice().iter().enumerate() {
        let difference = difference_of(
            stream as u32,
            contents.as_slice(),
            others[stream].as_slice(),
        )?;
        if difference.is_some() {
            return Ok(difference);
        }
    }
    Ok(None)
}
