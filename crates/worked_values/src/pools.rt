//! The pool of records, and one of as many records as there may be.
ghost use Rattle.std.specs.Prelude.{◌<◌, IfOk, IfSome, length};

use crate::lines::Lines;
use crate::sets::single;
use blz_pool::{Id, Pool, PoolFault};
use blz_value::write_record;
use std::alloc::{AllocError, Global};

// The id of the record of a number, None where the pool is full.
fn placed(alloc: Global, pool: &mut Pool, number: i64) -> Result<Option<Id>, AllocError>
    ensures { IfOk result (λ id. IfSome id (λ id. id < length pool.new)) }
{
    let row = single(alloc, number)?;
    match pool.place(row) {
        Ok(id) => Ok(Some(id)),
        Err(PoolFault::Full) => Ok(None),
        Err(PoolFault::NoMemory) => Err(AllocError),
    }
}

// What is done with a pool, and shown.
#[derive(Clone, Copy)]
enum Step {
    Place(i64),
    Get(i64),
    Count,
    Reset,
}

fn show_placed(lines: &mut Lines, pool: &mut Pool, number: i64) -> Result<(), AllocError> {
    match placed(lines.alloc(), pool, number)? {
        Some(id) => lines.number("id", i64::from(id.number())),
        None => lines.push("id", b"none, it is full"),
    }
}

// The record that the pool has under the id of the record of a number.
fn show_kept(lines: &mut Lines, pool: &mut Pool, number: i64) -> Result<(), AllocError> {
    let mut shown = Vec::new(lines.alloc());
    if let Some(id) = placed(lines.alloc(), pool, number)? {
        write_record(pool.get(id), &mut shown)?;
    }
    lines.push("kept", &shown)
}

fn show_step(lines: &mut Lines, pool: &mut Pool, step: Step) -> Result<(), AllocError> {
    match step {
        Step::Place(number) => show_placed(lines, pool, number),
        Step::Get(number) => show_kept(lines, pool, number),
        Step::Count => lines.count("records", pool.len()),
        Step::Reset => {
            pool.reset();
            Ok(())
        }
    }
}

// A record has the id that it got first, and after a reset ids are given from 0 again.
const IDS: [Step; 9] = [
    Step::Place(7),
    Step::Place(8),
    Step::Place(7),
    Step::Place(8),
    Step::Get(8),
    Step::Count,
    Step::Reset,
    Step::Count,
    Step::Place(8),
];

// A full pool takes only what it holds.
const FULL: [Step; 3] = [Step::Place(4711), Step::Place(262_144), Step::Count];

// A pool of so many numbers from 0 on.
fn filled(alloc: Global, count: i64) -> Result<Pool, AllocError> {
    let mut pool = Pool::new(alloc);
    for number in 0..count {
        let _ = placed(alloc, &mut pool, number)?;
    }
    Ok(pool)
}

fn show_steps(lines: &mut Lines, count: i64, steps: &[Step]) -> Result<(), AllocError> {
    let mut pool = filled(lines.alloc(), count)?;
    for step in steps {
        show_step(lines, &mut pool, *step)?;
    }
    Ok(())
}

/// Shows pools.
pub(crate) fn show(lines: &mut Lines) -> Result<(), AllocError> {
    show_steps(lines, 0, &IDS)?;
    show_steps(lines, 262_144, &FULL)
}
