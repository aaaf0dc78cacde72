//! Sorted rows that go among others.
ghost use Rattle.std.specs.Prelude.{◌≡◌, ◌+◌, ◌≤◌, ◌++◌, length, vec_capacity, IfOk, OnOk, OnErr};
ghost use Rattle.blz_value.specs.Sets.{set_of, IsRowSet};
ghost use Rattle.blz_set.specs.Code.Blocks.{rows_before, rows_after};

use crate::place::place;
use blz_value::Record;
use std::alloc::AllocError;

// Rows that are at most one in so many are each sought among the others; a sort compares all.
const FEW: usize = 16;

/// A row that comes, with those rows of before that stand behind it up to the next one that comes.
#[derive(Drop)]
pub(crate) struct Block {
    first: Record,
    rest: Vec<Record>,
}

// Puts the rows of before behind one another again.
fn put_back(rows: &mut Vec<Record>, mut blocks: Vec<Block>)
    requires { length (rows.old.items ++ rows_before blocks.items) ≤ vec_capacity rows.old }
    ensures { rows.new.items ≡ rows.old.items ++ rows_before blocks.items }
{
    for _ in 0..blocks.len() {
        let Block { first: _, mut rest } = blocks.take_last();
        // there is room
        let _ = rows.append(&mut rest);
    }
}

// Puts the blocks behind one another.
fn put_on(rows: &mut Vec<Record>, mut blocks: Vec<Block>)
    requires { length (rows.old.items ++ rows_after blocks.items) ≤ vec_capacity rows.old }
    ensures { rows.new.items ≡ rows.old.items ++ rows_after blocks.items }
{
    for _ in 0..blocks.len() {
        let Block { first, mut rest } = blocks.take_last();
        rows.push_reserved(first);
        // there is room
        let _ = rows.append(&mut rest);
    }
}

// The blocks of those rows that come and aren't there, the last of them first. What is behind the first
// of these is taken off the rows, each block as a whole.
fn taken_blocks(rows: &mut Vec<Record>, more: &mut Vec<Record>) -> Result<Vec<Block>, AllocError>
    requires rows { IsRowSet rows.old.items }
    requires more { IsRowSet more.old.items }
    ensures ok { IfOk result (λ blocks. rows.new.items ++ rows_after blocks.items ≡ set_of (rows.old.items ++ more.old.items)) }
    ensures err { OnErr result (rows.new.items ≡ rows.old.items) }
    ensures room { OnOk result (vec_capacity rows.new ≡ vec_capacity rows.old) }
{
    let mut blocks = Vec::with_capacity(*rows.allocator(), more.len())?;
    for _ in 0..more.len() {
        let first = more.take_last();
        if let Err(at) = place(rows.as_slice(), &first) {
            match rows.split_off(at) {
                Ok(rest) => blocks.push_reserved(Block { first, rest }),
                Err(error) => {
                    put_back(rows, blocks);
                    return Err(error);
                }
            }
        }
    }
    Ok(blocks)
}

// Moves rows to others. Where both are sorted, the stable sort merges them in one pass.
fn sort_in(rows: &mut Vec<Record>, more: &mut Vec<Record>) -> Result<(), AllocError>
    ensures ok { OnOk result (rows.new.items ≡ set_of (rows.old.items ++ more.old.items)) }
    ensures err { OnErr result (rows.new.items ≡ rows.old.items) }
{
    let count = rows.len();
    rows.append(more)?;
    match rows.sort() {
        Ok(()) => {
            rows.dedup();
            Ok(())
        }
        Err(error) => {
            rows.truncate(count);
            Err(error)
        }
    }
}

/// Moves rows to others, where both are sorted. Where they are few, the others are moved as blocks and
/// hardly compared.
pub(crate) fn merge_in(rows: &mut Vec<Record>, more: &mut Vec<Record>) -> Result<(), AllocError>
    requires rows { IsRowSet rows.old.items }
    requires more { IsRowSet more.old.items }
    ensures ok { OnOk result (rows.new.items ≡ set_of (rows.old.items ++ more.old.items)) }
    ensures err { OnErr result (rows.new.items ≡ rows.old.items) }
{
    if more.len() > rows.len() / FEW {
        return sort_in(rows, more);
    }
    rows.reserve(more.len())?;
    let blocks = taken_blocks(rows, more)?;
    put_on(rows, blocks);
    Ok(())
}
