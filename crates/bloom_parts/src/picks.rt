//! The change of a select and of a project from the change of its part.
ghost use Rattle.std.specs.Prelude.{◌≡◌, ◌∷◌, [], List, length, IfOk, OnOk, IsTrue};
ghost use Rattle.std.specs.List.{All};
ghost use Rattle.blz_value.specs.Operators.{select_rows, project_rows};
ghost use Rattle.blz_value.specs.Record.{Row};
ghost use Rattle.blz_value.specs.Sets.{set_of};
ghost use Rattle.blz_value.specs.Test.{test_holds, TestFits};
ghost use Rattle.bloom_growth.specs.Bags.{IsBag};
ghost use Rattle.bloom_growth.specs.JoinTurns.{IsWide};
ghost use Rattle.bloom_growth.specs.Whole.{counted_rows};
ghost use Rattle.bloom_parts.specs.Turns.{rows_in, Turns, TurnsTo};
ghost use Rattle.bloom_parts.specs.Code.Settled.{AreSets};

use crate::change::{Change, Rows};
use bloom_growth::{Bag, turn_projected};
use blz_set::{RecordSet, SetFault};
use blz_value::{Record, Test, holds};
use std::alloc::{AllocError, Global};

// Those rows of a set for which a test holds.
fn chosen_set(set: &RecordSet, test: &Test) -> Result<RecordSet, AllocError>
    requires { All (λ row. TestFits test.now (length row)) set.now }
    ensures { IfOk result (λ chosen. chosen ≡ set_of (select_rows (test_holds test.now) set.now)) }
{
    // for the proof alone: what holds of the set
    let _rows = set.rows();
    match set.select(test) {
        Ok(chosen) => Ok(chosen),
        Err(SetFault::NoMemory) => Err(AllocError),
        Err(SetFault::TooManyRows) => unreachable!(),
    }
}

// The row, where a test holds for it.
fn chosen_row<'a, 'r>(alloc: Global, row: &'r Record, test: &Test) -> Rows<'a, 'r>
    requires { All (λ row. TestFits test.now (length row)) (row.now ∷ []) }
    ensures { rows_in result ≡ set_of (select_rows (test_holds test.now) (row.now ∷ [])) }
{
    if holds(test, row) {
        Rows::One(row)
    } else {
        Rows::Own(RecordSet::new(alloc))
    }
}

// Those rows for which a test holds.
fn chosen<'a, 'r>(
    alloc: Global,
    rows: &Rows<'_, 'r>,
    test: &Test,
) -> Result<Rows<'a, 'r>, AllocError>
    requires { All (λ row. TestFits test.now (length row)) (rows_in rows.now) }
    ensures { IfOk result (λ chosen. rows_in chosen ≡ set_of (select_rows (test_holds test.now) (rows_in rows.now))) }
{
    match rows {
        Rows::Lent(set) => Ok(Rows::Own(chosen_set(*set, test)?)),
        Rows::Own(set) => Ok(Rows::Own(chosen_set(set, test)?)),
        Rows::One(row) => Ok(chosen_row(alloc, *row, test)),
    }
}

/// Select: a row that comes or goes is chosen as any other.
pub fn select<'a, 'r>(
    alloc: Global,
    part: &Change<'_, 'r>,
    test: &Test,
) -> Result<Change<'a, 'r>, SetFault>
    requires rows { All (λ row. TestFits test.now (length row)) (rows_in part.now.rows) }
    requires gone { IsTrue part.now.kept → All (λ row. TestFits test.now (length row)) (rows_in part.now.gone) }
    ensures { (old new : List Row) → Turns old new part.now → TurnsTo part.now.kept (set_of (select_rows (test_holds test.now) old)) (set_of (select_rows (test_holds test.now) new)) result }
{
    let rows = chosen(alloc, &part.rows, test)?;
    if !part.kept {
        return Ok(Change::all(alloc, rows));
    }
    let gone = chosen(alloc, &part.gone, test)?;
    Ok(Change::kept(rows, gone))
}

// Project: each row that several rows may give is kept with how many do.
fn project_sets<'a, 'r>(
    alloc: Global,
    part: &Change<'_, '_>,
    columns: &[u32],
    bag: &mut Bag,
) -> Result<Change<'a, 'r>, SetFault>
    requires { AreSets part.now }
    ensures turned { (old new : List Row) → Turns old new part.now → IsWide old new → (IsTrue part.now.kept → IsBag (counted_rows columns.now old) bag.old) → TurnsTo part.now.kept (set_of (project_rows columns.now old)) (set_of (project_rows columns.now new)) result }
    ensures kept { OnOk result ((old new : List Row) → Turns old new part.now → IsWide old new → (IsTrue part.now.kept → IsBag (counted_rows columns.now old) bag.old) → IsTrue part.now.kept → IsBag (counted_rows columns.now new) bag.new) }
{
    if !part.kept {
        return Ok(Change::of_set(alloc, part.rows.as_set().project(columns)?));
    }
    let turn = turn_projected(alloc, part.turning(), columns, bag)?;
    Ok(Change::turned(turn))
}

/// Project: each row that several rows may give is kept with how many do. None is where all columns are
/// kept.
pub fn project<'a, 'r>(
    alloc: Global,
    part: Change<'_, '_>,
    columns: &[u32],
    bag: &mut Bag,
) -> Result<Change<'a, 'r>, SetFault>
    ensures turned { (old new : List Row) → Turns old new part.entry → IsWide old new → (IsTrue part.entry.kept → IsBag (counted_rows columns.now old) bag.old) → TurnsTo part.entry.kept (set_of (project_rows columns.now old)) (set_of (project_rows columns.now new)) result }
    ensures kept { OnOk result ((old new : List Row) → Turns old new part.entry → IsWide old new → (IsTrue part.entry.kept → IsBag (counted_rows columns.now old) bag.old) → IsTrue part.entry.kept → IsBag (counted_rows columns.now new) bag.new) }
{
    let part = part.settled(alloc)?;
    project_sets(alloc, &part, columns, bag)
}
