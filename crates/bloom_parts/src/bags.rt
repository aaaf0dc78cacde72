//! The bag of a head: what its rules that are kept give, a row as often as they do.
ghost use Rattle.std.specs.Prelude.{◌≡◌, ◌<◌, ◌++◌, List, length, OnOk};
ghost use Rattle.blz_value.specs.Members.{IsWithin};
ghost use Rattle.blz_value.specs.Record.{Row};
ghost use Rattle.blz_value.specs.Sets.{set_of};
ghost use Rattle.bloom_growth.specs.Bags.{IsBag, BecomesBag, left_rows, entered_rows};
ghost use Rattle.bloom_growth.specs.Counts.{most_given};
ghost use Rattle.bloom_growth.specs.Growth.{Extends};
ghost use Rattle.bloom_growth.specs.Turned.{TurnsInto};
ghost use Rattle.bloom_parts.specs.Bodies.{BodyRows, BodiesTurn, olds_of, news_of, AddsGiven};
ghost use Rattle.bloom_parts.specs.Code.Passing.{gone_of, more_of};

use crate::change::{Change, put_into};
use bloom_growth::{Bag, Passing, Turn};
use blz_set::{RecordSet, SetFault};
use blz_value::Record;
use std::alloc::{AllocError, Global};

// The most rows of a set.
const ROW_LIMIT: usize = 262_144;

// Rows are given once less each.
fn take_rows(bag: &mut Bag, gone: &[Record], passing: &mut Passing) -> Result<(), AllocError>
    ensures bag { OnOk result ((rows : List Row) → IsBag (gone.now ++ rows) bag.old → IsBag rows bag.new) }
    ensures left { OnOk result ((old rows : List Row) → IsBag (gone.now ++ rows) bag.old → Extends (set_of (gone.now ++ rows)) old (left_rows passing.old) → Extends (set_of rows) old (left_rows passing.new)) }
    ensures entered { entered_rows passing.new ≡ entered_rows passing.old }
{
    for row in gone {
        bag.take_out(row, passing)?;
    }
    Ok(())
}

// Rows are given once more each.
fn put_rows(bag: &mut Bag, more: &[Record], passing: &mut Passing) -> Result<(), SetFault>
    ensures bag { (rows : List Row) → length (more.now ++ rows) < most_given → IsBag rows bag.old → BecomesBag (more.now ++ rows) bag.new result }
    ensures entered { OnOk result ((mid rows : List Row) → length (more.now ++ rows) < most_given → IsBag rows bag.old → Extends mid (set_of rows) (entered_rows passing.old) → Extends mid (set_of (more.now ++ rows)) (entered_rows passing.new)) }
    ensures left { left_rows passing.new ≡ left_rows passing.old }
{
    for row in more {
        bag.put_in(row.copy()?, passing)?;
    }
    Ok(())
}

// What goes of the bodies of rules is taken out.
fn take_all(
    bag: &mut Bag,
    changes: &[Change<'_, '_>],
    passing: &mut Passing,
) -> Result<(), AllocError>
    ensures bag { OnOk result ((rows : List Row) → IsBag (gone_of changes.now ++ rows) bag.old → IsBag rows bag.new) }
    ensures left { OnOk result ((old rows : List Row) → IsBag (gone_of changes.now ++ rows) bag.old → Extends (set_of (gone_of changes.now ++ rows)) old (left_rows passing.old) → Extends (set_of rows) old (left_rows passing.new)) }
    ensures entered { entered_rows passing.new ≡ entered_rows passing.old }
{
    for change in changes {
        take_rows(bag, change.gone.as_rows(), passing)?;
    }
    Ok(())
}

// What comes of the bodies of rules is put in.
fn put_all(bag: &mut Bag, changes: &[Change<'_, '_>], passing: &mut Passing) -> Result<(), SetFault>
    ensures bag { (rows : List Row) → length (more_of changes.now ++ rows) < most_given → IsBag rows bag.old → BecomesBag (more_of changes.now ++ rows) bag.new result }
    ensures entered { OnOk result ((mid rows : List Row) → length (more_of changes.now ++ rows) < most_given → IsBag rows bag.old → Extends mid (set_of rows) (entered_rows passing.old) → Extends mid (set_of (more_of changes.now ++ rows)) (entered_rows passing.new)) }
    ensures left { left_rows passing.new ≡ left_rows passing.old }
{
    for change in changes {
        put_rows(bag, change.rows.as_rows(), passing)?;
    }
    Ok(())
}

/// What a bag of some bodies becomes where these change, and what comes and goes of it as a set. After a
/// fault it may have others.
pub fn turn_bag(alloc: Global, changes: &[Change<'_, '_>], bag: &mut Bag) -> Result<Turn, SetFault>
    ensures bag { OnOk result ((bodies : List BodyRows) → BodiesTurn bodies changes.now → IsBag (olds_of bodies) bag.old → IsBag (news_of bodies) bag.new) }
    ensures rows { (bodies : List BodyRows) → BodiesTurn bodies changes.now → IsBag (olds_of bodies) bag.old → TurnsInto (set_of (olds_of bodies)) (set_of (news_of bodies)) result }
{
    let mut passing = Passing::new(alloc);
    take_all(bag, changes, &mut passing)?;
    put_all(bag, changes, &mut passing)?;
    passing.turn()
}

/// What some bodies get and lose together: where there is one, what it does, and its bag isn't asked;
/// else as `turn_bag` says.
pub fn turn_bodies(
    alloc: Global,
    mut changes: Vec<Change<'_, '_>>,
    bag: &mut Bag,
) -> Result<Turn, SetFault>
    ensures bag { OnOk result ((bodies : List BodyRows) → BodiesTurn bodies changes.entry.items → ¬ (length bodies ≡ 1) → IsBag (olds_of bodies) bag.old → IsBag (news_of bodies) bag.new) }
    ensures rows { (bodies : List BodyRows) → BodiesTurn bodies changes.entry.items → (¬ (length bodies ≡ 1) → IsBag (olds_of bodies) bag.old) → TurnsInto (set_of (olds_of bodies)) (set_of (news_of bodies)) result }
{
    if changes.len() == 1 {
        let change = changes.swap_remove(0);
        return Ok(change.into_turn(alloc)?);
    }
    turn_bag(alloc, &changes, bag)
}

/// A set with all rows of a bag, or where the whole isn't asked for with those that came.
pub fn with_bag(
    alloc: Global,
    mut set: RecordSet,
    bag: &Bag,
    more: RecordSet,
    whole: bool,
) -> Result<RecordSet, SetFault>
    ensures { (given : List Row) → IsBag given bag.now → IsWithin more (set_of given) → AddsGiven whole set given more result }
{
    // for the proof alone: what holds of the set
    let _rows = set.rows();
    if bag.missing(&set) > ROW_LIMIT.saturating_sub(bag.len()) {
        return Err(SetFault::TooManyRows);
    }
    if whole {
        put_into(bag.to_set(alloc)?, &mut set)?;
    } else {
        put_into(more, &mut set)?;
    }
    Ok(set)
}
