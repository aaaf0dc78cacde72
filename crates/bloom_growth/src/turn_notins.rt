//! A notin of two parts that turn. A left row loses its place where a right row comes to its key, which
//! had none, and gets it where the last right row of its key goes.
ghost use Rattle.std.specs.Prelude.{◌≡◌, ◌++◌, List, IfOk, OnOk};
ghost use Rattle.std.specs.List.{flat_map};
ghost use Rattle.blz_value.specs.Operators.{notin_rows, project_rows};
ghost use Rattle.blz_value.specs.Record.{Row};
ghost use Rattle.blz_value.specs.Sets.{set_of, IsRowSet};
ghost use Rattle.blz_set.specs.Answers.{Gives};
ghost use Rattle.blz_set.specs.Missing.{missing_from};
ghost use Rattle.blz_set.specs.Pairs.{lefts_of, rights_of};
ghost use Rattle.bloom_growth.specs.ByKey.{AreByKey};
ghost use Rattle.bloom_growth.specs.Code.NotIns.{free_at, free_rows, freed_rows};
ghost use Rattle.bloom_growth.specs.Kept.{KeepsForm, IsKeptOf, PartTurns};
ghost use Rattle.bloom_growth.specs.KeptForms.{keyed_kept};
ghost use Rattle.bloom_growth.specs.NotInTurns.{NotInTurns, NotInIsKept};
ghost use Rattle.bloom_growth.specs.Turned.{TurnsInto};

use crate::by_key::{RowsByKey, turn_part};
use crate::columns::{copy_cells, left_columns, right_columns};
use crate::keyed::KeyedRows;
use crate::row_tree::RowTree;
use crate::turn::{Turn, Turning};
use blz_set::{RecordSet, SetFault};
use blz_value::Record;
use std::alloc::{AllocError, Global};

/// What is kept of a notin of two parts that are kept: each by the columns that are equated.
#[derive(Drop)]
pub struct KeptNotIn<R> {
    /// The left rows by the left columns of the pairs.
    pub left: KeyedRows,
    /// The right rows by the right columns of the pairs.
    pub right: R,
}

// Adds at the end those of some left rows that have no partner in a side of right rows.
fn push_unmatched<R: RowsByKey>(
    alloc: Global,
    rows: &mut Vec<Record>,
    lefts: &RecordSet,
    side: &R,
    pairs: &[(u32, u32)],
) -> Result<(), AllocError>
    ensures { OnOk result ((rights : List Row) → AreByKey (rights_of pairs.now) rights (R.kept side.now).sets → rows.new.items ≡ rows.old.items ++ notin_rows pairs.now lefts.now rights) }
{
    let columns = left_columns(alloc, pairs)?;
    for left in lefts.rows() {
        let key = copy_cells(alloc, left, &columns)?;
        if !side.has(&key) {
            rows.push(left.copy()?)?;
        }
    }
    Ok(())
}

// The values of some rows in some columns, each once.
fn keys_of(alloc: Global, rows: &RecordSet, columns: &[u32]) -> Result<RowTree, AllocError>
    ensures { IfOk result (λ keys. keys ≡ set_of (project_rows columns.now rows.now)) }
{
    let mut keys = RowTree::new(alloc);
    for row in rows.rows() {
        keys.insert(copy_cells(alloc, row, columns)?)?;
    }
    Ok(keys)
}

// Adds at the end the left rows at some keys that no right row has.
fn push_free<R: RowsByKey>(
    rows: &mut Vec<Record>,
    keys: &RowTree,
    lefts: &KeyedRows,
    side: &R,
) -> Result<(), AllocError>
    ensures { OnOk result (rows.new.items ≡ rows.old.items ++ flat_map (free_at lefts.now.sets (R.kept side.now).sets) keys.now) }
{
    for key in keys.as_tree() {
        if !side.has(key) {
            lefts.push_at(rows, key)?;
        }
    }
    Ok(())
}

// Adds at the end the left rows at the keys of some right rows that no row of a side has.
fn push_freed<R: RowsByKey>(
    alloc: Global,
    rows: &mut Vec<Record>,
    changed: &RecordSet,
    pairs: &[(u32, u32)],
    lefts: &KeyedRows,
    side: &R,
) -> Result<(), AllocError>
    ensures { OnOk result (rows.new.items ≡ rows.old.items ++ free_rows pairs.now lefts.now.sets (R.kept side.now).sets changed.now) }
{
    let columns = right_columns(alloc, pairs)?;
    let keys = keys_of(alloc, changed, &columns)?;
    push_free(rows, &keys, lefts, side)
}

// The rows that a notin loses: of left rows that go those without partner, and of those that stay those
// at keys that get their first right row.
fn lost_lefts<R: RowsByKey>(
    alloc: Global,
    left: &RecordSet,
    right: &RecordSet,
    pairs: &[(u32, u32)],
    lefts: &mut KeyedRows,
    rights: &R,
) -> Result<RecordSet, SetFault>
    ensures columns { lefts.new.columns ≡ lefts.old.columns }
    ensures rows { (lo rights_old : List Row) → IsRowSet lo → lefts.old.columns.items ≡ lefts_of pairs.now → AreByKey (lefts_of pairs.now) lo lefts.old.sets → AreByKey (rights_of pairs.now) rights_old (R.kept rights.now).sets → Gives (set_of (notin_rows pairs.now left.now rights_old ++ freed_rows pairs.now (missing_from left.now lo) rights_old right.now)) result }
    ensures left_side { OnOk result ((lo : List Row) → IsRowSet lo → lefts.old.columns.items ≡ lefts_of pairs.now → AreByKey (lefts_of pairs.now) lo lefts.old.sets → AreByKey (lefts_of pairs.now) (missing_from left.now lo) lefts.new.sets) }
{
    let mut rows = Vec::new(alloc);
    push_unmatched(alloc, &mut rows, left, rights, pairs)?;
    lefts.shrink(left)?;
    push_freed(alloc, &mut rows, right, pairs, lefts, rights)?;
    RecordSet::from_rows(rows)
}

// The rows that a notin gets: of left rows that stay those at keys that lost their last right row, and of
// those that come those without partner.
fn gained_lefts<R: RowsByKey>(
    alloc: Global,
    left: &RecordSet,
    right: &RecordSet,
    pairs: &[(u32, u32)],
    lefts: &mut KeyedRows,
    rights: &R,
) -> Result<RecordSet, SetFault>
    ensures columns { lefts.new.columns ≡ lefts.old.columns }
    ensures rows { (lk rights_new : List Row) → AreByKey (lefts_of pairs.now) lk lefts.old.sets → AreByKey (rights_of pairs.now) rights_new (R.kept rights.now).sets → Gives (set_of (freed_rows pairs.now lk rights_new right.now ++ notin_rows pairs.now left.now rights_new)) result }
    ensures left_side { OnOk result ((lk : List Row) → IsRowSet lk → lefts.old.columns.items ≡ lefts_of pairs.now → AreByKey (lefts_of pairs.now) lk lefts.old.sets → AreByKey (lefts_of pairs.now) (set_of (lk ++ left.now)) lefts.new.sets) }
{
    let mut rows = Vec::new(alloc);
    push_freed(alloc, &mut rows, right, pairs, lefts, rights)?;
    push_unmatched(alloc, &mut rows, left, rights, pairs)?;
    lefts.grow(left)?;
    RecordSet::from_rows(rows)
}

/// What a notin of two parts that are kept gets and loses. After a fault what is kept may have lost some.
pub fn turn_notin<R: RowsByKey>(
    alloc: Global,
    left: Turning<'_>,
    right: Turning<'_>,
    pairs: &[(u32, u32)],
    memo: &mut KeptNotIn<R>,
) -> Result<Turn, SetFault>
    ensures left { memo.new.left.columns ≡ memo.old.left.columns }
    ensures right { KeepsForm (R.kept memo.old.right) (R.kept memo.new.right) }
    ensures rows { (lo ln ro rn : List Row) → NotInTurns pairs.now lo ln left.entry.more.now left.entry.gone.now ro rn right.entry.more.now right.entry.gone.now (keyed_kept memo.old.left) (R.kept memo.old.right) → TurnsInto (set_of (notin_rows pairs.now lo ro)) (set_of (notin_rows pairs.now ln rn)) result }
    ensures kept { OnOk result ((lo ln ro rn : List Row) → NotInTurns pairs.now lo ln left.entry.more.now left.entry.gone.now ro rn right.entry.more.now right.entry.gone.now (keyed_kept memo.old.left) (R.kept memo.old.right) → NotInIsKept pairs.now ln rn (keyed_kept memo.new.left) (R.kept memo.new.right)) }
{
    let gone = lost_lefts(
        alloc,
        left.gone,
        right.more,
        pairs,
        &mut memo.left,
        &memo.right,
    )?;
    turn_part(&mut memo.right, right)?;
    let more = gained_lefts(
        alloc,
        left.more,
        right.gone,
        pairs,
        &mut memo.left,
        &memo.right,
    )?;
    Ok(Turn { more, gone })
}

/// The left rows without partner in a right part that is kept. After a fault the side may have lost some.
pub fn notin_kept<R: RowsByKey>(
    alloc: Global,
    left: &RecordSet,
    right: Turning<'_>,
    pairs: &[(u32, u32)],
    side: &mut R,
) -> Result<RecordSet, SetFault>
    ensures form { KeepsForm (R.kept side.old) (R.kept side.new) }
    ensures rows { (old new : List Row) → PartTurns (rights_of pairs.now) old new right.entry.more.now right.entry.gone.now (R.kept side.old) → Gives (set_of (notin_rows pairs.now left.now new)) result }
    ensures side { OnOk result ((old new : List Row) → PartTurns (rights_of pairs.now) old new right.entry.more.now right.entry.gone.now (R.kept side.old) → IsKeptOf (rights_of pairs.now) new (R.kept side.new)) }
{
    turn_part(side, right)?;
    let mut rows = Vec::new(alloc);
    push_unmatched(alloc, &mut rows, left, side, pairs)?;
    RecordSet::from_rows(rows)
}
