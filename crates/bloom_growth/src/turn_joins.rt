//! Joins of parts that turn. First what goes is taken away, in the reverse order of what comes after:
//! so what stays grows to the old rows when it is read backwards, and to the new ones forwards.
ghost use Rattle.std.specs.Prelude.{◌≡◌, List, length, OnOk};
ghost use Rattle.blz_value.specs.Operators.{join_rows};
ghost use Rattle.blz_value.specs.Record.{Row};
ghost use Rattle.blz_value.specs.Sets.{set_of};
ghost use Rattle.blz_set.specs.Answers.{Gives};
ghost use Rattle.blz_set.specs.Missing.{missing_from};
ghost use Rattle.blz_set.specs.Pairs.{lefts_of, rights_of};
ghost use Rattle.bloom_growth.specs.ByKey.{AreByKey};
ghost use Rattle.bloom_growth.specs.Code.Joins.{MakesFresh, MakesLost, PartGrows};
ghost use Rattle.bloom_growth.specs.JoinTurns.{JoinTurns, JoinIsKept};
ghost use Rattle.bloom_growth.specs.Kept.{KeepsForm, IsKeptOf, PartTurns};
ghost use Rattle.bloom_growth.specs.Turned.{TurnsInto};

use crate::by_key::{RowsByKey, turn_part};
use crate::grow_set::ROW_LIMIT;
use crate::partners::{join_to_left, join_to_right};
use crate::turn::{Turn, Turning};
use blz_set::{RecordSet, SetFault};
use std::alloc::Global;

/// What is kept of a join of two parts that are kept: each part by the columns that are equated, and
/// how many joined rows there are.
#[derive(Drop)]
pub struct KeptJoin<L, R> {
    /// The left rows by the left columns of the pairs.
    pub left: L,
    /// The right rows by the right columns of the pairs.
    pub right: R,
    /// The number of joined rows.
    pub count: usize,
}

// The joined rows of all left rows with right rows that go, and of left rows that go with the right
// rows that stay.
#[tactic(auto, using(blz_set::proofs::RecordSets::none_is_set))]
fn lost_pairs<L: RowsByKey, R: RowsByKey>(
    alloc: Global,
    left: &RecordSet,
    right: &RecordSet,
    pairs: &[(u32, u32)],
    lefts: &mut L,
    rights: &mut R,
) -> Result<RecordSet, SetFault>
    ensures left { KeepsForm (L.kept lefts.old) (L.kept lefts.new) }
    ensures right { KeepsForm (R.kept rights.old) (R.kept rights.new) }
    ensures rows { (lo ln lm ro rn rm : List Row) → PartTurns (lefts_of pairs.now) lo ln lm left.now (L.kept lefts.old) → PartTurns (rights_of pairs.now) ro rn rm right.now (R.kept rights.old) → MakesLost pairs.now lo left.now ro right.now result }
    ensures left_side { OnOk result ((lo ln lm : List Row) → PartTurns (lefts_of pairs.now) lo ln lm left.now (L.kept lefts.old) → IsKeptOf (lefts_of pairs.now) (missing_from left.now lo) (L.kept lefts.new)) }
    ensures right_side { OnOk result ((ro rn rm : List Row) → PartTurns (rights_of pairs.now) ro rn rm right.now (R.kept rights.old) → IsKeptOf (rights_of pairs.now) (missing_from right.now ro) (R.kept rights.new)) }
{
    rights.shrink(right)?;
    let mut set = RecordSet::new(alloc);
    join_to_left(alloc, &mut set, lefts, right, pairs)?;
    lefts.shrink(left)?;
    let _rows = set.rows();
    join_to_right(alloc, &mut set, left, rights, pairs)?;
    Ok(set)
}

// The joined rows of left rows that come with the right rows that stay, and of all left rows with right
// rows that come.
#[tactic(auto, using(blz_set::proofs::RecordSets::none_is_set))]
fn gained_pairs<L: RowsByKey, R: RowsByKey>(
    alloc: Global,
    left: &RecordSet,
    right: &RecordSet,
    pairs: &[(u32, u32)],
    lefts: &mut L,
    rights: &mut R,
) -> Result<RecordSet, SetFault>
    ensures left { KeepsForm (L.kept lefts.old) (L.kept lefts.new) }
    ensures right { KeepsForm (R.kept rights.old) (R.kept rights.new) }
    ensures rows { (lo ln ro rn : List Row) → PartGrows (lefts_of pairs.now) lo ln left.now (L.kept lefts.old) → PartGrows (rights_of pairs.now) ro rn right.now (R.kept rights.old) → MakesFresh pairs.now left.now ln ro right.now rn result }
    ensures left_side { OnOk result ((lo ln : List Row) → PartGrows (lefts_of pairs.now) lo ln left.now (L.kept lefts.old) → IsKeptOf (lefts_of pairs.now) ln (L.kept lefts.new)) }
    ensures right_side { OnOk result ((ro rn : List Row) → PartGrows (rights_of pairs.now) ro rn right.now (R.kept rights.old) → IsKeptOf (rights_of pairs.now) rn (R.kept rights.new)) }
{
    let mut set = RecordSet::new(alloc);
    join_to_right(alloc, &mut set, left, rights, pairs)?;
    lefts.grow(left)?;
    let _rows = set.rows();
    join_to_left(alloc, &mut set, lefts, right, pairs)?;
    rights.grow(right)?;
    Ok(set)
}

/// What a join of two parts that are kept gets and loses. After a fault what is kept may have lost some.
pub fn turn_join<L: RowsByKey, R: RowsByKey>(
    alloc: Global,
    left: Turning<'_>,
    right: Turning<'_>,
    pairs: &[(u32, u32)],
    memo: &mut KeptJoin<L, R>,
) -> Result<Turn, SetFault>
    ensures left { KeepsForm (L.kept memo.old.left) (L.kept memo.new.left) }
    ensures right { KeepsForm (R.kept memo.old.right) (R.kept memo.new.right) }
    ensures rows { (lo ln ro rn : List Row) → JoinTurns pairs.now lo ln left.entry.more.now left.entry.gone.now ro rn right.entry.more.now right.entry.gone.now (L.kept memo.old.left) (R.kept memo.old.right) memo.old.count → TurnsInto (set_of (join_rows pairs.now lo ro)) (set_of (join_rows pairs.now ln rn)) result }
    ensures kept { OnOk result ((lo ln ro rn : List Row) → JoinTurns pairs.now lo ln left.entry.more.now left.entry.gone.now ro rn right.entry.more.now right.entry.gone.now (L.kept memo.old.left) (R.kept memo.old.right) memo.old.count → JoinIsKept pairs.now ln rn (L.kept memo.new.left) (R.kept memo.new.right) memo.new.count) }
{
    let gone = lost_pairs(
        alloc,
        left.gone,
        right.gone,
        pairs,
        &mut memo.left,
        &mut memo.right,
    )?;
    let more = gained_pairs(
        alloc,
        left.more,
        right.more,
        pairs,
        &mut memo.left,
        &mut memo.right,
    )?;
    let stay = memo.count.saturating_sub(gone.len());
    if more.len() > ROW_LIMIT.saturating_sub(stay) {
        return Err(SetFault::TooManyRows);
    }
    memo.count = stay + more.len();
    Ok(Turn { more, gone })
}

/// The rows of a join with a right part that is kept. After a fault the side may have lost some.
#[tactic(auto, using(blz_set::proofs::RecordSets::none_is_set))]
pub fn join_kept_right<R: RowsByKey>(
    alloc: Global,
    left: &RecordSet,
    right: Turning<'_>,
    pairs: &[(u32, u32)],
    side: &mut R,
) -> Result<RecordSet, SetFault>
    ensures form { KeepsForm (R.kept side.old) (R.kept side.new) }
    ensures rows { (old new : List Row) → PartTurns (rights_of pairs.now) old new right.entry.more.now right.entry.gone.now (R.kept side.old) → Gives (set_of (join_rows pairs.now left.now new)) result }
    ensures side { OnOk result ((old new : List Row) → PartTurns (rights_of pairs.now) old new right.entry.more.now right.entry.gone.now (R.kept side.old) → IsKeptOf (rights_of pairs.now) new (R.kept side.new)) }
{
    turn_part(side, right)?;
    let mut set = RecordSet::new(alloc);
    join_to_right(alloc, &mut set, left, side, pairs)?;
    Ok(set)
}

/// The rows of a join with a left part that is kept. After a fault the side may have lost some.
#[tactic(auto, using(blz_set::proofs::RecordSets::none_is_set))]
pub fn join_kept_left<L: RowsByKey>(
    alloc: Global,
    left: Turning<'_>,
    right: &RecordSet,
    pairs: &[(u32, u32)],
    side: &mut L,
) -> Result<RecordSet, SetFault>
    ensures form { KeepsForm (L.kept side.old) (L.kept side.new) }
    ensures rows { (old new : List Row) → PartTurns (lefts_of pairs.now) old new left.entry.more.now left.entry.gone.now (L.kept side.old) → Gives (set_of (join_rows pairs.now new right.now)) result }
    ensures side { OnOk result ((old new : List Row) → PartTurns (lefts_of pairs.now) old new left.entry.more.now left.entry.gone.now (L.kept side.old) → IsKeptOf (lefts_of pairs.now) new (L.kept side.new)) }
{
    turn_part(side, left)?;
    let mut set = RecordSet::new(alloc);
    join_to_left(alloc, &mut set, side, right, pairs)?;
    Ok(set)
}
