//! The change of a join from the changes of its parts.
ghost use Rattle.std.specs.Prelude.{◌&&◌, ◌||◌, Bool, IsTrue, List, IfOk, OnOk};
ghost use Rattle.blz_value.specs.Operators.{join_rows};
ghost use Rattle.blz_value.specs.Record.{Row};
ghost use Rattle.blz_value.specs.Sets.{set_of};
ghost use Rattle.bloom_parts.specs.FreshParts.{IsFreshJoin};
ghost use Rattle.bloom_parts.specs.KeptParts.{JoinStands, JoinChanges};
ghost use Rattle.bloom_parts.specs.Turns.{TurnsTo};
ghost use Rattle.bloom_parts.specs.Code.Settled.{AreSets};

use crate::change::{Change, both_settled};
use crate::part_rows::{PartRows, part_rows};
use bloom_growth::{
    KeptJoin, join_kept_left, join_kept_right, left_columns, right_columns, turn_join,
};
use blz_set::SetFault;
use std::alloc::{AllocError, Global};

/// What is kept of a join before the first step: each part without rows, in the form for parts that grow
/// where it does, and no joined row.
pub fn fresh_join(
    alloc: Global,
    pairs: &[(u32, u32)],
    left_grows: bool,
    right_grows: bool,
) -> Result<KeptJoin<PartRows, PartRows>, AllocError>
    ensures { IfOk result (IsFreshJoin pairs.now left_grows right_grows) }
{
    Ok(KeptJoin {
        left: part_rows(alloc, left_grows, left_columns(alloc, pairs)?),
        right: part_rows(alloc, right_grows, right_columns(alloc, pairs)?),
        count: 0,
    })
}

// Join: a part that is kept is looked up by the columns that are equated.
fn join_sets<'a, 'r>(
    alloc: Global,
    left: &Change<'_, '_>,
    right: &Change<'_, '_>,
    pairs: &[(u32, u32)],
    memo: &mut KeptJoin<PartRows, PartRows>,
) -> Result<Change<'a, 'r>, SetFault>
    requires one { IsTrue (left.now.kept || right.now.kept) }
    requires left { AreSets left.now }
    requires right { AreSets right.now }
    ensures turned { (lg rg : Bool) (lo ln ro rn : List Row) → JoinChanges pairs.now lg rg lo ln ro rn left.now right.now memo.old → TurnsTo (left.now.kept && right.now.kept) (set_of (join_rows pairs.now lo ro)) (set_of (join_rows pairs.now ln rn)) result }
    ensures kept { OnOk result ((lg rg : Bool) (lo ln ro rn : List Row) → JoinChanges pairs.now lg rg lo ln ro rn left.now right.now memo.old → JoinStands pairs.now lg left.now.kept rg right.now.kept ln rn memo.new) }
{
    match (left.kept, right.kept) {
        (true, true) => {
            let turn = turn_join(alloc, left.turning(), right.turning(), pairs, memo)?;
            Ok(Change::turned(turn))
        }
        (true, false) => {
            let rights = right.rows.as_set();
            let set = join_kept_left(alloc, left.turning(), rights, pairs, &mut memo.left)?;
            Ok(Change::of_set(alloc, set))
        }
        (false, true) => {
            let lefts = left.rows.as_set();
            let set = join_kept_right(alloc, lefts, right.turning(), pairs, &mut memo.right)?;
            Ok(Change::of_set(alloc, set))
        }
        (false, false) => unreachable!(),
    }
}

/// Join: a part that is kept is looked up by the columns that are equated.
pub fn join<'a, 'r>(
    alloc: Global,
    left: Change<'_, '_>,
    right: Change<'_, '_>,
    pairs: &[(u32, u32)],
    memo: &mut KeptJoin<PartRows, PartRows>,
) -> Result<Change<'a, 'r>, SetFault>
    requires { IsTrue (left.kept || right.kept) }
    ensures turned { (lg rg : Bool) (lo ln ro rn : List Row) → JoinChanges pairs.now lg rg lo ln ro rn left.entry right.entry memo.old → TurnsTo (left.entry.kept && right.entry.kept) (set_of (join_rows pairs.now lo ro)) (set_of (join_rows pairs.now ln rn)) result }
    ensures kept { OnOk result ((lg rg : Bool) (lo ln ro rn : List Row) → JoinChanges pairs.now lg rg lo ln ro rn left.entry right.entry memo.old → JoinStands pairs.now lg left.entry.kept rg right.entry.kept ln rn memo.new) }
{
    let (left, right) = both_settled(alloc, left, right)?;
    join_sets(alloc, &left, &right, pairs, memo)
}
