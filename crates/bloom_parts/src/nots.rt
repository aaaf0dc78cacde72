//! The change of a notin from the changes of its parts.
ghost use Rattle.std.specs.Prelude.{Bool, IsTrue, List, IfOk, OnOk};
ghost use Rattle.blz_value.specs.Operators.{notin_rows};
ghost use Rattle.blz_value.specs.Record.{Row};
ghost use Rattle.blz_value.specs.Sets.{set_of};
ghost use Rattle.bloom_parts.specs.FreshParts.{IsFreshNotIn};
ghost use Rattle.bloom_parts.specs.KeptParts.{NotInStands, NotInChanges};
ghost use Rattle.bloom_parts.specs.Turns.{TurnsTo};
ghost use Rattle.bloom_parts.specs.Code.Settled.{AreSets};

use crate::change::{Change, both_settled};
use crate::part_rows::{PartRows, part_rows};
use bloom_growth::{KeptNotIn, KeyedRows, left_columns, notin_kept, right_columns, turn_notin};
use blz_set::SetFault;
use std::alloc::{AllocError, Global};

/// What is kept of a notin before the first step: both parts without rows, the right one in the form for
/// parts that grow where it does.
pub fn fresh_not_in(
    alloc: Global,
    pairs: &[(u32, u32)],
    right_grows: bool,
) -> Result<KeptNotIn<PartRows>, AllocError>
    ensures { IfOk result (IsFreshNotIn pairs.now right_grows) }
{
    Ok(KeptNotIn {
        left: KeyedRows::new(alloc, left_columns(alloc, pairs)?),
        right: part_rows(alloc, right_grows, right_columns(alloc, pairs)?),
    })
}

// Notin: the right part, which is kept, is looked up by the columns that are equated.
fn not_in_sets<'a, 'r>(
    alloc: Global,
    left: &Change<'_, '_>,
    right: &Change<'_, '_>,
    pairs: &[(u32, u32)],
    memo: &mut KeptNotIn<PartRows>,
) -> Result<Change<'a, 'r>, SetFault>
    requires kept { IsTrue right.now.kept }
    requires left { AreSets left.now }
    requires right { AreSets right.now }
    ensures turned { (rg : Bool) (lo ln ro rn : List Row) → NotInChanges pairs.now rg lo ln ro rn left.now right.now memo.old → TurnsTo left.now.kept (set_of (notin_rows pairs.now lo ro)) (set_of (notin_rows pairs.now ln rn)) result }
    ensures kept { OnOk result ((rg : Bool) (lo ln ro rn : List Row) → NotInChanges pairs.now rg lo ln ro rn left.now right.now memo.old → NotInStands pairs.now left.now.kept rg right.now.kept ln rn memo.new) }
{
    if left.kept {
        let turn = turn_notin(alloc, left.turning(), right.turning(), pairs, memo)?;
        Ok(Change::turned(turn))
    } else {
        let lefts = left.rows.as_set();
        let set = notin_kept(alloc, lefts, right.turning(), pairs, &mut memo.right)?;
        Ok(Change::of_set(alloc, set))
    }
}

/// Notin: the right part, which is kept, is looked up by the columns that are equated.
pub fn not_in<'a, 'r>(
    alloc: Global,
    left: Change<'_, '_>,
    right: Change<'_, '_>,
    pairs: &[(u32, u32)],
    memo: &mut KeptNotIn<PartRows>,
) -> Result<Change<'a, 'r>, SetFault>
    requires { IsTrue right.kept }
    ensures turned { (rg : Bool) (lo ln ro rn : List Row) → NotInChanges pairs.now rg lo ln ro rn left.entry right.entry memo.old → TurnsTo left.entry.kept (set_of (notin_rows pairs.now lo ro)) (set_of (notin_rows pairs.now ln rn)) result }
    ensures kept { OnOk result ((rg : Bool) (lo ln ro rn : List Row) → NotInChanges pairs.now rg lo ln ro rn left.entry right.entry memo.old → NotInStands pairs.now left.entry.kept rg right.entry.kept ln rn memo.new) }
{
    let (left, right) = both_settled(alloc, left, right)?;
    not_in_sets(alloc, &left, &right, pairs, memo)
}
