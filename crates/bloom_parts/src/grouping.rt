//! The change of a group and of an atleast from the change of its part, which is kept.
ghost use Rattle.std.specs.Prelude.{true, ℕ, List, OnOk, IsTrue};
ghost use Rattle.blz_value.specs.declared.aggregate.Agg.{Agg as TheAgg};
ghost use Rattle.blz_value.specs.declared.aggregate.Agg.TheVariants.{Count};
ghost use Rattle.blz_value.specs.Groups.{group_rows, at_least_rows};
ghost use Rattle.blz_value.specs.Record.{Row};
ghost use Rattle.blz_value.specs.Sets.{set_of};
ghost use Rattle.bloom_growth.specs.TurningGroups.{TalliesStand};
ghost use Rattle.bloom_parts.specs.Turns.{Turns, TurnsTo};
ghost use Rattle.bloom_parts.specs.Code.Settled.{AreSets};

use crate::change::Change;
use bloom_growth::TurningGroups;
use blz_set::SetFault;
use std::alloc::Global;

// Group: the aggregates go on.
fn group_sets<'a, 'r>(
    part: &Change<'_, '_>,
    groups: &mut TurningGroups,
) -> Result<Change<'a, 'r>, SetFault>
    requires kept { IsTrue part.now.kept }
    requires sets { AreSets part.now }
    ensures turned { (keys : List ℕ) (agg : TheAgg) (old new : List Row) → Turns old new part.now → TalliesStand keys agg old groups.old → TurnsTo true (set_of (group_rows keys agg old)) (set_of (group_rows keys agg new)) result }
    ensures kept { OnOk result ((keys : List ℕ) (agg : TheAgg) (old new : List Row) → Turns old new part.now → TalliesStand keys agg old groups.old → TalliesStand keys agg new groups.new) }
{
    let turn = groups.turn(part.turning())?;
    Ok(Change::turned(turn))
}

// Atleast: the keys are counted on.
fn at_least_sets<'a, 'r>(
    part: &Change<'_, '_>,
    bound: u64,
    groups: &mut TurningGroups,
) -> Result<Change<'a, 'r>, SetFault>
    requires kept { IsTrue part.now.kept }
    requires sets { AreSets part.now }
    ensures turned { (keys : List ℕ) (old new : List Row) → Turns old new part.now → TalliesStand keys Count old groups.old → TurnsTo true (set_of (at_least_rows keys bound old)) (set_of (at_least_rows keys bound new)) result }
    ensures kept { OnOk result ((keys : List ℕ) (old new : List Row) → Turns old new part.now → TalliesStand keys Count old groups.old → TalliesStand keys Count new groups.new) }
{
    let turn = groups.turn_often(part.turning(), bound)?;
    Ok(Change::turned(turn))
}

/// Group: the aggregates go on.
pub fn group<'a, 'r>(
    alloc: Global,
    part: Change<'_, '_>,
    groups: &mut TurningGroups,
) -> Result<Change<'a, 'r>, SetFault>
    requires { IsTrue part.kept }
    ensures turned { (keys : List ℕ) (agg : TheAgg) (old new : List Row) → Turns old new part.entry → TalliesStand keys agg old groups.old → TurnsTo true (set_of (group_rows keys agg old)) (set_of (group_rows keys agg new)) result }
    ensures kept { OnOk result ((keys : List ℕ) (agg : TheAgg) (old new : List Row) → Turns old new part.entry → TalliesStand keys agg old groups.old → TalliesStand keys agg new groups.new) }
{
    let part = part.settled(alloc)?;
    group_sets(&part, groups)
}

/// Atleast: the keys are counted on.
pub fn at_least<'a, 'r>(
    alloc: Global,
    part: Change<'_, '_>,
    bound: u64,
    groups: &mut TurningGroups,
) -> Result<Change<'a, 'r>, SetFault>
    requires { IsTrue part.kept }
    ensures turned { (keys : List ℕ) (old new : List Row) → Turns old new part.entry → TalliesStand keys Count old groups.old → TurnsTo true (set_of (at_least_rows keys bound old)) (set_of (at_least_rows keys bound new)) result }
    ensures kept { OnOk result ((keys : List ℕ) (old new : List Row) → Turns old new part.entry → TalliesStand keys Count old groups.old → TalliesStand keys Count new groups.new) }
{
    let part = part.settled(alloc)?;
    at_least_sets(&part, bound, groups)
}
