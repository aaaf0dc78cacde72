//! The change of an expression that names a collection.
ghost use Rattle.std.specs.Prelude.{◌≡◌, Bool, List, slice_get};
ghost use Rattle.blz_value.specs.Record.{Row};
ghost use Rattle.bloom_parts.specs.Turns.{Turns, HasTurnedAt};

use crate::change::Change;
use blz_set::RecordSet;
use std::alloc::Global;

/// What a collection has, by its number, which is lent. One that there isn't has nothing.
#[tactic(auto, using(crate::proofs::Turning::lent_turns))]
pub fn base<'a, 'r>(alloc: Global, held: &'a [Change<'_, 'r>], number: u32) -> Change<'a, 'r>
    ensures { (last : Bool) (old new : List Row) → HasTurnedAt last old new (slice_get held.now number) → (result.kept ≡ last) × Turns old new result }
{
    match held.get(number as usize) {
        Some(change) => Change {
            kept: change.kept,
            rows: change.rows.lent(),
            gone: change.gone.lent(),
        },
        None => Change::of_set(alloc, RecordSet::new(alloc)),
    }
}
