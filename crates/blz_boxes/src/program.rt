//! Parts of programs and of answers.
ghost use Rattle.std.specs.Prelude.{◌≡◌, [], ◌∷◌, OnOk};

use bloom_eval::Outs;
use blz_set::RecordSet;
use std::alloc::{AllocError, Global};

/// The most rows of a set.
pub(crate) const ROW_LIMIT: usize = 262_144;

/// Makes the outputs this one set.
pub(crate) fn put_out(alloc: Global, outs: &mut Outs, set: RecordSet) -> Result<(), AllocError>
    ensures { OnOk result (outs.new ≡ set ∷ []) }
{
    let mut sets = Vec::new(alloc);
    sets.push(set)?;
    *outs = Outs::from_sets(sets);
    Ok(())
}
