//! Sets that are lent or owned.
ghost use Rattle.std.specs.Prelude.{◌≡◌, ◌<◌, [], length, slice_set, IfOk};
ghost use Rattle.blz_set.specs.RecordSet.{IsRecordSet};
ghost use Rattle.bloom_forms.specs.Step.{set_at};
ghost use Rattle.bloom_eval.specs.Code.Held.{rows_in, sets_in};

use blz_set::RecordSet;
use std::alloc::{AllocError, Global};
use std::mem;

/// A set that is lent or owned.
#[derive(Drop)]
pub(crate) enum Rows<'a> {
    Lent(&'a RecordSet),
    Own(RecordSet),
}

impl Rows<'_> {
    /// The set.
    pub(crate) fn as_set(&self) -> &RecordSet
        ensures rows { result.now ≡ rows_in self.now }
        ensures set { IsRecordSet (rows_in self.now) }
    {
        let set = match self {
            Rows::Lent(set) => *set,
            Rows::Own(set) => set,
        };
        let _rows = set.rows();
        set
    }
}

impl<'a> Rows<'a> {
    /// The set itself, which is copied where it is lent.
    pub(crate) fn into_set(self) -> Result<RecordSet, AllocError>
        ensures { IfOk result (λ set. set ≡ rows_in self.entry) }
    {
        match self {
            Rows::Lent(set) => set.copy(),
            Rows::Own(set) => Ok(set),
        }
    }
}

/// Takes the rows of a collection, and leaves the empty set in their place.
pub(crate) fn take_rows<'a>(alloc: Global, held: &mut Vec<Rows<'a>>, number: usize) -> Rows<'a>
    requires { number < length held.old.items }
    ensures taken { rows_in result ≡ set_at (sets_in held.old.items) number }
    ensures left { sets_in held.new.items ≡ slice_set (sets_in held.old.items) number [] }
{
    mem::replace(&mut held[number], Rows::Own(RecordSet::new(alloc)))
}
