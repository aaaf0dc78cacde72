//! What a part gets and what it loses in a step.
ghost use Rattle.std.specs.Prelude.{◌≡◌, ◌∷◌, [], IfSome};
ghost use Rattle.blz_set.specs.Answers.{Gives};
ghost use Rattle.blz_set.specs.Missing.{missing_from};
ghost use Rattle.blz_set.specs.RecordSet.{IsRecordSet};
ghost use Rattle.bloom_growth.specs.Turned.{TurnsInto};

use blz_set::{RecordSet, SetFault};
use blz_value::Record;
use std::alloc::Global;

/// The rows that a part gets in a step, and those that it loses.
#[derive(Drop)]
pub struct Turn {
    /// The rows of after that weren't there before.
    pub more: RecordSet,
    /// The rows of before that aren't there after.
    pub gone: RecordSet,
}

/// What a part gets and loses, which is lent.
#[derive(Clone, Copy)]
pub struct Turning<'a> {
    /// The rows of after that weren't there before.
    pub more: &'a RecordSet,
    /// The rows of before that aren't there after.
    pub gone: &'a RecordSet,
}

/// The row of a turn that is one row more.
pub(crate) fn only_row<'a>(part: Turning<'a>) -> Option<&'a Record>
    ensures more { IfSome result (λ row. part.entry.more.now ≡ row.now ∷ []) }
    ensures gone { IfSome result (λ row. part.entry.gone.now ≡ []) }
{
    match (part.gone.rows(), part.more.rows()) {
        ([], [row]) => Some(row),
        _ => None,
    }
}

/// The set of one row.
pub(crate) fn one_row(alloc: Global, row: Record) -> Result<RecordSet, SetFault>
    ensures { Gives (row ∷ []) result }
{
    let mut set = RecordSet::new(alloc);
    let _ = set.insert(row)?;
    Ok(set)
}

/// What changes where one row becomes another.
pub(crate) fn exchange(alloc: Global, old: Record, new: Record) -> Result<Turn, SetFault>
    ensures { TurnsInto (old ∷ []) (new ∷ []) result }
{
    if old == new {
        return Ok(Turn {
            more: RecordSet::new(alloc),
            gone: RecordSet::new(alloc),
        });
    }
    let more = one_row(alloc, new)?;
    let gone = one_row(alloc, old)?;
    Ok(Turn { more, gone })
}

/// The rows of a set that another lacks.
pub fn less(alloc: Global, rows: &RecordSet, other: &RecordSet) -> Result<RecordSet, SetFault>
    ensures missing { Gives (missing_from other.now rows.now) result }
    ensures set { IsRecordSet rows.now }
{
    let mut left = Vec::new(alloc);
    for row in rows.rows() {
        if !other.contains(row) {
            left.push(row.copy()?)?;
        }
    }
    RecordSet::from_rows(left)
}

/// What changes from the rows of before to those of after.
pub fn differ(alloc: Global, before: &RecordSet, after: &RecordSet) -> Result<Turn, SetFault>
    ensures { TurnsInto before.now after.now result }
{
    let more = less(alloc, after, before)?;
    let gone = less(alloc, before, after)?;
    Ok(Turn { more, gone })
}
