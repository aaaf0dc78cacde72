//! Which records of a pool stand in some lists, where they were placed in the order in which they stand there; and
//! how the lists behind them are emptied.
ghost use Rattle.std.specs.Prelude.{◌≡◌, ◌<◌, ◌≤◌, ◌^◌, [], None, length, slice_set, IfSome};
ghost use Rattle.messages.specs.Lists.{total};
ghost use Rattle.messages.specs.Code.Placing.{known_behind, GoesOn, HaveFirst, AreEmptiedFrom};

use crate::counts::Tally;
use crate::emitted::Emitted;
use blz_pool::Id;

// How many records are known behind a message, None of a seal, where so many were before. None where its
// record is a later one.
fn known_behind(row: Option<Id>, before: usize) -> Option<usize>
    ensures { result ≡ known_behind row before }
{
    let Some(id) = row else {
        return Some(before);
    };
    let number = id.number() as usize;
    if number < before {
        Some(before)
    } else if number == before {
        Some(number + 1)
    } else {
        None
    }
}

// The same behind a list.
fn known_after(list: &Emitted, before: usize) -> Option<usize>
    ensures { IfSome result (GoesOn before list.now) }
{
    let mut known = before;
    for index in 0..list.len() {
        known = known_behind(list.row(index), known)?;
    }
    Some(known)
}

/// How many records some lists have, where these are the first of the pool, and were placed in the order in
/// which they stand there.
pub(crate) fn records_in(lists: &[Emitted]) -> Option<usize>
    ensures { IfSome result (HaveFirst lists.now) }
{
    let mut known = 0;
    for list in lists {
        known = known_after(list, known)?;
    }
    Some(known)
}

// Empties the list at a place, which has no tally from then on.
fn empty_at(
    lists: &mut Vec<Emitted>,
    tallies: &mut Vec<Option<Tally>>,
    count: &mut usize,
    place: usize,
)
    requires place { place < length lists.old.items }
    requires many { length tallies.old.items ≡ length lists.old.items }
    requires count { count.old ≡ total lists.old.items }
    ensures lists { lists.new.items ≡ slice_set lists.old.items place [] }
    ensures tallies { tallies.new.items ≡ slice_set tallies.old.items place None }
    ensures count { count.new ≡ total lists.new.items }
    ensures fewer { count.new ≤ count.old }
{
    *count -= lists[place].len();
    lists[place].clear();
    tallies[place] = None;
}

/// Empties all lists but the first so many, of which none has a tally from then on, and counts the messages that
/// are left.
pub(crate) fn empty_from(
    lists: &mut Vec<Emitted>,
    tallies: &mut Vec<Option<Tally>>,
    count: &mut usize,
    first: usize,
)
    requires many { length tallies.old.items ≡ length lists.old.items }
    requires count { count.old ≡ total lists.old.items }
    ensures emptied { AreEmptiedFrom first lists.old.items lists.new.items tallies.old.items tallies.new.items }
    ensures count { count.new ≡ total lists.new.items }
    ensures fewer { count.new ≤ count.old }
{
    for place in first..lists.len() {
        empty_at(lists, tallies, count, place);
    }
}
