//! Laws of the record order and of sets, each the contract of a function that does nothing.
ghost use Rattle.std.specs.Prelude.{◌≡◌, List};
ghost use Rattle.std.specs.Cmp.{IsTotalOrder};
ghost use Rattle.std.specs.FinMap.{IsAntisymmetric};
ghost use Rattle.blz_value.specs.Members.{HaveEqualMembers};
ghost use Rattle.blz_value.specs.Record.{Row, record_cmp};
ghost use Rattle.blz_value.specs.Sets.{IsRowSet, set_of};

/// The record order is total, and only equal records tie.
pub fn record_order_law()
    ensures total { IsTotalOrder record_cmp }
    ensures exact { IsAntisymmetric record_cmp }
{}

/// The set of a list is the one sorted list without repeats that has the list's members.
pub fn set_law()
    ensures sorted { (rows : List Row) → IsRowSet (set_of rows) }
    ensures members { (rows : List Row) → HaveEqualMembers (set_of rows) rows }
    ensures one { (xs ys : List Row) → IsRowSet xs → IsRowSet ys → HaveEqualMembers xs ys → xs ≡ ys }
{}
