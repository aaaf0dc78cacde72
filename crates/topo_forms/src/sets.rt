//! Sets of numbers below 64, one bit for each.
ghost use Rattle.std.specs.Prelude.{◌≡◌, [], slice_index_or};

use blz_value::Items;

/// The set in a row and a column, the empty one past their ends.
pub(crate) fn set_at(rows: &[Items<u64>], row: usize, column: usize) -> u64
    ensures { result ≡ slice_index_or (slice_index_or rows.now row []) column 0 }
{
    match rows.get(row) {
        Some(sets) => match sets.as_slice().get(column) {
            Some(set) => *set,
            None => 0,
        },
        None => 0,
    }
}
