//! Where a row is in sorted rows, or would go.
ghost use Rattle.std.specs.Prelude.{◌≡◌, ◌≤◌, ◌∷◌, length, is_ok, IfErr};
ghost use Rattle.std.specs.List.{insert};
ghost use Rattle.blz_value.specs.Sets.{set_of, IsRowSet};
ghost use Rattle.blz_set.specs.Missing.{has_row};

use blz_value::{Record, compare};

/// The place of a row in sorted rows, or the place where it would go: at once where that is the end, as
/// for rows that come in record order.
pub(crate) fn place(rows: &[Record], row: &Record) -> Result<usize, usize>
    requires { IsRowSet rows.now }
    ensures test { is_ok result ≡ has_row rows.now row.now }
    ensures within { IfErr result (λ at. at ≤ length rows.now) }
    ensures gap { IfErr result (λ at. insert rows.now at row.now ≡ set_of (row.now ∷ rows.now)) }
{
    match rows.last() {
        Some(last) if compare(last, row).is_lt() => Err(rows.len()),
        _ => rows.binary_search(row),
    }
}
