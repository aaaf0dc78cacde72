//! The values on a side of a dependency, compared and hashed where they stand.
ghost use Rattle.std.specs.Prelude.{◌≡◌, slice_index_or};
ghost use Rattle.std.proofs.Common.{ap};
ghost use Rattle.std.proofs.lemmas.Map.Views.{tells_apart};
ghost use Rattle.std.specs.Cmp.{on_equiv, on_per, partial_equiv_from_equiv, eq_by_cmp_equiv};
ghost use Rattle.std.specs.List.{fold};
ghost use Rattle.std.specs.Ordering.{eq_by_cmp};
ghost use Rattle.blz_value.specs.Hash.{record_writes, row_hash, row_writes, value_writes};
ghost use Rattle.blz_value.specs.RecordOrder.{record_cmp_total, record_cmp_exact};
ghost use Rattle.blz_value.specs.Test.{cell};
ghost use Rattle.blz_value.specs.Value.{value_cmp};
ghost use Rattle.data_read.specs.Broken.{same};
ghost use Rattle.data_read.specs.Code.Earliest.{values_of};

use blz_value::{HashKey, Record, Value};
use indexmap::IndexSet;
use std::hash::{DefaultHasher, Hash, Hasher};

/// Sides by number. Strangers may have written the file, so they are hashed under a key that these can't
/// choose.
pub(crate) type SideSet<'a> = IndexSet<Side<'a>, HashKey>;

/// The values of a record at some places, where they stand; past its end stands the number 0.
#[derive(Drop)]
pub(crate) struct Side<'a> {
    pub(crate) row: &'a Record,
    pub(crate) places: &'a [usize],
}

fn cell_or<'a>(row: &'a Record, place: usize, none: &'a Value) -> &'a Value
    ensures { result.now ≡ slice_index_or row.now place none.now }
{
    match row.values().get(place) {
        Some(value) => value,
        None => none,
    }
}

fn same_cell(one: &Record, place: usize, other: &Record, other_place: usize) -> bool
    ensures { result ≡ eq_by_cmp value_cmp (cell one.now place) (cell other.now other_place) }
{
    let none = Value::Int(0);
    *cell_or(one, place, &none) == *cell_or(other, other_place, &none)
}

fn are_same<'a>(one: &Side<'a>, other: &Side<'a>) -> bool
    ensures { result ≡ same (values_of one.now) (values_of other.now) }
{
    if one.places.len() != other.places.len() {
        return false;
    }
    for (k, place) in one.places.iter().enumerate() {
        if !same_cell(one.row, *place, other.row, other.places[k]) {
            return false;
        }
    }
    true
}

impl<'a> PartialEq for Side<'a> {
    ghost eq = { λ x y. same (values_of x) (values_of y) };

    ghost laws = { on_per values_of (partial_equiv_from_equiv (eq_by_cmp_equiv record_cmp_total)) };

    fn eq(&self, other: &Side<'a>) -> bool {
        are_same(self, other)
    }
}

impl<'a> Eq for Side<'a> {
    ghost laws = { on_equiv values_of (eq_by_cmp_equiv record_cmp_total) };
}

fn feed_cell<H: Hasher>(row: &Record, place: usize, state: &mut H)
    ensures { state.new ≡ fold H.write state.old (value_writes (cell row.now place)) }
{
    let none = Value::Int(0);
    cell_or(row, place, &none).hash(state);
}

#[tactic(auto, using(crate::proofs::SidesLemmas::fed_more))]
fn feed<'a, H: Hasher>(side: &Side<'a>, state: &mut H)
    ensures { state.new ≡ fold H.write state.old (record_writes (values_of side.now)) }
{
    for place in side.places {
        feed_cell(side.row, *place, state);
    }
}

// The hash of a record with the values of a side.
fn hash_of<'a>(side: &Side<'a>) -> u64
    ensures { result ≡ row_hash (values_of side.now) }
{
    let mut state = DefaultHasher::new();
    feed(side, &mut state);
    state.finish()
}

// A table is fed what a record with these values would feed it.
impl<'a> Hash for Side<'a> {
    ghost hash_input = { λ side. row_writes (values_of side) };

    ghost respects_eq = { λ x y alike. ap row_writes (tells_apart record_cmp_exact (values_of x) (values_of y) alike) };

    fn hash<H: Hasher>(&self, state: &mut H) {
        state.write_u64(hash_of(self));
    }
}
