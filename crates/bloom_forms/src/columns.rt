//! The columns of a part of an expression, as borrowed names.
ghost use Rattle.std.specs.Prelude.{◌≡◌, ◌≤◌, ◌<◌, map, length, IfOk, IfSome};
ghost use Rattle.blz_value.specs.Names as places;
ghost use Rattle.bloom_forms.specs.Borrowed.{names_in};
ghost use Rattle.bloom_forms.specs.Code.Paired.{is_in_pair};
ghost use Rattle.bloom_forms.specs.Columns as spec;

use blz_value::Str;
use std::alloc::{AllocError, Global};

/// References to names.
pub fn borrowed<'a>(alloc: Global, names: &'a [Str]) -> Result<Vec<&'a Str>, AllocError>
    ensures { IfOk result (λ refs. names_in refs.items ≡ names.now) }
{
    let mut refs = Vec::new(alloc);
    for name in names {
        refs.push(name)?;
    }
    Ok(refs)
}

/// The second names.
pub fn seconds<'a>(alloc: Global, pairs: &'a [(Str, Str)]) -> Result<Vec<&'a Str>, AllocError>
    ensures { IfOk result (λ refs. names_in refs.items ≡ map (λ pair. pair.1) pairs.now) }
{
    let mut refs = Vec::new(alloc);
    for pair in pairs {
        refs.push(&pair.1)?;
    }
    Ok(refs)
}

fn place_of(names: &[&Str], name: &Str) -> Option<usize>
    ensures place { result ≡ places.place_of (names_in names.now) name.now }
    ensures within { IfSome result (λ place. place < length names.now) }
{
    for (place, held) in names.iter().enumerate() {
        if held.equals(name) {
            return Some(place);
        }
    }
    None
}

/// The number of the first column of this name; where there is none, how many columns there are.
pub(crate) fn column_number(names: &[&Str], name: &Str) -> usize
    ensures number { result ≡ spec.column_number (names_in names.now) name.now }
    ensures within { result ≤ length names.now }
{
    place_of(names, name).unwrap_or(names.len())
}

// Whether the right column with this number stands in a pair.
fn is_paired(right: &[&Str], pairs: &[(Str, Str)], number: usize) -> bool
    ensures { result ≡ is_in_pair (names_in right.now) pairs.now number }
{
    pairs
        .iter()
        .any(|(_, second)| column_number(right, second) == number)
}

/// The left columns, followed by the right ones that stand in no pair.
pub fn joined<'a>(
    left: Vec<&'a Str>,
    right: &[&'a Str],
    pairs: &[(Str, Str)],
) -> Result<Vec<&'a Str>, AllocError>
    ensures { IfOk result (λ refs. names_in refs.items ≡ spec.joined_columns (names_in left.entry.items) (names_in right.now) pairs.now) }
{
    let mut refs = left;
    for (number, name) in right.iter().enumerate() {
        if !is_paired(right, pairs, number) {
            refs.push(*name)?;
        }
    }
    Ok(refs)
}
