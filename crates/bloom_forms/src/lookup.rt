//! What a module says of a name.
ghost use Rattle.std.specs.Prelude.{◌≡◌, ◌≤◌, ◌<◌, length, IfSome};
ghost use Rattle.std.specs.List.{position_from};
ghost use Rattle.std.specs.Option.{option_map};
ghost use Rattle.bloom_forms.specs.Lookup as spec;

use crate::module::Collection;
use blz_value::Str;

/// The first collection of this name.
pub fn collection_named<'a>(collections: &'a [Collection], name: &Str) -> Option<&'a Collection>
    ensures { option_map (λ c. c.now) result ≡ spec.collection_named collections.now name.now }
{
    collections.iter().find(|c| c.name.equals(name))
}

fn place_of(collections: &[Collection], name: &Str) -> Option<usize>
    ensures place { result ≡ position_from (spec.is_named name.now) 0 collections.now }
    ensures within { IfSome result (λ place. place < length collections.now) }
{
    collections.iter().position(|c| c.name.equals(name))
}

/// The number of the first collection of this name; where there is none, how many there are.
pub fn collection_number(collections: &[Collection], name: &Str) -> usize
    ensures number { result ≡ spec.collection_number collections.now name.now }
    ensures within { result ≤ length collections.now }
{
    place_of(collections, name).unwrap_or(collections.len())
}

/// The columns of the first collection of this name.
pub fn declared<'a>(collections: &'a [Collection], name: &Str) -> &'a [Str]
    ensures { result.now ≡ spec.declared collections.now name.now }
{
    match collection_named(collections, name) {
        Some(c) => c.columns.as_slice(),
        None => &[],
    }
}
