//! The kinds of collections, by their names.
ghost use Rattle.std.specs.Prelude.{◌≡◌};
ghost use Rattle.std.specs.List.{list_any};
ghost use Rattle.bloom_forms.specs.Kinds as spec;
ghost use Rattle.bloom_forms.specs.Lookup.{is_named, kind_of as kind_named};

use bloom_forms::{Collection, Kind, collection_named};
use blz_value::Str;

// The kind of the first collection of this name.
fn kind_of(collections: &[Collection], name: &Str) -> Option<Kind>
    ensures { result ≡ kind_named collections.now name.now }
{
    match collection_named(collections, name) {
        Some(c) => Some(c.kind),
        None => None,
    }
}

/// Whether one of the collections has this name.
pub(crate) fn has_collection(collections: &[Collection], name: &Str) -> bool
    ensures { result ≡ list_any (is_named name.now) collections.now }
{
    collections.iter().any(|c| c.name.equals(name))
}

/// Whether the name is an output, a table or a scratch.
pub(crate) fn is_head(collections: &[Collection], name: &Str) -> bool
    ensures { result ≡ spec.has_kind spec.is_head collections.now name.now }
{
    match kind_of(collections, name) {
        Some(Kind::Output | Kind::Table | Kind::Scratch) => true,
        Some(Kind::Input) | None => false,
    }
}

/// Whether the name is an input, a table or a scratch.
pub(crate) fn is_readable(collections: &[Collection], name: &Str) -> bool
    ensures { result ≡ spec.has_kind spec.is_readable collections.now name.now }
{
    match kind_of(collections, name) {
        Some(Kind::Input | Kind::Table | Kind::Scratch) => true,
        Some(Kind::Output) | None => false,
    }
}

/// Whether the name is a scratch.
pub(crate) fn is_scratch(collections: &[Collection], name: &Str) -> bool
    ensures { result ≡ spec.has_kind spec.is_scratch collections.now name.now }
{
    matches!(kind_of(collections, name), Some(Kind::Scratch))
}
