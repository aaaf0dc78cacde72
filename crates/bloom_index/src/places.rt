//! The numbers of collections by their places among those of a kind.
ghost use Rattle.std.specs.Prelude.{◌≡◌, ◌<◌, Some, length};
ghost use Rattle.bloom_forms.specs.Kinds.{kind_at, place_in_kind, of_kind};

use bloom_forms::{Collection, Kind};

/// The number of the collection of a kind that has this place among those of the kind, counted from 0.
pub(crate) fn collection_at(collections: &[Collection], kind: Kind, place: u32) -> usize
    requires { place < length (of_kind kind collections.now) }
    ensures kind { kind_at collections.now result ≡ Some kind }
    ensures place { place_in_kind kind collections.now result ≡ place }
    ensures within { result < length collections.now }
{
    let mut left = place;
    for (i, collection) in collections.iter().enumerate() {
        if collection.kind == kind {
            if left == 0 {
                return i;
            }
            left -= 1;
        }
    }
    unreachable!()
}
