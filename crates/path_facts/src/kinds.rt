//! The collections of a kind, and sets that a test chooses.
ghost use Rattle.std.specs.Prelude.{◌≡◌, if◌then◌else◌};
ghost use Rattle.bloom_forms.specs.Kinds.{same_kind};
ghost use Rattle.blz_value.specs.Arrows as arrows;
ghost use Rattle.bloom_forms.specs.Reads as reads;

use bloom_forms::{Collection, Kind};
use blz_value::Attrs;

/// Whether a collection has a kind.
pub fn has_kind(collection: &Collection, kind: Kind) -> bool
    ensures { result ≡ same_kind kind collection.now.kind }
{
    kind == collection.kind
}

/// The set of this one collection where the test holds, else the empty one.
pub fn set_if(here: bool, number: usize) -> Attrs
    ensures { result.bits ≡ arrows.bit_if here number }
{
    if here {
        Attrs::of(number)
    } else {
        Attrs::from_bits(0)
    }
}

/// These attributes where the test holds, else all.
pub fn gate_if(here: bool, gate: Attrs, all: Attrs) -> Attrs
    ensures { result.bits ≡ (if here then gate.bits else all.bits) }
{
    if here { gate } else { all }
}

/// The set of the collections of a kind.
pub fn kind_set(collections: &[Collection], kind: Kind) -> Attrs
    ensures { result.bits ≡ reads.kind_set (same_kind kind) collections.now }
{
    let mut set = Attrs::from_bits(0);
    for (i, collection) in collections.iter().enumerate() {
        set = set.union(set_if(has_kind(collection, kind), i));
    }
    set
}
