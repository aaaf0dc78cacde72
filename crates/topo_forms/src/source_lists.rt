//! The lists of a source.
ghost use Rattle.std.specs.Prelude.{◌≡◌};
ghost use Rattle.topo_forms.specs.HashKeys.{with_held, hash_key_of};

use blz_value::{Faithful, HashKey, Record, copies_of};
use std::alloc::AllocError;
use std::marker::Model;

/// What one source holds: its records and its declared partitions, both in file order.
#[derive(Drop)]
pub struct SourceLists {
    /// The records.
    pub rows: Vec<Record>,
    /// The partitions.
    pub parts: Vec<Record>,
}

impl Model for SourceLists {
    ghost use Rattle.topo_forms.specs.Data.{SourceData};

    ghost Value = { SourceData };

    ghost view = { λ lists. record { rows = lists.rows.items; parts = lists.parts.items } };
}

impl Clone for SourceLists {
    ghost is_clone = { λ one clone. clone ≡ one };

    fn clone(&self) -> Result<SourceLists, AllocError> {
        let alloc = *self.rows.allocator();
        Ok(SourceLists {
            rows: copies_of(alloc, &self.rows)?,
            parts: copies_of(alloc, &self.parts)?,
        })
    }
}

impl Faithful for SourceLists {
    ghost equal = { λ _ _ same. same };
}

// A key with what one source more holds.
fn with_held(key: HashKey, lists: &SourceLists) -> HashKey
    ensures { result ≡ with_held key lists.now }
{
    key.with(&lists.rows).with(&lists.parts)
}

/// The key under which tables of what sources hold hash: it comes from all records and partitions. Reads
/// the hash of each.
pub fn hash_key(sources: &[SourceLists]) -> HashKey
    ensures { result ≡ hash_key_of sources.now }
{
    let mut key = HashKey::new();
    for lists in sources {
        key = with_held(key, lists);
    }
    key
}
