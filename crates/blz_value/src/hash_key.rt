//! The key under which tables hash.
ghost use Rattle.std.specs.Prelude.{◌≡◌};
ghost use Rattle.blz_value.specs.HashKey.{first_key, key_with};

use crate::record::Record;
use std::hash::{BuildHasher, DefaultHasher, FoldHasher, Hash, Hasher};

/// The key under which a table hashes: with it a table mixes the 8 bytes that a record writes. It is a
/// digest of records, so who writes them can't choose such as fall together in a table.
#[derive(Clone, Copy)]
pub struct HashKey {
    hasher: FoldHasher,
}

impl HashKey {
    /// The key of no records.
    pub fn new() -> HashKey
        ensures { result ≡ first_key }
    {
        HashKey {
            hasher: FoldHasher::default(),
        }
    }

    /// The key of the records of this one and of more behind them. Reads the hash of each.
    pub fn with(self, rows: &[Record]) -> HashKey
        ensures { result ≡ key_with self rows.now }
    {
        let mut digest = DefaultHasher::new();
        digest.write_u64(self.hasher.finish());
        Record::hash_slice(rows, &mut digest);
        let mut hasher = FoldHasher::default();
        hasher.write_u64(digest.finish());
        HashKey { hasher }
    }
}

impl BuildHasher for HashKey {
    type Hasher = FoldHasher;

    ghost build_hasher = { λ key. key.hasher };

    fn build_hasher(&self) -> FoldHasher {
        self.hasher
    }
}
