//! Data: what each source holds.
ghost use Rattle.std.specs.Prelude.{◌≡◌, ◌<◌, IfOk, length};
ghost use Rattle.topo_forms.specs.DataCounts.{AreFew};
ghost use Rattle.topo_forms.specs.Data.{AreDistinct, source_data};
ghost use Rattle.topo_forms.specs.HashKeys.{hash_key_of};

use crate::source_lists::{SourceLists, hash_key};
use blz_value::{HashKey, Record, copies_of};
use std::alloc::AllocError;
use std::marker::Model;

/// What the sources of a topology hold: of each the records and the declared partitions, each of these
/// once, where it first stood. They are at most 65,536 together.
#[derive(Drop)]
pub struct Data {
    sources: Vec<SourceLists>,
}

impl Model for Data {
    ghost use Rattle.std.specs.Prelude.{List};
    ghost use Rattle.topo_forms.specs.Data.{AreDistinct, SourceData};
    ghost use Rattle.topo_forms.specs.DataCounts.{AreFew};

    ghost Value = { List SourceData };

    ghost view = { λ d. d.sources.items };

    ghost invariant = { λ d. AreFew d.sources.items × AreDistinct d.sources.items };
}

impl Data {
    /// The data of these sources, of which each has its records and its partitions once.
    pub fn new(sources: Vec<SourceLists>) -> Data
        requires few { AreFew sources.items }
        requires distinct { AreDistinct sources.items }
        ensures { result ≡ sources.items }
    {
        Data { sources }
    }

    /// How many records and partitions all sources together hold at most, and that each holds its own
    /// once; the call does nothing.
    pub fn known(&self)
        ensures few { AreFew self.now }
        ensures distinct { AreDistinct self.now }
    {
        let _ = &self.sources;
    }

    /// The records of a source, each once, in file order.
    pub fn rows(&self, source: u32) -> &[Record]
        requires { source < length self.now }
        ensures { result.now ≡ (source_data self.now source).rows }
    {
        self.sources[source as usize].rows.as_slice()
    }

    /// The declared partitions of a source, each once, in file order.
    pub fn parts(&self, source: u32) -> &[Record]
        requires { source < length self.now }
        ensures { result.now ≡ (source_data self.now source).parts }
    {
        self.sources[source as usize].parts.as_slice()
    }

    /// The key under which tables of these data hash: it comes from all records and partitions.
    pub fn hash_key(&self) -> HashKey
        ensures { result ≡ hash_key_of self.now }
    {
        hash_key(&self.sources)
    }

    /// The lists of the sources, in their order, to be taken over.
    pub fn into_sources(self) -> Vec<SourceLists>
        ensures lists { result.items ≡ self }
        ensures few { AreFew self }
        ensures distinct { AreDistinct self }
    {
        self.sources
    }

    /// Equal data of their own. Takes the time and the memory of all records.
    pub fn copy(&self) -> Result<Data, AllocError>
        ensures { IfOk result (λ same. same ≡ self.now) }
    {
        let sources = copies_of(*self.sources.allocator(), &self.sources)?;
        Ok(Data { sources })
    }
}
