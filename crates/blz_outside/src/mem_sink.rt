//! A sink in memory that keeps a limited number of bytes.
ghost use Rattle.std.specs.Prelude.{◌≡◌, ◌<◌, ◌≤◌, ◌↔◌, ◌++◌, [], Some, take, length, IsErr, IfOk, OnOk, OnErr};
ghost use Rattle.blz_outside.specs.Counts.{raised_count};
ghost use Rattle.blz_outside.specs.MemSink.{room_of};

use crate::counts::raise;
use crate::sink::{Failed, Sink};
use std::alloc::{AllocError, Global};
use std::marker::Model;

/// A sink in memory.
#[derive(Drop)]
pub struct MemSink {
    bytes: Vec<u8>,
    most: usize,
    faults: u64,
}

impl Model for MemSink {
    ghost use Rattle.std.specs.Prelude.{◌≤◌, vec_len, vec_capacity};
    ghost use Rattle.blz_outside.specs.MemSink.{MemSinkView};

    ghost Value = { MemSinkView };

    ghost view = { λ sink. record {
      bytes = sink.bytes.items;
      most = sink.most;
      faults = sink.faults;
    } };

    ghost invariant = { λ sink.
        (vec_len sink.bytes ≤ sink.most) × (sink.most ≤ vec_capacity sink.bytes) };
}

impl MemSink {
    /// An empty sink that keeps at most `most` bytes. It takes the memory for all of them at once.
    pub fn new(alloc: Global, most: usize) -> Result<MemSink, AllocError>
        ensures { IfOk result (λ sink. sink ≡ record { bytes = []; most = most; faults = 0 }) }
    {
        let bytes = Vec::with_capacity(alloc, most)?;
        Ok(MemSink {
            bytes,
            most,
            faults: 0,
        })
    }

    /// The bytes kept, in the order in which they were put.
    pub fn bytes(&self) -> &[u8]
        ensures bytes { result.now ≡ self.now.bytes }
        ensures within { length result.now ≤ self.now.most }
    {
        &self.bytes
    }
}

impl Sink for MemSink {
    ghost written = { λ sink. Some sink.bytes };

    ghost room = { λ sink. Some (room_of sink) };

    ghost faults = { λ sink. sink.faults };

    fn put(&mut self, piece: &[u8]) -> Result<(), Failed>
        // As many of the piece's first bytes are kept as fit, and the limit stays.
        ensures kept { self.new.bytes ≡ self.old.bytes ++ take (room_of self.old) piece.now }
        ensures within { length self.new.bytes ≤ self.new.most }
        ensures most { self.new.most ≡ self.old.most }

        // The call fails exactly where not all of them fit.
        ensures fails { IsErr result ↔ (room_of self.old < length piece.now) }

        // `Failed` is one fault more, and `Ok` leaves the count.
        ensures never_falls { self.old.faults ≤ self.new.faults }
        ensures failed_counted { OnErr result (self.new.faults ≡ raised_count self.old.faults) }
        ensures ok_keeps { OnOk result (self.new.faults ≡ self.old.faults) }
    {
        let space = self.most - self.bytes.len();
        let (front, rest) = piece.split_at(piece.len().min(space));
        self.bytes.extend_from_slice(front).unwrap();
        if !rest.is_empty() {
            self.faults = raise(self.faults);
            return Err(Failed);
        }
        Ok(())
    }
}
