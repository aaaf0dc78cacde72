//! What the sending replicas of all streams emitted, kept apart from the net that it is read of.
ghost use Rattle.std.specs.Prelude.{◌≡◌, ◌<◌, ◌^◌, IfOk, length};
ghost use Rattle.sched_net.specs.Net.{BooksRun};
ghost use Rattle.sched_net.specs.Reading.{IsRead};
ghost use Rattle.witness_check.specs.Difference as spec;

use blz_set::RecordSet;
use blz_value::Items;
use sched_net::Net;
use std::alloc::{AllocError, Global};
use std::marker::Model;
use topo_forms::Valid;

/// The contents of each sending replica of one stream, in order.
#[derive(Drop)]
pub(crate) struct StreamContents {
    replicas: Items<RecordSet>,
}

impl Model for StreamContents {
    ghost use Rattle.std.specs.Prelude.{◌<◌, ◌^◌, List, length};
    ghost use Rattle.blz_value.specs.Record.{Row};

    ghost Value = { List (List Row) };

    ghost view = { λ c. c.replicas };

    ghost invariant = { λ c. length c.replicas < 2 ^ 32 };
}

impl StreamContents {
    pub(crate) fn as_slice(&self) -> &[RecordSet]
        ensures all { result.now ≡ self.now }
        ensures few { length self.now < 2 ^ 32 }
    {
        self.replicas.as_slice()
    }
}

/// The contents of each sending replica of each stream, in order.
#[derive(Drop)]
pub struct Snapshot {
    streams: Items<StreamContents>,
}

impl Model for Snapshot {
    ghost use Rattle.std.specs.Prelude.{◌<◌, ◌^◌, List, length};
    ghost use Rattle.blz_value.specs.Record.{Row};

    ghost Value = { List (List (List Row)) };

    ghost view = { λ s. s.streams };

    ghost invariant = { λ s. length s.streams < 2 ^ 32 };
}

impl Snapshot {
    pub(crate) fn as_slice(&self) -> &[StreamContents]
        ensures all { result.now ≡ self.now }
        ensures few { length self.now < 2 ^ 32 }
    {
        self.streams.as_slice()
    }
}

// The contents of each sending replica of a stream.
fn stream_contents(
    alloc: Global,
    valid: &Valid,
    net: &Net<'_>,
    stream: u32,
) -> Result<StreamContents, AllocError>
    requires runs { BooksRun valid.now.view net.now.books }
    requires same { net.now.valid.now.view ≡ valid.now.view }
    requires within { stream < length valid.now.view.streams }
    ensures { IfOk result (IsRead valid.now.view net.now.books (λ given x. spec.stream_contents valid.now.view given x stream)) }
{
    let mut replicas = Vec::new(alloc);
    for replica in 0..valid.stream_replicas(stream) {
        replicas.push(net.contents(stream, replica)?)?;
    }
    Ok(StreamContents {
        replicas: Items::from_vec(replicas),
    })
}

/// What the sending replicas of all streams emitted so far, read of a net of this topology that isn't
/// ended. It takes a copy of each record. The error is want of memory.
pub fn take(alloc: Global, valid: &Valid, net: &Net<'_>) -> Result<Snapshot, AllocError>
    requires runs { BooksRun valid.now.view net.now.books }
    requires same { net.now.valid.now.view ≡ valid.now.view }
    ensures contents { IfOk result (IsRead valid.now.view net.now.books (spec.snapshot valid.now.view)) }
    ensures places { IfOk result (spec.HasPlaces valid.now.view) }
{
    let mut streams = Vec::new(alloc);
    for stream in 0..valid.stream_count() {
        streams.push(stream_contents(alloc, valid, net, stream)?)?;
    }
    Ok(Snapshot {
        streams: Items::from_vec(streams),
    })
}
