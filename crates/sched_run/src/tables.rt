//! Where a work may close and open others: an instance hears on lanes, what it sends comes in on others,
//! and at a port of a log lanes meet, behind which takers stand.
ghost use Rattle.std.specs.Prelude.{◌≡◌, ◌<◌, ◌+◌, ◌*◌, ◌^◌, [], IfOk, length, replicate};
ghost use Rattle.std.specs.List.{All};
ghost use Rattle.sched_net.specs.Net.{BooksRun};
ghost use Rattle.sched_run.specs.Made.{lane_feed};
ghost use Rattle.sched_run.specs.Code.Looking.{IsLane, IsTaker};
ghost use Rattle.sched_run.specs.Code.Watch.{closing_places, opening_places, port_place, AreHeard, AreReaders, AreLogs, AreTablesOf, AreTakers, HaveCounts};
ghost use Rattle.sched_run.specs.Code.Works.{AreWorksOf, HasNames};

use crate::groups::Groups;
use crate::lanes::{Lane, Taker};
use crate::works::{Work, Works};
use inbox::Feed;
use sched_net::Books;
use std::alloc::{AllocError, Global};
use topo_forms::Valid;

// The most ports that a component has.
const MAX_PORTS: usize = 8;

/// Places of lanes and takers among all: for each instance, by its place, the lanes on which it hears, by
/// their streams, and those on which what it sends comes in; for each component the lanes of its log, by
/// their ports, and its takers.
#[derive(Drop)]
pub(crate) struct Tables {
    heard: Vec<Groups>,
    readers: Groups,
    logs: Groups,
    takers: Groups,
}

impl Lane {
    // The feed on which its messages come in.
    fn feed(&self) -> &Feed
        ensures { result.now ≡ lane_feed self.now }
    {
        match self {
            Lane::Deliver { feed, .. } | Lane::Order { feed, .. } => feed,
        }
    }
}

// For each instance, and for each stream, no place yet.
fn unheard(alloc: Global, instances: usize, streams: usize) -> Result<Vec<Groups>, AllocError>
    ensures { IfOk result (λ heard. heard.items ≡ replicate instances (replicate streams [])) }
{
    let mut heard = Vec::new(alloc);
    for _ in 0..instances {
        heard.push(Groups::new(alloc, streams)?)?;
    }
    Ok(heard)
}

// For each instance the places of the lanes on which it hears, by their streams.
fn heard_of(
    alloc: Global,
    valid: &Valid,
    books: &Books,
    lanes: &[Lane],
) -> Result<Vec<Groups>, AllocError>
    requires runs { BooksRun valid.now.view books.now }
    requires lanes { All (IsLane valid.now.view) lanes.now }
    ensures { IfOk result (λ heard. AreHeard valid.now.view lanes.now heard.items) }
{
    valid.known();
    let streams = valid.stream_count() as usize;
    let mut heard = unheard(alloc, books.seats.len(), streams)?;
    for (place, lane) in lanes.iter().enumerate() {
        if let Lane::Deliver {
            component,
            replica,
            feed,
            ..
        } = lane
        {
            let instance = books.places.instance(valid, *component, *replica);
            heard[instance].add(feed.stream as usize, place)?;
        }
    }
    Ok(heard)
}

// For each instance the places of the lanes on which its messages come in.
fn readers_of(
    alloc: Global,
    valid: &Valid,
    books: &Books,
    lanes: &[Lane],
) -> Result<Groups, AllocError>
    requires runs { BooksRun valid.now.view books.now }
    requires lanes { All (IsLane valid.now.view) lanes.now }
    ensures { IfOk result (AreReaders valid.now.view lanes.now) }
{
    valid.known();
    let mut readers = Groups::new(alloc, books.seats.len())?;
    for (place, lane) in lanes.iter().enumerate() {
        let feed = *lane.feed();
        if let Some((component, _)) = valid.origin(feed.stream) {
            let number = books.places.instance(valid, component, feed.sender);
            readers.add(number, place)?;
        }
    }
    Ok(readers)
}

// The number of a port of a component among all.
fn port_place(component: u32, port: u32) -> usize
    ensures { result ≡ port_place component port }
{
    component as usize * MAX_PORTS + port as usize
}

// For each component, and for each of its ports, the places of the lanes of its log.
fn logs_of(alloc: Global, valid: &Valid, lanes: &[Lane]) -> Result<Groups, AllocError>
    requires { All (IsLane valid.now.view) lanes.now }
    ensures { IfOk result (AreLogs valid.now.view lanes.now) }
{
    valid.bounded();
    let mut logs = Groups::new(alloc, valid.component_count() as usize * MAX_PORTS)?;
    for (place, lane) in lanes.iter().enumerate() {
        if let Lane::Order { component, feed } = lane {
            logs.add(port_place(*component, feed.port), place)?;
        }
    }
    Ok(logs)
}

// For each component the places of its takers, which stand behind so many lanes.
fn takers_of(
    alloc: Global,
    valid: &Valid,
    before: usize,
    all: &[Taker],
) -> Result<Groups, AllocError>
    requires takers { All (IsTaker valid.now.view) all.now }
    requires few { before + length all.now < 2 ^ 32 }
    ensures { IfOk result (AreTakers valid.now.view before all.now) }
{
    let mut takers = Groups::new(alloc, valid.component_count() as usize)?;
    for (number, taker) in all.iter().enumerate() {
        takers.add(taker.component as usize, before + number)?;
    }
    Ok(takers)
}

impl Tables {
    /// The tables of works. The error is want of memory.
    pub(crate) fn of(
        alloc: Global,
        valid: &Valid,
        books: &Books,
        works: &Works,
    ) -> Result<Tables, AllocError>
        requires runs { BooksRun valid.now.view books.now }
        requires works { AreWorksOf valid.now.view works.now }
        ensures { IfOk result (AreTablesOf valid.now.view works.now) }
    {
        valid.known();
        let lanes = works.lanes.as_slice();
        Ok(Tables {
            heard: heard_of(alloc, valid, books, lanes)?,
            readers: readers_of(alloc, valid, books, lanes)?,
            logs: logs_of(alloc, valid, lanes)?,
            takers: takers_of(alloc, valid, lanes.len(), works.takers.as_slice())?,
        })
    }

    /// The places where a work may close others.
    pub(crate) fn closing(&self, valid: &Valid, books: &Books, work: &Work) -> &[usize]
        requires runs { BooksRun valid.now.view books.now }
        requires names { HasNames valid.now.view work.now }
        requires counts { HaveCounts valid.now.view self.now }
        ensures { result.now ≡ closing_places valid.now.view self.now work.now }
    {
        valid.known();
        valid.bounded();
        match work {
            Work::Message(lane, _) => match lane {
                Lane::Deliver {
                    component,
                    replica,
                    feed,
                    ..
                } => {
                    let instance = books.places.instance(valid, *component, *replica);
                    self.heard[instance].list(feed.stream as usize)
                }
                Lane::Order { component, feed } => {
                    self.logs.list(port_place(*component, feed.port))
                }
            },
            Work::Take(taker) => self.takers.list(taker.component as usize),
        }
    }

    /// The places where a work may open others.
    pub(crate) fn opening(&self, valid: &Valid, books: &Books, work: &Work) -> &[usize]
        requires runs { BooksRun valid.now.view books.now }
        requires names { HasNames valid.now.view work.now }
        requires counts { HaveCounts valid.now.view self.now }
        ensures { result.now ≡ opening_places valid.now.view self.now work.now }
    {
        match work {
            Work::Message(lane, _) => match lane {
                Lane::Deliver {
                    component,
                    replica,
                    ..
                } => self
                    .readers
                    .list(books.places.instance(valid, *component, *replica)),
                Lane::Order { component, .. } => self.takers.list(*component as usize),
            },
            Work::Take(taker) => {
                let instance = books.places.instance(valid, taker.component, taker.replica);
                self.readers.list(instance)
            }
        }
    }
}
