//! Lanes, on which messages come to an instance or to a log, and takers, which take from a log.
ghost use Rattle.std.specs.Prelude.{◌≡◌, ◌<◌, ◌++◌, OnOk, IfOk, length};
ghost use Rattle.std.specs.List.{flat_map};
ghost use Rattle.topo_forms.specs.View.{ends_of, replicas_of};
ghost use Rattle.inbox.specs.Wiring.{wiring_of};
ghost use Rattle.sched_net.specs.Net.{BooksRun};
ghost use Rattle.sched_run.specs.Made.{comes_at, instance_lanes, log_lanes, lanes_at, all_lanes, takers_at, all_takers};

use inbox::Feed;
use sched_net::{Books, is_order};
use std::alloc::{AllocError, Global};
use topo_forms::Valid;

/// Where messages come in, from one sending replica of a stream at one port.
#[derive(Clone, Copy)]
pub(crate) enum Lane {
    /// An instance hears messages of a feed, which has this number.
    Deliver {
        component: u32,
        replica: u32,
        number: u32,
        feed: Feed,
    },
    /// Records of a feed come to the log of an Order component.
    Order {
        component: u32,
        feed: Feed,
    },
}

/// A replica of an Order component, which takes from its log.
#[derive(Clone, Copy)]
pub(crate) struct Taker {
    pub(crate) component: u32,
    pub(crate) replica: u32,
}

// Whether a feed is one from this stream at this port.
fn comes_at(stream: u32, port: u32, feed: &Feed) -> bool
    ensures { result ≡ comes_at stream port feed.now }
{
    feed.stream == stream && feed.port == port
}

// Adds the lanes of an instance from a stream at a port.
fn push_deliveries(
    valid: &Valid,
    books: &Books,
    stream: u32,
    component: u32,
    port: u32,
    replica: u32,
    into: &mut Vec<Lane>,
) -> Result<(), AllocError>
    requires runs { BooksRun valid.now.view books.now }
    requires component { component < length valid.now.view.components }
    requires replica { replica < replicas_of valid.now.view component }
    ensures { OnOk result (into.new.items ≡ into.old.items ++ instance_lanes (wiring_of valid.now.view) stream component port replica) }
{
    valid.known();
    valid.whole();
    let feeds = books.seat_at(valid, component, replica).feeds.as_slice();
    for (number, feed) in feeds.iter().enumerate() {
        if comes_at(stream, port, feed) {
            into.push(Lane::Deliver {
                component,
                replica,
                number: number as u32,
                feed: *feed,
            })?;
        }
    }
    Ok(())
}

// Adds the lanes of the log of a component from a stream at a port.
fn push_orders(
    valid: &Valid,
    books: &Books,
    stream: u32,
    component: u32,
    port: u32,
    into: &mut Vec<Lane>,
) -> Result<(), AllocError>
    requires runs { BooksRun valid.now.view books.now }
    requires component { component < length valid.now.view.components }
    ensures { OnOk result (into.new.items ≡ into.old.items ++ log_lanes (wiring_of valid.now.view) stream component port) }
{
    valid.known();
    let feeds = books.seat_at(valid, component, 0).feeds.as_slice();
    for feed in feeds {
        if comes_at(stream, port, feed) {
            into.push(Lane::Order {
                component,
                feed: *feed,
            })?;
        }
    }
    Ok(())
}

// Adds the lanes where a stream leads.
fn push_lanes_at(
    valid: &Valid,
    books: &Books,
    stream: u32,
    component: u32,
    port: u32,
    into: &mut Vec<Lane>,
) -> Result<(), AllocError>
    requires runs { BooksRun valid.now.view books.now }
    requires component { component < length valid.now.view.components }
    ensures { OnOk result (into.new.items ≡ into.old.items ++ lanes_at (wiring_of valid.now.view) stream (component, port)) }
{
    valid.known();
    if is_order(valid, component) {
        return push_orders(valid, books, stream, component, port, into);
    }
    for replica in 0..valid.replicas(component) {
        push_deliveries(valid, books, stream, component, port, replica, into)?;
    }
    Ok(())
}

// Adds the lanes on which a stream comes in.
fn push_lanes_of(
    valid: &Valid,
    books: &Books,
    stream: u32,
    into: &mut Vec<Lane>,
) -> Result<(), AllocError>
    requires runs { BooksRun valid.now.view books.now }
    requires stream { stream < length valid.now.view.streams }
    ensures { OnOk result (into.new.items ≡ into.old.items ++ flat_map (lanes_at (wiring_of valid.now.view) stream) (ends_of valid.now.view stream)) }
{
    valid.known();
    for n in 0..valid.to_count(stream) {
        let (component, port) = valid.to(stream, n);
        push_lanes_at(valid, books, stream, component, port, into)?;
    }
    Ok(())
}

/// All lanes: by stream, then by where it leads, then by receiving and by sending replica. The
/// error is want of memory.
pub(crate) fn lanes(alloc: Global, valid: &Valid, books: &Books) -> Result<Vec<Lane>, AllocError>
    requires { BooksRun valid.now.view books.now }
    ensures { IfOk result (λ all. all.items ≡ all_lanes (wiring_of valid.now.view)) }
{
    let mut all = Vec::new(alloc);
    for stream in 0..valid.stream_count() {
        push_lanes_of(valid, books, stream, &mut all)?;
    }
    Ok(all)
}

// Adds the takers of a component, which is Order or has none.
fn push_takers(valid: &Valid, component: u32, into: &mut Vec<Taker>) -> Result<(), AllocError>
    requires { component < length valid.now.view.components }
    ensures { OnOk result (into.new.items ≡ into.old.items ++ takers_at (wiring_of valid.now.view) component) }
{
    valid.known();
    if !is_order(valid, component) {
        return Ok(());
    }
    for replica in 0..valid.replicas(component) {
        into.push(Taker { component, replica })?;
    }
    Ok(())
}

/// All takers, by component and by replica. The error is want of memory.
pub(crate) fn takers(alloc: Global, valid: &Valid) -> Result<Vec<Taker>, AllocError>
    ensures { IfOk result (λ all. all.items ≡ all_takers (wiring_of valid.now.view)) }
{
    let mut all = Vec::new(alloc);
    for component in 0..valid.component_count() {
        push_takers(valid, component, &mut all)?;
    }
    Ok(all)
}
