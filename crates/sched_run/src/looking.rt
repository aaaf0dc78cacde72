//! What is open on a lane, and for a taker.
ghost use Rattle.std.specs.Prelude.{◌≡◌, OnOk};
ghost use Rattle.sched_net.specs.Net.{BooksRun};
ghost use Rattle.sched_run.specs.Code.Looking.{is_unknown_at, is_unlogged_at, IsDelivery, IsOrdering, LooksAt, MayLook, IsLane, IsTaker, TellsTake};
ghost use Rattle.sched_run.specs.declared.lanes.Lane.TheVariants.{Deliver, Order};

use crate::lanes::{Lane, Taker};
use inbox::Feed;
use messages::{Known, Log, MessageList};
use sched_net::{Books, Ear};
use sched_turns::{OpenPlaces, Stale, Window};
use std::alloc::AllocError;
use topo_forms::Valid;

// The indexes of a list of so many messages that weren't heard on a feed.
#[derive(Clone, Copy)]
struct Unheard<'a> {
    known: &'a Known,
    feed: u32,
    count: u32,
}

impl OpenPlaces for Unheard<'_> {
    ghost is_open = { λ list index. is_unknown_at list.known.now list.feed list.count index };

    fn is_open(&self, place: u32) -> bool {
        place < self.count && !self.known.knows(self.feed, place)
    }
}

// The indexes of a list at which a record stands that a log hasn't at a port.
#[derive(Drop)]
struct Unlogged<'a> {
    log: &'a Log,
    port: u32,
    messages: MessageList<'a>,
}

impl OpenPlaces for Unlogged<'_> {
    ghost is_open = { λ list index. is_unlogged_at list.log.now list.port list.messages index };

    fn is_open(&self, place: u32) -> bool {
        match self.messages.row(place as usize) {
            Some(id) => !self.log.knows((self.port, id)),
            None => false,
        }
    }
}

// Looks again at what an instance hears on a feed with a number.
fn look_at_feed(
    valid: &Valid,
    books: &Books,
    component: u32,
    replica: u32,
    number: u32,
    feed: &Feed,
    stale: Stale,
    window: &mut Window,
) -> Result<(), AllocError>
    requires runs { BooksRun valid.now.view books.now }
    requires lane { IsDelivery valid.now.view component replica number feed.now }
    requires window { MayLook valid.now.view books.now (Deliver component replica number feed.now) stale window.old }
    ensures { OnOk result (LooksAt valid.now.view books.now (Deliver component replica number feed.now) window.new) }
{
    valid.known();
    books.lists.known();
    let count = books.messages(valid, feed.stream, feed.sender).len() as u32;
    match &books.seat_at(valid, component, replica).ear {
        Ear::Hears(_, known) => {
            let list = Unheard {
                known,
                feed: number,
                count,
            };
            window.look(&list, count, stale)
        }
        Ear::Takes(_) => unreachable!(),
    }
}

// Looks again at what comes to the log of a component on a feed.
fn look_at_log(
    valid: &Valid,
    books: &Books,
    component: u32,
    feed: &Feed,
    stale: Stale,
    window: &mut Window,
) -> Result<(), AllocError>
    requires runs { BooksRun valid.now.view books.now }
    requires lane { IsOrdering valid.now.view component feed.now }
    requires window { MayLook valid.now.view books.now (Order component feed.now) stale window.old }
    ensures { OnOk result (LooksAt valid.now.view books.now (Order component feed.now) window.new) }
{
    valid.known();
    books.lists.known();
    let messages = books.messages(valid, feed.stream, feed.sender);
    let count = messages.len() as u32;
    let list = Unlogged {
        log: &books.logs[component as usize],
        port: feed.port,
        messages,
    };
    window.look(&list, count, stale)
}

/// Looks at a lane again, through its window, of which this may be stale. The error is want of
/// memory.
pub(crate) fn look(
    valid: &Valid,
    books: &Books,
    lane: &Lane,
    stale: Stale,
    window: &mut Window,
) -> Result<(), AllocError>
    requires runs { BooksRun valid.now.view books.now }
    requires lane { IsLane valid.now.view lane.now }
    requires window { MayLook valid.now.view books.now lane.now stale window.old }
    ensures { OnOk result (LooksAt valid.now.view books.now lane.now window.new) }
{
    match lane {
        Lane::Deliver {
            component,
            replica,
            number,
            feed,
        } => look_at_feed(
            valid, books, *component, *replica, *number, feed, stale, window,
        ),
        Lane::Order { component, feed } => look_at_log(
            valid, books, *component, feed, stale, window,
        ),
    }
}

/// Whether a taker has an entry to take.
pub(crate) fn can_take(valid: &Valid, books: &Books, taker: Taker) -> bool
    requires runs { BooksRun valid.now.view books.now }
    requires taker { IsTaker valid.now.view taker }
    ensures { TellsTake valid.now.view books.now taker result }
{
    let taken = books
        .seat_at(valid, taker.component, taker.replica)
        .ear
        .taken();
    taken < books.logs[taker.component as usize].len()
}
