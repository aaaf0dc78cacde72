//! What is left of a net: what wasn't heard, ordered or taken yet.
//!
//! An instance keeps how many messages of each feed it heard, so it hasn't heard as many as the feed's
//! list has more. A log keeps the ids of its records, so each message of a feed's list is looked up
//! once.
ghost use Rattle.std.specs.Prelude.{◌≡◌, ◌<◌, ◌≤◌, ◌-◌, ◌*◌, ℕ, length, slice_get, false};
ghost use Rattle.std.specs.List.{All};
ghost use Rattle.std.specs.Option.{option_map_or};
ghost use Rattle.topo_forms.specs.Valid.{IsValid};
ghost use Rattle.topo_forms.specs.View.{component_at, replicas_of};
ghost use Rattle.inbox.specs.Completeness.{left_at, left_count, left_of, left_out};
ghost use Rattle.messages.specs.Ids.{IsGiven};
ghost use Rattle.messages.specs.Log.{AreGiven};
ghost use Rattle.inbox.specs.Wiring.{wiring_of};
ghost use Rattle.inbox.specs.Limits.{message_limit};
ghost use Rattle.messages.specs.Lists.{list_at};
ghost use Rattle.sched_net.specs.Net.{BooksRun};
ghost use Rattle.sched_net.specs.Reading.{IsRead, TellsComplete, holds_none_at, holds_none, is_complete};
ghost use Rattle.sched_net.specs.Code.Remaining.{feed_list, AreWithin, unknown_at, unknown_in, is_unlogged, unlogged_on, unlogged_in};

use crate::net::Net;
use crate::ordering::is_order;
use crate::seated::Ear;
use inbox::Feed;
use messages::{Known, Log, MessageList};

impl Net<'_> {
    // How many parts there are at most; the call does nothing.
    fn bounded(&self)
        ensures valid { IsValid self.now.valid.now.view }
        ensures ports { (c : ℕ) → c < length self.now.valid.now.view.components → length (component_at self.now.valid.now.view c).ports ≤ 8 }
    {
        self.valid.known();
        self.valid.whole();
    }

    // The list of a feed.
    fn feed_list(&self, feeds: &[Feed], number: u32) -> MessageList<'_>
        requires runs { BooksRun self.now.valid.now.view self.now.books }
        requires number { number < length feeds.now }
        ensures { result ≡ feed_list self.now.valid.now.view self.now.books.lists.lists feeds.now number }
    {
        let feed = feeds[number as usize];
        self.books.messages(self.valid, feed.stream, feed.sender)
    }

    // How many messages of a feed's list an instance hasn't heard on it.
    fn undelivered_on(&self, feeds: &[Feed], number: u32, known: &Known) -> u64
        requires runs { BooksRun self.now.valid.now.view self.now.books }
        requires number { number < length feeds.now }
        requires within { AreWithin self.now.valid.now.view self.now.books.lists.lists known.now feeds.now }
        ensures count { result ≡ unknown_at self.now.valid.now.view self.now.books.lists.lists known.now feeds.now number }
        ensures few { result ≤ message_limit }
    {
        self.books.lists.known();
        self.feed_list(feeds, number).len() as u64 - known.count(number)
    }

    // How many messages of its feeds' lists an instance hasn't heard.
    fn undelivered(&self, feeds: &[Feed], known: &Known) -> u64
        requires runs { BooksRun self.now.valid.now.view self.now.books }
        requires few { length feeds.now ≤ 4096 }
        requires within { AreWithin self.now.valid.now.view self.now.books.lists.lists known.now feeds.now }
        ensures count { result ≡ unknown_in self.now.valid.now.view self.now.books.lists.lists known.now feeds.now }
        ensures few { result ≤ 4096 * message_limit }
    {
        let mut left = 0;
        for number in 0..feeds.len() {
            left += self.undelivered_on(feeds, number as u32, known);
        }
        left
    }

    // Whether a record that a log hasn't at a port stands at a place of some messages.
    fn is_unlogged(&self, log: &Log, port: u32, messages: &MessageList<'_>, index: usize) -> bool
        requires messages { All (IsGiven self.now.books.lists.records) messages.now }
        requires log { AreGiven self.now.books.lists.records log.now }
        ensures { result ≡ option_map_or (is_unlogged self.now.books.lists.records log.now port) (slice_get messages.now index) false }
    {
        self.books.lists.known();
        match messages.row(index) {
            Some(id) => !log.knows((port, id)),
            None => false,
        }
    }

    // How many records of a feed's list a log hasn't.
    fn unordered_on(&self, log: &Log, feed: &Feed) -> u64
        requires runs { BooksRun self.now.valid.now.view self.now.books }
        requires log { AreGiven self.now.books.lists.records log.now }
        ensures count { result ≡ unlogged_on self.now.valid.now.view self.now.books.lists.records self.now.books.lists.lists log.now feed.now }
        ensures few { result ≤ message_limit }
    {
        self.books.lists.known();
        let messages = self.books.messages(self.valid, feed.stream, feed.sender);
        let mut left = 0;
        for index in 0..messages.len() {
            if self.is_unlogged(log, feed.port, &messages, index) {
                left += 1;
            }
        }
        left
    }

    // How many records of some feeds' lists a log hasn't.
    fn unordered(&self, log: &Log, feeds: &[Feed]) -> u64
        requires runs { BooksRun self.now.valid.now.view self.now.books }
        requires log { AreGiven self.now.books.lists.records log.now }
        requires few { length feeds.now ≤ 4096 }
        ensures count { result ≡ unlogged_in self.now.valid.now.view self.now.books.lists.records self.now.books.lists.lists log.now feeds.now }
        ensures few { result ≤ 4096 * message_limit }
    {
        let mut left = 0;
        for feed in feeds {
            left += self.unordered_on(log, feed);
        }
        left
    }

    // How many entries of the log of a component a replica hasn't taken that took so many.
    fn untaken(&self, component: u32, taken: usize) -> u64
        requires runs { BooksRun self.now.valid.now.view self.now.books }
        requires component { component < length self.now.valid.now.view.components }
        ensures count { result ≡ length (list_at self.now.books.logs.items component) - taken }
        ensures few { result ≤ 8 * message_limit }
    {
        self.bounded();
        self.books.lists.known();
        self.books.logs[component as usize]
            .len()
            .saturating_sub(taken) as u64
    }

    // What is left at an instance.
    fn left_of(&self, component: u32, replica: u32) -> u64
        requires runs { BooksRun self.now.valid.now.view self.now.books }
        requires component { component < length self.now.valid.now.view.components }
        requires replica { replica < replicas_of self.now.valid.now.view component }
        ensures left { IsRead self.now.valid.now.view self.now.books (λ given x. left_of (wiring_of self.now.valid.now.view) given x component replica) result }
        ensures few { result ≤ 4096 * message_limit }
    {
        self.bounded();
        let seated = self.books.seat_at(self.valid, component, replica);
        match &seated.ear {
            Ear::Hears(_, known) => self.undelivered(seated.feeds.as_slice(), known),
            Ear::Takes(taken) => self.untaken(component, *taken),
        }
    }

    // What isn't in the log of a component, where it is Order.
    fn left_out(&self, component: u32) -> u64
        requires runs { BooksRun self.now.valid.now.view self.now.books }
        requires component { component < length self.now.valid.now.view.components }
        ensures left { IsRead self.now.valid.now.view self.now.books (λ given x. left_out (wiring_of self.now.valid.now.view) given x component) result }
        ensures few { result ≤ 4096 * message_limit }
    {
        self.bounded();
        if !is_order(self.valid, component) {
            return 0;
        }
        let log = &self.books.logs[component as usize];
        self.unordered(
            log,
            self.books
                .seat_at(self.valid, component, 0)
                .feeds
                .as_slice(),
        )
    }

    // What is left at a component.
    fn left_at(&self, component: u32) -> u64
        requires runs { BooksRun self.now.valid.now.view self.now.books }
        requires component { component < length self.now.valid.now.view.components }
        ensures left { IsRead self.now.valid.now.view self.now.books (λ given x. left_at (wiring_of self.now.valid.now.view) given x component (replicas_of self.now.valid.now.view component)) result }
        ensures few { result ≤ 9 * 4096 * message_limit }
    {
        self.bounded();
        let mut left = self.left_out(component);
        for replica in 0..self.valid.replicas(component) {
            left += self.left_of(component, replica);
        }
        left
    }

    /// How much is left: of each instance the messages of its feeds that it hasn't heard in its last
    /// life, of each Order component the records of its feeds that its log hasn't, and of each of its
    /// replicas the entries that it hasn't taken in its last life. Looks up each message of the feeds
    /// of Order components.
    pub fn left(&self) -> u64
        requires runs { BooksRun self.now.valid.now.view self.now.books }
        ensures { IsRead self.now.valid.now.view self.now.books (left_count (wiring_of self.now.valid.now.view)) result }
    {
        self.bounded();
        let mut left = 0;
        for component in 0..self.valid.component_count() {
            left += self.left_at(component);
        }
        left
    }

    // Whether no replica of a component holds anything.
    fn holds_none_at(&self, component: u32) -> bool
        requires runs { BooksRun self.now.valid.now.view self.now.books }
        requires component { component < length self.now.valid.now.view.components }
        ensures { IsRead self.now.valid.now.view self.now.books (λ given x. holds_none_at self.now.valid.now.view x component) result }
    {
        for replica in 0..self.valid.replicas(component) {
            if self.held(component, replica) != 0 {
                return false;
            }
        }
        true
    }

    // Whether no instance holds anything.
    fn holds_none(&self) -> bool
        requires { BooksRun self.now.valid.now.view self.now.books }
        ensures { IsRead self.now.valid.now.view self.now.books (λ given x. holds_none self.now.valid.now.view x) result }
    {
        for component in 0..self.valid.component_count() {
            if !self.holds_none_at(component) {
                return false;
            }
        }
        true
    }

    /// Whether the execution is complete: nothing is left, and nothing is held.
    pub fn is_complete(&self) -> bool
        requires runs { BooksRun self.now.valid.now.view self.now.books }
        ensures complete { TellsComplete self.now.valid.now.view self.now.books result }
        ensures test { IsRead self.now.valid.now.view self.now.books (is_complete self.now.valid.now.view) result }
    {
        self.left() == 0 && self.holds_none()
    }
}
