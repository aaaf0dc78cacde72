//! What came on the feeds of an instance, and which partitions are whole by it. Each partition has a
//! number, and by it the count of the feeds that lack something of it.
ghost use Rattle.std.specs.Prelude.{◌≡◌, ◌<◌, ◌≤◌, ◌^◌, ◌+◌, ℕ, Some, map, length, slice_get, slice_index, if◌then◌else◌, IfOk, IfSome, OnOk, OnErr};
ghost use Rattle.std.specs.List.{count_by};
ghost use Rattle.blz_pool.specs.Pool.{with_record};
ghost use Rattle.blz_value.specs.Record.{Row};
ghost use Rattle.messages.specs.Ports.{port_keys};
ghost use Rattle.messages.specs.Feeds.{feed_count, port_count, port_in, key_in, carries_in, is_whole_in, is_due_in, HearsRow, HearsSeal, IsFresh, IsCleared};
ghost use Rattle.messages.specs.Code.Tallies.{lacks_at, IsTallied, IsAdded, AreAsBefore};
ghost use Rattle.messages.specs.Code.Hearing.{AreEmpty, AreCleared, RowHeard, SealHeard};

use crate::feed::Feed;
use crate::port::{Port, is_carrying, key_at};
use blz_pool::Id;
use blz_value::{HashKey, Record};
use indexmap::IndexSet;
use std::alloc::{AllocError, Global};

/// The ports and the feeds of an instance, the key values of partitions by their numbers, by these
/// the counts of the feeds that lack something, and how many feeds are those of ports that carry the
/// key.
#[derive(Drop)]
pub struct Feeds {
    alloc: Global,
    ports: Vec<Port>,
    feeds: Vec<Feed>,
    // What comes is written by strangers, so they are hashed under a key that these can't choose.
    keys: IndexSet<Record, HashKey>,
    lacking: Vec<usize>,
    carrying: usize,
    ghost tallied: { IsTallied (length keys.keys) carrying feeds.items lacking.items },
}

// Feeds on which nothing came, one for each of these ports.
fn fresh_feeds(alloc: Global, ports: &[Port], feed_ports: &[u32]) -> Result<Vec<Feed>, AllocError>
    ensures { IfOk result (λ feeds. AreEmpty (port_keys ports.now) feed_ports.now feeds.items) }
{
    let mut feeds = Vec::new(alloc);
    for port in feed_ports {
        feeds.push(Feed::new(alloc, *port, is_carrying(ports, *port)))?;
    }
    Ok(feeds)
}

// Forgets what came on feeds.
fn clear_feeds(feeds: &mut Vec<Feed>)
    ensures { AreCleared feeds.old.items feeds.new.items }
{
    for feed in 0..feeds.len() {
        feeds[feed].clear();
    }
}

fn count_carrying(feeds: &[Feed]) -> usize
    ensures { result ≡ count_by (λ feed. feed.carries) feeds.now }
{
    feeds.iter().filter(|feed| feed.carries).count()
}

// The number of a partition. A new one goes last, and all carrying feeds lack something of it. The
// error is want of memory and leaves all as it was.
fn number_for(
    keys: &mut IndexSet<Record, HashKey>,
    lacking: &mut Vec<usize>,
    carrying: usize,
    key: &Record,
) -> Result<usize, AllocError>
    ensures number { IfOk result (λ number. IsAdded carrying keys.old.keys keys.new.keys lacking.old.items lacking.new.items key.now number) }
    ensures same { OnErr result (AreAsBefore keys.old.keys keys.new.keys lacking.old.items lacking.new.items) }
{
    if let Some(number) = keys.get_index_of(key) {
        return Ok(number);
    }
    let number = keys.len();
    let own = key.copy()?;
    lacking.push(carrying)?;
    match keys.insert(own) {
        Ok(_) => Ok(number),
        Err(error) => {
            let _ = lacking.pop();
            Err(AllocError::from(error))
        }
    }
}

// A count of those that lack something, after one that did or didn't does or doesn't.
fn moved(count: usize, was: bool, now: bool) -> usize
    requires least { (if was then 1 else 0) ≤ count }
    requires room { count + 1 < 2 ^ 64 }
    ensures { result + (if was then 1 else 0) ≡ count + (if now then 1 else 0) }
{
    match (was, now) {
        (true, false) => count - 1,
        (false, true) => count + 1,
        (true, true) | (false, false) => count,
    }
}

// Hears a record of a partition on a feed, and counts the feeds that lack something of it.
fn hear_row_at(
    feeds: &mut Vec<Feed>,
    lacking: &mut Vec<usize>,
    feed: u32,
    number: usize,
    id: u32,
) -> Result<(), AllocError>
    requires feed { feed < length feeds.old.items }
    requires number { number < length lacking.old.items }
    requires lacks { slice_index lacking.old.items number ≡ count_by (lacks_at number) feeds.old.items }
    ensures heard { OnOk result (RowHeard feeds.old.items feeds.new.items feed number id) }
    ensures tallied { (carrying : ℕ) → IsTallied (length lacking.old.items) carrying feeds.old.items lacking.old.items → IsTallied (length lacking.old.items) carrying feeds.new.items lacking.new.items }
{
    let was = feeds[feed as usize].lacks(number);
    feeds[feed as usize].hear_row(number, id)?;
    let now = feeds[feed as usize].lacks(number);
    // Tells the prover that the count has room for one more.
    let _most = feeds.len();
    lacking[number] = moved(lacking[number], was, now);
    Ok(())
}

// Hears a seal of a partition on a feed, and counts the feeds that lack something of it.
fn hear_seal_at(
    feeds: &mut Vec<Feed>,
    lacking: &mut Vec<usize>,
    feed: u32,
    number: usize,
    count: u32,
) -> Result<(), AllocError>
    requires feed { feed < length feeds.old.items }
    requires number { number < length lacking.old.items }
    requires lacks { slice_index lacking.old.items number ≡ count_by (lacks_at number) feeds.old.items }
    ensures heard { OnOk result (SealHeard feeds.old.items feeds.new.items feed number count) }
    ensures tallied { (carrying : ℕ) → IsTallied (length lacking.old.items) carrying feeds.old.items lacking.old.items → IsTallied (length lacking.old.items) carrying feeds.new.items lacking.new.items }
{
    let was = feeds[feed as usize].lacks(number);
    feeds[feed as usize].hear_seal(number, count)?;
    let now = feeds[feed as usize].lacks(number);
    // Tells the prover that the count has room for one more.
    let _most = feeds.len();
    lacking[number] = moved(lacking[number], was, now);
    Ok(())
}

impl Feeds {
    ghost use Rattle.messages.specs.Whole.{feeds_view, partitions, HasNumber, key_at, KeepNumbers};

    /// Feeds on which nothing came, one for each of the ports in `feed_ports`. Key values are hashed
    /// under `key`.
    pub fn new(
        alloc: Global,
        ports: Vec<Port>,
        feed_ports: &[u32],
        key: HashKey,
    ) -> Result<Feeds, AllocError>
        ensures { IfOk result (λ feeds. IsFresh (port_keys ports.items) feed_ports.now (feeds_view feeds)) }
    {
        let feeds = fresh_feeds(alloc, &ports, feed_ports)?;
        let carrying = count_carrying(&feeds);
        Ok(Feeds {
            alloc,
            ports,
            feeds,
            keys: IndexSet::with_hasher(alloc, key),
            lacking: Vec::new(alloc),
            carrying,
        })
    }

    /// Forgets what came. It takes no memory.
    pub fn clear(&mut self)
        ensures { IsCleared (feeds_view self.old) (feeds_view self.new) }
    {
        self.keys.clear();
        self.lacking.clear();
        clear_feeds(&mut self.feeds);
    }

    /// The number of ports.
    pub fn port_count(&self) -> usize
        ensures { result ≡ port_count (feeds_view self.now) }
    {
        self.ports.len()
    }

    /// The number of feeds.
    pub fn feed_count(&self) -> usize
        ensures { result ≡ feed_count (feeds_view self.now) }
    {
        self.feeds.len()
    }

    /// The port of a feed.
    pub fn port_of(&self, feed: u32) -> u32
        requires { feed < feed_count (feeds_view self.now) }
        ensures { result ≡ port_in (feeds_view self.now) feed }
    {
        self.feeds[feed as usize].port
    }

    /// Whether a port carries the key.
    pub fn carries(&self, port: u32) -> bool
        ensures { result ≡ carries_in (feeds_view self.now) port }
    {
        is_carrying(&self.ports, port)
    }

    /// The key value of a record at a port, where the port has all columns of the key.
    pub fn key_of(&self, port: u32, row: &Record) -> Result<Option<Record>, AllocError>
        ensures { IfOk result (λ key. key ≡ key_in (feeds_view self.now) (port, row.now)) }
    {
        key_at(self.alloc, &self.ports, port, row)
    }

    /// The number of a partition; one that has none gets the next. It is looked up by its hash. The
    /// error is want of memory.
    pub fn number_of(&mut self, key: &Record) -> Result<usize, AllocError>
        ensures view { feeds_view self.new ≡ feeds_view self.old }
        ensures kept { KeepNumbers (partitions self.old) (partitions self.new) }
        ensures number { IfOk result (λ number. HasNumber (partitions self.new) key.now number) }

        // A new one goes last, and no other is made.
        ensures next { OnOk result (partitions self.new ≡ with_record (partitions self.old) key.now) }
        ensures err { OnErr result (partitions self.new ≡ partitions self.old) }
    {
        number_for(&mut self.keys, &mut self.lacking, self.carrying, key)
    }

    /// The key value of the partition with a number.
    pub fn key_with(&self, number: usize) -> &Record
        requires { number < length (partitions self.now) }
        ensures { slice_get (partitions self.now) number ≡ Some result.now }
    {
        &self.keys.as_slice()[number]
    }

    /// Whether the partition with a number is whole. No feed is asked.
    pub fn is_whole(&self, number: usize) -> bool
        requires { number < length (partitions self.now) }
        ensures { (key : Row) → HasNumber (partitions self.now) key number → result ≡ is_whole_in (feeds_view self.now) key }
    {
        // Tells the prover that no two partitions have one key value.
        let _count = self.keys.len();
        self.carrying > 0 && self.lacking[number] == 0
    }

    /// Whether a record waits for nothing, by the number of its partition, where it has one.
    pub fn is_due(&self, number: Option<usize>) -> bool
        requires { IfSome number (λ n. n < length (partitions self.now)) }
        ensures { result ≡ is_due_in (feeds_view self.now) (key_at (partitions self.now) number) }
    {
        match number {
            None => true,
            Some(number) => self.is_whole(number),
        }
    }

    /// Hears a record of the partition with a number on a feed.
    pub fn hear_row(&mut self, feed: u32, number: usize, id: Id) -> Result<(), AllocError>
        requires feed { feed < feed_count (feeds_view self.old) }
        requires number { number < length (partitions self.old) }
        ensures partitions { partitions self.new ≡ partitions self.old }
        ensures heard { OnOk result ((key : Row) → HasNumber (partitions self.old) key number → HearsRow (feeds_view self.old) (feeds_view self.new) feed key id) }
    {
        // Tells the prover that no two partitions have one key value.
        let _count = self.keys.len();
        hear_row_at(
            &mut self.feeds,
            &mut self.lacking,
            feed,
            number,
            id.number(),
        )
    }

    /// Hears a seal of the partition with a number on a feed.
    pub fn hear_seal(&mut self, feed: u32, number: usize, count: u32) -> Result<(), AllocError>
        requires feed { feed < feed_count (feeds_view self.old) }
        requires number { number < length (partitions self.old) }
        ensures partitions { partitions self.new ≡ partitions self.old }
        ensures heard { OnOk result ((key : Row) → HasNumber (partitions self.old) key number → HearsSeal (feeds_view self.old) (feeds_view self.new) feed key count) }
    {
        // Tells the prover that no two partitions have one key value.
        let _count = self.keys.len();
        hear_seal_at(&mut self.feeds, &mut self.lacking, feed, number, count)
    }
}
