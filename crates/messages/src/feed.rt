//! What came on one feed: its distinct records, counted by partition, and its seals.
ghost use Rattle.std.specs.Prelude.{◌≡◌, ◌+◌, ◌<◌, ◌≤◌, ◌==◌, ◌||◌, ◌&&◌, ℕ, [], not, length, OnOk, OnErr, if◌then◌else◌, nat_le};
ghost use Rattle.messages.specs.Numbers.{has_number, HasAlso, IsCountOf};
ghost use Rattle.messages.specs.PartitionCounts.{have_at, need_at, is_met};

use crate::counter::{Counter, count_row, is_enough, note_seal};
use crate::numbers::NumberSet;
use std::alloc::{AllocError, Global};

/// A feed: its port, whether that carries the key, the ids of the records of partitions that came,
/// and counters by the numbers of partitions.
#[derive(Drop)]
pub(crate) struct Feed {
    pub(crate) port: u32,
    pub(crate) carries: bool,
    pub(crate) known: NumberSet,
    pub(crate) counts: Vec<Counter>,
    pub(crate) ghost few: { (number count : ℕ) → IsCountOf (has_number known) count → have_at counts.items number ≤ count },
}

impl Feed {
    ghost use Rattle.messages.specs.Code.Tallies.{lacks_at};

    /// A feed on which nothing came.
    pub(crate) fn new(alloc: Global, port: u32, carries: bool) -> Feed
        ensures port { result.port ≡ port }
        ensures carries { result.carries ≡ carries }
        ensures known { result.known ≡ [] }
        ensures counts { result.counts.items ≡ [] }
    {
        Feed {
            port,
            carries,
            known: NumberSet::new(alloc),
            counts: Vec::new(alloc),
        }
    }

    /// Forgets what came. It takes no memory.
    pub(crate) fn clear(&mut self)
        ensures port { self.new.port ≡ self.old.port }
        ensures carries { self.new.carries ≡ self.old.carries }
        ensures known { self.new.known ≡ [] }
        ensures counts { self.new.counts.items ≡ [] }
    {
        self.counts.clear();
        self.known.clear();
    }

    /// Hears a record of a partition. The error is want of memory and leaves the counters as they
    /// were.
    pub(crate) fn hear_row(&mut self, number: usize, id: u32) -> Result<(), AllocError>
        ensures port { self.new.port ≡ self.old.port }
        ensures carries { self.new.carries ≡ self.old.carries }
        ensures known { OnOk result (HasAlso id self.old.known self.new.known) }
        ensures have { OnOk result ((n : ℕ) → have_at self.new.counts.items n ≡ (if n == number && not (has_number self.old.known id) then have_at self.old.counts.items n + 1 else have_at self.old.counts.items n)) }
        ensures need { (n : ℕ) → need_at self.new.counts.items n ≡ need_at self.old.counts.items n }
        ensures few { (most : ℕ) → number < most → length self.old.counts.items ≤ most → length self.new.counts.items ≤ most }
        ensures err { OnErr result ((n : ℕ) → have_at self.new.counts.items n ≡ have_at self.old.counts.items n) }
    {
        // Tells the prover that the counter has room for one more.
        let _heard = self.known.count();
        if self.known.add(id)? {
            count_row(&mut self.counts, number)?;
        }
        Ok(())
    }

    /// Hears a seal of a partition. The error is want of memory and leaves the counters as they
    /// were.
    pub(crate) fn hear_seal(&mut self, number: usize, count: u32) -> Result<(), AllocError>
        ensures port { self.new.port ≡ self.old.port }
        ensures carries { self.new.carries ≡ self.old.carries }
        ensures known { self.new.known ≡ self.old.known }
        ensures have { (n : ℕ) → have_at self.new.counts.items n ≡ have_at self.old.counts.items n }
        ensures need { OnOk result ((n m : ℕ) → is_met (need_at self.new.counts.items n) m ≡ (is_met (need_at self.old.counts.items n) m || (n == number && nat_le count m))) }
        ensures few { (most : ℕ) → number < most → length self.old.counts.items ≤ most → length self.new.counts.items ≤ most }
        ensures err { OnErr result ((n : ℕ) → need_at self.new.counts.items n ≡ need_at self.old.counts.items n) }
    {
        note_seal(&mut self.counts, number, count)
    }

    /// Whether the feed is one of a port that carries the key, and records of a partition or its
    /// seal are missing on it.
    pub(crate) fn lacks(&self, number: usize) -> bool
        ensures { result ≡ lacks_at number self.now }
    {
        self.carries && !is_enough(&self.counts, number)
    }
}
