//! What an instance heard, and what waits in it.
ghost use Rattle.std.specs.Prelude.{◌≡◌, ◌<◌, ◌++◌, ◌∷◌, [], ℕ, Bool, true, false, List, Option, Some, length, filter, All, IfOk, OnOk, if◌then◌else◌};
ghost use Rattle.std.specs.List.{filter_map, cons_option};
ghost use Rattle.std.specs.Option.{option_map};
ghost use Rattle.blz_value.specs.Record.{Row};
ghost use Rattle.blz_value.specs.Sets.{set_of};
ghost use Rattle.topo_forms.specs.Feeds.{feeds};
ghost use Rattle.topo_forms.specs.Messages.{row, seal};
ghost use Rattle.topo_forms.specs.View.{replicas_of, is_order};
ghost use Rattle.inbox.specs.Wiring.{instance_for};
ghost use Rattle.inbox.specs.Code.Heard.{is_sealing};
ghost use Rattle.inbox.specs.Code.Touching.{touches_in};
ghost use Rattle.messages.specs.Ids.{IsGiven, pair_with_id, batch_with_ids};
ghost use Rattle.messages.specs.Messages.{Pair, Batch, Entry, all_pairs};
ghost use Rattle.inbox.specs.Instances.{Instance};
ghost use Rattle.inbox.specs.Timesteps.{set_off, held_count};
ghost use Rattle.inbox.specs.SetOffs.{going_entries, set_off_read, AreGivenTo};
ghost use Rattle.blz_pool.specs.Entries.{row_with_id};

use crate::instance::{feeds_of, key_of, ports_of, ports_of_feeds};
use crate::set_off::{Going, Released, SetOffIds};
use crate::timesteps::{Timesteps, timesteps_of};
use crate::waiting::Waiting;
use bloom_forms::Mode;
use blz_pool::{Id, Pool};
use blz_value::{HashKey, Items, Record};
use messages::{Feeds, Message};
use std::alloc::{AllocError, Global};
use topo_forms::Valid;

// What a message touches: the number of its partition, where it has one, and whether a record of it
// waits.
#[derive(Clone, Copy, Drop)]
struct Touched {
    number: Option<usize>,
    waits: bool,
}

// What the messages of a batch touch. One alone takes no list.
#[derive(Drop)]
enum Touches {
    One(Option<Touched>),
    Many(Vec<Touched>),
}

impl Touches {
    fn as_slice(&self) -> &[Touched]
        ensures { result.now ≡ touches_in self.now }
    {
        match self {
            Touches::One(touched) => touched.as_slice(),
            Touches::Many(touched) => touched.as_slice(),
        }
    }
}

/// What an instance heard. It counts, for each feed and partition, the distinct records, and keeps
/// the ids of what it heard under Seal.
#[derive(Drop)]
pub struct Inbox {
    alloc: Global,
    sealing: bool,
    feeds: Feeds,
    waiting: Waiting,
}

// Puts an item behind others, where there is one.
fn push_some<T: Drop>(item: Option<T>, items: &mut Vec<T>) -> Result<(), AllocError>
    ensures { OnOk result (items.new.items ≡ items.old.items ++ cons_option item []) }
{
    if let Some(item) = item {
        items.push(item)?;
    }
    Ok(())
}

// Some key values, each once, in order.
fn in_order(mut keys: Vec<Record>) -> Vec<Record>
    ensures { result.items ≡ set_of keys.items }
{
    if keys.len() <= 1 {
        return keys;
    }
    keys.sort_unstable();
    keys.dedup();
    keys
}

fn is_sealing(mode: Mode) -> bool
    ensures { result ≡ is_sealing mode }
{
    match mode {
        Mode::Seal(_) => true,
        Mode::Free | Mode::Pass(_) | Mode::Order => false,
    }
}

impl Inbox {
    ghost use Rattle.inbox.specs.Inbox.{HasHeard, IsFrom, Keeps, feeds_in};
    ghost use Rattle.inbox.specs.Code.Batches.{IsNumbered, IsNumberIn, IsTouched, AreTouched, IsSeenAs, IsHeardAs, AreHeardAs, key_by, became_key, entry_id_of, entry_ids_of, goes_if, goes_in, HearsIf, HearsRecord, AreParted, Releases};
    ghost use Rattle.inbox.specs.Code.Waiting.{KeepsEntry};
    ghost use Rattle.messages.specs.Whole.{feeds_view, partitions, key_at};

    /// The inbox of an instance that heard nothing. An instance of an Order component hears through
    /// the component's log and has none. The error is want of memory.
    pub fn new(
        alloc: Global,
        valid: &Valid,
        component: u32,
        replica: u32,
    ) -> Result<Inbox, AllocError>
        requires component { component < length valid.now.view.components }
        requires replica { replica < replicas_of valid.now.view component }
        requires hears { is_order valid.now.view component ≡ false }

        // It stands for no batches, whatever the pool.
        ensures heard { IfOk result (λ inbox. (records : List Row) → HasHeard (instance_for valid.now.view component replica) records [] inbox) }
        ensures feeds { IfOk result (λ inbox. feeds_in inbox ≡ length (feeds valid.now.view component replica)) }
        ensures kept { IfOk result (λ inbox. (records : List Row) → IsFrom records inbox) }
    {
        Inbox::with_key(alloc, valid, component, replica, HashKey::new())
    }

    /// The same, where key values are hashed under `key`.
    pub fn with_key(
        alloc: Global,
        valid: &Valid,
        component: u32,
        replica: u32,
        key: HashKey,
    ) -> Result<Inbox, AllocError>
        requires component { component < length valid.now.view.components }
        requires replica { replica < replicas_of valid.now.view component }
        requires hears { is_order valid.now.view component ≡ false }

        // It stands for no batches, whatever the pool.
        ensures heard { IfOk result (λ inbox. (records : List Row) → HasHeard (instance_for valid.now.view component replica) records [] inbox) }
        ensures feeds { IfOk result (λ inbox. feeds_in inbox ≡ length (feeds valid.now.view component replica)) }
        ensures kept { IfOk result (λ inbox. (records : List Row) → IsFrom records inbox) }
    {
        let mode = valid.mode(component);
        let ports = ports_of(alloc, valid, component, key_of(mode))?;
        let own = feeds_of(alloc, valid, component, replica)?;
        let feed_ports = ports_of_feeds(alloc, &own)?;
        Ok(Inbox {
            alloc,
            sealing: is_sealing(mode),
            feeds: Feeds::new(alloc, ports, &feed_ports, key)?,
            waiting: Waiting::new(alloc),
        })
    }

    /// Forgets all that was heard. It takes no memory.
    pub fn clear(&mut self)
        // It stands for no batches, whatever the pool from now on.
        ensures heard { (i : Instance) (records other : List Row) (batches : List Batch) → HasHeard i records batches self.old → HasHeard i other [] self.new }

        ensures feeds { feeds_in self.new ≡ feeds_in self.old }
        ensures kept { (records : List Row) → IsFrom records self.new }
    {
        self.feeds.clear();
        self.waiting.clear();
    }

    // The number of a partition, where there is one.
    fn number_if(&mut self, key: Option<&Record>) -> Result<Option<usize>, AllocError>
        ensures seen { IsSeenAs self.old self.new }
        ensures number { IfOk result (λ number. IsNumbered (partitions self.new.feeds) (option_map (λ k. k.now) key.entry) number) }
    {
        match key {
            None => Ok(None),
            Some(key) => Ok(Some(self.feeds.number_of(key)?)),
        }
    }

    // The number of a message's partition, where it has one.
    fn number_of(
        &mut self,
        pool: &Pool,
        feed: u32,
        message: &Message,
    ) -> Result<Option<usize>, AllocError>
        requires feed { feed < feeds_in self.old }
        requires given { IsGiven pool.now message.now }
        ensures seen { IsSeenAs self.old self.new }
        ensures number { IfOk result (λ number. let pair = pair_with_id pool.now (feed, message.now) in IsNumbered (partitions self.new.feeds) (key_by (feeds_view self.new.feeds) pair.0 pair.1) number) }
    {
        match message {
            Message::Row(id) => {
                let port = self.feeds.port_of(feed);
                let key = self.feeds.key_of(port, pool.get(*id))?;
                self.number_if(key.as_ref())
            }
            Message::Seal { key, .. } => self.number_if(Some(key)),
        }
    }

    // What a message touches, before its batch is heard.
    fn touch(&mut self, pool: &Pool, feed: u32, message: &Message) -> Result<Touched, AllocError>
        requires feed { feed < feeds_in self.old }
        requires given { IsGiven pool.now message.now }
        ensures seen { IsSeenAs self.old self.new }
        ensures touched { IfOk result (λ touched. let pair = pair_with_id pool.now (feed, message.now) in IsTouched (feeds_view self.new.feeds) (partitions self.new.feeds) (key_by (feeds_view self.new.feeds) pair.0 pair.1) touched) }
    {
        let number = self.number_of(pool, feed, message)?;
        let waits = !self.feeds.is_due(number);
        Ok(Touched { number, waits })
    }

    // The same of each message of a batch, in a list.
    fn touch_all(
        &mut self,
        pool: &Pool,
        batch: &[(u32, Message)],
    ) -> Result<Vec<Touched>, AllocError>
        requires feeds { All (λ pair. pair.0 < feeds_in self.old) batch.now }
        requires given { All (λ pair. IsGiven pool.now pair.1) batch.now }
        ensures seen { OnOk result (IsSeenAs self.old self.new) }
        ensures touched { IfOk result (λ touched. AreTouched pool.now (feeds_view self.new.feeds) (partitions self.new.feeds) batch.now touched.items) }
    {
        let mut touched = Vec::new(self.alloc);
        for (feed, message) in batch {
            touched.push(self.touch(pool, *feed, message)?)?;
        }
        Ok(touched)
    }

    // The same. A message alone makes no list.
    fn touches(&mut self, pool: &Pool, batch: &[(u32, Message)]) -> Result<Touches, AllocError>
        requires feeds { All (λ pair. pair.0 < feeds_in self.old) batch.now }
        requires given { All (λ pair. IsGiven pool.now pair.1) batch.now }
        ensures seen { OnOk result (IsSeenAs self.old self.new) }
        ensures touched { IfOk result (λ touches. AreTouched pool.now (feeds_view self.new.feeds) (partitions self.new.feeds) batch.now (touches_in touches)) }
    {
        if let [(feed, message)] = batch {
            return Ok(Touches::One(Some(self.touch(pool, *feed, message)?)));
        }
        Ok(Touches::Many(self.touch_all(pool, batch)?))
    }

    // Whether a record that comes goes with its batch.
    fn goes(&self, port: u32, id: Id, waits: bool) -> bool
        ensures { result ≡ goes_if self.now waits (port, id) }
    {
        !self.sealing || !(waits || self.waiting.knows(port, id))
    }

    // The record of a message with its port, where it goes with its batch.
    fn entry_going(&self, feed: u32, message: &Message, touched: Touched) -> Option<(u32, Id)>
        requires { feed < feeds_in self.now }
        ensures { cons_option result [] ≡ filter (goes_if self.now touched.waits) (cons_option (entry_id_of (feeds_view self.now.feeds) (feed, message.now)) []) }
    {
        if let Message::Row(id) = message {
            let port = self.feeds.port_of(feed);
            if self.goes(port, *id, touched.waits) {
                return Some((port, *id));
            }
        }
        None
    }

    // The records of a batch that go with it, in a list.
    fn all_going(
        &self,
        batch: &[(u32, Message)],
        touched: &[Touched],
    ) -> Result<Vec<(u32, Id)>, AllocError>
        requires feeds { All (λ pair. pair.0 < feeds_in self.now) batch.now }
        requires as_many { length touched.now ≡ length batch.now }
        ensures { IfOk result (λ going. (records : List Row) → AreTouched records (feeds_view self.now.feeds) (partitions self.now.feeds) batch.now touched.now → going.items ≡ filter (goes_in records self.now) (entry_ids_of (feeds_view self.now.feeds) batch.now)) }
    {
        let mut going = Vec::new(self.alloc);
        for at in 0..batch.len() {
            let pair = &batch[at];
            let entry = self.entry_going(pair.0, &pair.1, touched[at]);
            push_some(entry, &mut going)?;
        }
        Ok(going)
    }

    // The records of a batch that go with it. A message alone makes no list.
    fn going(&self, batch: &[(u32, Message)], touched: &[Touched]) -> Result<Going, AllocError>
        requires feeds { All (λ pair. pair.0 < feeds_in self.now) batch.now }
        requires as_many { length touched.now ≡ length batch.now }
        ensures { IfOk result (λ going. (records : List Row) → AreTouched records (feeds_view self.now.feeds) (partitions self.now.feeds) batch.now touched.now → going_entries going ≡ filter (goes_in records self.now) (entry_ids_of (feeds_view self.now.feeds) batch.now)) }
    {
        if let [(feed, message)] = batch {
            return Ok(Going::One(self.entry_going(*feed, message, touched[0])));
        }
        Ok(Going::Many(self.all_going(batch, touched)?))
    }

    // Keeps a record, where the mode is Seal.
    fn keep(&mut self, port: u32, id: Id, touched: Touched) -> Result<(), AllocError>
        requires { IsNumberIn (partitions self.old.feeds) touched.number }
        ensures mode { self.new.sealing ≡ self.old.sealing }
        ensures feeds { self.new.feeds ≡ self.old.feeds }
        ensures kept { OnOk result (self.old.sealing ≡ true → KeepsEntry self.old.waiting self.new.waiting (port, id) (key_at (partitions self.old.feeds) touched.number) touched.waits) }
        ensures idle { OnOk result (self.old.sealing ≡ false → self.new.waiting ≡ self.old.waiting) }
    {
        if !self.sealing {
            return Ok(());
        }
        match touched.number {
            None => self.waiting.keep(port, id, None, touched.waits),
            Some(number) => {
                let key = self.feeds.key_with(number);
                self.waiting.keep(port, id, Some(key), touched.waits)
            }
        }
    }

    // Counts a record, where it is one of a partition.
    fn count(&mut self, feed: u32, number: Option<usize>, id: Id) -> Result<(), AllocError>
        requires feed { feed < feeds_in self.old }
        requires number { IsNumberIn (partitions self.old.feeds) number }
        ensures mode { self.new.sealing ≡ self.old.sealing }
        ensures partitions { partitions self.new.feeds ≡ partitions self.old.feeds }
        ensures feeds { OnOk result (HearsIf (feeds_view self.old.feeds) (feeds_view self.new.feeds) feed (key_at (partitions self.old.feeds) number) id) }
        ensures waiting { self.new.waiting ≡ self.old.waiting }
    {
        match number {
            None => Ok(()),
            Some(number) => self.feeds.hear_row(feed, number, id),
        }
    }

    // Hears a record.
    fn hear_row(&mut self, feed: u32, id: Id, touched: Touched) -> Result<(), AllocError>
        requires feed { feed < feeds_in self.old }
        requires number { IsNumberIn (partitions self.old.feeds) touched.number }
        ensures partitions { OnOk result (partitions self.new.feeds ≡ partitions self.old.feeds) }
        ensures hears { OnOk result (HearsRecord self.old self.new feed (key_at (partitions self.old.feeds) touched.number) id touched.waits) }
    {
        let port = self.feeds.port_of(feed);
        self.keep(port, id, touched)?;
        self.count(feed, touched.number, id)?;
        Ok(())
    }

    // Hears a record, and stands for it.
    fn hear_record(
        &mut self,
        pool: &Pool,
        feed: u32,
        id: Id,
        touched: Touched,
    ) -> Result<(), AllocError>
        requires feed { feed < feeds_in self.old }
        requires given { id < length pool.now }
        requires number { IsNumberIn (partitions self.old.feeds) touched.number }
        ensures count { OnOk result (feeds_in self.new ≡ feeds_in self.old) }
        ensures partitions { OnOk result (partitions self.new.feeds ≡ partitions self.old.feeds) }
        ensures keeps { OnOk result ((i : Instance) (waits : Entry → Bool) (heard : List Pair) → IsHeardAs i (partitions self.old.feeds) waits (feed, row (row_with_id pool.now id)) touched
            → Keeps i pool.now waits heard self.old → Keeps i pool.now waits (heard ++ (feed, row (row_with_id pool.now id)) ∷ []) self.new) }
        ensures from { OnOk result (IsFrom pool.now self.old → IsFrom pool.now self.new) }
    {
        pool.known();
        self.hear_row(feed, id, touched)?;
        Ok(())
    }

    // Hears a seal, and stands for it.
    fn hear_seal(
        &mut self,
        pool: &Pool,
        feed: u32,
        count: u32,
        number: Option<usize>,
    ) -> Result<(), AllocError>
        requires feed { feed < feeds_in self.old }
        requires number { IsNumberIn (partitions self.old.feeds) number }
        ensures count { OnOk result (feeds_in self.new ≡ feeds_in self.old) }
        ensures partitions { OnOk result (partitions self.new.feeds ≡ partitions self.old.feeds) }
        ensures keeps { OnOk result ((i : Instance) (waits : Entry → Bool) (heard : List Pair) (key : Row) → key_at (partitions self.old.feeds) number ≡ Some key
            → Keeps i pool.now waits heard self.old → Keeps i pool.now waits (heard ++ (feed, seal key count) ∷ []) self.new) }
        ensures from { OnOk result (IsFrom pool.now self.old → IsFrom pool.now self.new) }
    {
        pool.known();
        match number {
            None => Ok(()),
            Some(number) => {
                self.feeds.hear_seal(feed, number, count)?;
                Ok(())
            }
        }
    }

    // Hears a message.
    fn hear_one(
        &mut self,
        pool: &Pool,
        feed: u32,
        message: &Message,
        touched: Touched,
    ) -> Result<(), AllocError>
        requires feed { feed < feeds_in self.old }
        requires given { IsGiven pool.now message.now }
        requires number { IsNumberIn (partitions self.old.feeds) touched.number }
        ensures count { OnOk result (feeds_in self.new ≡ feeds_in self.old) }
        ensures partitions { OnOk result (partitions self.new.feeds ≡ partitions self.old.feeds) }
        ensures keeps { OnOk result ((i : Instance) (waits : Entry → Bool) (heard : List Pair) → IsHeardAs i (partitions self.old.feeds) waits (pair_with_id pool.now (feed, message.now)) touched
            → Keeps i pool.now waits heard self.old → Keeps i pool.now waits (heard ++ pair_with_id pool.now (feed, message.now) ∷ []) self.new) }
        ensures from { OnOk result (IsFrom pool.now self.old → IsFrom pool.now self.new) }
    {
        match message {
            Message::Row(id) => {
                self.hear_record(pool, feed, *id, touched)?;
                Ok(())
            }
            Message::Seal { count, .. } => {
                self.hear_seal(pool, feed, *count, touched.number)?;
                Ok(())
            }
        }
    }

    // Hears the messages of a batch in their order.
    fn hear_all(
        &mut self,
        pool: &Pool,
        batch: &[(u32, Message)],
        touched: &[Touched],
    ) -> Result<(), AllocError>
        requires feeds { All (λ pair. pair.0 < feeds_in self.old) batch.now }
        requires given { All (λ pair. IsGiven pool.now pair.1) batch.now }
        requires as_many { length touched.now ≡ length batch.now }
        requires numbers { All (λ t. IsNumberIn (partitions self.old.feeds) t.number) touched.now }
        ensures count { OnOk result (feeds_in self.new ≡ feeds_in self.old) }
        ensures partitions { OnOk result (partitions self.new.feeds ≡ partitions self.old.feeds) }
        ensures keeps { OnOk result ((i : Instance) (waits : Entry → Bool) (heard : List Pair) → AreHeardAs i pool.now (partitions self.old.feeds) waits batch.now touched.now
            → Keeps i pool.now waits heard self.old → Keeps i pool.now waits (heard ++ batch_with_ids pool.now batch.now) self.new) }
        ensures from { OnOk result (IsFrom pool.now self.old → IsFrom pool.now self.new) }
    {
        for at in 0..batch.len() {
            let pair = &batch[at];
            self.hear_one(pool, pair.0, &pair.1, touched[at])?;
        }
        Ok(())
    }

    // The key value of a partition that is touched, where it wasn't whole and now is.
    fn became(&self, touched: Touched) -> Result<Option<Record>, AllocError>
        requires { IsNumberIn (partitions self.now.feeds) touched.number }
        ensures { IfOk result (λ key. key ≡ became_key (feeds_view self.now.feeds) (partitions self.now.feeds) touched) }
    {
        match touched.number {
            Some(number) if touched.waits && self.feeds.is_whole(number) => {
                Ok(Some(self.feeds.key_with(number).copy()?))
            }
            _ => Ok(None),
        }
    }

    // Those of the partitions that a batch touches.
    #[tactic(auto, using(std::proofs::lemmas::Grind::common_steps, std::proofs::lemmas::List::take_more, crate::proofs::Keeping::Loops::filter_map_last))]
    fn all_became(&self, touched: &[Touched]) -> Result<Vec<Record>, AllocError>
        requires { All (λ t. IsNumberIn (partitions self.now.feeds) t.number) touched.now }
        ensures { IfOk result (λ keys. keys.items ≡ filter_map (became_key (feeds_view self.now.feeds) (partitions self.now.feeds)) touched.now) }
    {
        let mut keys = Vec::new(self.alloc);
        for one in touched {
            push_some(self.became(*one)?, &mut keys)?;
        }
        Ok(keys)
    }

    // The same, each once, in the order of key values.
    fn whole_among(&self, touched: &[Touched]) -> Result<Vec<Record>, AllocError>
        requires { All (λ t. IsNumberIn (partitions self.now.feeds) t.number) touched.now }
        ensures { IfOk result (λ whole. whole.items ≡ set_of (filter_map (became_key (feeds_view self.now.feeds) (partitions self.now.feeds)) touched.now)) }
    {
        let keys = self.all_became(touched)?;
        Ok(in_order(keys))
    }

    // The entries at ports that carry the key, and the others.
    fn parted(&self, entries: &[(u32, Id)]) -> Result<Released, AllocError>
        ensures { IfOk result (λ parts. AreParted (feeds_view self.now.feeds) entries.now parts) }
    {
        let mut together = Vec::new(self.alloc);
        let mut alone = Vec::new(self.alloc);
        for entry in entries {
            if self.feeds.carries(entry.0) {
                together.push(*entry)?;
            } else {
                alone.push(*entry)?;
            }
        }
        Ok(Released { together, alone })
    }

    // What partitions that become whole release, where there are some. It is held no longer.
    fn release_all(&mut self, whole: &[Record]) -> Result<Option<Released>, AllocError>
        ensures { IfOk result (λ released. Releases self.old self.new whole.now released) }
    {
        if let [_, ..] = whole {
            let entries = self.waiting.released(whole)?;
            let released = self.parted(&entries)?;
            self.waiting.release(entries.len());
            return Ok(Some(released));
        }
        Ok(None)
    }

    // The same under Seal; else nothing was held.
    fn release(&mut self, whole: &[Record]) -> Result<Option<Released>, AllocError>
        ensures { IfOk result (λ released. Releases self.old self.new (if self.old.sealing then whole.now else []) released) }
    {
        if self.sealing {
            self.release_all(whole)
        } else {
            Ok(None)
        }
    }

    /// Hears a batch, whose ids the pool gave, as it gave those of all batches since the inbox was
    /// empty; between two calls the pool may get records (`pool_law`). A message costs one look-up of
    /// its key value by its hash, whatever the number of feeds, and a partition that becomes whole
    /// the sort of its records. The error is want of memory; afterwards the inbox can only be
    /// dropped.
    pub fn hear_batch(
        &mut self,
        pool: &Pool,
        batch: &[(u32, Message)],
    ) -> Result<SetOffIds, AllocError>
        requires feeds { All (λ pair. pair.0 < feeds_in self.old) batch.now }
        requires given { All (λ pair. IsGiven pool.now pair.1) batch.now }
        requires kept { IsFrom pool.now self.old }

        // Of every list of batches for which the inbox stood: the answer is what the batch sets off
        // after them, and the inbox then stands for them and this batch.
        ensures steps { IfOk result (λ set. (i : Instance) (batches : List Batch) → HasHeard i pool.now batches self.old → (set_off_read pool.now set).steps ≡ (set_off i (all_pairs batches) (batch_with_ids pool.now batch.now)).steps) }
        ensures whole { IfOk result (λ set. (i : Instance) (batches : List Batch) → HasHeard i pool.now batches self.old → set.whole ≡ (set_off i (all_pairs batches) (batch_with_ids pool.now batch.now)).whole) }
        ensures heard { OnOk result ((i : Instance) (batches : List Batch) → HasHeard i pool.now batches self.old → HasHeard i pool.now (batches ++ batch_with_ids pool.now batch.now ∷ []) self.new) }

        ensures feeds { OnOk result (feeds_in self.new ≡ feeds_in self.old) }
        ensures kept { OnOk result (IsFrom pool.now self.new) }
        ensures given { IfOk result (λ set. AreGivenTo pool.now set) }
    {
        pool.known();
        let ports = self.feeds.port_count();
        let touches = self.touches(pool, batch)?;
        let touched = touches.as_slice();
        let going = self.going(batch, touched)?;
        self.hear_all(pool, batch, touched)?;
        let whole = self.whole_among(touched)?;
        let released = self.release(&whole)?;
        Ok(SetOffIds {
            ports,
            released,
            going,
            whole: Items::from_vec(whole),
        })
    }

    /// Hears a batch, as `hear_batch` does, and makes timesteps of what it sets off, with copies of the
    /// records.
    pub fn hear(&mut self, pool: &Pool, batch: Vec<(u32, Message)>) -> Result<Timesteps, AllocError>
        requires feeds { All (λ pair. pair.0 < feeds_in self.old) batch.items }
        requires given { All (λ pair. IsGiven pool.now pair.1) batch.items }
        requires kept { IsFrom pool.now self.old }
        ensures steps { IfOk result (λ set. (i : Instance) (batches : List Batch) → HasHeard i pool.now batches self.old → set.steps ≡ (set_off i (all_pairs batches) (batch_with_ids pool.now batch.items)).steps) }
        ensures whole { IfOk result (λ set. (i : Instance) (batches : List Batch) → HasHeard i pool.now batches self.old → set.whole ≡ (set_off i (all_pairs batches) (batch_with_ids pool.now batch.items)).whole) }
        ensures heard { OnOk result ((i : Instance) (batches : List Batch) → HasHeard i pool.now batches self.old → HasHeard i pool.now (batches ++ batch_with_ids pool.now batch.items ∷ []) self.new) }
        ensures feeds { OnOk result (feeds_in self.new ≡ feeds_in self.old) }
        ensures kept { OnOk result (IsFrom pool.now self.new) }
    {
        let set = self.hear_batch(pool, batch.as_slice())?;
        timesteps_of(self.alloc, pool, set)
    }

    /// The number of feeds; a message is heard on a feed below it.
    pub fn feed_count(&self) -> usize
        ensures { result ≡ feeds_in self.now }
    {
        self.feeds.feed_count()
    }

    /// How many records wait, with their ports, each counted once. It is kept, not counted.
    pub fn held(&self) -> u64
        ensures { (i : Instance) (records : List Row) (batches : List Batch) → HasHeard i records batches self.now → result ≡ held_count i batches }
    {
        self.waiting.held as u64
    }
}
