//! The records that an instance heard under Seal, each once, in the order first heard, and where
//! those of each partition stand among them.
ghost use Rattle.std.specs.Prelude.{◌≡◌, ◌&&◌, is_some, ◌+◌, ◌-◌, ◌≤◌, ◌∷◌, ◌++◌, [], ℕ, false, length, if◌then◌else◌, IfOk, IsTrue, OnOk};
ghost use Rattle.std.specs.BTreeMap.{IsUnchanged};
ghost use Rattle.std.specs.List.{flat_map, list_any, cons_option, slice_get};
ghost use Rattle.std.specs.Option.{option_map};
ghost use Rattle.std.specs.Ordering.{nat_cmp};
ghost use Rattle.blz_value.specs.Record.{Row};
ghost use Rattle.blz_value.specs.Sets.{set_by};
ghost use Rattle.inbox.specs.Code.Places.{places_of, PutsPlace};
ghost use Rattle.messages.specs.Log.{is_same_entry_id};

use blz_pool::Id;
use blz_value::Record;
use messages::Log;
use std::alloc::{AllocError, Global};
use std::collections::BTreeMap;

/// The log of what was heard, the places there of each partition's records, and how many of all
/// wait.
#[derive(Drop)]
pub(crate) struct Waiting {
    pub(crate) alloc: Global,
    pub(crate) log: Log,
    pub(crate) places: BTreeMap<Record, Vec<usize>>,
    pub(crate) held: usize,
    pub(crate) ghost few: { held ≤ length log },
}

// Puts a place behind those of a partition, where it has some, and answers whether it has.
fn is_put(
    places: &mut BTreeMap<Record, Vec<usize>>,
    key: &Record,
    place: usize,
) -> Result<bool, AllocError>
    ensures put { IfOk result (λ found. IsTrue found → PutsPlace places.old places.new key.now place) }
    ensures none { IfOk result (λ found. found ≡ false → places_of places.old key.now ≡ []) }
    ensures same { IfOk result (λ found. found ≡ false → IsUnchanged places.old places.new) }
{
    match places.get_mut(key) {
        Some(own) => {
            own.push(place)?;
            Ok(true)
        }
        None => Ok(false),
    }
}

// The list of one place.
fn one_place(alloc: Global, place: usize) -> Result<Vec<usize>, AllocError>
    ensures { IfOk result (λ own. own.items ≡ place ∷ []) }
{
    let mut own = Vec::new(alloc);
    own.push(place)?;
    Ok(own)
}

// Puts a place behind those of a partition.
fn put_place(
    alloc: Global,
    places: &mut BTreeMap<Record, Vec<usize>>,
    key: &Record,
    place: usize,
) -> Result<(), AllocError>
    ensures { OnOk result (PutsPlace places.old places.new key.now place) }
{
    if is_put(places, key, place)? {
        return Ok(());
    }
    let own = key.copy()?;
    let _ = places.insert(own, one_place(alloc, place)?)?;
    Ok(())
}

// Puts the places of a partition behind others.
fn add_places(
    places: &BTreeMap<Record, Vec<usize>>,
    key: &Record,
    into: &mut Vec<usize>,
) -> Result<(), AllocError>
    ensures { OnOk result (into.new.items ≡ into.old.items ++ places_of places.now key.now) }
{
    if let Some(own) = places.get(key) {
        into.extend_from_slice(own)?;
    }
    Ok(())
}

impl Waiting {
    ghost use Rattle.inbox.specs.Code.Waiting.{released_of, has_key, KeepsEntry};

    /// Nothing was heard.
    pub(crate) fn new(alloc: Global) -> Waiting
        ensures log { result.log ≡ [] }
        ensures places { (key : Row) → places_of result.places key ≡ [] }
        ensures held { result.held ≡ 0 }
    {
        Waiting {
            alloc,
            log: Log::new(alloc),
            places: BTreeMap::new(alloc),
            held: 0,
        }
    }

    /// Forgets what was heard. It takes no memory.
    pub(crate) fn clear(&mut self)
        ensures log { self.new.log ≡ [] }
        ensures places { (key : Row) → places_of self.new.places key ≡ [] }
        ensures held { self.new.held ≡ 0 }
    {
        self.held = 0;
        self.log.clear();
        self.places.clear();
    }

    /// Whether a record was heard at a port.
    pub(crate) fn knows(&self, port: u32, id: Id) -> bool
        ensures { result ≡ list_any (is_same_entry_id (port, id)) self.now.log }
    {
        self.log.knows((port, id))
    }

    // Puts the last entry of the log to its partition, and counts it where it waits.
    fn place_last(&mut self, place: usize, key: &Record, waits: bool) -> Result<(), AllocError>
        requires last { place + 1 ≡ length self.old.log }
        requires few { self.old.held + 1 ≤ length self.old.log }
        ensures log { self.new.log ≡ self.old.log }
        ensures places { OnOk result (PutsPlace self.old.places self.new.places key.now place) }
        ensures held { OnOk result (self.new.held ≡ (if waits then self.old.held + 1 else self.old.held)) }
    {
        put_place(self.alloc, &mut self.places, key, place)?;
        let _len = self.log.len();
        if waits {
            self.held += 1;
        }
        Ok(())
    }

    // Puts the last entry of the log to its partition, where it has one, and counts it where it
    // waits.
    fn place_new(
        &mut self,
        place: usize,
        key: Option<&Record>,
        waits: bool,
    ) -> Result<(), AllocError>
        requires last { place + 1 ≡ length self.old.log }
        requires few { self.old.held + 1 ≤ length self.old.log }
        ensures log { self.new.log ≡ self.old.log }
        ensures places { OnOk result ((k : Row) → places_of self.new.places k ≡ (if has_key (option_map (λ q. q.now) key.entry) k then places_of self.old.places k ++ place ∷ [] else places_of self.old.places k)) }
        ensures held { OnOk result (self.new.held ≡ (if is_some (option_map (λ q. q.now) key.entry) && waits then self.old.held + 1 else self.old.held)) }
    {
        match key {
            None => Ok(()),
            Some(key) => self.place_last(place, key, waits),
        }
    }

    /// Puts a record at a port behind the others, unless it was heard before, and counts it where it
    /// waits.
    pub(crate) fn keep(
        &mut self,
        port: u32,
        id: Id,
        key: Option<&Record>,
        waits: bool,
    ) -> Result<(), AllocError>
        ensures { OnOk result (KeepsEntry self.old self.new (port, id) (option_map (λ q. q.now) key.entry) waits) }
    {
        let place = self.log.len();
        if !self.log.append(port, id)? {
            return Ok(());
        }
        self.place_new(place, key, waits)?;
        Ok(())
    }

    // The places of some partitions' records, partition by partition.
    fn all_places(&self, keys: &[Record]) -> Result<Vec<usize>, AllocError>
        ensures { IfOk result (λ places. places.items ≡ flat_map (places_of self.now.places) keys.now) }
    {
        let mut places = Vec::new(self.alloc);
        for key in keys {
            add_places(&self.places, key, &mut places)?;
        }
        Ok(places)
    }

    // The same in the order of the log.
    fn places_in_order(&self, keys: &[Record]) -> Result<Vec<usize>, AllocError>
        ensures { IfOk result (λ places. places.items ≡ set_by nat_cmp (flat_map (places_of self.now.places) keys.now)) }
    {
        let mut places = self.all_places(keys)?;
        places.sort_unstable();
        places.dedup();
        Ok(places)
    }

    // Adds the entry at a place.
    fn push_entry(&self, place: usize, entries: &mut Vec<(u32, Id)>) -> Result<(), AllocError>
        ensures { OnOk result (entries.new.items ≡ entries.old.items ++ cons_option (slice_get self.now.log place) []) }
    {
        if let Some(entry) = self.log.entry(place) {
            entries.push(entry)?;
        }
        Ok(())
    }

    /// The records of some partitions with their ports, in the order first heard. Takes the time of
    /// a sort of what it answers.
    #[tactic(auto, using(std::proofs::lemmas::Grind::common_steps, std::proofs::lemmas::List::take_more, crate::proofs::Keeping::Loops::filter_map_last))]
    pub(crate) fn released(&self, keys: &[Record]) -> Result<Vec<(u32, Id)>, AllocError>
        ensures { IfOk result (λ entries. entries.items ≡ released_of self.now keys.now) }
    {
        let mut entries = Vec::new(self.alloc);
        let places = self.places_in_order(keys)?;
        for place in places.as_slice() {
            self.push_entry(*place, &mut entries)?;
        }
        Ok(entries)
    }

    /// So many no longer wait.
    pub(crate) fn release(&mut self, count: usize)
        ensures log { self.new.log ≡ self.old.log }
        ensures places { self.new.places ≡ self.old.places }
        ensures held { self.new.held ≡ self.old.held - count }
    {
        self.held = self.held.saturating_sub(count);
    }
}
