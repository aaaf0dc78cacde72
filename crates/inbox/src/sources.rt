//! What sources emit when a net is opened: the records that they hold, and then their seals.
ghost use Rattle.std.specs.Prelude.{◌≡◌, ◌<◌, ◌≤◌, ◌+◌, ◌*◌, ◌++◌, [], List, Some, length, map, IfOk, OnOk};
ghost use Rattle.blz_value.specs.Operators.{cells};
ghost use Rattle.blz_value.specs.Record.{Row};
ghost use Rattle.blz_value.specs.Sets.{set_of};
ghost use Rattle.topo_forms.specs.DataCounts.{count_of};
ghost use Rattle.topo_forms.specs.Data.{IsData};
ghost use Rattle.topo_forms.specs.Messages.{row, distinct_rows, source_messages};
ghost use Rattle.topo_forms.specs.View.{source_count, stream_at};
ghost use Rattle.messages.specs.Lists.{message_limit};
ghost use Rattle.messages.specs.Lists.{OneListBecomes, IsExact, read_lists, list_at, total};
ghost use Rattle.inbox.specs.Places.{ArePlaces};
ghost use Rattle.messages.specs.EmittedCounts.{seals_of};
ghost use Rattle.inbox.specs.Sources.{SourcesEmitted};

use crate::keys::key_columns;
use crate::places::{Places, list_count};
use blz_value::{Attrs, Record};
use messages::{EventFault, Lists, key_of};
use std::alloc::{AllocError, Global};
use std::collections::BTreeSet;
use topo_forms::{Data, SourceLists, Valid, carries};

// ---- partitions

// The key values of some records.
fn keys_of(alloc: Global, columns: &[u32], rows: &[Record]) -> Result<BTreeSet<Record>, AllocError>
    ensures { IfOk result (λ keys. keys.keys ≡ set_of (map (cells columns.now) rows.now)) }
{
    let mut keys = BTreeSet::new(alloc);
    for row in rows {
        let _ = keys.insert(key_of(alloc, row, columns)?)?;
    }
    Ok(keys)
}

// Adds declared partitions.
fn add_parts(keys: &mut BTreeSet<Record>, parts: &[Record]) -> Result<(), AllocError>
    ensures { OnOk result ((own : List Row) → keys.old.keys ≡ set_of own → keys.new.keys ≡ set_of (own ++ parts.now)) }
{
    for part in parts {
        let _ = keys.insert(part.copy()?)?;
    }
    Ok(())
}

// The partitions of a source with a key: the key values of its records, and its declared ones.
fn partitions_of(
    alloc: Global,
    columns: &[u32],
    rows: &[Record],
    parts: &[Record],
) -> Result<BTreeSet<Record>, AllocError>
    ensures { IfOk result (λ keys. keys.keys ≡ set_of (map (cells columns.now) rows.now ++ parts.now)) }
{
    let mut keys = keys_of(alloc, columns, rows)?;
    add_parts(&mut keys, parts)?;
    Ok(keys)
}

// ---- one source

// Emits the records of a source, which are taken over, each once, where there is room.
fn emit_records(lists: &mut Lists, place: usize, rows: Vec<Record>) -> Result<(), AllocError>
    requires place { place < length lists.old.lists }
    requires exact { IsExact lists.old }
    requires empty { list_at (read_lists lists.old) place ≡ [] }
    requires room { total lists.old.lists + length rows.items ≤ message_limit }
    ensures ok { OnOk result (OneListBecomes lists.old lists.new place (map row (distinct_rows rows.items))) }
    ensures exact { OnOk result (IsExact lists.new) }
{
    for row in rows {
        match lists.emit_own(place, row) {
            Ok(()) => {}
            Err(EventFault::TooManyMessages) => unreachable!(),
            // Nothing else comes than want of memory.
            Err(_) => return Err(AllocError),
        }
    }
    Ok(())
}

// Emits what a source with this key holds, where there is room for twice its records and partitions.
fn emit_keyed(
    alloc: Global,
    valid: &Valid,
    held: SourceLists,
    source: u32,
    key: Attrs,
    place: usize,
    lists: &mut Lists,
) -> Result<(), AllocError>
    requires source { source < source_count valid.now.view }
    requires place { place < length lists.old.lists }
    requires exact { IsExact lists.old }
    requires empty { list_at (read_lists lists.old) place ≡ [] }
    requires room { total lists.old.lists + 2 * count_of held ≤ message_limit }
    requires key { (stream_at valid.now.view source).key ≡ Some key }
    ensures ok { OnOk result (OneListBecomes lists.old lists.new place (source_messages (stream_at valid.now.view source) held)) }
    ensures exact { OnOk result (IsExact lists.new) }
{
    let columns = key_columns(alloc, valid, source, key)?;
    let keys = partitions_of(alloc, &columns, &held.rows, &held.parts)?;
    emit_records(lists, place, held.rows)?;
    lists.seal_partitions(place, &columns, &keys)?;
    Ok(())
}

// The key of a source, which is the one that it carries.
fn source_key(valid: &Valid, source: u32) -> Option<Attrs>
    requires { source < source_count valid.now.view }
    ensures { result ≡ (stream_at valid.now.view source).key }
{
    valid.known();
    carries(valid, source)
}

// Emits what a source holds, where there is room for twice its records and partitions.
fn emit_source(
    alloc: Global,
    valid: &Valid,
    held: SourceLists,
    source: u32,
    place: usize,
    lists: &mut Lists,
) -> Result<(), AllocError>
    requires source { source < source_count valid.now.view }
    requires place { place < length lists.old.lists }
    requires exact { IsExact lists.old }
    requires empty { list_at (read_lists lists.old) place ≡ [] }
    requires room { total lists.old.lists + 2 * count_of held ≤ message_limit }
    ensures ok { OnOk result (OneListBecomes lists.old lists.new place (source_messages (stream_at valid.now.view source) held)) }
    ensures exact { OnOk result (IsExact lists.new) }
{
    match source_key(valid, source) {
        Some(key) => emit_keyed(alloc, valid, held, source, key, place, lists),
        None => emit_records(lists, place, held.rows),
    }
}

// ---- all sources

/// The emitted lists when nothing is heard yet: those of sources have what these hold, and all others
/// are empty. The records are taken over, and each is looked up by its hash once, under a key that comes
/// from all of them. The error is want of memory.
pub fn first_lists(
    alloc: Global,
    valid: &Valid,
    places: &Places,
    given: Data,
) -> Result<Lists, AllocError>
    requires places { ArePlaces valid.now.view places.now }
    requires data { IsData valid.now.view given }
    ensures sources { IfOk result (λ lists. SourcesEmitted valid.now.view given (source_count valid.now.view) (read_lists lists)) }
    ensures exact { IfOk result IsExact }
{
    valid.known();
    let key = given.hash_key();
    let mut lists = Lists::new(alloc, list_count(valid), key)?;
    let mut source = 0;
    for held in given.into_sources() {
        let place = places.list(valid, source, 0);
        emit_source(alloc, valid, held, source, place, &mut lists)?;
        source += 1;
    }
    Ok(lists)
}
