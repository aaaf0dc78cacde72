//! Where an instance emits: the outputs that have a stream.
ghost use Rattle.std.specs.Prelude.{◌≡◌, ◌<◌, ◌≤◌, ℕ, List, length, slice_get, slice_set, option_copied, Err, IfOk, OnOk};
ghost use Rattle.std.specs.List.{All};
ghost use Rattle.blz_value.specs.Record.{Row};
ghost use Rattle.blz_value.specs.Sets.{IsRowSet};
ghost use Rattle.bloom_eval.specs.Puts.{ArePutFrom, put_rows, puts_in};
ghost use Rattle.bloom_forms.specs.Step.{set_at};
ghost use Rattle.inbox.specs.Emission.{with_rows, with_seals};
ghost use Rattle.inbox.specs.Growth.{Continues};
ghost use Rattle.messages.specs.Lists.{message_limit};
ghost use Rattle.messages.specs.Lists.{OneListBecomes, IsExact, read_lists, list_at, total};
ghost use Rattle.messages.specs.Faults.{IsLimit};
ghost use Rattle.inbox.specs.Wiring.{carried_places};
ghost use Rattle.topo_forms.specs.View as view;
ghost use Rattle.inbox.specs.Places.{ArePlaces};
ghost use Rattle.inbox.specs.Outlets.{emit_outlets, seal_outlets, output_number, outlet_for, outlets_for};
ghost use Rattle.messages.specs.declared.fault.EventFault.TheVariants.{TooManyMessages};

use crate::keys::key_columns;
use crate::places::Places;
use bloom_eval::{Put, Puts};
use blz_value::{Items, Record};
use messages::{EventFault, Lists};
use std::alloc::{AllocError, Global};
use topo_forms::{Valid, carries};

/// An output that has a stream: its number, the place of its emitted list, and the places of the
/// key among its columns, where the stream carries one.
#[derive(Drop)]
pub struct Outlet {
    pub output: u32,
    pub place: usize,
    pub key: Option<Items<u32>>,
}

// That what is put out at an output is a set; the call does nothing.
fn is_set(put: &Put)
    ensures { (records : List Row) → IsRowSet (put_rows records put.now) }
{
    match put {
        Put::Arrived(_) => {}
        Put::Rows(set) => {
            let _ = set.rows();
        }
    }
}

/// That what is put out at each output is a set; it takes a step for each.
pub(crate) fn are_sets(puts: &Puts)
    ensures { (records : List Row) (n : ℕ) → IsRowSet (set_at (puts_in records puts.now) n) }
{
    for put in puts.as_slice() {
        is_set(put);
    }
}

// What is put out at an output, None past the end.
fn put_at(puts: &Puts, output: u32) -> Option<&Put>
    ensures { option_copied result ≡ slice_get puts.now output }
{
    puts.as_slice().get(output as usize)
}

// Emits what is put out at an outlet's output.
fn emit_put(lists: &mut Lists, outlet: &Outlet, puts: &Puts) -> Result<(), EventFault>
    requires place { outlet.now.place < length lists.old.lists }
    requires given { ArePutFrom lists.old.records puts.now }
    requires exact { IsExact lists.old }
    ensures ok { OnOk result (OneListBecomes lists.old lists.new outlet.now.place (with_rows (list_at (read_lists lists.old) outlet.now.place) (set_at (puts_in lists.old.records puts.now) outlet.now.output))) }
    ensures exact { OnOk result (IsExact lists.new) }
    ensures few { OnOk result (total lists.new.lists ≤ message_limit) }
    ensures too_many { result ≡ Err TooManyMessages → message_limit < total (slice_set (read_lists lists.old) outlet.now.place (with_rows (list_at (read_lists lists.old) outlet.now.place) (set_at (puts_in lists.old.records puts.now) outlet.now.output))) }
    ensures legal { IsLimit result }
{
    lists.known();
    match put_at(puts, outlet.output) {
        Some(Put::Arrived(id)) => lists.emit_id(outlet.place, *id),
        Some(Put::Rows(set)) => lists.emit_rows(outlet.place, set.rows()),
        None => Ok(()),
    }
}

/// Emits what a step puts out, output by output; a record that arrived is emitted by its id.
/// TooManyMessages comes exactly where the lists would have more messages together than they may. A
/// fault leaves the lists with part of this.
pub(crate) fn emit_puts(
    lists: &mut Lists,
    outlets: &[Outlet],
    puts: &Puts,
) -> Result<(), EventFault>
    requires places { All (λ o. o.place < length lists.old.lists) outlets.now }
    requires given { ArePutFrom lists.old.records puts.now }
    requires exact { IsExact lists.old }
    ensures ok { OnOk result (read_lists lists.new ≡ emit_outlets outlets.now (puts_in lists.old.records puts.now) (read_lists lists.old)) }
    ensures records { OnOk result (Continues lists.old.records lists.new.records) }
    ensures exact { OnOk result (IsExact lists.new) }
    ensures count { OnOk result (length lists.new.lists ≡ length lists.old.lists) }
    ensures few { OnOk result (total lists.new.lists ≤ message_limit) }
    ensures too_many { result ≡ Err TooManyMessages → message_limit < total (emit_outlets outlets.now (puts_in lists.old.records puts.now) (read_lists lists.old)) }
    ensures legal { IsLimit result }
{
    lists.known();
    for outlet in outlets {
        emit_put(lists, outlet, puts)?;
    }
    Ok(())
}

// Emits the seals of an outlet's list, where its stream carries the key.
fn seal_output(lists: &mut Lists, outlet: &Outlet, keys: &[Record]) -> Result<(), EventFault>
    requires place { outlet.now.place < length lists.old.lists }
    requires exact { IsExact lists.old }
    ensures ok { OnOk result (OneListBecomes lists.old lists.new outlet.now.place (with_seals outlet.now.key (list_at (read_lists lists.old) outlet.now.place) keys.now)) }
    ensures exact { OnOk result (IsExact lists.new) }
    ensures few { OnOk result (total lists.new.lists ≤ message_limit) }
    ensures too_many { result ≡ Err TooManyMessages → message_limit < total (slice_set (read_lists lists.old) outlet.now.place (with_seals outlet.now.key (list_at (read_lists lists.old) outlet.now.place) keys.now)) }
    ensures legal { IsLimit result }
{
    lists.known();
    match &outlet.key {
        Some(columns) => lists.emit_seals(outlet.place, columns.as_slice(), keys),
        None => Ok(()),
    }
}

/// Emits the seals of partitions that became whole, in the lists of the outlets whose streams carry
/// the key, as `emit_puts` does.
pub(crate) fn emit_seals(
    lists: &mut Lists,
    outlets: &[Outlet],
    keys: &[Record],
) -> Result<(), EventFault>
    requires places { All (λ o. o.place < length lists.old.lists) outlets.now }
    requires exact { IsExact lists.old }
    ensures ok { OnOk result (read_lists lists.new ≡ seal_outlets outlets.now keys.now (read_lists lists.old)) }
    ensures records { OnOk result (Continues lists.old.records lists.new.records) }
    ensures exact { OnOk result (IsExact lists.new) }
    ensures count { OnOk result (length lists.new.lists ≡ length lists.old.lists) }
    ensures few { OnOk result (total lists.new.lists ≤ message_limit) }
    ensures too_many { result ≡ Err TooManyMessages → message_limit < total (seal_outlets outlets.now keys.now (read_lists lists.old)) }
    ensures legal { IsLimit result }
{
    lists.known();
    for outlet in outlets {
        seal_output(lists, outlet, keys)?;
    }
    Ok(())
}

// ---- the outlets of an instance

// Whether a stream comes from a component.
fn comes_from(valid: &Valid, component: u32, stream: u32) -> bool
    requires { stream < length valid.now.view.streams }
    ensures { result ≡ view.comes_from valid.now.view component stream }
{
    match valid.origin(stream) {
        Some((own, _)) => own == component,
        None => false,
    }
}

// The output from which a stream comes, and 0 of a source.
fn output_of(valid: &Valid, stream: u32) -> u32
    requires { stream < length valid.now.view.streams }
    ensures { result ≡ output_number (view.origin_of valid.now.view stream) }
{
    match valid.origin(stream) {
        Some((_, output)) => output,
        None => 0,
    }
}

// The places of the key that a stream carries.
fn carried_columns(
    alloc: Global,
    valid: &Valid,
    stream: u32,
) -> Result<Option<Items<u32>>, AllocError>
    requires { stream < length valid.now.view.streams }
    ensures { IfOk result (λ key. key ≡ carried_places valid.now.view stream) }
{
    match carries(valid, stream) {
        Some(key) => {
            let columns = key_columns(alloc, valid, stream, key)?;
            Ok(Some(Items::from_vec(columns)))
        }
        None => Ok(None),
    }
}

// The outlet for a stream that a replica sends.
fn outlet_for(
    alloc: Global,
    valid: &Valid,
    places: &Places,
    replica: u32,
    stream: u32,
) -> Result<Outlet, AllocError>
    requires places { ArePlaces valid.now.view places.now }
    requires stream { stream < length valid.now.view.streams }
    requires replica { replica < view.stream_replicas valid.now.view stream }
    ensures { IfOk result (λ outlet. outlet ≡ outlet_for valid.now.view replica stream) }
{
    Ok(Outlet {
        output: output_of(valid, stream),
        place: places.list(valid, stream, replica),
        key: carried_columns(alloc, valid, stream)?,
    })
}

/// The outlets of an instance: one for each stream from its component, in order. The error is want of
/// memory.
#[tactic(auto, using(crate::proofs::Ranges::below_steps))]
pub fn outlets_of(
    alloc: Global,
    valid: &Valid,
    places: &Places,
    component: u32,
    replica: u32,
) -> Result<Items<Outlet>, AllocError>
    requires places { ArePlaces valid.now.view places.now }
    requires replica { replica < view.replicas_of valid.now.view component }
    ensures { IfOk result (λ outlets. outlets ≡ outlets_for valid.now.view component replica) }
{
    let mut outlets = Vec::new(alloc);
    for stream in 0..valid.stream_count() {
        if comes_from(valid, component, stream) {
            outlets.push(outlet_for(alloc, valid, places, replica, stream)?)?;
        }
    }
    Ok(Items::from_vec(outlets))
}
