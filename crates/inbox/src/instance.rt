//! The ports and the feeds of an instance, off its topology.
ghost use Rattle.std.specs.Prelude.{◌≡◌, ◌<◌, ◌++◌, ◌||◌, not, Some, length, map, filter, IfOk, OnOk};
ghost use Rattle.std.specs.List.{flat_map, list_all};
ghost use Rattle.topo_forms.specs.Carried as carried;
ghost use Rattle.topo_forms.specs.Data.{key_places, place_of_attribute};
ghost use Rattle.topo_forms.specs.Feeds.{are_paired, feeds_from};
ghost use Rattle.blz_value.specs.NumberSets.{set_of_numbers, below};
ghost use Rattle.topo_forms.specs.View as view;
ghost use Rattle.inbox.specs.Wiring.{places_in_port, port_for, feeds_for};
ghost use Rattle.messages.specs.Ports.{port_key, port_keys};
ghost use Rattle.inbox.specs.Senders.{is_sender, senders_for};

use crate::feed::Feed;
use bloom_forms::Mode;
use blz_value::{Attrs, Items};
use messages::Port;
use std::alloc::{AllocError, Global};
use topo_forms::{Valid, carries, goes_to};

/// The key of a mode, where it has one.
pub(crate) fn key_of(mode: Mode) -> Option<Attrs>
    ensures { result ≡ view.mode_key mode }
{
    match mode {
        Mode::Pass(key) | Mode::Seal(key) => Some(key),
        Mode::Free | Mode::Order => None,
    }
}

// ---- ports

// Whether a stream carries a key.
fn carries_key(valid: &Valid, stream: u32, key: Attrs) -> bool
    requires { stream < length valid.now.view.streams }
    ensures { result ≡ carried.carries_key valid.now.view key.bits stream }
{
    valid.known();
    match carries(valid, stream) {
        Some(own) => own.bits == key.bits,
        None => false,
    }
}

// Whether a stream goes to a port.
fn is_fed(valid: &Valid, component: u32, port: u32) -> bool
    ensures { result ≡ view.has_stream valid.now.view component port }
{
    for stream in 0..valid.stream_count() {
        if goes_to(valid, component, port, stream) {
            return true;
        }
    }
    false
}

// Whether a stream doesn't go to a port, or carries a key.
fn passes(valid: &Valid, component: u32, port: u32, stream: u32, key: Attrs) -> bool
    requires { stream < length valid.now.view.streams }
    ensures { result ≡ (not (view.goes_to valid.now.view component port stream) || carried.carries_key valid.now.view key.bits stream) }
{
    !goes_to(valid, component, port, stream) || carries_key(valid, stream, key)
}

// Whether all streams to a port carry a key.
fn all_carry(valid: &Valid, component: u32, port: u32, key: Attrs) -> bool
    ensures { result ≡ list_all (λ s. not (view.goes_to valid.now.view component port s) || carried.carries_key valid.now.view key.bits s) (below (length valid.now.view.streams)) }
{
    for stream in 0..valid.stream_count() {
        if !passes(valid, component, port, stream, key) {
            return false;
        }
    }
    true
}

// Whether a port carries a key.
fn port_carries(valid: &Valid, component: u32, port: u32, key: Attrs) -> bool
    ensures { result ≡ carried.port_carries valid.now.view key.bits component port }
{
    is_fed(valid, component, port) && all_carry(valid, component, port, key)
}

// The attributes of some columns.
fn attrs_of(columns: &[u8]) -> Attrs
    ensures { result ≡ record { bits = set_of_numbers columns.now } }
{
    let mut attrs = Attrs::from_bits(0);
    for column in columns {
        attrs = attrs.union(Attrs::of(*column as usize));
    }
    attrs
}

// The place of an attribute among columns, and their number where it is none of them.
fn place_of(columns: &[u8], attribute: u8) -> usize
    ensures { result ≡ place_of_attribute (map Some columns.now) attribute }
{
    for place in 0..columns.len() {
        if columns[place] == attribute {
            return place;
        }
    }
    columns.len()
}

// The places of a key among columns.
#[tactic(auto, using(crate::proofs::Ranges::below_steps))]
fn places_of(alloc: Global, columns: &[u8], key: Attrs) -> Result<Vec<usize>, AllocError>
    ensures { IfOk result (λ places. places.items ≡ key_places (map Some columns.now) key.bits) }
{
    let mut places = Vec::new(alloc);
    for attribute in 0..64u8 {
        if key.has(attribute) {
            places.push(place_of(columns, attribute))?;
        }
    }
    Ok(places)
}

// The places of a key at a port, where it has all columns of it.
fn places_at(
    alloc: Global,
    valid: &Valid,
    component: u32,
    port: u32,
    key: Attrs,
) -> Result<Option<Items<usize>>, AllocError>
    requires component { component < length valid.now.view.components }
    requires port { port < length (view.component_at valid.now.view component).ports }
    ensures { IfOk result (λ places. places ≡ places_in_port valid.now.view component port key) }
{
    let columns = valid.port_columns(component, port);
    if !key.is_within(attrs_of(columns)) {
        return Ok(None);
    }
    Ok(Some(Items::from_vec(places_of(alloc, columns, key)?)))
}

fn port_with(
    alloc: Global,
    valid: &Valid,
    component: u32,
    port: u32,
    key: Option<Attrs>,
) -> Result<Port, AllocError>
    requires component { component < length valid.now.view.components }
    requires port { port < length (view.component_at valid.now.view component).ports }
    ensures { IfOk result (λ made. port_key made ≡ port_for valid.now.view component port key) }
{
    match key {
        None => Ok(Port {
            places: None,
            carries: false,
        }),
        Some(key) => Ok(Port {
            places: places_at(alloc, valid, component, port, key)?,
            carries: port_carries(valid, component, port, key),
        }),
    }
}

/// The ports of an instance of a component, where its mode has this key.
#[tactic(auto, using(crate::proofs::Ranges::below_steps))]
pub(crate) fn ports_of(
    alloc: Global,
    valid: &Valid,
    component: u32,
    key: Option<Attrs>,
) -> Result<Vec<Port>, AllocError>
    requires { component < length valid.now.view.components }
    ensures { IfOk result (λ ports. port_keys ports.items ≡ map (λ p. port_for valid.now.view component p key) (view.port_numbers valid.now.view component)) }
{
    let mut ports = Vec::new(alloc);
    for port in 0..valid.port_count(component) {
        ports.push(port_with(alloc, valid, component, port, key)?)?;
    }
    Ok(ports)
}

// ---- feeds

fn is_paired(senders: u32, receivers: u32, i: u32, j: u32) -> bool
    ensures { result ≡ are_paired senders receivers i j }
{
    if senders == receivers {
        i == j
    } else {
        senders == 1 || receivers == 1
    }
}

fn is_order(mode: Mode) -> bool
    ensures { result ≡ view.is_order_mode mode }
{
    matches!(mode, Mode::Order)
}

// Whether a sending replica of a stream feeds a replica of a component.
fn is_sender(valid: &Valid, component: u32, replica: u32, stream: u32, sender: u32) -> bool
    requires component { component < length valid.now.view.components }
    requires stream { stream < length valid.now.view.streams }
    ensures { result ≡ is_sender valid.now.view component replica stream sender }
{
    let senders = valid.stream_replicas(stream);
    let receivers = valid.replicas(component);
    is_order(valid.mode(component)) || is_paired(senders, receivers, sender, replica)
}

// Adds the feeds of a port from a stream.
#[tactic(auto, using(crate::proofs::Ranges::below_steps))]
fn push_from(
    valid: &Valid,
    component: u32,
    replica: u32,
    port: u32,
    stream: u32,
    into: &mut Vec<Feed>,
) -> Result<(), AllocError>
    requires component { component < length valid.now.view.components }
    requires stream { stream < length valid.now.view.streams }
    ensures { OnOk result (into.new.items ≡ into.old.items ++ feeds_from port stream (senders_for valid.now.view component replica stream)) }
{
    for sender in 0..valid.stream_replicas(stream) {
        if is_sender(valid, component, replica, stream, sender) {
            into.push(Feed {
                port,
                stream,
                sender,
            })?;
        }
    }
    Ok(())
}

// Adds the feeds of a port.
#[tactic(auto, using(crate::proofs::Ranges::below_steps))]
fn push_at(
    valid: &Valid,
    component: u32,
    replica: u32,
    port: u32,
    into: &mut Vec<Feed>,
) -> Result<(), AllocError>
    requires { component < length valid.now.view.components }
    ensures { OnOk result (into.new.items ≡ into.old.items ++ flat_map (λ s. feeds_from port s (senders_for valid.now.view component replica s)) (view.streams_to valid.now.view component port)) }
{
    for stream in 0..valid.stream_count() {
        if goes_to(valid, component, port, stream) {
            push_from(valid, component, replica, port, stream, into)?;
        }
    }
    Ok(())
}

/// The feeds of an instance, by their numbers: by port, then by stream, then by sending replica. Into
/// a component whose mode is Order every sending replica feeds the one log, so its replicas have the
/// same feeds. The error is want of memory.
#[tactic(auto, using(crate::proofs::Ranges::below_steps))]
pub fn feeds_of(
    alloc: Global,
    valid: &Valid,
    component: u32,
    replica: u32,
) -> Result<Vec<Feed>, AllocError>
    requires { component < length valid.now.view.components }
    ensures { IfOk result (λ feeds. feeds.items ≡ feeds_for valid.now.view component replica) }
{
    let mut feeds = Vec::new(alloc);
    for port in 0..valid.port_count(component) {
        push_at(valid, component, replica, port, &mut feeds)?;
    }
    Ok(feeds)
}

/// The ports of some feeds, in their order.
pub(crate) fn ports_of_feeds(alloc: Global, feeds: &[Feed]) -> Result<Vec<u32>, AllocError>
    ensures { IfOk result (λ ports. ports.items ≡ map (λ feed. feed.port) feeds.now) }
{
    let mut ports = Vec::new(alloc);
    for feed in feeds {
        ports.push(feed.port)?;
    }
    Ok(ports)
}
