//! The keys that ports carry.
ghost use Rattle.std.specs.Prelude.{◌≡◌, ◌<◌, ◌&&◌, IfSome, None, Some, if◌then◌else◌, length, not};
ghost use Rattle.std.specs.List.{find, list_all};
ghost use Rattle.blz_value.specs.Arrows as arrows;
ghost use Rattle.topo_forms.specs.Carried as carried;
ghost use Rattle.topo_forms.specs.View as view;

use blz_value::Attrs;
use topo_forms::{Valid, carries, goes_to};

// The first stream into a port.
fn first_into(valid: &Valid, component: u32, port: u32) -> Option<u32>
    ensures first { result ≡ find (view.goes_to valid.now.view component port) (view.stream_numbers valid.now.view) }
    ensures within { IfSome result (λ stream. stream < length valid.now.view.streams) }
{
    for stream in 0..valid.stream_count() {
        if goes_to(valid, component, port, stream) {
            return Some(stream);
        }
    }
    None
}

fn is_key(key: Attrs, other: Option<Attrs>) -> bool
    ensures { result ≡ arrows.is_key key.bits other }
{
    match other {
        Some(own) => own.bits == key.bits,
        None => false,
    }
}

fn carries_key(valid: &Valid, stream: u32, key: Attrs) -> bool
    requires { stream < length valid.now.view.streams }
    ensures { result ≡ carried.carries_key valid.now.view key.bits stream }
{
    valid.known();
    is_key(key, carries(valid, stream))
}

// Whether a stream goes to a port and doesn't carry the key.
fn is_other(valid: &Valid, component: u32, port: u32, key: Attrs, stream: u32) -> bool
    requires { stream < length valid.now.view.streams }
    ensures { result ≡ (view.goes_to valid.now.view component port stream && not (carried.carries_key valid.now.view key.bits stream)) }
{
    goes_to(valid, component, port, stream) && !carries_key(valid, stream, key)
}

// Whether all streams into a port carry the key.
fn all_carry(valid: &Valid, component: u32, port: u32, key: Attrs) -> bool
    ensures { result ≡ list_all (carried.carries_key valid.now.view key.bits) (view.streams_to valid.now.view component port) }
{
    for stream in 0..valid.stream_count() {
        if is_other(valid, component, port, key, stream) {
            return false;
        }
    }
    true
}

// The key, where all streams into the port carry it.
fn key_of_all(valid: &Valid, component: u32, port: u32, key: Attrs) -> Option<Attrs>
    ensures { result ≡ (if list_all (carried.carries_key valid.now.view key.bits) (view.streams_to valid.now.view component port) then Some key else None) }
{
    if all_carry(valid, component, port, key) {
        Some(key)
    } else {
        None
    }
}

// The key that a port carries, where this is its first stream.
fn key_from(valid: &Valid, component: u32, port: u32, first: u32) -> Option<Attrs>
    requires within { first < length valid.now.view.streams }
    requires first { find (view.goes_to valid.now.view component port) (view.stream_numbers valid.now.view) ≡ Some first }
    ensures { result ≡ carried.port_key valid.now.view component port }
{
    match carries(valid, first) {
        Some(key) => key_of_all(valid, component, port, key),
        None => None,
    }
}

/// The key that a port carries: that of all its streams, where it has one.
pub fn port_key(valid: &Valid, component: u32, port: u32) -> Option<Attrs>
    ensures { result ≡ carried.port_key valid.now.view component port }
{
    match first_into(valid, component, port) {
        Some(first) => key_from(valid, component, port, first),
        None => None,
    }
}
