//! The books of the instances of a topology, where none heard anything.
ghost use Rattle.std.specs.Prelude.{◌≡◌, ◌<◌, IfOk, OnOk, length};
ghost use Rattle.topo_forms.specs.View.{replicas_of};
ghost use Rattle.inbox.specs.Places.{ArePlaces, instance_place, instance_count};
ghost use Rattle.sched_net.specs.Code.First.{HeardNothing, IsFirst, AreFirst};

use crate::seated::{Ear, Seated};
use bloom_forms::Mode;
use blz_value::{HashKey, Items};
use inbox::{Inbox, Places, feeds_of, outlets_of};
use messages::Known;
use std::alloc::{AllocError, Global};
use topo_forms::Valid;

// What an instance hears that heard nothing.
fn ear_of(
    alloc: Global,
    valid: &Valid,
    component: u32,
    replica: u32,
    key: HashKey,
) -> Result<Ear, AllocError>
    requires component { component < length valid.now.view.components }
    requires replica { replica < replicas_of valid.now.view component }
    ensures { IfOk result (HeardNothing valid.now.view component replica) }
{
    match valid.mode(component) {
        Mode::Order => Ok(Ear::Takes(0)),
        Mode::Free | Mode::Pass(_) | Mode::Seal(_) => {
            let inbox = Inbox::with_key(alloc, valid, component, replica, key)?;
            Ok(Ear::Hears(inbox, Known::new(alloc)))
        }
    }
}

// The books of an instance that heard nothing.
fn seat_of(
    alloc: Global,
    valid: &Valid,
    places: &Places,
    component: u32,
    replica: u32,
    key: HashKey,
) -> Result<Seated, AllocError>
    requires places { ArePlaces valid.now.view places.now }
    requires component { component < length valid.now.view.components }
    requires replica { replica < replicas_of valid.now.view component }
    ensures { IfOk result (IsFirst valid.now.view component replica) }
{
    Ok(Seated {
        outlets: outlets_of(alloc, valid, places, component, replica)?,
        feeds: Items::from_vec(feeds_of(alloc, valid, component, replica)?),
        ear: ear_of(alloc, valid, component, replica, key)?,
    })
}

// Adds the books of each instance of a component.
fn push_seats(
    alloc: Global,
    valid: &Valid,
    places: &Places,
    component: u32,
    key: HashKey,
    seats: &mut Vec<Seated>,
) -> Result<(), AllocError>
    requires places { ArePlaces valid.now.view places.now }
    requires component { component < length valid.now.view.components }
    requires count { length seats.old.items ≡ instance_place valid.now.view component 0 }
    requires first { AreFirst valid.now.view seats.old.items }
    ensures count { OnOk result (length seats.new.items ≡ instance_place valid.now.view component (replicas_of valid.now.view component)) }
    ensures first { OnOk result (AreFirst valid.now.view seats.new.items) }
{
    for replica in 0..valid.replicas(component) {
        seats.push(seat_of(alloc, valid, places, component, replica, key)?)?;
    }
    Ok(())
}

/// The books of all instances, in component and replica order, where none heard anything; key values are
/// hashed under `key`. The error is want of memory.
pub(crate) fn first_seats(
    alloc: Global,
    valid: &Valid,
    places: &Places,
    key: HashKey,
) -> Result<Vec<Seated>, AllocError>
    requires { ArePlaces valid.now.view places.now }
    ensures count { IfOk result (λ seats. length seats.items ≡ instance_count valid.now.view) }
    ensures first { IfOk result (λ seats. AreFirst valid.now.view seats.items) }
{
    let mut seats = Vec::new(alloc);
    for component in 0..valid.component_count() {
        push_seats(alloc, valid, places, component, key, &mut seats)?;
    }
    Ok(seats)
}
