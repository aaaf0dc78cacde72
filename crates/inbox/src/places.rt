//! Where the instances of each component and the emitted lists of each stream stand.
ghost use Rattle.std.specs.Prelude.{◌≡◌, ◌<◌, IfOk, length, map};
ghost use Rattle.topo_forms.specs.View.{component_numbers, stream_numbers, replicas_of, stream_replicas};
ghost use Rattle.inbox.specs.Places.{ArePlaces, instance_place, list_place, list_count};

use blz_value::Items;
use std::alloc::{AllocError, Global};
use topo_forms::Valid;

/// The places at which the instances of each component begin, and the emitted lists of each stream.
#[derive(Drop)]
pub struct Places {
    pub instances: Items<usize>,
    pub lists: Items<usize>,
}

impl Places {
    /// The places of a topology. The error is want of memory.
    pub fn of(alloc: Global, valid: &Valid) -> Result<Places, AllocError>
        ensures { IfOk result (ArePlaces valid.now.view) }
    {
        Ok(Places {
            instances: Items::from_vec(instance_places(alloc, valid)?),
            lists: Items::from_vec(list_places(alloc, valid)?),
        })
    }

    /// The place of a replica of a component.
    pub fn instance(&self, valid: &Valid, component: u32, replica: u32) -> usize
        requires places { ArePlaces valid.now.view self.now }
        requires component { component < length valid.now.view.components }
        requires replica { replica < replicas_of valid.now.view component }
        ensures { result ≡ instance_place valid.now.view component replica }
    {
        valid.known();
        self.instances.as_slice()[component as usize] + replica as usize
    }

    /// The place of the emitted list of a sending replica of a stream.
    pub fn list(&self, valid: &Valid, stream: u32, replica: u32) -> usize
        requires places { ArePlaces valid.now.view self.now }
        requires stream { stream < length valid.now.view.streams }
        requires replica { replica < stream_replicas valid.now.view stream }
        ensures { result ≡ list_place valid.now.view stream replica }
    {
        valid.known();
        self.lists.as_slice()[stream as usize] + replica as usize
    }
}

// Where the instances of each component begin.
fn instance_places(alloc: Global, valid: &Valid) -> Result<Vec<usize>, AllocError>
    ensures { IfOk result (λ places. places.items ≡ map (λ c. instance_place valid.now.view c 0) (component_numbers valid.now.view)) }
{
    valid.known();
    let mut places = Vec::new(alloc);
    let mut next: usize = 0;
    for component in 0..valid.component_count() {
        places.push(next)?;
        next += valid.replicas(component) as usize;
    }
    Ok(places)
}

// Where the emitted lists of each stream begin.
fn list_places(alloc: Global, valid: &Valid) -> Result<Vec<usize>, AllocError>
    ensures { IfOk result (λ places. places.items ≡ map (λ s. list_place valid.now.view s 0) (stream_numbers valid.now.view)) }
{
    valid.known();
    let mut places = Vec::new(alloc);
    let mut next: usize = 0;
    for stream in 0..valid.stream_count() {
        places.push(next)?;
        next += valid.stream_replicas(stream) as usize;
    }
    Ok(places)
}

/// How many emitted lists there are.
pub fn list_count(valid: &Valid) -> usize
    ensures { result ≡ list_count valid.now.view }
{
    valid.known();
    let mut count: usize = 0;
    for stream in 0..valid.stream_count() {
        count += valid.stream_replicas(stream) as usize;
    }
    count
}
