//! Events by numbers: each name is looked for where one like it was found last, and else looked up.
ghost use Rattle.std.specs.Prelude.{◌≡◌, ◌<◌, ◌≤◌, length};
ghost use Rattle.topo_forms.specs.View.{component_at};
ghost use Rattle.sched_net.specs.Numbered.{stream_number, component_number, port_number, numbered_part};

use blz_value::Str;
use sched_text::Sent;
use std::marker::Model;
use topo_forms::Valid;

/// A message that goes to a port, by numbers; what has no name has the number past the end.
#[derive(Clone, Copy)]
pub struct NumberedPart {
    /// The number of the stream.
    pub stream: u32,
    /// The sender's replica, counted from 0.
    pub replica: u32,
    /// The place of the message in the emitted list, counted from 0.
    pub index: u32,
    /// The number of the port.
    pub port: u32,
}

impl Model for NumberedPart {
    ghost use Rattle.inbox.specs.Events.{Part};

    ghost Value = { Part };

    ghost view = { λ part. record { sent = record { stream = part.stream; replica = part.replica; index = part.index }; port = part.port } };

    ghost inverse = { λ part. record { stream = part.sent.stream; replica = part.sent.replica; index = part.sent.index; port = part.port } };
}

/// An event by numbers, where messages are heard one by one.
#[derive(Clone, Copy)]
pub enum NumberedEvent {
    /// One replica of a component hears a message at a port.
    Deliver {
        /// The message.
        part: NumberedPart,
        /// The receiver's number.
        component: u32,
        /// The receiver's replica, counted from 0.
        replica: u32,
    },
    /// A message goes to the log of a component.
    Order {
        /// The message.
        part: NumberedPart,
        /// The number of the component with the log.
        component: u32,
    },
    /// One replica of a component takes the next entry of the log.
    Take {
        /// The component's number.
        component: u32,
        /// Its replica, counted from 0.
        replica: u32,
    },
}

// The number of a stream, and that past the end where there is none of this name.
fn stream_of(valid: &Valid, name: &Str) -> u32
    ensures { result ≡ stream_number valid.now.view name.now }
{
    match valid.find_stream(name) {
        Some(stream) => stream,
        None => valid.stream_count(),
    }
}

/// The number of a component, and that past the end where there is none of this name.
pub(crate) fn component_of(valid: &Valid, name: &Str) -> u32
    ensures { result ≡ component_number valid.now.view name.now }
{
    match valid.find_component(name) {
        Some(component) => component,
        None => valid.component_count(),
    }
}

// The number of a port, and that past the end where the component has none of this name; a component
// that isn't there has none.
fn port_of(valid: &Valid, component: u32, name: &Str) -> u32
    ensures { result ≡ port_number valid.now.view component name.now }
{
    if component >= valid.component_count() {
        return 0;
    }
    match valid.find_port(component, name) {
        Some(port) => port,
        None => valid.port_count(component),
    }
}

/// Where names were found last, by their last bytes, at first the first of each: there the next ones are
/// looked for before the maps are asked. What the numbers are changes no answer.
#[derive(Default, Drop)]
pub struct Nearby {
    components: [u32; 16],
    streams: [u32; 16],
    ports: [u32; 16],
}

// The place of a name among sixteen. Names of one topology mostly differ in their last byte.
fn place_of(name: &Str) -> usize
    ensures { result < 16 }
{
    match name.as_str().as_bytes() {
        [.., last] => usize::from(*last % 16),
        [] => 0,
    }
}

impl Nearby {
    /// The number of a component, and that past the end where there is none of this name.
    #[tactic(auto, using(crate::proofs::NamesNumbered::component_is))]
    pub fn component(&mut self, valid: &Valid, name: &Str) -> u32
        ensures { result ≡ component_number valid.now.view name.now }
    {
        valid.known();
        let place = place_of(name);
        let near = self.components[place];
        if near < valid.component_count() && valid.component_name(near).equals(name) {
            return near;
        }
        let number = component_of(valid, name);
        self.components[place] = number;
        number
    }

    // The number of a stream, and that past the end where there is none of this name.
    #[tactic(auto, using(crate::proofs::NamesNumbered::stream_is))]
    fn stream(&mut self, valid: &Valid, name: &Str) -> u32
        ensures { result ≡ stream_number valid.now.view name.now }
    {
        valid.known();
        let place = place_of(name);
        let near = self.streams[place];
        if near < valid.stream_count() && valid.stream_name(near).equals(name) {
            return near;
        }
        let number = stream_of(valid, name);
        self.streams[place] = number;
        number
    }

    // The number of a port, and that past the end where the component has none of this name; a component
    // that isn't there has none.
    #[tactic(auto, using(crate::proofs::NamesNumbered::port_is))]
    fn port(&mut self, valid: &Valid, component: u32, name: &Str) -> u32
        ensures { result ≡ port_number valid.now.view component name.now }
    {
        valid.known();
        valid.whole();
        let place = place_of(name);
        let near = self.ports[place];
        if component < valid.component_count()
            && near < valid.port_count(component)
            && valid.port_name(component, near).equals(name)
        {
            return near;
        }
        let number = port_of(valid, component, name);
        self.ports[place] = number;
        number
    }

    /// A message that goes to a port of a component, by numbers.
    pub fn part(&mut self, valid: &Valid, component: u32, sent: &Sent, port: &Str) -> NumberedPart
        ensures { result ≡ numbered_part valid.now.view component sent.now port.now }
    {
        NumberedPart {
            stream: self.stream(valid, &sent.stream),
            replica: sent.replica,
            index: sent.index,
            port: self.port(valid, component, port),
        }
    }
}
