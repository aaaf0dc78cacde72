//! What may happen in an execution, with names as they are written.

use blz_value::{Items, Str};

/// A message of the emitted list of a stream.
#[derive(Drop)]
pub struct Sent {
    /// The stream's name.
    pub stream: Str,
    /// The sender's replica, counted from 0.
    pub replica: u32,
    /// The place of the message in the emitted list, counted from 0.
    pub index: u32,
}

/// A message that goes to a port.
#[derive(Drop)]
pub struct Part {
    /// The message.
    pub sent: Sent,
    /// The port's name.
    pub port: Str,
}

/// An event of an execution.
#[derive(Drop)]
pub enum Event {
    /// One replica of a component hears a message at a port.
    Deliver {
        /// The message.
        sent: Sent,
        /// The receiver's name.
        component: Str,
        /// The port's name.
        port: Str,
        /// The receiver's replica, counted from 0.
        replica: u32,
    },
    /// A message goes to the log of a component.
    Order {
        /// The message.
        sent: Sent,
        /// The name of the component with the log.
        component: Str,
        /// The port's name.
        port: Str,
    },
    /// One replica of a component takes the next entry of the log.
    Take {
        /// The component's name.
        component: Str,
        /// Its replica, counted from 0.
        replica: u32,
    },
    /// One replica of a component hears messages at once.
    Batch {
        /// The receiver's name.
        component: Str,
        /// Its replica, counted from 0.
        replica: u32,
        /// The messages with their ports, in order.
        parts: Items<Part>,
    },
}
