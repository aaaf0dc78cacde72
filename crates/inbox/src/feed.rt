//! On which ways messages come to an instance.
use std::marker::Model;

/// A feed of an instance, by numbers: a port, a stream that goes there, and of the replicas that send
/// the stream one.
#[derive(Clone, Copy)]
pub struct Feed {
    pub port: u32,
    pub stream: u32,
    pub sender: u32,
}

impl Model for Feed {
    ghost use Rattle.topo_forms.specs.Feeds.{Feed};

    ghost Value = { Feed };

    ghost view = { λ feed. record { port = feed.port; stream = feed.stream; sender = feed.sender } };

    ghost inverse = { λ feed. record { port = feed.port; stream = feed.stream; sender = feed.sender } };
}
