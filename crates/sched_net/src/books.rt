//! What a net keeps beside its shells.
ghost use Rattle.std.specs.Prelude.{◌≡◌, ◌<◌, Some, length, slice_get};
ghost use Rattle.std.specs.List.{All};
ghost use Rattle.topo_forms.specs.View.{replicas_of};
ghost use Rattle.messages.specs.Ids.{IsGiven};
ghost use Rattle.sched_net.specs.Net.{BooksRun};
ghost use Rattle.sched_net.specs.Seen.{list_seen};
ghost use Rattle.sched_net.specs.Code.Hearing.{EndsAt};
ghost use Rattle.inbox.specs.Places.{instance_place};

use crate::seated::Seated;
use bloom_eval::Puts;
use inbox::Places;
use messages::{EventFault, Lists, Log, MessageList};
use topo_forms::Valid;

/// The emitted lists over one pool, a log for each component, and the books of each instance, in
/// component and replica order; and whether a fault ended the net.
#[derive(Drop)]
pub struct Books {
    /// Where the instances and the emitted lists stand.
    pub places: Places,
    /// The emitted lists.
    pub lists: Lists,
    /// The logs.
    pub logs: Vec<Log>,
    /// The books of the instances.
    pub seats: Vec<Seated>,
    /// What the last step put out; the memory is kept for the next one.
    pub puts: Puts,
    /// Whether a fault ended the net.
    pub ended: bool,
}

impl Books {
    /// The messages of the emitted list of a sending replica of a stream, none where it isn't there.
    pub fn messages(&self, valid: &Valid, stream: u32, replica: u32) -> MessageList<'_>
        requires { BooksRun valid.now.view self.now }
        ensures list { result ≡ list_seen valid.now.view self.now.lists.lists stream replica }
        ensures given { All (IsGiven self.now.lists.records) result }
    {
        if stream >= valid.stream_count() {
            return MessageList::none();
        }
        if replica >= valid.stream_replicas(stream) {
            return MessageList::none();
        }
        let place = self.places.list(valid, stream, replica);
        self.lists.list(place)
    }

    /// The books of an instance.
    pub fn seat_at(&self, valid: &Valid, component: u32, replica: u32) -> &Seated
        requires runs { BooksRun valid.now.view self.now }
        requires component { component < length valid.now.view.components }
        requires replica { replica < replicas_of valid.now.view component }
        ensures { slice_get self.now.seats.items (instance_place valid.now.view component replica) ≡ Some result.now }
    {
        let place = self.places.instance(valid, component, replica);
        &self.seats[place]
    }

    /// Ends the net at a fault that is no refusal.
    pub(crate) fn end_at(&mut self, answer: &Result<(), EventFault>)
        ensures { EndsAt self.old self.new answer.now }
    {
        match answer {
            Ok(())
            | Err(EventFault::NoInstance | EventFault::NoMessage | EventFault::NothingToTake) => {}
            Err(EventFault::TooManyRows | EventFault::TooManyMessages | EventFault::NoMemory) => {
                self.ended = true;
            }
        }
    }
}
