//! The parts of an event: which message each is, and on which feed it comes.
ghost use Rattle.std.specs.Prelude.{◌≡◌, ◌<◌, ◌==◌, ◌&&◌, length, map, position, slice_get, IfOk, IfSome};
ghost use Rattle.std.specs.List.{All};
ghost use Rattle.topo_forms.specs.View.{replicas_of, stream_replicas};
ghost use Rattle.inbox.specs.Executions.{feed_of};
ghost use Rattle.messages.specs.Ids.{IsGiven, message_with_id, batch_with_ids};
ghost use Rattle.inbox.specs.Wiring.{instance_for, feeds_for};
ghost use Rattle.messages.specs.Lists.{read_lists, list_at};
ghost use Rattle.sched_net.specs.Net.{BooksRun};
ghost use Rattle.inbox.specs.Places.{list_place};
ghost use Rattle.messages.specs.Faults.{IsLimit};
ghost use Rattle.sched_net.specs.Code.Parts.{FeedsRise, PairAnswers, PairsAnswer, StandsAt, HaveIndexes};

use crate::books::Books;
use crate::numbered::NumberedPart;
use inbox::Feed;
use messages::{EventFault, Message};
use std::alloc::{AllocError, Global};
use topo_forms::Valid;

/// Messages by the numbers of the feeds on which they come, and the index of each in its emitted
/// list.
#[derive(Drop)]
pub(crate) struct Pairs {
    pub(crate) pairs: Vec<(u32, Message)>,
    pub(crate) indexes: Vec<(u32, u32)>,
}

// The number of the feed on which a part comes, None where there is none. Feeds go by port, stream
// and sender, so it is a binary search.
fn feed_of(feeds: &[Feed], part: NumberedPart) -> Option<usize>
    requires { FeedsRise feeds.now }
    ensures { result ≡ position (λ feed. feed.port == part.port && (feed.stream == part.sent.stream && feed.sender == part.sent.replica)) feeds.now }
{
    let wanted = (part.port, part.stream, part.replica);
    feeds
        .binary_search_by_key(&wanted, |feed| (feed.port, feed.stream, feed.sender))
        .ok()
}

// The number of a feed as an inbox has it; an instance never has so many that there is none.
fn feed_number(feed: usize) -> Result<u32, AllocError>
    ensures { IfOk result (λ number. number ≡ feed) }
{
    match u32::try_from(feed) {
        Ok(number) => Ok(number),
        Err(_) => Err(AllocError),
    }
}

impl Books {
    // The number of the feed on which a part comes to an instance, None where there is none.
    fn feed_to(
        &self,
        valid: &Valid,
        component: u32,
        replica: u32,
        part: NumberedPart,
    ) -> Option<usize>
        requires runs { BooksRun valid.now.view self.now }
        requires component { component < length valid.now.view.components }
        requires replica { replica < replicas_of valid.now.view component }
        ensures { result ≡ feed_of (instance_for valid.now.view component replica) part }
    {
        let place = self.places.instance(valid, component, replica);
        feed_of(self.seats[place].feeds.as_slice(), part)
    }

    // The message of a part that comes on a feed, of its own; None past the end of its emitted list.
    fn message_of(&self, valid: &Valid, part: NumberedPart) -> Result<Option<Message>, AllocError>
        requires runs { BooksRun valid.now.view self.now }
        requires stream { part.sent.stream < length valid.now.view.streams }
        requires sender { part.sent.replica < stream_replicas valid.now.view part.sent.stream }
        ensures message { IfOk result (λ message. message ≡ slice_get (list_at self.now.lists.lists (list_place valid.now.view part.sent.stream part.sent.replica)) part.sent.index) }
        ensures given { IfOk result (λ message. IfSome message (IsGiven self.now.lists.records)) }
    {
        let place = self.places.list(valid, part.stream, part.replica);
        self.lists.list(place).message(part.index as usize)
    }

    /// The message of a part and the number of the feed on which it comes to an instance. NoInstance
    /// comes where there is no such feed, and NoMessage where its emitted list isn't so long.
    pub(crate) fn pair_of(
        &self,
        valid: &Valid,
        component: u32,
        replica: u32,
        part: NumberedPart,
    ) -> Result<(u32, Message), EventFault>
        requires runs { BooksRun valid.now.view self.now }
        requires component { component < length valid.now.view.components }
        requires replica { replica < replicas_of valid.now.view component }
        ensures pair { PairAnswers valid.now.view self.now component replica part result }
        ensures feed { IfOk result (λ pair. pair.0 < length (feeds_for valid.now.view component replica)) }
        ensures given { IfOk result (λ pair. IsGiven self.now.lists.records pair.1) }
        ensures index { IfOk result (λ pair. StandsAt valid.now.view (instance_for valid.now.view component replica) (read_lists self.now.lists) pair.0 part.sent.index (message_with_id self.now.lists.records pair.1)) }
    {
        valid.known();
        let Some(feed) = self.feed_to(valid, component, replica, part) else {
            return Err(EventFault::NoInstance);
        };
        match self.message_of(valid, part)? {
            Some(message) => Ok((feed_number(feed)?, message)),
            None => Err(EventFault::NoMessage),
        }
    }

    /// The pairs of some parts, or the first refusal.
    pub(crate) fn pairs_of(
        &self,
        alloc: Global,
        valid: &Valid,
        component: u32,
        replica: u32,
        parts: &[NumberedPart],
    ) -> Result<Pairs, EventFault>
        requires runs { BooksRun valid.now.view self.now }
        requires component { component < length valid.now.view.components }
        requires replica { replica < replicas_of valid.now.view component }
        ensures pairs { PairsAnswer valid.now.view self.now component replica parts.now result (λ all. all.pairs.items) }
        ensures feeds { IfOk result (λ all. All (λ pair. pair.0 < length (feeds_for valid.now.view component replica)) all.pairs.items) }
        ensures given { IfOk result (λ all. All (λ pair. IsGiven self.now.lists.records pair.1) all.pairs.items) }
        ensures indexes { IfOk result (λ all. HaveIndexes valid.now.view (instance_for valid.now.view component replica) (read_lists self.now.lists) (batch_with_ids self.now.lists.records all.pairs.items) all.indexes.items) }
    {
        let mut pairs = Vec::new(alloc);
        let mut indexes = Vec::new(alloc);
        for part in parts {
            let (feed, message) = self.pair_of(valid, component, replica, *part)?;
            pairs.push((feed, message))?;
            indexes.push((feed, part.index))?;
        }
        Ok(Pairs { pairs, indexes })
    }
}
