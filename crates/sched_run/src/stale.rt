//! What a work makes stale in the windows on the lanes.
ghost use Rattle.std.specs.Prelude.{◌≡◌};
ghost use Rattle.sched_run.specs.Code.Stale.{is_same_feed, stale_between, stale_on};

use crate::lanes::Lane;
use crate::works::Work;
use inbox::Feed;
use sched_turns::Stale;

// Whether two feeds are one: of the same stream and sender at the same port.
fn is_same_feed(a: &Feed, b: &Feed) -> bool
    ensures { result ≡ is_same_feed a.now b.now }
{
    a.port == b.port && (a.stream == b.stream && a.sender == b.sender)
}

impl Lane {
    // What is stale on a lane once the message with an index came on this one: that index, where an
    // instance heard it on the same feed, and any index, where it went to the same port of the same log.
    fn stale_after(&self, index: u32, lane: &Lane) -> Stale
        ensures { result ≡ stale_between self.now index lane.now }
    {
        match (self, lane) {
            (
                Lane::Deliver {
                    component,
                    replica,
                    feed,
                    ..
                },
                Lane::Deliver {
                    component: other_component,
                    replica: other_replica,
                    feed: other_feed,
                    ..
                },
            ) if (other_component == component && other_replica == replica)
                && is_same_feed(other_feed, feed) => { Stale::Place(index) }
            (
                Lane::Order { component, feed },
                Lane::Order {
                    component: other_component,
                    feed: other_feed,
                },
            ) if other_component == component && other_feed.port == feed.port => Stale::Everything,
            _ => Stale::Nothing,
        }
    }
}

impl Work {
    /// What is stale on a lane once this work was done: nothing after a take, which only reads its log.
    pub(crate) fn stale_on(&self, lane: &Lane) -> Stale
        ensures { result ≡ stale_on self.now lane.now }
    {
        match self {
            Work::Message(done, index) => done.stale_after(*index, lane),
            Work::Take(_) => Stale::Nothing,
        }
    }
}
