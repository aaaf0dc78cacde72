//! The books of one instance.
ghost use Rattle.std.specs.Prelude.{◌≡◌, ◌+◌, ◌<◌, ◌^◌};
ghost use Rattle.sched_net.specs.Taking.{taken_in, took_one, EarForgets};

use blz_value::Items;
use inbox::{Feed, Inbox, Outlet};
use messages::Known;

/// What an instance hears: an inbox, with the messages that were heard in this life; or of an Order
/// component how many entries it took in this life.
#[derive(Drop)]
pub enum Ear {
    /// Messages are heard.
    Hears(Inbox, Known),
    /// So many entries of a log were taken.
    Takes(usize),
}

impl Ear {
    /// How many entries were taken in this life; none where messages are heard.
    pub fn taken(&self) -> usize
        ensures { result ≡ taken_in self.now }
    {
        match self {
            Ear::Hears(..) => 0,
            Ear::Takes(taken) => *taken,
        }
    }

    /// An entry more is taken.
    pub fn take_one(&mut self)
        requires { taken_in self.old + 1 < 2 ^ 64 }
        ensures { self.new ≡ took_one self.old }
    {
        *self = Ear::Takes(self.taken() + 1);
    }

    /// A life begins. It takes no memory.
    pub fn forget(&mut self)
        ensures { EarForgets self.old self.new }
    {
        match self {
            Ear::Hears(inbox, known) => {
                inbox.clear();
                known.clear();
            }
            Ear::Takes(taken) => *taken = 0,
        }
    }
}

/// An instance: where it emits, on which feeds messages come to it, and what it heard.
#[derive(Drop)]
pub struct Seated {
    /// The lists to which it emits.
    pub outlets: Items<Outlet>,
    /// The feeds on which messages come to it.
    pub feeds: Items<Feed>,
    /// What it heard or took.
    pub ear: Ear,
}
