//! What a batch sets off, by the ids of its records: the form in which a net takes it, without a copy.
ghost use Rattle.std.specs.Prelude.{◌≡◌};
ghost use Rattle.inbox.specs.SetOffs.{going_entries};

use blz_pool::Id;
use blz_value::{Items, Record};

/// The records of partitions that become whole, each with its port: those at ports that carry the key,
/// which arrive together, and those at others, which arrive one by one, in the order first heard.
#[derive(Drop)]
pub struct Released {
    pub together: Vec<(u32, Id)>,
    pub alone: Vec<(u32, Id)>,
}

/// The records that go with a batch, each with its port. One alone takes no list.
#[derive(Drop)]
pub enum Going {
    One(Option<(u32, Id)>),
    Many(Vec<(u32, Id)>),
}

/// What a batch sets off at an instance of so many ports: what partitions that become whole release,
/// then what goes with the batch, and the keys of these partitions, in the order of key values.
#[derive(Drop)]
pub struct SetOffIds {
    pub ports: usize,
    pub released: Option<Released>,
    pub going: Going,
    pub whole: Items<Record>,
}

impl Going {
    /// The entries in order.
    pub fn as_slice(&self) -> &[(u32, Id)]
        ensures { result.now ≡ going_entries self.now }
    {
        match self {
            Going::One(entry) => entry.as_slice(),
            Going::Many(entries) => entries.as_slice(),
        }
    }
}
