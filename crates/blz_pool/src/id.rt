//! The id of a record in a pool, seen as its number.
ghost use Rattle.std.specs.Prelude.{◌≡◌};

use std::marker::Model;

/// The id of a record in a pool: its number there, counted from 0 in the order of first placing.
#[derive(Clone, Copy, PartialEq, Eq, PartialOrd, Ord)]
pub struct Id {
    number: u32,
}

impl Model for Id {
    ghost use Rattle.std.specs.Prelude.{ℕ};

    ghost Value = { ℕ };

    ghost view = { λ id. id.number };

    ghost inverse = { λ n. record { number = n } };
}

impl Id {
    /// The id with this number.
    pub(crate) fn new(number: u32) -> Id
        ensures { result ≡ number }
    {
        Id { number }
    }

    /// The number of the record, counted from 0 since the last reset of the pool.
    pub fn number(self) -> u32
        ensures { result ≡ self }
    {
        self.number
    }
}
