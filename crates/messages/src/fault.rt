//! Why an event is refused.
ghost use Rattle.std.specs.Prelude.{◌≡◌};
ghost use Rattle.messages.specs.declared.fault.EventFault.TheVariants as event;

use std::alloc::{AllocError, AllocFailed};
use thiserror::Error;

/// Why an event is refused. The first three leave the net as it was, and the others end it.
#[derive(Debug, Drop, Error)]
pub enum EventFault {
    /// The event names what isn't there: a component, a replica, a port, a stream, or a feed.
    #[error("there is no such instance or feed")]
    NoInstance,
    /// The emitted list isn't so long.
    #[error("the message isn't emitted yet")]
    NoMessage,
    /// The replica has taken all that the log has.
    #[error("there is nothing to take")]
    NothingToTake,
    /// A set of a step would have more than 262,144 rows.
    #[error("a set would have more than 262144 rows")]
    TooManyRows,
    /// The emitted lists together would have more than 262,144 messages.
    #[error("there would be more than 262144 messages")]
    TooManyMessages,
    /// Memory ran out.
    #[error("out of memory")]
    NoMemory,
}

impl From<AllocError> for EventFault {
    ghost from_gives = { λ _ fault. fault ≡ event.NoMemory };

    fn from(_error: AllocError) -> EventFault {
        EventFault::NoMemory
    }
}

impl<T: Drop> From<AllocFailed<T>> for EventFault {
    ghost from_gives = { λ _ fault. fault ≡ event.NoMemory };

    fn from(_error: AllocFailed<T>) -> EventFault {
        EventFault::NoMemory
    }
}
