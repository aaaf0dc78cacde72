//! Why a net isn't opened, why a forget is refused, and why no schedule is made.
ghost use Rattle.std.specs.Prelude.{◌≡◌};
ghost use Rattle.sched_net.specs.declared.fault.MakeFault.TheVariants as make_fault;
ghost use Rattle.sched_net.specs.declared.fault.OpenFault.TheVariants as open_fault;

use std::alloc::{AllocError, AllocFailed};
use thiserror::Error;

/// Why a net isn't opened.
#[derive(Debug, Drop, Error)]
pub enum OpenFault {
    /// A component has no body; it is the first such.
    #[error("component {component} has no body")]
    NoBody {
        /// The number of the component.
        component: u32,
    },
    /// The bench has no shell left for an instance of a component.
    #[error("there is no shell for component {component}")]
    NoShell {
        /// The number of the component.
        component: u32,
    },
    /// Memory ran out.
    #[error("out of memory")]
    NoMemory,
}

impl From<AllocError> for OpenFault {
    ghost from_gives = { λ _ fault. fault ≡ open_fault.NoMemory };

    fn from(_error: AllocError) -> OpenFault {
        OpenFault::NoMemory
    }
}

impl<T: Drop> From<AllocFailed<T>> for OpenFault {
    ghost from_gives = { λ _ fault. fault ≡ open_fault.NoMemory };

    fn from(_error: AllocFailed<T>) -> OpenFault {
        OpenFault::NoMemory
    }
}

/// Why a forget is refused.
#[derive(Clone, Copy, Debug, PartialEq, Eq)]
pub enum ForgetFault {
    /// The component or the replica isn't there.
    NoInstance,
}

/// Why no schedule is made of a seed. Events are counted from 1.
#[derive(Debug, Drop, Error)]
pub enum MakeFault {
    /// A 1,000,001st event is due.
    #[error("there would be more than 1000000 events")]
    TooManyEvents,
    /// At an event a set would have more than 262,144 rows.
    #[error("at event {event} a set would have more than 262144 rows")]
    TooManyRows {
        /// The number of the event.
        event: u32,
    },
    /// At an event the emitted lists together would have more than 262,144 messages.
    #[error("at event {event} there would be more than 262144 messages")]
    TooManyMessages {
        /// The number of the event.
        event: u32,
    },
    /// Memory ran out.
    #[error("out of memory")]
    NoMemory,
}

impl From<AllocError> for MakeFault {
    ghost from_gives = { λ _ fault. fault ≡ make_fault.NoMemory };

    fn from(_error: AllocError) -> MakeFault {
        MakeFault::NoMemory
    }
}

impl<T: Drop> From<AllocFailed<T>> for MakeFault {
    ghost from_gives = { λ _ fault. fault ≡ make_fault.NoMemory };

    fn from(_error: AllocFailed<T>) -> MakeFault {
        MakeFault::NoMemory
    }
}
