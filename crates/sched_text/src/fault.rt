//! Why a text gives no schedule, and a line no event.
ghost use Rattle.std.specs.Prelude.{◌≡◌};
ghost use Rattle.sched_text.specs.declared.fault.LineFault.TheVariants as faults;
ghost use Rattle.sched_text.specs.declared.fault.ScheduleFault.TheVariants.{NoMemory};
ghost use Rattle.sched_text.specs.Given.{fault_at};

use std::alloc::{AllocError, AllocFailed};
use thiserror::Error;

/// Why a text gives no schedule.
#[derive(Debug, Drop, Error)]
pub enum ScheduleFault {
    /// A line is none that a schedule may have.
    #[error("line {line} is none that a schedule may have")]
    Text {
        /// The number of the first such line, counted from 1.
        line: u32,
    },
    /// Memory ran out.
    #[error("out of memory")]
    NoMemory,
}

/// Why a line gives nothing.
#[derive(Clone, Copy, Debug, PartialEq, Eq)]
pub enum LineFault {
    /// It is none that a schedule may have.
    Bad,
    /// Memory ran out.
    NoMemory,
}

impl LineFault {
    /// The same fault of a text in which the line has this number.
    pub fn at(self, line: u32) -> ScheduleFault
        ensures { result ≡ fault_at line self }
    {
        match self {
            LineFault::Bad => ScheduleFault::Text { line },
            LineFault::NoMemory => ScheduleFault::NoMemory,
        }
    }
}

impl From<AllocError> for LineFault {
    ghost from_gives = { λ _ fault. fault ≡ faults.NoMemory };

    fn from(_error: AllocError) -> LineFault {
        LineFault::NoMemory
    }
}

impl<T: Drop> From<AllocFailed<T>> for LineFault {
    ghost from_gives = { λ _ fault. fault ≡ faults.NoMemory };

    fn from(_error: AllocFailed<T>) -> LineFault {
        LineFault::NoMemory
    }
}

impl<T: Drop> From<AllocFailed<T>> for ScheduleFault {
    ghost from_gives = { λ _ fault. fault ≡ NoMemory };

    fn from(_error: AllocFailed<T>) -> ScheduleFault {
        ScheduleFault::NoMemory
    }
}
