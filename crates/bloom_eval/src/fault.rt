//! Why a step is refused.
ghost use Rattle.std.specs.Prelude.{◌≡◌};
ghost use Rattle.bloom_eval.specs.StepAnswers.{step_fault};
ghost use Rattle.bloom_eval.specs.declared.fault.StepFault.TheVariants.{NoMemory};

use blz_set::SetFault;
use std::alloc::{AllocError, AllocFailed};
use thiserror::Error;

/// Why a step is refused.
#[derive(Debug, Drop, Error)]
pub enum StepFault {
    /// A set would have more than 262,144 rows.
    #[error("a set would have more than 262144 rows")]
    TooManyRows,
    /// Memory ran out.
    #[error("out of memory")]
    NoMemory,
}

impl From<SetFault> for StepFault {
    ghost from_gives = { λ fault result. result ≡ step_fault fault };

    fn from(fault: SetFault) -> StepFault {
        match fault {
            SetFault::TooManyRows => StepFault::TooManyRows,
            SetFault::NoMemory => StepFault::NoMemory,
        }
    }
}

impl From<AllocError> for StepFault {
    ghost from_gives = { λ _ fault. fault ≡ NoMemory };

    fn from(_error: AllocError) -> StepFault {
        StepFault::NoMemory
    }
}

impl<T: Drop> From<AllocFailed<T>> for StepFault {
    ghost from_gives = { λ _ fault. fault ≡ NoMemory };

    fn from(_error: AllocFailed<T>) -> StepFault {
        StepFault::NoMemory
    }
}
