//! Why an operation on sets gives no set.
ghost use Rattle.std.specs.Prelude.{◌≡◌};
ghost use Rattle.blz_set.specs.declared.fault.SetFault.TheVariants.{NoMemory};

use std::alloc::{AllocError, AllocFailed};
use thiserror::Error;

/// Why an operation on sets gives no set.
#[derive(Debug, Drop, Error)]
pub enum SetFault {
    /// The set would have more than 262,144 rows.
    #[error("the set would have more than 262144 rows")]
    TooManyRows,
    /// Memory ran out.
    #[error("out of memory")]
    NoMemory,
}

impl From<AllocError> for SetFault {
    ghost from_gives = { λ _ fault. fault ≡ NoMemory };

    fn from(_error: AllocError) -> SetFault {
        SetFault::NoMemory
    }
}

impl<T: Drop> From<AllocFailed<T>> for SetFault {
    ghost from_gives = { λ _ fault. fault ≡ NoMemory };

    fn from(_error: AllocFailed<T>) -> SetFault {
        SetFault::NoMemory
    }
}
