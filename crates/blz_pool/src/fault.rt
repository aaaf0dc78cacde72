//! Why a record isn't placed.
ghost use Rattle.std.specs.Prelude.{◌≡◌};
ghost use Rattle.blz_pool.specs.declared.fault.PoolFault.TheVariants.{NoMemory};

use std::alloc::{AllocError, AllocFailed};
use thiserror::Error;

/// Why a record isn't placed.
#[derive(Debug, Drop, Error)]
pub enum PoolFault {
    /// 262,144 other records are held.
    #[error("262144 other records are held")]
    Full,
    /// Memory ran out.
    #[error("out of memory")]
    NoMemory,
}

impl From<AllocError> for PoolFault {
    ghost from_gives = { λ _ fault. fault ≡ NoMemory };

    fn from(_error: AllocError) -> PoolFault {
        PoolFault::NoMemory
    }
}

impl<T: Drop> From<AllocFailed<T>> for PoolFault {
    ghost from_gives = { λ _ fault. fault ≡ NoMemory };

    fn from(_error: AllocFailed<T>) -> PoolFault {
        PoolFault::NoMemory
    }
}
