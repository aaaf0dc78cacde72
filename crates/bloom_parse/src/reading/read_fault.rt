//! Why terminals are no module text.
ghost use Rattle.std.specs.Prelude.{◌≡◌};
ghost use Rattle.bloom_parse.specs.declared.reading.read_fault.ReadFault.TheVariants.{NoMemory};

use std::alloc::{AllocError, AllocFailed};
use thiserror::Error;

/// Why no module was read.
#[derive(Debug, Drop, Error)]
pub(crate) enum ReadFault {
    /// So many terminals are left from the first on that no module text has there.
    #[error("no module text goes on so")]
    Left(usize),
    /// Memory ran out.
    #[error("out of memory")]
    NoMemory,
}

impl From<AllocError> for ReadFault {
    ghost from_gives = { λ _ e. e ≡ NoMemory };

    fn from(_: AllocError) -> Self {
        ReadFault::NoMemory
    }
}

impl<T: Drop> From<AllocFailed<T>> for ReadFault {
    ghost from_gives = { λ _ e. e ≡ NoMemory };

    fn from(_: AllocFailed<T>) -> Self {
        ReadFault::NoMemory
    }
}
