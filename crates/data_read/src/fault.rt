//! Why a file gives no data.
ghost use Rattle.std.specs.Prelude.{◌≡◌, ◌<◌, ◌^◌};
ghost use Rattle.data_read.specs.declared.fault.DataFault.TheVariants as faults;
ghost use Rattle.data_read.specs.declared.fault.ValueFault.TheVariants as value;
ghost use Rattle.data_read.specs.Gives.{IsFault};

use blz_value::{Record, Str};
use std::alloc::{AllocError, AllocFailed};
use thiserror::Error;

/// Why the bytes of a file, or some lists, give no data. The first that holds is the answer.
#[derive(Debug, Drop, Error)]
pub enum DataFault {
    /// The bytes are no JSON text.
    #[error("the bytes are no JSON text")]
    NotJson,
    /// A row or a part isn't of the form that its source asks for.
    #[error("the form breaks at row {row} of {}", .name.as_str())]
    DataForm {
        /// The source of the first break, or a name that no source has.
        name: Str,
        /// The row, counted from 1, and parts go on after the rows. It is 0 for the entry itself.
        row: u32,
    },
    /// There are more than 65,536 rows and parts.
    #[error("too many rows and parts with {}", .name.as_str())]
    TooMany {
        /// The source with which there are too many.
        name: Str,
    },
    /// Two records disagree with a dependency: they agree on exactly one of its sides.
    #[error("dependency {fd} is broken")]
    FdBroken {
        /// The number of the dependency, counted from 0.
        fd: u32,
        /// The earlier record.
        first: Record,
        /// The later record.
        second: Record,
    },
    /// Memory ran out.
    #[error("memory ran out")]
    NoMemory,
}

impl From<AllocError> for DataFault {
    ghost from_gives = { λ _ fault. fault ≡ faults.NoMemory };

    fn from(_: AllocError) -> DataFault {
        DataFault::NoMemory
    }
}

impl<T: Drop> From<AllocFailed<T>> for DataFault {
    ghost from_gives = { λ _ fault. fault ≡ faults.NoMemory };

    fn from(_: AllocFailed<T>) -> DataFault {
        DataFault::NoMemory
    }
}

/// Why a JSON value gives nothing.
#[derive(Clone, Copy, Debug, PartialEq, Eq)]
pub(crate) enum ValueFault {
    /// It isn't of the form that is wanted.
    Break,
    /// Memory ran out.
    NoMemory,
}

impl From<AllocError> for ValueFault {
    ghost from_gives = { λ _ fault. fault ≡ value.NoMemory };

    fn from(_: AllocError) -> ValueFault {
        ValueFault::NoMemory
    }
}

impl<T: Drop> From<AllocFailed<T>> for ValueFault {
    ghost from_gives = { λ _ fault. fault ≡ value.NoMemory };

    fn from(_: AllocFailed<T>) -> ValueFault {
        ValueFault::NoMemory
    }
}

/// A break at a row of a source.
pub(crate) fn break_at(name: &Str, row: usize) -> DataFault
    requires { row < 2 ^ 32 }
    ensures { IsFault (faults.DataForm name.now row) result }
{
    match name.copy() {
        Ok(name) => DataFault::DataForm {
            name,
            row: row as u32,
        },
        Err(_) => DataFault::NoMemory,
    }
}

/// Too many rows and parts with a source.
pub(crate) fn too_many(name: &Str) -> DataFault
    ensures { IsFault (faults.TooMany name.now) result }
{
    match name.copy() {
        Ok(name) => DataFault::TooMany { name },
        Err(_) => DataFault::NoMemory,
    }
}
