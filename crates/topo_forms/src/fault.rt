//! What is wrong with a topology, and where.
ghost use Rattle.std.specs.Prelude.{◌≡◌};
ghost use Rattle.topo_forms.specs.declared.fault.ValidFault.TheVariants.{NoMemory};

use std::alloc::{AllocError, AllocFailed};
use thiserror::Error;

/// The first fault of a topology.
#[derive(Clone, Copy, Debug, PartialEq, Eq)]
pub struct TopoFault {
    pub kind: TopoKind,
    pub place: TopoPlace,
}

/// The kinds of faults, in the order in which they are looked for.
#[derive(Clone, Copy, Debug, PartialEq, Eq)]
pub enum TopoKind {
    /// A count passes its limit.
    TooMany,
    /// A name, a column, an entry or a note stands twice.
    Twice,
    /// A name names nothing.
    Unknown,
    /// A stream goes to a port with other columns.
    Columns,
    /// The replicas of a stream's two ends can't be paired.
    ReplicaMismatch,
    /// A component of a cycle waits for seals or passes them on.
    SealInCycle,
    /// A declared note doesn't cover the derived one.
    Understated,
}

/// A part of a topology by its number in the file, counted from 1.
#[derive(Clone, Copy, Debug, PartialEq, Eq)]
pub enum TopoPlace {
    Source(u32),
    Component(u32),
    /// The number counts the streams that come from outputs.
    Stream(u32),
    Fd(u32),
}

/// Why a topology was not accepted.
#[derive(Debug, Drop, Error)]
pub enum ValidFault {
    /// The topology has this fault.
    #[error("the topology has a fault")]
    Bad(TopoFault),
    /// Memory ran out.
    #[error("out of memory")]
    NoMemory,
}

impl From<AllocError> for ValidFault {
    ghost from_gives = { λ _ e. e ≡ NoMemory };

    fn from(_: AllocError) -> Self {
        ValidFault::NoMemory
    }
}

impl<T: Drop> From<AllocFailed<T>> for ValidFault {
    ghost from_gives = { λ _ e. e ≡ NoMemory };

    fn from(_: AllocFailed<T>) -> Self {
        ValidFault::NoMemory
    }
}
