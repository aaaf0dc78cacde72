//! Why a component can't be split into copies.
ghost use Rattle.std.specs.Prelude.{◌≡◌};
ghost use Rattle.shard_route.specs.declared.fault.ShardFault.TheVariants.{NoMemory};

use std::alloc::{AllocError, AllocFailed};
use thiserror::Error;
use topo_forms::TopoFault;

/// Why a component has no copies, in the order in which the faults are looked for.
#[derive(Debug, Drop, Error)]
pub enum ShardFault {
    /// No component has this name.
    #[error("no component has this name")]
    NoComponent,
    /// The component has no module.
    #[error("the component has no module")]
    NoModule,
    /// The component's region is cyclic.
    #[error("the component's region is cyclic")]
    InCycle,
    /// A port has no column of this name.
    #[error("a port has no column of this name")]
    NoColumn,
    /// The gate of an output lacks the column's attribute.
    #[error("the gate of an output lacks the attribute")]
    NotInGate,
    /// A rule of a copy has more than 32 open levels.
    #[error("a rule of a copy has too many open levels")]
    TooDeep,
    /// A new name is longer than a name may be, or a new file is one that a component has.
    #[error("a new name can't be given")]
    Names,
    /// The new topology has this fault.
    #[error("the new topology has a fault")]
    Topology(TopoFault),
    /// Memory ran out.
    #[error("out of memory")]
    NoMemory,
}

impl From<AllocError> for ShardFault {
    ghost from_gives = { λ _ e. e ≡ NoMemory };

    fn from(_: AllocError) -> Self {
        ShardFault::NoMemory
    }
}

impl<T: Drop> From<AllocFailed<T>> for ShardFault {
    ghost from_gives = { λ _ e. e ≡ NoMemory };

    fn from(_: AllocFailed<T>) -> Self {
        ShardFault::NoMemory
    }
}
