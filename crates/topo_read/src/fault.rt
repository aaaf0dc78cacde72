//! Why a file gives no topology.
ghost use Rattle.std.specs.Prelude.{◌≡◌};
ghost use Rattle.topo_read.specs.declared.fault.TopoTextFault.TheVariants as text;
ghost use Rattle.topo_read.specs.declared.fault.ValueFault.TheVariants as value;
ghost use Rattle.topo_read.specs.Gives.{IsBreakAt, IsFaultAt};

use blz_value::Str;
use std::alloc::{AllocError, AllocFailed, Global};
use thiserror::Error;

/// Why the bytes of a file give no topology.
#[derive(Debug, Drop, Error)]
pub enum TopoTextFault {
    /// The bytes are no TOML document.
    #[error("the bytes are no TOML document")]
    NotToml,
    /// The document isn't of the form of a topology.
    #[error("the form breaks at {}", .path.as_str())]
    Form {
        /// The place of the first break: a key of the top level, as `format`, or one of an entry, as
        /// `component[2].notes`, counted from 1.
        path: Str,
    },
    /// Memory ran out.
    #[error("memory ran out")]
    NoMemory,
}

impl From<AllocError> for TopoTextFault {
    ghost from_gives = { λ _ fault. fault ≡ text.NoMemory };

    fn from(_: AllocError) -> TopoTextFault {
        TopoTextFault::NoMemory
    }
}

impl<T: Drop> From<AllocFailed<T>> for TopoTextFault {
    ghost from_gives = { λ _ fault. fault ≡ text.NoMemory };

    fn from(_: AllocFailed<T>) -> TopoTextFault {
        TopoTextFault::NoMemory
    }
}

/// Why the value of a key gives nothing.
#[derive(Clone, Copy, Debug, PartialEq, Eq)]
pub(crate) enum ValueFault {
    /// It isn't of the form that is wanted.
    Break,
    /// Memory ran out.
    NoMemory,
}

impl ValueFault {
    /// The same fault of a file, in which a break has this path.
    pub(crate) fn at(self, alloc: Global, path: &str) -> TopoTextFault
        ensures { IsFaultAt path.now self result }
    {
        match self {
            ValueFault::Break => break_at(alloc, path),
            ValueFault::NoMemory => TopoTextFault::NoMemory,
        }
    }
}

/// A break with this path.
pub(crate) fn break_at(alloc: Global, path: &str) -> TopoTextFault
    ensures { IsBreakAt path.now result }
{
    match Str::from_text(alloc, path) {
        Ok(path) => TopoTextFault::Form { path },
        Err(_) => TopoTextFault::NoMemory,
    }
}

impl From<AllocError> for ValueFault {
    ghost from_gives = { λ _ fault. fault ≡ value.NoMemory };

    fn from(_: AllocError) -> ValueFault {
        ValueFault::NoMemory
    }
}

impl<T: Drop> From<AllocFailed<T>> for ValueFault {
    ghost from_gives = { λ _ fault. fault ≡ value.NoMemory };

    fn from(_: AllocFailed<T>) -> ValueFault {
        ValueFault::NoMemory
    }
}
