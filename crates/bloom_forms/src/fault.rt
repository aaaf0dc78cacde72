//! What is wrong with a module, and where.
ghost use Rattle.std.specs.Prelude.{◌≡◌};
ghost use Rattle.bloom_forms.specs.declared.fault.CheckFault.TheVariants.{NoMemory};

use std::alloc::{AllocError, AllocFailed};
use thiserror::Error;

/// The kinds of faults, in the order in which they are looked for.
#[derive(Clone, Copy, Debug, PartialEq, Eq)]
pub enum ModuleKind {
    /// A count passes its limit, or a rule's text the bounds of the grammar.
    TooMany,
    /// A name stands twice.
    Twice,
    /// A rule names no collection that it could read, or has no head.
    Unknown,
    /// The columns of a rule don't fit.
    Columns,
    /// A rule reads its own head.
    Recursive,
    /// Momentary parts stand where rows have to stay.
    MomentaryMix,
    /// A scratch has a momentary rule and a table-only one.
    MixedScratch,
}

/// A part of a module by its number in the text, counted from 1.
#[derive(Clone, Copy, Debug, PartialEq, Eq)]
pub enum ModulePlace {
    Collection(u32),
    Rule(u32),
}

/// The first fault of a module.
#[derive(Clone, Copy, Debug, PartialEq, Eq)]
pub struct ModuleFault {
    pub kind: ModuleKind,
    pub place: ModulePlace,
}

/// Why a module was not accepted.
#[derive(Debug, Drop, Error)]
pub enum CheckFault {
    /// The module has this fault.
    #[error("the module has a fault")]
    Bad(ModuleFault),
    /// Memory ran out.
    #[error("out of memory")]
    NoMemory,
}

impl From<AllocError> for CheckFault {
    ghost from_gives = { λ _ e. e ≡ NoMemory };

    fn from(_: AllocError) -> Self {
        CheckFault::NoMemory
    }
}

impl<T: Drop> From<AllocFailed<T>> for CheckFault {
    ghost from_gives = { λ _ e. e ≡ NoMemory };

    fn from(_: AllocFailed<T>) -> Self {
        CheckFault::NoMemory
    }
}
