//! Why a text has no tokens or is no module text.
ghost use Rattle.std.specs.Prelude.{◌≡◌};
ghost use Rattle.bloom_parse.specs.declared.refusal.ParseFault.TheVariants.{NoMemory};

use std::alloc::{AllocError, AllocFailed};
use thiserror::Error;

/// The place of a token, or of the end of the text. Both numbers count from 1, columns in bytes.
#[derive(Debug, Drop)]
pub struct TextFault {
    pub line: u32,
    pub column: u32,
}

/// Why a text was refused.
#[derive(Debug, Drop, Error)]
pub enum ParseFault {
    /// A token is bad, or no module text has it there.
    #[error("line {}, column {}", .0.line, .0.column)]
    Text(TextFault),
    /// Memory ran out.
    #[error("out of memory")]
    NoMemory,
}

impl From<AllocError> for ParseFault {
    ghost from_gives = { λ _ e. e ≡ NoMemory };

    fn from(_: AllocError) -> Self {
        ParseFault::NoMemory
    }
}

impl<T: Drop> From<AllocFailed<T>> for ParseFault {
    ghost from_gives = { λ _ e. e ≡ NoMemory };

    fn from(_: AllocFailed<T>) -> Self {
        ParseFault::NoMemory
    }
}
