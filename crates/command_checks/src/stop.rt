//! Why the checks of a command stop.
ghost use Rattle.std.specs.Prelude.{◌≡◌};
ghost use Rattle.report_lines.specs.Refusals.{refusal_line};
ghost use Rattle.command_checks.specs.Ran.{IsRefused, IsStopAt};
ghost use Rattle.command_checks.specs.declared.stop.Stop.TheVariants.{NoMemory};

use blz_value::Str;
use report_lines::{Refusal, refusal_text};
use std::alloc::{AllocError, Global};

/// Why the checks of a command stop.
#[derive(Drop)]
pub enum Stop {
    /// A check fails, with this line.
    Refused(Vec<u8>),
    /// The read of this name failed.
    Failed(Str),
    /// Memory ran out.
    NoMemory,
}

impl From<AllocError> for Stop {
    ghost from_gives = { λ _ stop. stop ≡ NoMemory };

    fn from(_fault: AllocError) -> Stop {
        Stop::NoMemory
    }
}

/// The stop at a check that fails, with the line of this refusal; NoMemory where the line can't be
/// written.
pub fn refused(alloc: Global, refusal: &Refusal) -> Stop
    ensures { IsRefused (refusal_line refusal.now) result }
{
    match refusal_text(alloc, refusal) {
        Ok(line) => Stop::Refused(line),
        Err(_) => Stop::NoMemory,
    }
}

/// The stop at a check that is refused so; without a refusal memory ran out.
pub fn stop_at(alloc: Global, refusal: Option<Refusal>) -> Stop
    ensures { IsStopAt refusal result }
{
    match refusal {
        Some(refusal) => refused(alloc, &refusal),
        None => Stop::NoMemory,
    }
}
