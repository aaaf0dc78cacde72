//! The second of two schedules: its file, and the refusal of its events.
ghost use Rattle.std.specs.Prelude.{◌≡◌, Some};
ghost use Rattle.report_lines.specs.declared.refusal.Refusal.TheVariants as refusal;
ghost use Rattle.command_checks.specs.Ran.{Gives, Ran};
ghost use Rattle.command_checks.specs.Ends.{files_states, source};
ghost use Rattle.blazes_commands.specs.Finds.Checks as check;

use blz_outside::Files;
use command_checks::{Stop, read_file, refused};
use messages::EventFault;
use report_lines::{EventKind, Refusal};
use sched_text::{Schedule, ScheduleFault, read};
use std::alloc::Global;

// The most bytes of its file, as of each schedule file.
const SECOND_LIMIT: usize = 67_108_864;

// The schedule that is written in these bytes.
fn second_in(alloc: Global, bytes: &[u8]) -> Result<Schedule, Stop>
    ensures { Gives (λ schedule. schedule) result (check.second_in bytes.now) }
{
    match read(alloc, bytes) {
        Ok(schedule) => Ok(schedule),
        Err(ScheduleFault::Text { line }) => {
            Err(refused(alloc, &Refusal::SecondScheduleText { line }))
        }
        Err(ScheduleFault::NoMemory) => Err(Stop::NoMemory),
    }
}

/// The second schedule, in the file of this name.
pub(crate) fn second_file<F: Files>(
    alloc: Global,
    name: &str,
    files: &mut F,
) -> Result<Schedule, Stop>
    ensures { Ran (λ schedule. schedule)
        (files_states (source (F.held files.old) (F.steady files.old) (F.faults files.old))
        (source (F.held files.new) (F.steady files.new) (F.faults files.new)))
        result (check.second_file name.now) }
{
    let bytes = read_file(alloc, name, SECOND_LIMIT, files)?;
    second_in(alloc, &bytes)
}

fn event(line: u32, kind: EventKind) -> Option<Refusal>
    ensures { result ≡ Some (refusal.SecondEvent line kind) }
{
    Some(Refusal::SecondEvent { line, kind })
}

/// The refusal of the event in a line of the second schedule; want of memory is none.
pub(crate) fn second_event_refusal(line: u32, fault: &EventFault) -> Option<Refusal>
    ensures { result ≡ check.second_event_refusal line fault.now }
{
    match fault {
        EventFault::NoInstance => event(line, EventKind::NoInstance),
        EventFault::NoMessage => event(line, EventKind::NoMessage),
        EventFault::NothingToTake => event(line, EventKind::NothingToTake),
        EventFault::TooManyRows => event(line, EventKind::TooManyRows),
        EventFault::TooManyMessages => event(line, EventKind::TooManyMessages),
        EventFault::NoMemory => None,
    }
}
