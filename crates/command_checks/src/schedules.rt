//! The schedule in a file.
ghost use Rattle.sched_text.specs.Reading.{bad_line, entries_of, event_reading};
ghost use Rattle.command_checks.specs.FileChecks as check;
ghost use Rattle.command_checks.specs.Ran.{Gives, Ran};
ghost use Rattle.command_checks.specs.Ends.{files_states, source};

use crate::file::read_file;
use crate::stop::{Stop, refused};
use blz_outside::Files;
use report_lines::Refusal;
use sched_text::{Schedule, ScheduleFault, read};
use std::alloc::Global;

/// The most bytes of a schedule file.
pub const SCHEDULE_LIMIT: usize = 67_108_864;

// The schedule that is written in these bytes.
fn schedule_in(alloc: Global, bytes: &[u8]) -> Result<Schedule, Stop>
    ensures { Gives (λ schedule. schedule) result (check.schedule_in (bad_line event_reading bytes.now) (entries_of event_reading bytes.now)) }
{
    match read(alloc, bytes) {
        Ok(schedule) => Ok(schedule),
        Err(ScheduleFault::Text { line }) => Err(refused(alloc, &Refusal::ScheduleText { line })),
        Err(ScheduleFault::NoMemory) => Err(Stop::NoMemory),
    }
}

/// The schedule in the file of this name.
pub fn schedule_file<F: Files>(alloc: Global, name: &str, files: &mut F) -> Result<Schedule, Stop>
    ensures { Ran (λ schedule. schedule)
        (files_states (source (F.held files.old) (F.steady files.old) (F.faults files.old))
        (source (F.held files.new) (F.steady files.new) (F.faults files.new)))
        result (check.schedule_file name.now) }
{
    let bytes = read_file(alloc, name, SCHEDULE_LIMIT, files)?;
    schedule_in(alloc, &bytes)
}
