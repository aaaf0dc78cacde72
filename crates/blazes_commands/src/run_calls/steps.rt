//! The steps in a file.
ghost use Rattle.command_checks.specs.Ends.{files_states, source};
ghost use Rattle.command_checks.specs.Ran.{Gives, Ran};
ghost use Rattle.blazes_commands.specs.Runs.Checks as check;

use blz_outside::Files;
use command_checks::{Stop, read_file, refused};
use replay_run::read;
use report_lines::Refusal;
use sched_net::Step;
use sched_text::ScheduleFault;
use std::alloc::Global;

// The most bytes of a file of steps, as of a schedule file.
const STEPS_LIMIT: usize = 67_108_864;

// The steps that are written in these bytes.
fn replay_in(alloc: Global, bytes: &[u8]) -> Result<Vec<(u32, Step)>, Stop>
    ensures { Gives (λ steps. steps.items) result (check.replay_in bytes.now) }
{
    match read(alloc, bytes) {
        Ok(steps) => Ok(steps),
        Err(ScheduleFault::Text { line }) => Err(refused(alloc, &Refusal::ScheduleText { line })),
        Err(ScheduleFault::NoMemory) => Err(Stop::NoMemory),
    }
}

/// The steps in the file of this name, each with the number of its line.
pub(crate) fn steps_file<F: Files>(
    alloc: Global,
    name: &str,
    files: &mut F,
) -> Result<Vec<(u32, Step)>, Stop>
    ensures { Ran (λ steps. steps.items)
        (files_states (source (F.held files.old) (F.steady files.old) (F.faults files.old))
        (source (F.held files.new) (F.steady files.new) (F.faults files.new)))
        result (check.steps_file name.now) }
{
    let bytes = read_file(alloc, name, STEPS_LIMIT, files)?;
    replay_in(alloc, &bytes)
}
