//! Reading the steps of a text.
ghost use Rattle.sched_text.specs.Reading.{GivesEntries};
ghost use Rattle.sched_net.specs.StepReading as spec;

use sched_net::Step;
use sched_text::{ScheduleFault, read_lines};
use std::alloc::Global;

/// The steps of a text, each with the number of its line, counted from 1. The fault names the first
/// line that is neither a step nor passed over, as each line past the 1,000,000th. One pass, without
/// a copy of the text.
pub fn read(alloc: Global, text: &[u8]) -> Result<Vec<(u32, Step)>, ScheduleFault>
    ensures { GivesEntries (λ entries. entries.items) spec.step_reading text.now result }
{
    read_lines(alloc, text)
}
