//! Reading steps: the lines of a schedule, and those by which an instance forgets.
ghost use Rattle.sched_text.specs.Given.{GivesAll};
ghost use Rattle.sched_net.specs.StepReading as spec;

use crate::step::Step;
use sched_text::{Fields, FromLine, LineFault, event_of};
use std::alloc::Global;

// The forget of a line with these fields behind its first.
fn forget(alloc: Global, fields: &mut Fields<'_>) -> Result<Step, LineFault>
    ensures { GivesAll result (spec.forget_of fields.old) }
{
    let component = fields.name(alloc)?;
    let replica = fields.number()?;
    if !fields.is_empty() {
        return Err(LineFault::Bad);
    }
    Ok(Step::Forget { component, replica })
}

// The step of a line with these fields: the first, and those behind it.
fn step_of(alloc: Global, first: &[u8], fields: &mut Fields<'_>) -> Result<Step, LineFault>
    ensures { GivesAll result (spec.step_of first.now fields.old) }
{
    if first == b"forget".as_slice() {
        forget(alloc, fields)
    } else {
        Ok(Step::Event(event_of(alloc, first, fields)?))
    }
}

impl FromLine for Step {
    ghost use Rattle.sched_net.specs.StepReading.{step_reading};

    ghost reading = { step_reading };

    fn from_line(alloc: Global, line: &[u8]) -> Result<Option<Step>, LineFault> {
        let mut fields = Fields::of_line(line);
        match fields.next_field() {
            None | Some([b'#', ..]) => Ok(None),
            Some(first) => Ok(Some(step_of(alloc, first, &mut fields)?)),
        }
    }
}
