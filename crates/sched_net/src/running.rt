//! Steps, applied in order.
ghost use Rattle.std.specs.Prelude.{◌≡◌, map};
ghost use Rattle.sched_net.specs.Lent.{step_of};
ghost use Rattle.sched_net.specs.Steps.{Applies, numbered_step};
ghost use Rattle.sched_net.specs.Code.Stepping.{StepAnswers, StepLeaves};
ghost use Rattle.sched_net.specs.Net.{Runs};

use crate::as_step::{AsStep, StepRef};
use crate::fault::ForgetFault;
use crate::net::Net;
use messages::EventFault;

/// A step that is refused.
#[derive(Debug, Drop)]
pub struct StepRefusal {
    /// The number of its line.
    pub line: u32,
    /// Why it is refused. A forget is refused where its instance isn't there.
    pub fault: EventFault,
}

// Applies one step.
fn take_step(net: &mut Net<'_>, step: &StepRef<'_>) -> Result<(), EventFault>
    requires runs { Runs net.old.valid.now.view (map (λ b. program b) net.old.shells.items) (map (λ b. kept b) net.old.shells.items) net.old.books }
    ensures answer { StepAnswers net.old.valid.now.view (map (λ b. program b) net.old.shells.items) (map (λ b. kept b) net.old.shells.items) net.old.books (numbered_step net.old.valid.now.view (step_of step.now)) result }
    ensures leaves { StepLeaves net.old.valid.now.view (map (λ b. program b) net.old.shells.items) (map (λ b. kept b) net.old.shells.items) (map (λ b. kept b) net.new.shells.items) net.old.books net.new.books (numbered_step net.old.valid.now.view (step_of step.now)) result }
    ensures valid { net.new.valid ≡ net.old.valid }
    ensures kinds { map (λ b. kind b) net.new.shells.items ≡ map (λ b. kind b) net.old.shells.items }
    ensures loaded { map (λ b. program b) net.new.shells.items ≡ map (λ b. program b) net.old.shells.items }
{
    match step {
        StepRef::Event(event) => net.event(event),
        StepRef::Forget { component, replica } => match net.forget(component, *replica) {
            Ok(()) => Ok(()),
            Err(ForgetFault::NoInstance) => Err(EventFault::NoInstance),
        },
    }
}

/// Applies steps, or events alone, in order, each with the number of its line, up to the first that is
/// refused. All before that stand, and the refused one left the net as its own call (`event`, `forget`) does.
pub fn run<S: AsStep>(net: &mut Net<'_>, steps: &[(u32, S)]) -> Result<(), StepRefusal>
    requires runs { Runs net.old.valid.now.view (map (λ b. program b) net.old.shells.items) (map (λ b. kept b) net.old.shells.items) net.old.books }

    // Of all steps for which the net stood: what these make of their execution, and of the net.
    ensures applies { Applies S.step net.old.valid.now.view (map (λ b. program b) net.old.shells.items) (map (λ b. kept b) net.old.shells.items) (map (λ b. kept b) net.new.shells.items) net.old.books net.new.books steps.now result }

    ensures valid { net.new.valid ≡ net.old.valid }
    ensures kinds { map (λ b. kind b) net.new.shells.items ≡ map (λ b. kind b) net.old.shells.items }
    ensures loaded { map (λ b. program b) net.new.shells.items ≡ map (λ b. program b) net.old.shells.items }
{
    for (line, step) in steps {
        if let Err(fault) = take_step(net, &step.as_step()) {
            return Err(StepRefusal { line: *line, fault });
        }
    }
    Ok(())
}
