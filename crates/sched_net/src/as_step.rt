//! What may stand in a line of what is given: an event alone, or a step.
ghost use Rattle.std.specs.Prelude.{◌≡◌};
ghost use Rattle.sched_net.specs.declared.step.Step.{Step};

use crate::step::Step;
use blz_value::Str;
use sched_text::Event;

/// A step that is lent.
#[derive(Drop)]
pub enum StepRef<'a> {
    /// An event.
    Event(&'a Event),
    /// An instance loses all that it keeps.
    Forget {
        /// The component's name.
        component: &'a Str,
        /// Its replica, counted from 0.
        replica: u32,
    },
}

/// What stands for a step.
pub trait AsStep {
    ghost use Rattle.sched_net.specs.Lent.{step_of};

    ghost step: { Self → Step };

    /// The step, lent.
    fn as_step(&self) -> StepRef<'_>
        ensures { step_of result ≡ step self.now };
}

impl AsStep for Event {
    ghost use Rattle.sched_net.specs.declared.step.Step.TheVariants as steps;

    ghost step = { steps.Event };

    fn as_step(&self) -> StepRef<'_> {
        StepRef::Event(self)
    }
}

impl AsStep for Step {
    ghost use Rattle.sched_net.specs.Steps.{itself};

    ghost step = { itself };

    fn as_step(&self) -> StepRef<'_> {
        match self {
            Step::Event(event) => StepRef::Event(event),
            Step::Forget { component, replica } => StepRef::Forget {
                component,
                replica: *replica,
            },
        }
    }
}
