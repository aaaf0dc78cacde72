//! The front of schedules that are given, and the reading of those in which instances forget. The steps, and
//! what applies them to a net, lie in `sched_net`.
#![tactic(auto)]

mod reading;

pub use reading::read;
pub use sched_net::{AsStep, Step, StepRef, StepRefusal, run};
