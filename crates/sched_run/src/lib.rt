//! The front of runs, and the schedule of a seed: turn by turn a draw chooses among what is open in a net.
//! Nets, and the events and steps that are applied to them, lie in `sched_net`.
#![tactic(auto)]

mod groups;
mod lanes;
mod limits;
mod looking;
mod made;
mod making;
mod naming;
mod pieces;
mod stale;
mod tables;
mod watch;
mod works;
mod writing;

pub use made::Made;
pub use making::{make, make_numbered};
pub use sched_net::{
    AsStep, Books, Ear, EventFault, ForgetFault, MakeFault, Net, NumberedEvent, NumberedPart,
    OpenFault, Step, StepRef, StepRefusal, is_order, run,
};
