//! The runner: every instance of a topology with what it heard and sent, and the events and steps of a
//! schedule that is given, applied to it in order.
#![tactic(auto)]

mod again;
mod as_step;
mod bench;
mod books;
mod closing;
mod fault;
mod forgetting;
mod hearing;
mod net;
mod numbered;
mod opening;
mod ordering;
mod parts;
mod reading;
mod remaining;
mod running;
mod seated;
mod seating;
mod step;
mod step_reading;

pub use as_step::{AsStep, StepRef};
pub use books::Books;
pub use fault::{ForgetFault, MakeFault, OpenFault};
pub use messages::EventFault;
pub use net::Net;
pub use numbered::{NumberedEvent, NumberedPart};
pub use ordering::is_order;
pub use running::{StepRefusal, run};
pub use seated::Ear;
pub use step::Step;
