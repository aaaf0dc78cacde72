//! One step of a module that was checked, evaluated plainly, each expression anew from the sets that it reads;
//! and the interface of whatever steps a program.
#![tactic(auto)]

mod arriving;
mod begin;
mod component;
mod evaluate;
mod fault;
mod finish;
mod kind;
mod laws;
mod puts;
mod rows;
mod sets;
mod step;

pub use arriving::timestep;
pub use component::Component;
pub use fault::StepFault;
pub use kind::ProgramKind;
pub use laws::counted_law;
pub use puts::{Put, Puts};
pub use sets::{Arrivals, Kept, Outs};
pub use step::step_plain;
