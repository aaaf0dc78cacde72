//! Coordination for topologies: which components pass seals on or wait for them, and which take
//! what arrives in one order.
#![tactic(auto)]

mod chosen;
mod component;
mod cycle;
mod laws;
mod planning;
mod start;

pub use laws::{after_planning_law, plan_law, plan_modes_law};
pub use planning::{order_plan, plan, seal_plan};
