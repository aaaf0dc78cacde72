//! Records that are kept once, and known by small ids.
#![tactic(auto)]

mod fault;
mod id;
mod pool;

pub use fault::PoolFault;
pub use id::Id;
pub use pool::Pool;
