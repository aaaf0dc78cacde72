//! Reads the records of a topology's sources from the JSON text of a file. The data themselves lie in
//! `topo_forms`.
#![tactic(auto)]

mod counting;
mod dependencies;
mod distinct;
mod entries;
mod fault;
mod keys;
mod making;
mod reading;
mod shape;
mod values;

pub use fault::DataFault;
pub use making::of_lists;
pub use reading::read;
pub use topo_forms::Data;
