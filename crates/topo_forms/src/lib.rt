//! What topologies are: one as it is written, by its names, one without a fault, by its numbers, and the data
//! of its sources.
#![tactic(auto)]

mod data;
mod fault;
mod graph_facts;
mod index;
mod kept;
mod laws;
mod sets;
mod source_lists;
mod topology;
mod valid;

pub use data::Data;
pub use fault::{TopoFault, TopoKind, TopoPlace, ValidFault};
pub use graph_facts::GraphFacts;
pub use kept::{Kept, KeptComponent, KeptOutput, KeptPort, KeptStream};
pub use laws::{carried_law, regions_law, valid_law};
pub use source_lists::{SourceLists, hash_key};
pub use topology::{
    Body, ColumnType, ComponentEntry, Declared, FdEntry, ModeName, NoteName, Side, SourceEntry,
    Spot, Stock, StreamEntry, Topology,
};
pub use valid::{Valid, carries, goes_to, upholds, usable, valid_copy};
