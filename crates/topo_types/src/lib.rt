//! The front of topologies, and the check of one: its first fault, or the topology with its parts by their
//! numbers. The types lie in `topo_forms`, what is found of a view and changed modes in `topo_graph`.
#![tactic(auto)]

mod validation;
mod validity;
mod view;

pub use bloom_forms::{Mode, Note};
pub use blz_value::{Attrs, Fd, is_in};
pub use fd_closure::AttrNames;
pub use topo_forms::{
    Body, ColumnType, ComponentEntry, Declared, FdEntry, GraphFacts, Kept, KeptComponent,
    KeptOutput, KeptPort, KeptStream, ModeName, NoteName, Side, SourceEntry, Spot, Stock,
    StreamEntry, TopoFault, TopoKind, TopoPlace, Topology, Valid, ValidFault, carried_law, carries,
    goes_to, regions_law, upholds, usable, valid_law,
};
pub use topo_graph::{WithMode, other_modes_law, replace_mode, with_mode_law};
pub use validation::validate;
