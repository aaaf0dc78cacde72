//! A topology with copies of a component, and the modules of the copies.
use bloom_forms::Checked;
use blz_value::{Items, Str};
use topo_forms::Topology;

/// The module of a copy, and the file that the topology names for it.
#[derive(Drop)]
pub struct ShardFile {
    pub name: Str,
    pub module: Checked,
}

/// A topology in which copies stand in the place of a component, and their modules in order.
#[derive(Drop)]
pub struct Sharded {
    pub topology: Topology,
    pub files: Items<ShardFile>,
}
