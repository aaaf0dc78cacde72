//! The law of shards, the contract of a function that does nothing.
ghost use Rattle.shard_route.specs.Laws.{ShardLaw};

/// Where each port of a module has a column, and its attribute lies in the gate of each output, the
/// one-step answer of each output is that of the module's copies for the buckets of the column
/// together, whatever arrives.
pub fn shard_law()
    ensures { ShardLaw }
{}
