//! A component of a topology as several: copies of its module, each of which works on one bucket of a
//! column, in a topology where they stand in its place. The buckets lie in `shard_buckets`.
#![tactic(auto)]

mod copies;
mod expressions;
mod fault;
mod gates;
mod laws;
mod modules;
mod names;
mod routing;
mod sharded;
mod sharding;

pub use copies::{copies_for, lacks_column};
pub use fault::ShardFault;
pub use laws::shard_law;
pub use modules::sharded_modules;
pub use names::{file_of, has_bad_names, numbered, numbers_to};
pub use shard_buckets::bucket_tests;
pub use sharded::{ShardFile, Sharded};
pub use sharding::shard;
