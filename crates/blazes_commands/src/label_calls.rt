//! The commands that label, plan and split a topology, and the word count that is built in.

mod built_in;
mod labelling;
mod planning;
mod shard_text;
mod sharding;

pub use built_in::planned_count;
pub use labelling::{derive, label, sound_labels};
pub use planning::plan;
pub use sharding::shard;
