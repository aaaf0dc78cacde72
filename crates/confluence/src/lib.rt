//! Why labels can be trusted: the laws that tie the labels of a topology to all of its executions.
//! There are no wrong bodies to refuse: the functions are empty, and an edit of a definition would
//! only state another law.
#![tactic(auto)]

mod laws;

pub use bloom_forms::{confluent_law, split_law};
pub use inbox::sequencer_law;
pub use laws::{
    cyclic_law, determined_outputs, good_paths_law, honest_law, partition_law, protected_law,
    region_law, restart_law, seal_law, validated_law,
};
