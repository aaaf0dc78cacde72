//! The commands of the program: from what is asked and the bytes of files to a status and a text.
#![tactic(auto)]

mod batches;
mod commands;
mod find_calls;
mod label_calls;
mod making;
mod run_calls;
mod soaking;

pub use commands::outcome_of;
pub use find_calls::{why, witness};
pub use label_calls::{derive, label, plan, planned_count, shard, sound_labels};
pub use run_calls::{event_refusal, opened, restart, run, status_of};
