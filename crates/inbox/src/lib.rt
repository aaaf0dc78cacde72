//! What an instance is: what it makes of the messages that it hears, what it emits, and what an execution of a
//! topology is.
#![tactic(auto)]

mod feed;
mod inbox;
mod instance;
mod keys;
mod laws;
mod outlets;
mod places;
mod running;
mod set_off;
mod sources;
mod stream_laws;
mod timesteps;
mod waiting;

pub use feed::Feed;
pub use inbox::Inbox;
pub use instance::feeds_of;
pub use laws::{execution_law, pool_law, sequencer_law};
pub use messages::{Log, Message};
pub use outlets::{Outlet, outlets_of};
pub use places::Places;
pub use running::{emit_at, emit_entries_at};
pub use set_off::{Going, Released, SetOffIds};
pub use sources::first_lists;
pub use stream_laws::{arriving_law, joint_law, key_law, output_law, traced_law};
pub use timesteps::Timesteps;
