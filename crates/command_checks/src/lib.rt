//! What a command reads, checks and answers: the read of a file, the checks of a topology's files, of its
//! modules and of its data, the stop at one of them, and the reply.
#![tactic(auto)]

mod file;
mod given_data;
mod module_file;
mod reply;
mod schedules;
mod status;
mod stop;
mod topologies;
mod topology_file;

pub use file::read_file;
pub use given_data::{data_file, data_refusal};
pub use reply::{Reply, conclusion, done, line};
pub use schedules::schedule_file;
pub use status::Status;
pub use stop::{Stop, refused, stop_at};
pub use topologies::{WithModules, valid_topology, with_modules};
