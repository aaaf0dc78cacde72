//! What rows of files can't say of the program: shells that it hasn't, and calls that it doesn't make, each
//! shown as a text.
#![tactic(auto)]

mod benches;
mod calls;
mod checked;
mod dependencies;
mod given;
mod inboxes;
mod inputs;
mod modules;
mod nets;
mod roots;
mod shells;
mod sides;
mod texts;
mod types;
mod works;

pub use benches::{PoorShell, TellingShell};
pub use calls::shown;
pub use inputs::{FILE_LIMIT, bytes_in, valid_of};
pub use shells::show_kept;
pub use works::work_shown;
