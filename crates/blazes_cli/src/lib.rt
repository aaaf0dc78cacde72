//! The program as one call: from the words of a command line and the bytes of files to a status
//! and the bytes that are written.
#![tactic(auto)]

mod program;

pub use command_checks::Status;
pub use program::blazes;
