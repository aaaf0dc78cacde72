//! The shells of stock bodies and the plain one of modules. Their interface lies in `bloom_eval`.
#![tactic(auto)]

mod latest;
mod latest_table;
mod number;
mod number_table;
mod plain;
mod program;
mod split;
mod words;

pub use bloom_eval::{Component, ProgramKind};
pub use latest::LatestShell;
pub use number::NumberShell;
pub use plain::PlainShell;
pub use split::SplitShell;
