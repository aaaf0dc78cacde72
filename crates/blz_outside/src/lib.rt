//! Where the program reads files and writes text: the traits `Files` and `Sink`, ends in memory that
//! tell all that they hold, and the real ends, which tell their faults alone.
#![tactic(auto)]

mod counts;
mod files;
mod mem_files;
mod mem_sink;
mod real;
mod sink;

pub use files::{End, Files, ReadFail};
pub use mem_files::MemFiles;
pub use mem_sink::MemSink;
pub use real::{RealFiles, RealSink};
pub use sink::{Failed, Sink};
