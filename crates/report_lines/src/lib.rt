//! The lines that the program prints of a topology: their words, the refusals, the labels and how they come
//! about.
#![tactic(auto)]

mod component;
mod derivation;
mod label_lines;
mod line;
mod refusal;
mod refusal_line;
mod report;
mod uses;

pub use derivation::derive_text;
pub use label_lines::label_text;
pub use line::{Word, push_inner_line, push_line};
pub use refusal::{EventKind, MakeKind, Refusal, ShardKind, WhyKind};
pub use refusal_line::refusal_text;
pub use report::{Report, label_word, mode_word, note_word};
