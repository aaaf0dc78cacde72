//! Kinds of programs.

/// What kind of body a program is.
#[derive(Clone, Copy, PartialEq, Eq)]
pub enum ProgramKind {
    /// A module.
    Module,
    /// The stock body Split.
    Split,
    /// The stock body Latest.
    Latest,
    /// The stock body Number.
    Number,
}
