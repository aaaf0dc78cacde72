//! Tokens, as the slices of a text.

/// What a token is.
#[derive(Clone, Copy, Debug, PartialEq, Eq)]
pub enum Class {
    /// A name that is no reserved word.
    Name,
    /// A reserved word.
    Word,
    /// An integer.
    Integer,
    /// A text literal.
    Text,
    /// A mark.
    Mark,
}

/// A token, by the numbers of its first byte and of the byte behind it, counted from 0.
#[derive(Clone, Copy, PartialEq, Eq)]
pub struct Token {
    pub from: usize,
    pub to: usize,
    pub class: Class,
}
