//! From the bytes of a text to its tokens and terminals.

pub(crate) mod front;
pub(crate) mod lexer;
pub(crate) mod terminal;
pub(crate) mod token;
