//! What the grammar of module text sees of a token.
use blz_value::{Op, Str};

/// A mark that doesn't compare.
#[derive(Clone, Copy, PartialEq, Eq)]
pub enum Mark {
    /// `;`
    Semicolon,
    /// `,`
    Comma,
    /// `(`
    Open,
    /// `)`
    Close,
    /// `[`
    OpenKeys,
    /// `]`
    CloseKeys,
}

/// A reserved word.
#[derive(Clone, Copy, PartialEq, Eq)]
pub enum Word {
    Module,
    Input,
    Output,
    Table,
    Scratch,
    Select,
    Project,
    Join,
    NotIn,
    Group,
    AtLeast,
    Count,
    Sum,
    Min,
    Max,
    As,
    And,
    Or,
    Not,
}

/// A token as the grammar sees it, the end of the text, or a bad token.
#[derive(Drop)]
pub enum Terminal {
    /// A name that is no reserved word.
    Name(Str),
    /// A reserved word.
    Word(Word),
    /// An integer.
    Integer(i64),
    /// The text that a text literal stands for.
    Text(Str),
    /// A mark that doesn't compare.
    Mark(Mark),
    /// One of `=`, `!=`, `<`, `<=`, `>` and `>=`.
    Sign(Op),
    /// The end of the text.
    End,
    /// A bad token, which no module text has.
    Bad,
}
