//! Expressions and rules over collections and columns by their numbers.
use blz_value::{Agg, Items, Test};

/// An expression over collections and columns by their numbers.
#[derive(Drop)]
pub enum NumberedExpr {
    /// The rows of the collection with this number.
    Base(u32),
    /// The rows for which the test holds.
    Select(Box<NumberedExpr>, Test),
    /// These columns of each row.
    Project(Box<NumberedExpr>, Items<u32>),
    /// Each left row with each right row that agrees on all pairs of a left and a right column,
    /// without the right columns of pairs.
    Join(Box<NumberedExpr>, Box<NumberedExpr>, Items<(u32, u32)>),
    /// The rows on the left that no row on the right matches in every pair.
    NotIn(Box<NumberedExpr>, Box<NumberedExpr>, Items<(u32, u32)>),
    /// For each key that occurs the key columns, and the aggregate of its rows.
    Group(Box<NumberedExpr>, Items<u32>, Agg),
    /// The keys that occur in at least so many rows.
    AtLeast(Box<NumberedExpr>, Items<u32>, u64),
}

/// A rule by numbers: the collection with the number of the head gets the rows of the body.
#[derive(Drop)]
pub struct NumberedRule {
    pub head: u32,
    pub body: NumberedExpr,
}
