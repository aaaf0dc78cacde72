//! Expressions of rules, and their predicates.
ghost use Rattle.std.proofs.Common.{rules};

use blz_value::{Faithful, Items, Op, Str, Value};

/// One side of a comparison.
#[derive(Drop)]
pub enum Term {
    /// The value in the column of this name.
    Column(Str),
    /// This value.
    Literal(Value),
}

/// A predicate over rows.
#[derive(Drop)]
pub enum Pred {
    /// The comparison holds of the two terms.
    Compare { left: Term, op: Op, right: Term },
    /// Both hold.
    And(Box<Pred>, Box<Pred>),
    /// One of the two holds, or both.
    Or(Box<Pred>, Box<Pred>),
    /// It doesn't hold.
    Not(Box<Pred>),
}

/// What a group makes of the rows of one key.
#[derive(Clone, Drop)]
pub enum NamedAgg {
    /// The number of rows.
    Count,
    /// The sum of the numbers in the column, moved to the nearest i64.
    Sum(Str),
    /// The least value in the column.
    Min(Str),
    /// The greatest value in the column.
    Max(Str),
}

impl Faithful for NamedAgg {
    ghost equal = { Prim.search rules };
}

/// An expression over collections.
#[derive(Drop)]
pub enum Expr {
    /// The rows of the collection of this name.
    Base(Str),
    /// The rows for which the predicate holds.
    Select(Box<Expr>, Pred),
    /// The first column of each item, under its second name.
    Project(Box<Expr>, Items<(Str, Str)>),
    /// Each left row with each right row that agrees on all pairs of a left and a right column,
    /// without the right columns of pairs.
    Join(Box<Expr>, Box<Expr>, Items<(Str, Str)>),
    /// The rows on the left that no row on the right matches in every pair.
    NotIn(Box<Expr>, Box<Expr>, Items<(Str, Str)>),
    /// For each key that occurs the key columns, and the aggregate of its rows under the name.
    Group(Box<Expr>, Items<Str>, NamedAgg, Str),
    /// The keys that occur in at least so many rows.
    AtLeast(Box<Expr>, Items<Str>, i64),
}
