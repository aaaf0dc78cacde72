//! Modules as they are written.
ghost use Rattle.std.proofs.Common.{rules};

use crate::expr::Expr;
use blz_value::{Faithful, Items, Str};

/// What a collection is for.
#[derive(Clone, Copy, PartialEq, Eq)]
pub enum Kind {
    /// A port, which holds the rows that arrive in a step.
    Input,
    /// The rows that a step puts out.
    Output,
    /// Rows that stay from step to step.
    Table,
    /// Rows of one step.
    Scratch,
}

impl Faithful for Kind {
    ghost equal = { Prim.search rules };
}

/// A collection and its columns in order.
#[derive(Clone, Drop)]
pub struct Collection {
    pub kind: Kind,
    pub name: Str,
    pub columns: Items<Str>,
}

impl Faithful for Collection {
    ghost equal = { Prim.search rules };
}

/// A rule: the head gets the rows of the body.
#[derive(Drop)]
pub struct Rule {
    pub head: Str,
    pub body: Expr,
}

/// A module: its name, its collections and its rules, each in the order of the text.
#[derive(Drop)]
pub struct Module {
    pub name: Str,
    pub collections: Items<Collection>,
    pub rules: Items<Rule>,
}
