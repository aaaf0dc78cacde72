//! Expressions at the front of a list of terminals.
ghost use Rattle.std.specs.Prelude.{◌≡◌, IfOk};
ghost use Rattle.bloom_forms.specs.Form.{query_of};
ghost use Rattle.bloom_parse.specs.Code.ReadingSingle.{Gives};
ghost use Rattle.bloom_parse.specs.Code.ReadingExprs.{operator_of, base_at, opened_by, select_by, project_by, parts_by, keyed_by, group_by, at_least_by, by_operator, expr_at};

use crate::lexing::terminal::{Mark, Terminal, Word};
use crate::reading::lists::{aggregate, item, items, keys, pairs};
use crate::reading::predicates::{MORE_COMPARISONS, pred};
use crate::reading::read_fault::ReadFault;
use crate::reading::single::{as_word, behind_first, bound, mark, name};
use bloom_forms::Expr;
use blz_value::{Items, Str};
use std::alloc::{AllocError, Global};

/// The word before an expression.
#[derive(Clone, Copy)]
enum Operator {
    Select,
    Project,
    Join,
    NotIn,
    Group,
    AtLeast,
    Plain,
}

/// An expression in a box, and the terminals behind it. In a box it costs the prover less.
type ExprRead<'a> = Result<(Box<Expr>, &'a [Terminal]), ReadFault>;

/// Two parts and their pairs, and the terminals behind them.
type PartsRead<'a> = Result<(Box<Expr>, Box<Expr>, Vec<(Str, Str)>, &'a [Terminal]), ReadFault>;

/// A part and its keys, and the terminals behind them.
type KeyedRead<'a> = Result<(Box<Expr>, Vec<Str>, &'a [Terminal]), ReadFault>;

fn operator_at(terminals: &[Terminal]) -> Operator
    ensures { result ≡ operator_of terminals.now }
{
    match terminals {
        [Terminal::Word(Word::Select), ..] => Operator::Select,
        [Terminal::Word(Word::Project), ..] => Operator::Project,
        [Terminal::Word(Word::Join), ..] => Operator::Join,
        [Terminal::Word(Word::NotIn), ..] => Operator::NotIn,
        [Terminal::Word(Word::Group), ..] => Operator::Group,
        [Terminal::Word(Word::AtLeast), ..] => Operator::AtLeast,
        _ => Operator::Plain,
    }
}

fn boxed(alloc: Global, expr: Expr) -> Result<Box<Expr>, AllocError>
    ensures { IfOk result (λ boxed. boxed.value ≡ expr) }
{
    Ok(Box::new(alloc, expr)?)
}

fn base(alloc: Global, terminals: &[Terminal]) -> ExprRead<'_>
    ensures { Gives (λ x. (query_of x.0.value, x.1.now)) result (base_at terminals.now) }
{
    let (name, rest) = name(alloc, terminals)?;
    let made = boxed(alloc, Expr::Base(name))?;
    Ok((made, rest))
}

/// A part behind `(` and before a comma.
#[cycle(expressions)]
#[tactic(auto, unfolding(crate::specs::Code::ReadingExprs::opened_by))]
fn opened(alloc: Global, room: u32, terminals: &[Terminal]) -> ExprRead<'_>
    ensures { Gives (λ x. (query_of x.0.value, x.1.now)) result (opened_by (expr_at room) terminals.now) }
{
    let rest = mark(Mark::Open, terminals)?;
    let (part, rest) = expr(alloc, room, rest)?;
    let rest = mark(Mark::Comma, rest)?;
    Ok((part, rest))
}

#[cycle(expressions)]
#[tactic(auto, unfolding(crate::specs::Code::ReadingExprs::select_by))]
fn select(alloc: Global, room: u32, terminals: &[Terminal]) -> ExprRead<'_>
    ensures { Gives (λ x. (query_of x.0.value, x.1.now)) result (select_by (expr_at room) room terminals.now) }
{
    let (part, rest) = opened(alloc, room, terminals)?;
    let (test, _, rest) = pred(alloc, room, MORE_COMPARISONS, rest)?;
    let rest = mark(Mark::Close, rest)?;
    let made = boxed(alloc, Expr::Select(part, Box::into_inner(test)))?;
    Ok((made, rest))
}

#[cycle(expressions)]
#[tactic(auto, unfolding(crate::specs::Code::ReadingExprs::project_by))]
fn project(alloc: Global, room: u32, terminals: &[Terminal]) -> ExprRead<'_>
    ensures { Gives (λ x. (query_of x.0.value, x.1.now)) result (project_by (expr_at room) terminals.now) }
{
    let (part, rest) = opened(alloc, room, terminals)?;
    let (first, rest) = item(alloc, rest)?;
    let (found, rest) = items(alloc, first, rest)?;
    let rest = mark(Mark::Close, rest)?;
    let made = boxed(alloc, Expr::Project(part, Items::from_vec(found)))?;
    Ok((made, rest))
}

#[cycle(expressions)]
#[tactic(auto, unfolding(crate::specs::Code::ReadingExprs::parts_by))]
fn parts(alloc: Global, room: u32, terminals: &[Terminal]) -> PartsRead<'_>
    ensures { Gives (λ x. (query_of x.0.value, query_of x.1.value, x.2.items, x.3.now)) result (parts_by (expr_at room) terminals.now) }
{
    let (left, rest) = opened(alloc, room, terminals)?;
    let (right, rest) = expr(alloc, room, rest)?;
    let (found, rest) = pairs(alloc, rest)?;
    let rest = mark(Mark::Close, rest)?;
    Ok((left, right, found, rest))
}

#[cycle(expressions)]
#[tactic(auto, unfolding(crate::specs::Code::ReadingExprs::keyed_by))]
fn keyed(alloc: Global, room: u32, terminals: &[Terminal]) -> KeyedRead<'_>
    ensures { Gives (λ x. (query_of x.0.value, x.1.items, x.2.now)) result (keyed_by (expr_at room) terminals.now) }
{
    let (part, rest) = opened(alloc, room, terminals)?;
    let (found, rest) = keys(alloc, rest)?;
    let rest = mark(Mark::Comma, rest)?;
    Ok((part, found, rest))
}

#[cycle(expressions)]
#[tactic(auto, unfolding(crate::specs::Code::ReadingExprs::group_by))]
fn group(alloc: Global, room: u32, terminals: &[Terminal]) -> ExprRead<'_>
    ensures { Gives (λ x. (query_of x.0.value, x.1.now)) result (group_by (expr_at room) terminals.now) }
{
    let (part, found, rest) = keyed(alloc, room, terminals)?;
    let (agg, rest) = aggregate(alloc, rest)?;
    let rest = as_word(rest)?;
    let (named, rest) = name(alloc, rest)?;
    let rest = mark(Mark::Close, rest)?;
    let made = boxed(alloc, Expr::Group(part, Items::from_vec(found), agg, named))?;
    Ok((made, rest))
}

#[cycle(expressions)]
#[tactic(auto, unfolding(crate::specs::Code::ReadingExprs::at_least_by))]
fn at_least(alloc: Global, room: u32, terminals: &[Terminal]) -> ExprRead<'_>
    ensures { Gives (λ x. (query_of x.0.value, x.1.now)) result (at_least_by (expr_at room) terminals.now) }
{
    let (part, found, rest) = keyed(alloc, room, terminals)?;
    let (least, rest) = bound(rest)?;
    let rest = mark(Mark::Close, rest)?;
    let made = boxed(alloc, Expr::AtLeast(part, Items::from_vec(found), least))?;
    Ok((made, rest))
}

/// An expression with so many levels that may still open, and the terminals behind it.
#[cycle(expressions)]
#[tactic(auto, unfolding(crate::specs::Code::ReadingExprs::expr_at))]
pub(crate) fn expr(alloc: Global, room: u32, terminals: &[Terminal]) -> ExprRead<'_>
    ensures { Gives (λ x. (query_of x.0.value, x.1.now)) result (expr_at room terminals.now) }
{
    if room == 0 {
        base(alloc, terminals)
    } else {
        deeper_expr(alloc, room - 1, terminals)
    }
}

#[cycle(expressions)]
fn deeper_expr(alloc: Global, room: u32, terminals: &[Terminal]) -> ExprRead<'_>
    ensures { Gives (λ x. (query_of x.0.value, x.1.now)) result (by_operator (expr_at room) room (operator_of terminals.now) terminals.now) }
{
    let rest = behind_first(terminals);
    match operator_at(terminals) {
        Operator::Select => select(alloc, room, rest),
        Operator::Project => project(alloc, room, rest),
        Operator::Join => {
            let (left, right, found, rest) = parts(alloc, room, rest)?;
            let made = boxed(alloc, Expr::Join(left, right, Items::from_vec(found)))?;
            Ok((made, rest))
        }
        Operator::NotIn => {
            let (left, right, found, rest) = parts(alloc, room, rest)?;
            let made = boxed(alloc, Expr::NotIn(left, right, Items::from_vec(found)))?;
            Ok((made, rest))
        }
        Operator::Group => group(alloc, room, rest),
        Operator::AtLeast => at_least(alloc, room, rest),
        Operator::Plain => base(alloc, terminals),
    }
}
