//! Predicates at the front of a list of terminals.
ghost use Rattle.std.specs.Prelude.{◌≡◌, None, Ok, IfOk};
ghost use Rattle.std.specs.Option.{option_map};
ghost use Rattle.bloom_forms.specs.Form.{formula_of};
ghost use Rattle.bloom_forms.specs.Query.Formula.{both};
ghost use Rattle.bloom_parse.specs.Code.ReadingSingle.{Gives};
ghost use Rattle.bloom_parse.specs.Code.ReadingPredicates.{opening_of, link_of, unit_by, summed_of, formulas, comparison_at, chain_at, pred_by, unit_at};

use crate::lexing::terminal::{Mark, Terminal, Word};
use crate::reading::read_fault::ReadFault;
use crate::reading::single::{behind_first, mark, operand, sign};
use bloom_forms::{MOST_COMPARISONS, Pred};
use std::alloc::{AllocError, Global};

/// Most comparisons of a select behind its first.
pub(crate) const MORE_COMPARISONS: u32 = MOST_COMPARISONS - 1;

/// A predicate in a box, how many `and` and `or` may still come, and the rest. In a box it costs
/// the prover less.
type PredRead<'a> = Result<(Box<Pred>, u32, &'a [Terminal]), ReadFault>;

fn boxed(alloc: Global, pred: Pred) -> Result<Box<Pred>, AllocError>
    ensures { IfOk result (λ boxed. boxed.value ≡ pred) }
{
    Ok(Box::new(alloc, pred)?)
}

#[tactic(auto, unfolding(crate::specs::Code::ReadingPredicates::comparison_at))]
fn comparison(alloc: Global, left: u32, terminals: &[Terminal]) -> PredRead<'_>
    ensures { Gives (λ x. (formula_of x.0.value, x.1, x.2.now)) result (comparison_at left terminals.now) }
{
    let (first, rest) = operand(alloc, terminals)?;
    let (op, rest) = sign(rest)?;
    let (second, rest) = operand(alloc, rest)?;
    let compare = Pred::Compare {
        left: first,
        op,
        right: second,
    };
    let made = boxed(alloc, compare)?;
    Ok((made, left, rest))
}

/// What a unit begins with.
#[derive(Clone, Copy)]
enum Opening {
    Negation,
    Parenthesis,
    Operand,
}

/// What stands behind a unit.
#[derive(Clone, Copy)]
enum Link {
    And,
    Or,
    Stop,
}

fn opening_at(terminals: &[Terminal]) -> Opening
    ensures { result ≡ opening_of terminals.now }
{
    match terminals {
        [Terminal::Word(Word::Not), ..] => Opening::Negation,
        [Terminal::Mark(Mark::Open), ..] => Opening::Parenthesis,
        _ => Opening::Operand,
    }
}

fn link_at(terminals: &[Terminal]) -> Link
    ensures { result ≡ link_of terminals.now }
{
    match terminals {
        [Terminal::Word(Word::And), ..] => Link::And,
        [Terminal::Word(Word::Or), ..] => Link::Or,
        _ => Link::Stop,
    }
}

#[cycle(predicates)]
#[tactic(auto, unfolding(crate::specs::Code::ReadingPredicates::unit_by))]
fn deeper_unit(alloc: Global, room: u32, left: u32, terminals: &[Terminal]) -> PredRead<'_>
    ensures { Gives (λ x. (formula_of x.0.value, x.1, x.2.now)) result (unit_by (unit_at room) left terminals.now) }
{
    match opening_at(terminals) {
        Opening::Negation => {
            let (part, left, rest) = unit(alloc, room, left, behind_first(terminals))?;
            let made = boxed(alloc, Pred::Not(part))?;
            Ok((made, left, rest))
        }
        Opening::Parenthesis => {
            let (part, left, rest) = pred(alloc, room, left, behind_first(terminals))?;
            let rest = mark(Mark::Close, rest)?;
            Ok((part, left, rest))
        }
        Opening::Operand => comparison(alloc, left, terminals),
    }
}

#[cycle(predicates)]
#[tactic(auto, unfolding(crate::specs::Code::ReadingPredicates::unit_at))]
fn unit(alloc: Global, room: u32, left: u32, terminals: &[Terminal]) -> PredRead<'_>
    ensures { Gives (λ x. (formula_of x.0.value, x.1, x.2.now)) result (unit_at room left terminals.now) }
{
    if room == 0 {
        comparison(alloc, left, terminals)
    } else {
        deeper_unit(alloc, room - 1, left, terminals)
    }
}

/// A predicate, with so many levels that may still open and so many `and` and `or` that may still
/// come.
#[cycle(predicates)]
#[tactic(auto, unfolding(crate::specs::Code::ReadingPredicates::pred_by))]
pub(crate) fn pred(alloc: Global, room: u32, left: u32, terminals: &[Terminal]) -> PredRead<'_>
    ensures { Gives (λ x. (formula_of x.0.value, x.1, x.2.now)) result (pred_by (unit_at room) left terminals.now) }
{
    let (first, left, rest) = unit(alloc, room, left, terminals)?;
    chain(alloc, room, left, first, rest)
}

fn anded(alloc: Global, product: Box<Pred>, part: Box<Pred>) -> Result<Box<Pred>, AllocError>
    ensures { IfOk result (λ x. formula_of x.value ≡ both (formula_of product.value) (formula_of part.value)) }
{
    boxed(alloc, Pred::And(product, part))
}

fn summed(
    alloc: Global,
    sum: Option<Box<Pred>>,
    product: Box<Pred>,
) -> Result<Box<Pred>, AllocError>
    ensures { IfOk result (λ x. formula_of x.value ≡ summed_of (formulas (option_map (λ s. s.value) sum)) (formula_of product.value)) }
{
    match sum {
        Some(sum) => boxed(alloc, Pred::Or(sum, product)),
        None => Ok(product),
    }
}

#[cycle(predicates)]
#[tactic(auto, using(crate::proofs::Grammar::PredicateCorrect::chain_open, crate::proofs::Grammar::PredicateCorrect::chain_ended))]
fn chain(
    alloc: Global,
    room: u32,
    left: u32,
    first: Box<Pred>,
    terminals: &[Terminal],
) -> PredRead<'_>
    ensures { Gives (λ x. (formula_of x.0.value, x.1, x.2.now)) result (chain_at (unit_at room) 31 left None (formula_of first.value) terminals.now) }
{
    let mut sum = None;
    let mut product = first;
    let mut left = left;
    let mut rest = terminals;
    for _ in 0..MORE_COMPARISONS {
        match link_at(rest) {
            Link::And => {
                if left == 0 {
                    return Err(ReadFault::Left(rest.len()));
                }
                let (part, now, after) = unit(alloc, room, left - 1, behind_first(rest))?;
                product = anded(alloc, product, part)?;
                left = now;
                rest = after;
            }
            Link::Or => {
                if left == 0 {
                    return Err(ReadFault::Left(rest.len()));
                }
                let (part, now, after) = unit(alloc, room, left - 1, behind_first(rest))?;
                sum = Some(summed(alloc, sum, product)?);
                product = part;
                left = now;
                rest = after;
            }
            Link::Stop => return Ok((summed(alloc, sum, product)?, left, rest)),
        }
    }
    match link_at(rest) {
        Link::Stop => Ok((summed(alloc, sum, product)?, left, rest)),
        Link::And | Link::Or => Err(ReadFault::Left(rest.len())),
    }
}
