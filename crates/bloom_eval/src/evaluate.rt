//! The evaluation of expressions over what the collections hold.
ghost use Rattle.std.specs.Prelude.{◌≡◌, ◌≤◌, List, length};
ghost use Rattle.blz_value.specs.Record.{Row};
ghost use Rattle.blz_set.specs.Answers.{Gives};
ghost use Rattle.blz_set.specs.RecordSet.{row_limit};
ghost use Rattle.bloom_forms.specs.Step.{set_at};
ghost use Rattle.bloom_eval.specs.Code.Held.{rows_in, sets_in};
ghost use Rattle.bloom_eval.specs.NumberedRows.{numbered_rows, numbered_sets, TestsFit};
ghost use Rattle.bloom_eval.specs.Code.Evaluates.{GivesRows, Evaluates};

use crate::rows::Rows;
use bloom_forms::NumberedExpr;
use blz_set::{RecordSet, SetFault};
use std::alloc::Global;

// The rows of a collection, which are lent. A number that no collection has stands for the empty set.
fn base_rows<'a>(alloc: Global, held: &'a [Rows<'_>], number: u32) -> Rows<'a>
    ensures rows { rows_in result ≡ set_at (sets_in held.now) number }
    ensures small { length (rows_in result) ≤ row_limit }
{
    match held.get(number as usize) {
        Some(rows) => Rows::Lent(rows.as_set()),
        None => Rows::Own(RecordSet::new(alloc)),
    }
}

#[tactic(auto, using(crate::proofs::Evaluation::gives_rows, crate::proofs::Evaluation::gives_fault))]
fn owned<'a>(set: Result<RecordSet, SetFault>) -> Result<Rows<'a>, SetFault>
    ensures { (rows : List Row) → Gives rows set → GivesRows rows result }
{
    Ok(Rows::Own(set?))
}

/// The rows of an expression. It recurses as deep as the expression.
pub(crate) fn evaluate<'a>(
    alloc: Global,
    expr: &NumberedExpr,
    held: &'a [Rows<'_>],
) -> Result<Rows<'a>, SetFault>
    requires { TestsFit (sets_in held.now) expr.now }
    ensures { Evaluates (numbered_rows (sets_in held.now) expr.now) (numbered_sets (sets_in held.now) expr.now) result }
{
    match expr {
        NumberedExpr::Base(number) => Ok(base_rows(alloc, held, *number)),
        NumberedExpr::Select(part, test) => {
            let part = evaluate(alloc, part, held)?;
            owned(part.as_set().select(test))
        }
        NumberedExpr::Project(part, columns) => {
            let part = evaluate(alloc, part, held)?;
            owned(part.as_set().project(columns.as_slice()))
        }
        NumberedExpr::Join(left, right, pairs) => {
            let left = evaluate(alloc, left, held)?;
            let right = evaluate(alloc, right, held)?;
            owned(left.as_set().join(right.as_set(), pairs.as_slice()))
        }
        NumberedExpr::NotIn(left, right, pairs) => {
            let left = evaluate(alloc, left, held)?;
            let right = evaluate(alloc, right, held)?;
            owned(left.as_set().antijoin(right.as_set(), pairs.as_slice()))
        }
        NumberedExpr::Group(part, keys, agg) => {
            let part = evaluate(alloc, part, held)?;
            owned(part.as_set().group(keys.as_slice(), *agg))
        }
        NumberedExpr::AtLeast(part, keys, bound) => {
            let part = evaluate(alloc, part, held)?;
            owned(part.as_set().at_least(keys.as_slice(), *bound))
        }
    }
}
