//! The tests of the buckets of a column.
ghost use Rattle.std.specs.Prelude.{◌≡◌, ◌++◌, map, IfOk, OnOk};
ghost use Rattle.bloom_forms.specs.Form.{formula_of};
ghost use Rattle.bloom_forms.specs.Shards.{below_bound, buckets, from_bound};
ghost use Rattle.bloom_forms.specs.Query.Formula.{both, compare};
ghost use Rattle.bloom_forms.specs.declared.expr.Term.TheVariants.{Column, Literal};
ghost use Rattle.blz_value.specs.declared.value.Value.TheVariants.{Int};
ghost use Rattle.shard_buckets.specs.Buckets as spec;

use bloom_forms::{Pred, Term};
use blz_value::{Op, Str, Value};
use std::alloc::{AllocError, Global};

fn compared(column: &Str, op: Op, bound: i64) -> Result<Pred, AllocError>
    ensures { IfOk result (λ test. formula_of test ≡ compare (Column column.now) op (Literal (Int bound))) }
{
    Ok(Pred::Compare {
        left: Term::Column(column.copy()?),
        op,
        right: Term::Literal(Value::Int(bound)),
    })
}

fn from_bound(column: &Str, bound: i64) -> Result<Pred, AllocError>
    ensures { IfOk result (λ test. formula_of test ≡ from_bound column.now bound) }
{
    compared(column, Op::Ge, bound)
}

fn below_bound(column: &Str, bound: i64) -> Result<Pred, AllocError>
    ensures { IfOk result (λ test. formula_of test ≡ below_bound column.now bound) }
{
    compared(column, Op::Lt, bound)
}

// From one bound up to the next.
fn between(alloc: Global, column: &Str, bound: i64, next: i64) -> Result<Pred, AllocError>
    ensures { IfOk result (λ test. formula_of test ≡ both (from_bound column.now bound) (below_bound column.now next)) }
{
    let from = Box::new(alloc, from_bound(column, bound)?)?;
    let below = Box::new(alloc, below_bound(column, next)?)?;
    Ok(Pred::And(from, below))
}

// Puts the tests of the buckets of one bound and of those after it behind other tests.
fn push_tests(
    alloc: Global,
    column: &Str,
    first: i64,
    bounds: &[i64],
    tests: &mut Vec<Pred>,
) -> Result<(), AllocError>
    ensures { OnOk result (map formula_of tests.new.items ≡ map formula_of tests.old.items ++ buckets column.now first bounds.now) }
{
    tests.push(below_bound(column, first)?)?;
    let mut bound = first;
    for next in bounds {
        tests.push(between(alloc, column, bound, *next)?)?;
        bound = *next;
    }
    tests.push(from_bound(column, bound)?)?;
    Ok(())
}

/// The tests of the buckets in order: below the first bound, from each up to the next, and from the
/// last on.
pub fn bucket_tests(alloc: Global, column: &Str, bounds: &[i64]) -> Result<Vec<Pred>, AllocError>
    ensures { IfOk result (λ tests. map formula_of tests.items ≡ spec.bucket_tests column.now bounds.now) }
{
    let mut tests = Vec::new(alloc);
    if let [first, others @ ..] = bounds {
        push_tests(alloc, column, *first, others, &mut tests)?;
    }
    Ok(tests)
}
