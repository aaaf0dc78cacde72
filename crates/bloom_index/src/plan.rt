//! Plans of expressions, which keep from step to step what their parts give.
ghost use Rattle.std.specs.Prelude.{◌≡◌, IfOk};
ghost use Rattle.bloom_growth.specs.TurningGroups.{AreFreshTallies};
ghost use Rattle.bloom_index.specs.Code.Emptiness.{IsFresh};

use crate::copies::copied_test;
use crate::grows::grows;
use bloom_forms::NumberedExpr;
use bloom_growth::{Bag, KeptJoin, KeptNotIn, TurningGroups};
use bloom_parts::{PartRows, fresh_join, fresh_not_in};
use blz_value::{Agg, Faithful, HashKey, Items, Test};
use std::alloc::{AllocError, Global};

/// An expression over collections and columns by their numbers, each operator with what is kept of its
/// parts. What isn't used stays empty.
#[derive(Drop)]
pub(crate) enum Plan {
    /// The rows of the collection with this number.
    Base(u32),
    /// The rows for which the test holds.
    Select(Box<Plan>, Test),
    /// These columns of each row. Where the part is kept, the rows that several of its rows may give, each
    /// with how many do.
    Project(Box<Plan>, Items<u32>, Bag),
    /// Each left row with each right row that agrees on all pairs of a left and a right column. Each part
    /// that is kept by the columns that are equated, and the number of rows where both are.
    Join(Box<Plan>, Box<Plan>, Items<(u32, u32)>, KeptJoin<PartRows, PartRows>),
    /// The rows on the left that no row on the right matches in every pair. Each part that is kept by the
    /// columns that are equated.
    NotIn(Box<Plan>, Box<Plan>, Items<(u32, u32)>, KeptNotIn<PartRows>),
    /// The aggregate at each key.
    Group(Box<Plan>, TurningGroups),
    /// The keys that occur in at least so many rows, and how many rows there are of each.
    AtLeast(Box<Plan>, u64, TurningGroups),
}

fn groups(alloc: Global, keys: &[u32], agg: Agg, key: HashKey) -> Result<TurningGroups, AllocError>
    ensures { IfOk result (AreFreshTallies keys.now agg) }
{
    let keys = Vec::from_slice(alloc, keys)?;
    Ok(TurningGroups::new(alloc, keys, agg, key))
}

fn boxed(alloc: Global, plan: Plan) -> Result<Box<Plan>, AllocError>
    ensures { IfOk result (λ boxed. boxed.value ≡ plan) }
{
    Ok(Box::new(alloc, plan)?)
}

// The plan of a part before the first step.
fn part_plan(
    alloc: Global,
    expr: &NumberedExpr,
    growing: &[bool],
    key: HashKey,
) -> Result<Box<Plan>, AllocError>
    ensures { IfOk result (λ plan. IsFresh growing.now expr.now plan.value) }
{
    match expr {
        NumberedExpr::Base(number) => boxed(alloc, Plan::Base(*number)),
        NumberedExpr::Select(part, test) => {
            let test = copied_test(alloc, test)?;
            let part = part_plan(alloc, part, growing, key)?;
            boxed(alloc, Plan::Select(part, test))
        }
        NumberedExpr::Project(part, columns) => {
            let columns = columns.copied()?;
            let part = part_plan(alloc, part, growing, key)?;
            boxed(alloc, Plan::Project(part, columns, Bag::new(alloc)))
        }
        NumberedExpr::Join(a, b, pairs) => {
            let kept = fresh_join(
                alloc,
                pairs.as_slice(),
                grows(a, growing),
                grows(b, growing),
            )?;
            let pairs = pairs.copied()?;
            let left = part_plan(alloc, a, growing, key)?;
            let right = part_plan(alloc, b, growing, key)?;
            boxed(alloc, Plan::Join(left, right, pairs, kept))
        }
        NumberedExpr::NotIn(a, b, pairs) => {
            let kept = fresh_not_in(alloc, pairs.as_slice(), grows(b, growing))?;
            let pairs = pairs.copied()?;
            let left = part_plan(alloc, a, growing, key)?;
            let right = part_plan(alloc, b, growing, key)?;
            boxed(alloc, Plan::NotIn(left, right, pairs, kept))
        }
        NumberedExpr::Group(part, keys, agg) => {
            let part = part_plan(alloc, part, growing, key)?;
            let groups = groups(alloc, keys.as_slice(), *agg, key)?;
            boxed(alloc, Plan::Group(part, groups))
        }
        NumberedExpr::AtLeast(part, keys, bound) => {
            let part = part_plan(alloc, part, growing, key)?;
            let groups = groups(alloc, keys.as_slice(), Agg::Count, key)?;
            boxed(alloc, Plan::AtLeast(part, *bound, groups))
        }
    }
}

/// The plan of an expression before the first step. Groups hash under a key. It recurses as deep as
/// the expression.
pub(crate) fn plan_of(
    alloc: Global,
    expr: &NumberedExpr,
    growing: &[bool],
    key: HashKey,
) -> Result<Plan, AllocError>
    ensures { IfOk result (IsFresh growing.now expr.now) }
{
    let plan = part_plan(alloc, expr, growing, key)?;
    Ok(Box::into_inner(plan))
}
