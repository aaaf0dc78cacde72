//! The sides of rules, in the order of the text.
ghost use Rattle.std.specs.Prelude.{◌≡◌, ◌+◌, Bool, List, ℕ, length, IfSome, IfOk};
ghost use Rattle.bloom_index.specs.Code.Plans.{expr_of};
ghost use Rattle.bloom_index.specs.Code.SideParts.{grown_side, numbered_sides, rules_sides, plans_sides, IsKept, HasSide, IsSideAt, FindsOwn, Finds};

use crate::grows::grows;
use crate::plan::Plan;
use bloom_forms::{NumberedExpr, NumberedRule};
use bloom_growth::Side;
use bloom_parts::PartRows;
use std::alloc::AllocError;
use std::ops::ControlFlow;

// The number of sides with one more where a part grows.
fn with_side(part: &NumberedExpr, growing: &[bool], count: u32) -> Option<u32>
    ensures { IfSome result (λ n. (columns : List ℕ) → n ≡ count + length (grown_side growing.now part.now columns)) }
{
    if grows(part, growing) {
        count.checked_add(1)
    } else {
        Some(count)
    }
}

// The number of sides with those of an expression. None where there are too many to count.
fn count_sides(expr: &NumberedExpr, growing: &[bool], count: u32) -> Option<u32>
    ensures { IfSome result (λ n. n ≡ count + length (numbered_sides growing.now expr.now)) }
{
    match expr {
        NumberedExpr::Base(_) => Some(count),
        NumberedExpr::Select(part, _) => count_sides(part, growing, count),
        NumberedExpr::Project(part, _) => count_sides(part, growing, count),
        NumberedExpr::Join(a, b, _) => {
            let count = with_side(a, growing, count)?;
            let count = count_sides(a, growing, count)?;
            let count = with_side(b, growing, count)?;
            count_sides(b, growing, count)
        }
        NumberedExpr::NotIn(a, b, _) => {
            let count = count_sides(a, growing, count)?;
            let count = with_side(b, growing, count)?;
            count_sides(b, growing, count)
        }
        NumberedExpr::Group(part, _, _) => count_sides(part, growing, count),
        NumberedExpr::AtLeast(part, _, _) => count_sides(part, growing, count),
    }
}

/// How many sides the rules have. More than 2^32 - 1 of them are want of memory.
pub(crate) fn side_count(rules: &[NumberedRule], growing: &[bool]) -> Result<u32, AllocError>
    ensures { IfOk result (λ count. count ≡ length (rules_sides growing.now rules.now)) }
{
    let mut count = 0;
    for rule in rules {
        let Some(more) = count_sides(&rule.body, growing, count) else {
            return Err(AllocError);
        };
        count = more;
    }
    Ok(count)
}

// The side of a part that grows, where none is to be passed before it, or how many are to be passed
// after it.
fn this_side(rows: &PartRows, number: u32) -> ControlFlow<&Side, u32>
    ensures { FindsOwn rows.now number result }
{
    let PartRows::Growing(side) = rows else {
        return ControlFlow::Continue(number);
    };
    if number == 0 {
        ControlFlow::Break(side)
    } else {
        ControlFlow::Continue(number - 1)
    }
}

// The side of a plan with a number, counted from 0 in the order of the text, or how many are to be passed
// after it.
fn find_side(plan: &Plan, number: u32) -> ControlFlow<&Side, u32>
    ensures { (growing : List Bool) (kept : IsKept growing plan.now) → Finds kept.sets (numbered_sides growing (expr_of plan.now)) number result }
{
    match plan {
        Plan::Base(_) => ControlFlow::Continue(number),
        Plan::Select(part, _) => find_side(part, number),
        Plan::Project(part, _, _) => find_side(part, number),
        Plan::Join(left, right, _, kept) => {
            let number = this_side(&kept.left, number)?;
            let number = find_side(left, number)?;
            let number = this_side(&kept.right, number)?;
            find_side(right, number)
        }
        Plan::NotIn(left, right, _, kept) => {
            let number = find_side(left, number)?;
            let number = this_side(&kept.right, number)?;
            find_side(right, number)
        }
        Plan::Group(part, _) => find_side(part, number),
        Plan::AtLeast(part, _, _) => find_side(part, number),
    }
}

/// The side with a number, counted from 0 in the order in which the text of the module has them.
pub(crate) fn side_at(plans: &[Plan], number: u32) -> &Side
    requires { HasSide plans.now number }
    ensures { (has : HasSide plans.now number) → IsSideAt has.kept.sets (plans_sides has.growing plans.now) number result.now }
{
    let mut left = number;
    for plan in plans {
        match find_side(plan, left) {
            ControlFlow::Break(side) => return side,
            ControlFlow::Continue(later) => left = later,
        }
    }
    unreachable!()
}
