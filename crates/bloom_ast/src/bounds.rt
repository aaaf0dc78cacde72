//! The bounds of the grammar.
ghost use Rattle.std.specs.Prelude.{◌≡◌, ◌≤◌, ◌-◌, ◌*◌, nat_le, SomeIff};
ghost use Rattle.std.specs.List.{list_any};
ghost use Rattle.bloom_forms.specs.Bounds as spec;
ghost use Rattle.bloom_forms.specs.Bounds.{formula_height, height};
ghost use Rattle.bloom_forms.specs.Form.{formula_of, query_of};

use bloom_forms::{Expr, MOST_BYTES, MOST_COMPARISONS, MOST_LEVELS, Pred, Term};
use blz_value::Value;

/// No tree within the bounds is deeper.
const MOST_HEIGHT: u32 = 64;

// Whether the predicate is no deeper than this.
#[tactic(auto, using(crate::proofs::Heights::lower, crate::proofs::Heights::lower_both))]
fn is_shallow_pred(pred: &Pred, room: u32) -> bool
    ensures { result ≡ nat_le (formula_height (formula_of pred.now)) room }
{
    match pred {
        Pred::Compare { .. } => true,
        Pred::And(a, b) | Pred::Or(a, b) => {
            room > 0 && is_shallow_pred(a, room - 1) && is_shallow_pred(b, room - 1)
        }
        Pred::Not(a) => room > 0 && is_shallow_pred(a, room - 1),
    }
}

// Whether the expression is no deeper than this.
#[tactic(auto, using(crate::proofs::Heights::lower, crate::proofs::Heights::lower_both))]
fn is_shallow(expr: &Expr, room: u32) -> bool
    ensures { result ≡ nat_le (height (query_of expr.now)) room }
{
    match expr {
        Expr::Base(_) => true,
        Expr::Select(part, pred) => {
            room > 0 && is_shallow(part, room - 1) && is_shallow_pred(pred, room - 1)
        }
        Expr::Join(a, b, _) | Expr::NotIn(a, b, _) => {
            room > 0 && is_shallow(a, room - 1) && is_shallow(b, room - 1)
        }
        Expr::Project(part, _) => room > 0 && is_shallow(part, room - 1),
        Expr::Group(part, _, _, _) => room > 0 && is_shallow(part, room - 1),
        Expr::AtLeast(part, _, _) => room > 0 && is_shallow(part, room - 1),
    }
}

fn is_either(pred: &Pred) -> bool
    ensures { result ≡ spec.is_either (formula_of pred.now) }
{
    matches!(pred, Pred::Or(..))
}

fn is_joined(pred: &Pred) -> bool
    ensures { result ≡ spec.is_joined (formula_of pred.now) }
{
    matches!(pred, Pred::And(..) | Pred::Or(..))
}

fn within(parentheses: bool, levels: u32) -> u32
    requires { levels ≤ 128 }
    ensures { result ≡ spec.within parentheses levels }
{
    if parentheses { levels + 1 } else { levels }
}

fn pred_levels(pred: &Pred) -> u32
    requires { formula_height (formula_of pred.now) ≤ 64 }
    ensures value { result ≡ spec.levels (formula_of pred.now) }
    ensures small { result ≤ 2 * formula_height (formula_of pred.now) }
{
    match pred {
        Pred::Compare { .. } => 0,
        Pred::And(a, b) => {
            let left = within(is_either(a), pred_levels(a));
            let right = within(is_joined(b), pred_levels(b));
            left.max(right)
        }
        Pred::Or(a, b) => {
            let left = pred_levels(a);
            let right = within(is_either(b), pred_levels(b));
            left.max(right)
        }
        Pred::Not(a) => within(is_joined(a), pred_levels(a)) + 1,
    }
}

fn query_levels(expr: &Expr) -> u32
    requires { height (query_of expr.now) ≤ 64 }
    ensures value { result ≡ spec.query_levels (query_of expr.now) }
    ensures small { result ≤ 2 * height (query_of expr.now) }
{
    match expr {
        Expr::Base(_) => 0,
        Expr::Select(part, pred) => query_levels(part).max(pred_levels(pred)) + 1,
        Expr::Join(a, b, _) | Expr::NotIn(a, b, _) => query_levels(a).max(query_levels(b)) + 1,
        Expr::Project(part, _) => query_levels(part) + 1,
        Expr::Group(part, _, _, _) => query_levels(part) + 1,
        Expr::AtLeast(part, _, _) => query_levels(part) + 1,
    }
}

// How many comparisons are left of so many after those of the predicate, None where it has more.
fn comparisons_left(pred: &Pred, room: u32) -> Option<u32>
    ensures { SomeIff result (spec.comparisons (formula_of pred.now) ≤ room) (room - spec.comparisons (formula_of pred.now)) }
{
    match pred {
        Pred::Compare { .. } => room.checked_sub(1),
        Pred::And(a, b) | Pred::Or(a, b) => {
            let left = comparisons_left(a, room)?;
            comparisons_left(b, left)
        }
        Pred::Not(a) => comparisons_left(a, room),
    }
}

fn is_long_term(term: &Term) -> bool
    ensures { result ≡ spec.is_long_term term.now }
{
    match term {
        Term::Literal(Value::Text(text)) => text.as_str().len() > MOST_BYTES,
        Term::Literal(Value::Int(_)) | Term::Column(_) => false,
    }
}

fn has_long_literal(pred: &Pred) -> bool
    ensures { result ≡ spec.has_long_literal (formula_of pred.now) }
{
    match pred {
        Pred::Compare { left, right, .. } => is_long_term(left) || is_long_term(right),
        Pred::And(a, b) | Pred::Or(a, b) => has_long_literal(a) || has_long_literal(b),
        Pred::Not(a) => has_long_literal(a),
    }
}

fn is_long(pred: &Pred) -> bool
    ensures { result ≡ spec.is_long (formula_of pred.now) }
{
    comparisons_left(pred, MOST_COMPARISONS).is_none() || has_long_literal(pred)
}

fn has_long_pred(expr: &Expr) -> bool
    ensures { result ≡ list_any spec.is_long (spec.formulas_of (query_of expr.now)) }
{
    match expr {
        Expr::Base(_) => false,
        Expr::Select(part, pred) => is_long(pred) || has_long_pred(part),
        Expr::Join(a, b, _) | Expr::NotIn(a, b, _) => has_long_pred(a) || has_long_pred(b),
        Expr::Project(part, _) => has_long_pred(part),
        Expr::Group(part, _, _, _) => has_long_pred(part),
        Expr::AtLeast(part, _, _) => has_long_pred(part),
    }
}

/// Whether the text of an expression passes the bounds of the grammar, or one of its text literals
/// is too long. The walk goes no deeper than a text within the bounds does.
#[tactic(auto, using(crate::proofs::Heights::deep))]
pub(crate) fn passes_bounds(expr: &Expr) -> bool
    ensures { result ≡ spec.passes_bounds (query_of expr.now) }
{
    !is_shallow(expr, MOST_HEIGHT) || query_levels(expr) > MOST_LEVELS || has_long_pred(expr)
}
