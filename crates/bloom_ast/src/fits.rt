//! The columns of an expression, and whether they fit its operators.
ghost use Rattle.std.specs.Prelude.{◌≡◌, ◌∷◌, [], ◌++◌, ◌&&◌, true, pos, int_lt, map, IfOk};
ghost use Rattle.std.specs.Option.{option_and_then};
ghost use Rattle.bloom_forms.specs.Borrowed.{names_in};
ghost use Rattle.bloom_forms.specs.Columns as columns_spec;
ghost use Rattle.bloom_forms.specs.Faults.{columns_rule};
ghost use Rattle.bloom_forms.specs.Fits as spec;
ghost use Rattle.bloom_forms.specs.Form.{formula_of, query_of, rule_form};
ghost use Rattle.bloom_forms.specs.Lookup as lookup;
ghost use Rattle.bloom_ast.specs.Code.Fitting.{keep, fitting, found_in};

use bloom_forms::{
    Collection, Expr, NamedAgg, Pred, Rule, Term, borrowed, declared, joined, seconds,
};
use blz_value::Str;
use std::alloc::{AllocError, Global};

/// Most columns.
const MOST_COLUMNS: usize = 8;

/// Whether so many columns are one or more, and at most eight.
pub(crate) fn is_width(n: usize) -> bool
    ensures { result ≡ spec.is_width n }
{
    0 < n && n <= MOST_COLUMNS
}

fn has_name(names: &[&Str], name: &Str) -> bool
    ensures { result ≡ spec.has_name (names_in names.now) name.now }
{
    for held in names {
        if held.equals(name) {
            return true;
        }
    }
    false
}

fn repeats(names: &[&Str]) -> bool
    ensures { result ≡ spec.repeats (names_in names.now) }
{
    for (i, name) in names.iter().enumerate() {
        if has_name(&names[i + 1..], *name) {
            return true;
        }
    }
    false
}

fn are_columns(names: &[&Str]) -> bool
    ensures { result ≡ spec.are_columns (names_in names.now) }
{
    is_width(names.len()) && !repeats(names)
}

fn term_fits(columns: &[&Str], term: &Term) -> bool
    ensures { result ≡ spec.term_fits (names_in columns.now) term.now }
{
    match term {
        Term::Column(name) => has_name(columns, name),
        Term::Literal(_) => true,
    }
}

fn pred_fits(columns: &[&Str], pred: &Pred) -> bool
    ensures { result ≡ spec.formula_fits (names_in columns.now) (formula_of pred.now) }
{
    match pred {
        Pred::Compare { left, right, .. } => term_fits(columns, left) && term_fits(columns, right),
        Pred::And(a, b) | Pred::Or(a, b) => pred_fits(columns, a) && pred_fits(columns, b),
        Pred::Not(a) => pred_fits(columns, a),
    }
}

fn items_fit(columns: &[&Str], items: &[(Str, Str)]) -> bool
    ensures { result ≡ spec.items_fit (names_in columns.now) items.now }
{
    items.iter().all(|(name, _)| has_name(columns, name))
}

fn keys_fit(columns: &[&Str], keys: &[Str]) -> bool
    ensures { result ≡ spec.keys_fit (names_in columns.now) keys.now }
{
    keys.iter().all(|name| has_name(columns, name))
}

fn aggregate_fits(columns: &[&Str], agg: &NamedAgg) -> bool
    ensures { result ≡ spec.aggregate_fits (names_in columns.now) agg.now }
{
    match agg {
        NamedAgg::Count => true,
        NamedAgg::Sum(name) | NamedAgg::Min(name) | NamedAgg::Max(name) => has_name(columns, name),
    }
}

fn pairs_have(left: &[&Str], right: &[&Str], pairs: &[(Str, Str)]) -> bool
    ensures { result ≡ spec.pairs_have (names_in left.now) (names_in right.now) pairs.now }
{
    pairs.iter().all(|(first, second)| has_name(left, first) && has_name(right, second))
}

fn pairs_fit(
    alloc: Global,
    left: &[&Str],
    right: &[&Str],
    pairs: &[(Str, Str)],
) -> Result<bool, AllocError>
    ensures { IfOk result (λ fit. fit ≡ spec.pairs_fit (names_in left.now) (names_in right.now) pairs.now) }
{
    if !pairs_have(left, right, pairs) {
        return Ok(false);
    }
    let rights = seconds(alloc, pairs)?;
    Ok(!repeats(&rights))
}

// The columns, where the operator fits and they are columns.
fn kept<'a>(columns: Vec<&'a Str>, fit: bool) -> Option<Vec<&'a Str>>
    ensures { found_in result ≡ keep (names_in columns.entry.items) fit }
{
    if fit && are_columns(&columns) {
        Some(columns)
    } else {
        None
    }
}

// A collection's columns.
fn base_columns<'a>(alloc: Global, names: &'a [Str]) -> Result<Option<Vec<&'a Str>>, AllocError>
    ensures { IfOk result (λ found. found_in found ≡ keep names.now true) }
{
    let columns = borrowed(alloc, names)?;
    Ok(kept(columns, true))
}

// The columns of a selection, given its part's.
fn select_columns<'a>(part: Option<Vec<&'a Str>>, pred: &Pred) -> Option<Vec<&'a Str>>
    ensures { found_in result ≡ option_and_then (λ columns. keep columns (spec.formula_fits columns (formula_of pred.now))) (found_in part.entry) }
{
    let columns = part?;
    let fit = pred_fits(&columns, pred);
    kept(columns, fit)
}

// The columns of a projection, given its part's.
fn project_columns<'a>(
    alloc: Global,
    part: Option<Vec<&'a Str>>,
    items: &'a [(Str, Str)],
) -> Result<Option<Vec<&'a Str>>, AllocError>
    ensures { IfOk result (λ found. found_in found ≡ option_and_then (λ columns. keep (map (λ item. item.1) items.now) (spec.items_fit columns items.now)) (found_in part.entry)) }
{
    let Some(columns) = part else {
        return Ok(None);
    };
    let fit = items_fit(&columns, items);
    let names = seconds(alloc, items)?;
    Ok(kept(names, fit))
}

// The columns of a join, given its parts'.
fn join_columns<'a>(
    alloc: Global,
    left: Option<Vec<&'a Str>>,
    right: Option<Vec<&'a Str>>,
    pairs: &[(Str, Str)],
) -> Result<Option<Vec<&'a Str>>, AllocError>
    ensures { IfOk result (λ found. found_in found ≡ option_and_then (λ a. option_and_then (λ b. keep (columns_spec.joined_columns a b pairs.now) (spec.pairs_fit a b pairs.now)) (found_in right.entry)) (found_in left.entry)) }
{
    let (Some(left), Some(right)) = (left, right) else {
        return Ok(None);
    };
    let fit = pairs_fit(alloc, &left, &right, pairs)?;
    let columns = joined(left, &right, pairs)?;
    Ok(kept(columns, fit))
}

// The columns of a left part without its matches, given its parts'.
fn not_in_columns<'a>(
    alloc: Global,
    left: Option<Vec<&'a Str>>,
    right: Option<Vec<&'a Str>>,
    pairs: &[(Str, Str)],
) -> Result<Option<Vec<&'a Str>>, AllocError>
    ensures { IfOk result (λ found. found_in found ≡ option_and_then (λ a. option_and_then (λ b. keep a (spec.pairs_fit a b pairs.now)) (found_in right.entry)) (found_in left.entry)) }
{
    let (Some(left), Some(right)) = (left, right) else {
        return Ok(None);
    };
    let fit = pairs_fit(alloc, &left, &right, pairs)?;
    Ok(kept(left, fit))
}

// The columns of a grouping, given its part's: the keys, followed by the name.
fn group_columns<'a>(
    alloc: Global,
    part: Option<Vec<&'a Str>>,
    keys: &'a [Str],
    agg: &NamedAgg,
    name: &'a Str,
) -> Result<Option<Vec<&'a Str>>, AllocError>
    ensures { IfOk result (λ found. found_in found ≡ option_and_then (λ columns. keep (keys.now ++ name.now ∷ []) (spec.keys_fit columns keys.now && spec.aggregate_fits columns agg.now)) (found_in part.entry)) }
{
    let Some(columns) = part else {
        return Ok(None);
    };
    let fit = keys_fit(&columns, keys) && aggregate_fits(&columns, agg);
    let mut names = borrowed(alloc, keys)?;
    names.push(name)?;
    Ok(kept(names, fit))
}

// The columns of groups of at least a size, given their part's: the keys.
fn at_least_columns<'a>(
    alloc: Global,
    part: Option<Vec<&'a Str>>,
    keys: &'a [Str],
    bound: i64,
) -> Result<Option<Vec<&'a Str>>, AllocError>
    ensures { IfOk result (λ found. found_in found ≡ option_and_then (λ columns. keep keys.now (spec.keys_fit columns keys.now && int_lt (pos 0) bound)) (found_in part.entry)) }
{
    let Some(columns) = part else {
        return Ok(None);
    };
    let fit = keys_fit(&columns, keys) && 0 < bound;
    let names = borrowed(alloc, keys)?;
    Ok(kept(names, fit))
}

// The columns of an expression that fits, None where it doesn't.
fn fitting_columns<'a>(
    alloc: Global,
    collections: &'a [Collection],
    expr: &'a Expr,
) -> Result<Option<Vec<&'a Str>>, AllocError>
    ensures { IfOk result (λ found. found_in found ≡ fitting (lookup.declared collections.now) (query_of expr.now)) }
{
    match expr {
        Expr::Base(name) => base_columns(alloc, declared(collections, name)),
        Expr::Select(part, pred) => {
            let part = fitting_columns(alloc, collections, part)?;
            Ok(select_columns(part, pred))
        }
        Expr::Project(part, items) => {
            let part = fitting_columns(alloc, collections, part)?;
            project_columns(alloc, part, items.as_slice())
        }
        Expr::Join(a, b, pairs) => {
            let left = fitting_columns(alloc, collections, a)?;
            let right = fitting_columns(alloc, collections, b)?;
            join_columns(alloc, left, right, pairs.as_slice())
        }
        Expr::NotIn(a, b, pairs) => {
            let left = fitting_columns(alloc, collections, a)?;
            let right = fitting_columns(alloc, collections, b)?;
            not_in_columns(alloc, left, right, pairs.as_slice())
        }
        Expr::Group(part, keys, agg, name) => {
            let part = fitting_columns(alloc, collections, part)?;
            group_columns(alloc, part, keys.as_slice(), agg, name)
        }
        Expr::AtLeast(part, keys, bound) => {
            let part = fitting_columns(alloc, collections, part)?;
            at_least_columns(alloc, part, keys.as_slice(), *bound)
        }
    }
}

/// Whether a column stands twice.
pub fn repeats_column(alloc: Global, columns: &[Str]) -> Result<bool, AllocError>
    ensures { IfOk result (λ twice. twice ≡ spec.repeats columns.now) }
{
    let refs = borrowed(alloc, columns)?;
    Ok(repeats(&refs))
}

/// Whether the columns of a rule don't fit its operators, or their number isn't the head's.
#[tactic(auto, using(crate::proofs::Fitting::misfit_none, crate::proofs::Fitting::misfit_some))]
pub(crate) fn is_misfit(
    alloc: Global,
    collections: &[Collection],
    rule: &Rule,
) -> Result<bool, AllocError>
    ensures { IfOk result (λ bad. bad ≡ columns_rule collections.now (rule_form rule.now)) }
{
    let head = declared(collections, &rule.head);
    match fitting_columns(alloc, collections, &rule.body)? {
        Some(columns) => Ok(columns.len() != head.len()),
        None => Ok(true),
    }
}
