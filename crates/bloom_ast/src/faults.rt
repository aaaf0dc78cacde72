//! Whether a collection or a rule has a fault of a kind.
ghost use Rattle.std.specs.Prelude.{◌≡◌, ◌≤◌, length, IfOk};
ghost use Rattle.std.specs.List.{list_all, count_by};
ghost use Rattle.bloom_forms.specs.Faults as spec;
ghost use Rattle.bloom_forms.specs.Form.{query_of, rule_form};
ghost use Rattle.bloom_forms.specs.Heads.{names_of};
ghost use Rattle.bloom_forms.specs.Kinds as kinds;

use crate::bounds::passes_bounds;
use crate::fits::{is_misfit, is_width, repeats_column};
use crate::kinds::{has_collection, is_head, is_readable, is_scratch};
use crate::reads::{is_momentary, reads_itself, set_of_name};
use bloom_forms::{Collection, Expr, Facts, Kind, ModuleKind, Rule};
use std::alloc::{AllocError, Global};

/// Most collections.
const MOST_COLLECTIONS: usize = 32;

/// Most rules.
const MOST_RULES: usize = 64;

/// Most inputs, and most outputs.
const MOST_PORTS: usize = 8;

fn count_inputs(collections: &[Collection]) -> usize
    ensures { result ≡ count_by (λ d. kinds.is_input d.kind) collections.now }
{
    collections
        .iter()
        .filter(|d| matches!(d.kind, Kind::Input))
        .count()
}

fn count_outputs(collections: &[Collection]) -> usize
    ensures { result ≡ count_by (λ d. kinds.is_output d.kind) collections.now }
{
    collections
        .iter()
        .filter(|d| matches!(d.kind, Kind::Output))
        .count()
}

// Whether the collection is the ninth input or output.
fn is_ninth(before: &[Collection], c: &Collection) -> bool
    ensures { result ≡ spec.is_ninth before.now c.now }
{
    match c.kind {
        Kind::Input => count_inputs(before) >= MOST_PORTS,
        Kind::Output => count_outputs(before) >= MOST_PORTS,
        Kind::Table | Kind::Scratch => false,
    }
}

fn is_too_many(collections: &[Collection], i: usize, c: &Collection) -> bool
    requires { i ≤ length collections.now }
    ensures { result ≡ spec.too_many_collection collections.now i c.now }
{
    i >= MOST_COLLECTIONS || !is_width(c.columns.as_slice().len()) || is_ninth(&collections[..i], c)
}

fn is_twice(
    alloc: Global,
    collections: &[Collection],
    i: usize,
    c: &Collection,
) -> Result<bool, AllocError>
    requires { i ≤ length collections.now }
    ensures { IfOk result (λ bad. bad ≡ spec.twice_collection collections.now i c.now) }
{
    if has_collection(&collections[..i], &c.name) {
        return Ok(true);
    }
    repeats_column(alloc, c.columns.as_slice())
}

fn is_known(collections: &[Collection], expr: &Expr) -> bool
    ensures { result ≡ list_all (kinds.has_kind kinds.is_readable collections.now) (names_of (query_of expr.now)) }
{
    match expr {
        Expr::Base(name) => is_readable(collections, name),
        Expr::Join(a, b, _) | Expr::NotIn(a, b, _) => {
            is_known(collections, a) && is_known(collections, b)
        }
        Expr::Select(part, _) => is_known(collections, part),
        Expr::Project(part, _) => is_known(collections, part),
        Expr::Group(part, _, _, _) => is_known(collections, part),
        Expr::AtLeast(part, _, _) => is_known(collections, part),
    }
}

fn is_unknown(collections: &[Collection], rule: &Rule) -> bool
    ensures { result ≡ spec.unknown_rule collections.now (rule_form rule.now) }
{
    !(is_head(collections, &rule.head) && is_known(collections, &rule.body))
}

// Whether momentary parts stand in the expression where rows have to stay.
fn mixes(collections: &[Collection], facts: &Facts, expr: &Expr) -> bool
    ensures { result ≡ spec.mixes collections.now facts.now (query_of expr.now) }
{
    match expr {
        Expr::Base(_) => false,
        Expr::Select(part, _) => mixes(collections, facts, part),
        Expr::Project(part, _) => mixes(collections, facts, part),
        Expr::Join(a, b, _) => {
            mixes(collections, facts, a)
                || mixes(collections, facts, b)
                || (is_momentary(collections, facts, a) && is_momentary(collections, facts, b))
        }
        Expr::NotIn(a, b, _) => {
            mixes(collections, facts, a)
                || mixes(collections, facts, b)
                || is_momentary(collections, facts, b)
        }
        Expr::Group(part, _, _, _) => {
            mixes(collections, facts, part) || is_momentary(collections, facts, part)
        }
        Expr::AtLeast(part, _, _) => {
            mixes(collections, facts, part) || is_momentary(collections, facts, part)
        }
    }
}

// Whether the rule is a table-only one of a scratch that has a momentary one.
fn is_mixed(collections: &[Collection], facts: &Facts, rule: &Rule) -> bool
    ensures { result ≡ spec.is_mixed collections.now facts.now (rule_form rule.now) }
{
    is_scratch(collections, &rule.head)
        && !is_momentary(collections, facts, &rule.body)
        && set_of_name(collections, &rule.head).meets(facts.momentary)
}

/// Whether the collection with this number has a fault of the kind.
pub(crate) fn is_bad_collection(
    alloc: Global,
    kind: ModuleKind,
    collections: &[Collection],
    i: usize,
    c: &Collection,
) -> Result<bool, AllocError>
    requires { i ≤ length collections.now }
    ensures { IfOk result (λ bad. bad ≡ spec.bad_collection kind collections.now i c.now) }
{
    match kind {
        ModuleKind::TooMany => Ok(is_too_many(collections, i, c)),
        ModuleKind::Twice => is_twice(alloc, collections, i, c),
        ModuleKind::Unknown | ModuleKind::Columns | ModuleKind::Recursive => Ok(false),
        ModuleKind::MomentaryMix | ModuleKind::MixedScratch => Ok(false),
    }
}

/// Whether the rule with this number has a fault of the kind.
pub(crate) fn is_bad_rule(
    alloc: Global,
    kind: ModuleKind,
    collections: &[Collection],
    facts: &Facts,
    i: usize,
    rule: &Rule,
) -> Result<bool, AllocError>
    ensures { IfOk result (λ bad. bad ≡ spec.bad_rule kind collections.now facts.now i (rule_form rule.now)) }
{
    match kind {
        ModuleKind::TooMany => Ok(i >= MOST_RULES || passes_bounds(&rule.body)),
        ModuleKind::Twice => Ok(false),
        ModuleKind::Unknown => Ok(is_unknown(collections, rule)),
        ModuleKind::Columns => is_misfit(alloc, collections, rule),
        ModuleKind::Recursive => Ok(reads_itself(collections, facts, rule)),
        ModuleKind::MomentaryMix => Ok(mixes(collections, facts, &rule.body)),
        ModuleKind::MixedScratch => Ok(is_mixed(collections, facts, rule)),
    }
}
