//! What each rule of a module reads, and its gate.
ghost use Rattle.std.specs.Prelude.{◌≡◌, map, IfOk};
ghost use Rattle.bloom_forms.specs.HeadRoots as heads;
ghost use Rattle.path_annotate.specs.Code.ByNumber.{named_by, is_plain_by, facts_by};
ghost use Rattle.path_annotate.specs.Code.Readings as spec;

use crate::collection_roots::{all_attributes, roots_table};
use crate::tracing::trace;
use bloom_forms::{Checked, NumberedExpr, NumberedRule};
use blz_value::{Attrs, Items};
use fd_closure::AttrNames;
use path_facts::{Readings, RuleFacts, readings_from};
use std::alloc::{AllocError, Global};

// The collections that stand in an expression.
fn named(expr: &NumberedExpr) -> Attrs
    ensures { result.bits ≡ named_by expr.now }
{
    match expr {
        NumberedExpr::Base(number) => Attrs::of(*number as usize),
        NumberedExpr::Select(part, _) => named(part),
        NumberedExpr::Project(part, _) => named(part),
        NumberedExpr::Join(left, right, _) => named(left).union(named(right)),
        NumberedExpr::NotIn(left, right, _) => named(left).union(named(right)),
        NumberedExpr::Group(part, _, _) => named(part),
        NumberedExpr::AtLeast(part, _, _) => named(part),
    }
}

// Whether no group and no antijoin stands in an expression.
fn is_plain(expr: &NumberedExpr) -> bool
    ensures { result ≡ is_plain_by expr.now }
{
    match expr {
        NumberedExpr::Base(_) => true,
        NumberedExpr::Select(part, _) => is_plain(part),
        NumberedExpr::Project(part, _) => is_plain(part),
        NumberedExpr::Join(left, right, _) => is_plain(left) && is_plain(right),
        NumberedExpr::NotIn(_, _, _) => false,
        NumberedExpr::Group(_, _, _) => false,
        NumberedExpr::AtLeast(part, _, _) => is_plain(part),
    }
}

fn rule_facts(
    alloc: Global,
    all: Attrs,
    table: &[Items<Option<u8>>],
    rule: &NumberedRule,
) -> Result<RuleFacts, AllocError>
    ensures { IfOk result (λ facts. facts ≡ facts_by all.bits table.now rule.now) }
{
    let traced = trace(alloc, all, table, &rule.body)?;
    Ok(RuleFacts {
        head: rule.head,
        named: named(&rule.body),
        is_plain: is_plain(&rule.body),
        gate: traced.gate,
    })
}

fn all_facts(
    alloc: Global,
    all: Attrs,
    table: &[Items<Option<u8>>],
    rules: &[NumberedRule],
) -> Result<Vec<RuleFacts>, AllocError>
    ensures { IfOk result (λ facts. facts.items ≡ map (facts_by all.bits table.now) rules.now) }
{
    let mut facts = Vec::new(alloc);
    for rule in rules {
        facts.push(rule_facts(alloc, all, table, rule)?)?;
    }
    Ok(facts)
}

/// What the rules of a module read, and their gates, where its collections have these roots.
pub(crate) fn readings_with(
    alloc: Global,
    names: &AttrNames,
    checked: &Checked,
    table: &[Items<Option<u8>>],
) -> Result<Readings, AllocError>
    requires { table.now ≡ heads.roots_table names.now checked.now }
    ensures { IfOk result (λ readings. readings ≡ spec.readings_of names.now checked.now) }
{
    let all = all_attributes(names);
    let facts = all_facts(alloc, all, table, checked.rules())?;
    let collections = checked.module().collections.as_slice();
    readings_from(alloc, collections, all, &facts)
}

/// What the rules of a module read, and their gates.
pub(crate) fn readings_of(
    alloc: Global,
    names: &AttrNames,
    checked: &Checked,
) -> Result<Readings, AllocError>
    ensures { IfOk result (λ readings. readings ≡ spec.readings_of names.now checked.now) }
{
    let table = roots_table(alloc, names, checked)?;
    readings_with(alloc, names, checked, &table)
}
