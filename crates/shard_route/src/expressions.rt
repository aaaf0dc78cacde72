//! Expressions and rules in which each port stands under a select by a test.
ghost use Rattle.std.specs.Prelude.{◌≡◌, map, IfOk};
ghost use Rattle.std.specs.List.{find};
ghost use Rattle.std.specs.Option.{option_map};
ghost use Rattle.bloom_forms.specs.Form.{formula_of, query_of, rule_form, rule_forms, form_of};
ghost use Rattle.bloom_forms.specs.Kinds as kinds;
ghost use Rattle.bloom_forms.specs.Lookup as lookup;
ghost use Rattle.bloom_forms.specs.Query.Query.{base, select};
ghost use Rattle.bloom_forms.specs.Shards as spec;
ghost use Rattle.shard_route.specs.Copies.{copied_form};

use bloom_forms::{Collection, Expr, Kind, Module, Pred, Rule};
use blz_value::{Faithful, Items, Str};
use std::alloc::{AllocError, Global};

fn collection_named<'a>(collections: &'a [Collection], name: &Str) -> Option<&'a Collection>
    ensures { option_map (λ c. c.now) result ≡ lookup.collection_named collections.now name.now }
{
    collections.iter().find(|c| c.name.equals(name))
}

// Whether the name is that of a port.
fn is_port(collections: &[Collection], name: &Str) -> bool
    ensures { result ≡ kinds.has_kind kinds.is_input collections.now name.now }
{
    match collection_named(collections, name) {
        Some(c) => matches!(c.kind, Kind::Input),
        None => false,
    }
}

fn boxed(alloc: Global, expr: Expr) -> Result<Box<Expr>, AllocError>
    ensures { IfOk result (λ boxed. boxed.value ≡ expr) }
{
    Ok(Box::new(alloc, expr)?)
}

// An expression under a select by a predicate of its own.
fn selected(alloc: Global, part: Box<Expr>, pred: &Pred) -> Result<Box<Expr>, AllocError>
    ensures { IfOk result (λ copy. query_of copy.value ≡ select (query_of part.value) (formula_of pred.now)) }
{
    let pred = pred.copy(alloc)?;
    boxed(alloc, Expr::Select(part, pred))
}

// A collection, under a select by the test where it is a port.
fn base_over_bucket(
    alloc: Global,
    collections: &[Collection],
    test: &Pred,
    name: &Str,
) -> Result<Box<Expr>, AllocError>
    ensures { IfOk result (λ copy. query_of copy.value ≡ spec.over_bucket collections.now (formula_of test.now) (base name.now)) }
{
    let copy = name.copy()?;
    let port = boxed(alloc, Expr::Base(copy))?;
    if is_port(collections, name) {
        selected(alloc, port, test)
    } else {
        Ok(port)
    }
}

// The expression in which each port stands under a select by the test, in a box. It recurses as deep
// as the expression.
fn over_bucket(
    alloc: Global,
    collections: &[Collection],
    test: &Pred,
    expr: &Expr,
) -> Result<Box<Expr>, AllocError>
    ensures { IfOk result (λ copy. query_of copy.value ≡ spec.over_bucket collections.now (formula_of test.now) (query_of expr.now)) }
{
    match expr {
        Expr::Base(name) => base_over_bucket(alloc, collections, test, name),
        Expr::Select(part, pred) => {
            let part = over_bucket(alloc, collections, test, part)?;
            selected(alloc, part, pred)
        }
        Expr::Project(part, items) => {
            let items = items.copied()?;
            let part = over_bucket(alloc, collections, test, part)?;
            boxed(alloc, Expr::Project(part, items))
        }
        Expr::Join(a, b, pairs) => {
            let a = over_bucket(alloc, collections, test, a)?;
            let b = over_bucket(alloc, collections, test, b)?;
            let pairs = pairs.copied()?;
            boxed(alloc, Expr::Join(a, b, pairs))
        }
        Expr::NotIn(a, b, pairs) => {
            let a = over_bucket(alloc, collections, test, a)?;
            let b = over_bucket(alloc, collections, test, b)?;
            let pairs = pairs.copied()?;
            boxed(alloc, Expr::NotIn(a, b, pairs))
        }
        Expr::Group(part, keys, agg, name) => {
            let part = over_bucket(alloc, collections, test, part)?;
            let keys = keys.copied()?;
            let agg = agg.copied()?;
            let name = name.copy()?;
            boxed(alloc, Expr::Group(part, keys, agg, name))
        }
        Expr::AtLeast(part, keys, bound) => {
            let part = over_bucket(alloc, collections, test, part)?;
            let keys = keys.copied()?;
            boxed(alloc, Expr::AtLeast(part, keys, *bound))
        }
    }
}

fn copied_rule(
    alloc: Global,
    collections: &[Collection],
    test: &Pred,
    rule: &Rule,
) -> Result<Rule, AllocError>
    ensures { IfOk result (λ copy. rule_form copy ≡ spec.copied_rule collections.now (formula_of test.now) (rule_form rule.now)) }
{
    let head = rule.head.copy()?;
    let body = over_bucket(alloc, collections, test, &rule.body)?;
    Ok(Rule {
        head,
        body: Box::into_inner(body),
    })
}

fn copied_rules(
    alloc: Global,
    collections: &[Collection],
    test: &Pred,
    rules: &[Rule],
) -> Result<Items<Rule>, AllocError>
    ensures { IfOk result (λ copies. rule_forms copies ≡ map (spec.copied_rule collections.now (formula_of test.now)) (rule_forms rules.now)) }
{
    let mut copies = Vec::new(alloc);
    for rule in rules {
        copies.push(copied_rule(alloc, collections, test, rule)?)?;
    }
    Ok(Items::from_vec(copies))
}

/// The module in which each port stands under a select by the test.
pub(crate) fn copied_module(
    alloc: Global,
    written: &Module,
    test: &Pred,
) -> Result<Module, AllocError>
    ensures { IfOk result (λ copy. form_of copy ≡ copied_form (form_of written.now) (formula_of test.now)) }
{
    let collections = written.collections.as_slice();
    Ok(Module {
        name: written.name.copy()?,
        collections: written.collections.copied()?,
        rules: copied_rules(alloc, collections, test, written.rules.as_slice())?,
    })
}
