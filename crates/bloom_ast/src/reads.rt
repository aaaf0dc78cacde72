//! What an expression reads, as sets of collection numbers.
ghost use Rattle.std.specs.Prelude.{◌≡◌, IfOk};
ghost use Rattle.bloom_forms.specs.Faults.{reads_now, recursive_rule};
ghost use Rattle.bloom_forms.specs.Form.{query_of, rule_form, rule_forms};
ghost use Rattle.bloom_forms.specs.Kinds as kinds;
ghost use Rattle.blz_value.specs.Arrows as sets;
ghost use Rattle.bloom_forms.specs.Reads as spec;

use crate::kinds::is_scratch;
use bloom_forms::{Collection, Expr, Facts, Kind, Rule, collection_number};
use blz_value::{Attrs, Fd, Items, Str, closure};
use std::alloc::{AllocError, Global};

/// The set of the one collection of this name.
pub(crate) fn set_of_name(collections: &[Collection], name: &Str) -> Attrs
    ensures { result.bits ≡ spec.set_of_name collections.now name.now }
{
    Attrs::of(collection_number(collections, name))
}

/// The collections that stand in an expression.
fn named(collections: &[Collection], expr: &Expr) -> Attrs
    ensures { result.bits ≡ spec.named collections.now (query_of expr.now) }
{
    match expr {
        Expr::Base(name) => set_of_name(collections, name),
        Expr::Select(part, _) => named(collections, part),
        Expr::Project(part, _) => named(collections, part),
        Expr::Join(a, b, _) => named(collections, a).union(named(collections, b)),
        Expr::NotIn(a, b, _) => named(collections, a).union(named(collections, b)),
        Expr::Group(part, _, _, _) => named(collections, part),
        Expr::AtLeast(part, _, _) => named(collections, part),
    }
}

fn arrow(collections: &[Collection], rule: &Rule) -> Fd
    ensures { result ≡ spec.arrow collections.now (rule_form rule.now) }
{
    Fd {
        from: set_of_name(collections, &rule.head),
        to: named(collections, &rule.body),
    }
}

fn scratch_arrow(collections: &[Collection], rule: &Rule) -> Fd
    ensures { result ≡ spec.scratch_arrow collections.now (rule_form rule.now) }
{
    let to = if is_scratch(collections, &rule.head) {
        named(collections, &rule.body)
    } else {
        Attrs::from_bits(0)
    };
    Fd {
        from: set_of_name(collections, &rule.head),
        to,
    }
}

fn arrows(alloc: Global, collections: &[Collection], rules: &[Rule]) -> Result<Vec<Fd>, AllocError>
    ensures { IfOk result (λ fds. fds.items ≡ spec.arrows collections.now (rule_forms rules.now)) }
{
    let mut fds = Vec::new(alloc);
    for rule in rules {
        fds.push(arrow(collections, rule))?;
    }
    Ok(fds)
}

fn scratch_arrows(
    alloc: Global,
    collections: &[Collection],
    rules: &[Rule],
) -> Result<Vec<Fd>, AllocError>
    ensures { IfOk result (λ fds. fds.items ≡ spec.scratch_arrows collections.now (rule_forms rules.now)) }
{
    let mut fds = Vec::new(alloc);
    for rule in rules {
        fds.push(scratch_arrow(collections, rule))?;
    }
    Ok(fds)
}

fn bit_if(here: bool, number: usize) -> Attrs
    ensures { result.bits ≡ sets.bit_if here number }
{
    if here {
        Attrs::of(number)
    } else {
        Attrs::from_bits(0)
    }
}

fn inputs(collections: &[Collection]) -> Attrs
    ensures { result.bits ≡ spec.kind_set kinds.is_input collections.now }
{
    let mut set = Attrs::from_bits(0);
    for (i, c) in collections.iter().enumerate() {
        set = set.union(bit_if(matches!(c.kind, Kind::Input), i));
    }
    set
}

fn reads_input(collections: &[Collection], through: &[Fd], inputs: Attrs, expr: &Expr) -> bool
    ensures { result ≡ spec.reads_input collections.now through.now inputs.bits (query_of expr.now) }
{
    inputs.meets(closure(named(collections, expr), through))
}

fn momentary_heads(
    collections: &[Collection],
    through: &[Fd],
    inputs: Attrs,
    rules: &[Rule],
) -> Attrs
    ensures { result.bits ≡ spec.momentary_heads collections.now through.now inputs.bits (rule_forms rules.now) }
{
    let mut set = Attrs::from_bits(0);
    for rule in rules {
        let here = reads_input(collections, through, inputs, &rule.body);
        set = set.union(bit_if(here, collection_number(collections, &rule.head)));
    }
    set
}

/// What the rules say of the collections.
pub(crate) fn facts_of(
    alloc: Global,
    collections: &[Collection],
    rules: &[Rule],
) -> Result<Facts, AllocError>
    ensures { IfOk result (λ facts. facts ≡ spec.facts_of collections.now (rule_forms rules.now)) }
{
    let all = arrows(alloc, collections, rules)?;
    let scratches = scratch_arrows(alloc, collections, rules)?;
    let inputs = inputs(collections);
    let momentary = momentary_heads(collections, &scratches, inputs, rules);
    Ok(Facts {
        all: Items::from_vec(all),
        scratches: Items::from_vec(scratches),
        inputs,
        momentary,
    })
}

/// Whether an expression is momentary.
pub(crate) fn is_momentary(collections: &[Collection], facts: &Facts, expr: &Expr) -> bool
    ensures { result ≡ reads_now collections.now facts.now (query_of expr.now) }
{
    reads_input(collections, facts.scratches.as_slice(), facts.inputs, expr)
}

/// Whether a rule reads its own head, directly or through other rules.
pub(crate) fn reads_itself(collections: &[Collection], facts: &Facts, rule: &Rule) -> bool
    ensures { result ≡ recursive_rule collections.now facts.now.all (rule_form rule.now) }
{
    let read = closure(named(collections, &rule.body), facts.all.as_slice());
    set_of_name(collections, &rule.head).meets(read)
}

/// What is passed where no test looks at it.
pub(crate) fn no_facts(alloc: Global) -> Facts
    ensures { result ≡ spec.no_facts }
{
    Facts {
        all: Items::from_vec(Vec::new(alloc)),
        scratches: Items::from_vec(Vec::new(alloc)),
        inputs: Attrs::from_bits(0),
        momentary: Attrs::from_bits(0),
    }
}

/// What each collection reads through all rules, itself included, as a number.
pub(crate) fn keys(
    alloc: Global,
    collections: &[Collection],
    facts: &Facts,
) -> Result<Vec<u64>, AllocError>
    ensures { IfOk result (λ keys. keys.items ≡ spec.keys_of collections.now facts.now.all) }
{
    let mut keys = Vec::new(alloc);
    for (i, _) in collections.iter().enumerate() {
        keys.push(closure(Attrs::of(i), facts.all.as_slice()).bits())?;
    }
    Ok(keys)
}
