//! What is kept of a module before its first step.
ghost use Rattle.std.specs.Prelude.{◌≡◌, [], IfOk, map};
ghost use Rattle.std.specs.List.{AllZip};
ghost use Rattle.bloom_forms.specs.declared.program.Program.TheVariants.{Module as ModuleProgram};
ghost use Rattle.bloom_forms.specs.ProgramStep.{empty_tables};
ghost use Rattle.bloom_index.specs.Code.Emptiness.{IsFresh, AreNoBags};
ghost use Rattle.bloom_index.specs.Code.Kept.{tables_in, PartsStand};

use crate::grows::{growing_heads, lasting_heads};
use crate::plan::{Plan, plan_of};
use crate::step::Parts;
use bloom_forms::{Checked, Collection, NumberedRule};
use bloom_growth::{Bag, GrowSet};
use blz_value::HashKey;
use std::alloc::{AllocError, Global};

fn rule_plans(
    alloc: Global,
    rules: &[NumberedRule],
    growing: &[bool],
    key: HashKey,
) -> Result<Vec<Plan>, AllocError>
    ensures { IfOk result (λ plans. AllZip (λ rule plan. IsFresh growing.now rule.body plan) rules.now plans.items) }
{
    let mut plans = Vec::new(alloc);
    for rule in rules {
        plans.push(plan_of(alloc, &rule.body, growing, key)?)?;
    }
    Ok(plans)
}

fn empty_rows(
    alloc: Global,
    collections: &[Collection],
    key: HashKey,
) -> Result<Vec<GrowSet>, AllocError>
    ensures { IfOk result (λ rows. rows.items ≡ map (λ collection. []) collections.now) }
{
    collections
        .iter()
        .map(|_| GrowSet::new(alloc, key))
        .collect(alloc)
}

fn empty_bags(alloc: Global, count: usize) -> Result<Vec<Bag>, AllocError>
    ensures { IfOk result (λ bags. AreNoBags count bags.items) }
{
    let mut bags = Vec::new(alloc);
    for _ in 0..count {
        bags.push(Bag::new(alloc))?;
    }
    Ok(bags)
}

/// What is kept before the first step. What is looked up by hash is hashed under a key.
pub(crate) fn empty_parts(
    alloc: Global,
    program: &Checked,
    key: HashKey,
) -> Result<Parts, AllocError>
    ensures stands { IfOk result (λ parts. PartsStand program.now parts) }
    ensures tables { IfOk result (λ parts. tables_in program.now parts.rows.items ≡ empty_tables (ModuleProgram program.now)) }
{
    let collections = program.module().collections.as_slice();
    let growing = growing_heads(alloc, program)?;
    let lasting = lasting_heads(alloc, program)?;
    let plans = rule_plans(alloc, program.rules(), &growing, key)?;
    let rows = empty_rows(alloc, collections, key)?;
    let bags = empty_bags(alloc, collections.len())?;
    Ok(Parts {
        growing,
        lasting,
        rows,
        bags,
        plans,
    })
}
