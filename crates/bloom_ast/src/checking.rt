//! The check of a module.
ghost use Rattle.std.specs.Prelude.{◌≡◌, ◌<◌, ◌≤◌, length, [], IfOk, IfSome};
ghost use Rattle.blz_value.specs.FirstPlace.{first_place};
ghost use Rattle.bloom_forms.specs.Checks.{Checks};
ghost use Rattle.bloom_ast.specs.Code.Checking as checking;
ghost use Rattle.bloom_forms.specs.Faults as spec;
ghost use Rattle.bloom_forms.specs.Form.{form_of, rule_forms};
ghost use Rattle.bloom_forms.specs.HeadOrder as order;
ghost use Rattle.bloom_forms.specs.HeadOrder.{heads_of};
ghost use Rattle.bloom_forms.specs.Reads.{facts_of as facts_in, keys_of};
ghost use Rattle.bloom_forms.specs.Reserved.{HasOwnNames};
ghost use Rattle.bloom_forms.specs.declared.fault.ModuleKind.TheVariants.{TooMany};

use crate::faults::{is_bad_collection, is_bad_rule};
use crate::reads::{facts_of, keys, no_facts};
use bloom_forms::{
    CheckFault, Checked, Collection, Facts, Kind, Module, ModuleFault, ModuleKind, ModulePlace,
    Rule,
};
use std::alloc::{AllocError, Global};

fn first_collection(
    alloc: Global,
    kind: ModuleKind,
    collections: &[Collection],
) -> Result<Option<usize>, AllocError>
    ensures { IfOk result (λ place. place ≡ first_place (spec.bad_collection kind collections.now) 0 collections.now) }
{
    for (i, c) in collections.iter().enumerate() {
        if is_bad_collection(alloc, kind, collections, i, c)? {
            return Ok(Some(i));
        }
    }
    Ok(None)
}

fn first_rule(
    alloc: Global,
    kind: ModuleKind,
    collections: &[Collection],
    facts: &Facts,
    rules: &[Rule],
) -> Result<Option<usize>, AllocError>
    ensures { IfOk result (λ place. place ≡ first_place (spec.bad_rule kind collections.now facts.now) 0 (rule_forms rules.now)) }
{
    for (i, rule) in rules.iter().enumerate() {
        if is_bad_rule(alloc, kind, collections, facts, i, rule)? {
            return Ok(Some(i));
        }
    }
    Ok(None)
}

// The fault at the first of the numbers that is there.
fn at_places(
    kind: ModuleKind,
    collection: Option<usize>,
    rule: Option<usize>,
) -> Option<ModuleFault>
    requires collections { IfSome collection (λ i. i ≤ 64) }
    requires rules { IfSome rule (λ i. i ≤ 64) }
    ensures { result ≡ spec.at_places kind collection rule }
{
    let place = match (collection, rule) {
        (Some(i), _) => ModulePlace::Collection(i as u32 + 1),
        (None, Some(i)) => ModulePlace::Rule(i as u32 + 1),
        (None, None) => return None,
    };
    Some(ModuleFault { kind, place })
}

// The fault of a kind at its first place.
fn kind_fault(
    alloc: Global,
    kind: ModuleKind,
    collections: &[Collection],
    facts: &Facts,
    rules: &[Rule],
) -> Result<Option<ModuleFault>, AllocError>
    requires collections { IfSome (first_place (spec.bad_collection kind collections.now) 0 collections.now) (λ i. i ≤ 64) }
    requires rules { IfSome (first_place (spec.bad_rule kind collections.now facts.now) 0 (rule_forms rules.now)) (λ i. i ≤ 64) }
    ensures { IfOk result (λ fault. fault ≡ spec.kind_fault facts.now kind collections.now (rule_forms rules.now)) }
{
    let collection = first_collection(alloc, kind, collections)?;
    let rule = first_rule(alloc, kind, collections, facts, rules)?;
    Ok(at_places(kind, collection, rule))
}

// The fault of the first of these kinds that has one.
fn fault_in(
    alloc: Global,
    kinds: &[ModuleKind],
    collections: &[Collection],
    facts: &Facts,
    rules: &[Rule],
) -> Result<Option<ModuleFault>, AllocError>
    requires few { length collections.now ≤ 64 }
    requires few_rules { length rules.now ≤ 64 }
    ensures { IfOk result (λ fault. fault ≡ spec.fault_in facts.now kinds.now collections.now (rule_forms rules.now)) }
{
    for kind in kinds {
        let fault = kind_fault(alloc, *kind, collections, facts, rules)?;
        if fault.is_some() {
            return Ok(fault);
        }
    }
    Ok(None)
}

fn key_at(keys: &[u64], number: u32) -> u64
    ensures { result ≡ order.key_at keys.now number }
{
    match keys.get(number as usize) {
        Some(key) => *key,
        None => 0,
    }
}

// The place of the first head with a greater key, or their number.
fn place_for(keys: &[u64], key: u64, heads: &[u32]) -> usize
    ensures value { result ≡ order.place_for (order.key_at keys.now) key heads.now }
    ensures within { result ≤ length heads.now }
{
    for (i, head) in heads.iter().enumerate() {
        if key < key_at(keys, *head) {
            return i;
        }
    }
    heads.len()
}

fn put_head(keys: &[u64], head: u32, heads: &mut Vec<u32>) -> Result<(), AllocError>
    ensures { IfOk result (λ _. heads.new.items ≡ order.put_head (order.key_at keys.now) head heads.old.items) }
{
    let place = place_for(keys, key_at(keys, head), heads);
    heads.insert(place, head)?;
    Ok(())
}

// The collections that are no inputs, by their keys.
fn heads_in(alloc: Global, collections: &[Collection], keys: &[u64]) -> Result<Vec<u32>, AllocError>
    requires { length collections.now ≤ 64 }
    ensures { IfOk result (λ heads. heads.items ≡ order.heads_on (order.key_at keys.now) 0 collections.now []) }
{
    let mut heads = Vec::new(alloc);
    for (i, c) in collections.iter().enumerate() {
        if !matches!(c.kind, Kind::Input) {
            put_head(keys, i as u32, &mut heads)?;
        }
    }
    Ok(heads)
}

// The first fault of size.
fn size_fault(
    alloc: Global,
    collections: &[Collection],
    rules: &[Rule],
) -> Result<Option<ModuleFault>, AllocError>
    ensures fault { IfOk result (λ fault. fault ≡ spec.kind_fault (facts_in collections.now (rule_forms rules.now)) TooMany collections.now (rule_forms rules.now)) }
    ensures few { IfOk result (λ fault. checking.AreFew collections.now (rule_forms rules.now) fault) }
{
    let none = no_facts(alloc);
    kind_fault(alloc, ModuleKind::TooMany, collections, &none, rules)
}

// The heads in order, by what the rules say of the collections.
fn heads_by(
    alloc: Global,
    collections: &[Collection],
    facts: &Facts,
) -> Result<Vec<u32>, AllocError>
    requires { length collections.now ≤ 64 }
    ensures { IfOk result (λ heads. heads.items ≡ order.heads_on (order.key_at (keys_of collections.now facts.now.all)) 0 collections.now []) }
{
    let keys = keys(alloc, collections, facts)?;
    heads_in(alloc, collections, &keys)
}

// The heads in order, or the first fault of a kind after TooMany.
fn later(alloc: Global, collections: &[Collection], rules: &[Rule]) -> Result<Vec<u32>, CheckFault>
    requires few { length collections.now ≤ 64 }
    requires few_rules { length rules.now ≤ 64 }
    ensures { checking.Later collections.now (rule_forms rules.now) result }
{
    let facts = facts_of(alloc, collections, rules)?;
    later_by(alloc, collections, &facts, rules)
}

// The same by what the rules say of the collections.
fn later_by(
    alloc: Global,
    collections: &[Collection],
    facts: &Facts,
    rules: &[Rule],
) -> Result<Vec<u32>, CheckFault>
    requires few { length collections.now ≤ 64 }
    requires few_rules { length rules.now ≤ 64 }
    requires facts { facts.now ≡ facts_in collections.now (rule_forms rules.now) }
    ensures { checking.Later collections.now (rule_forms rules.now) result }
{
    let kinds = [
        ModuleKind::Twice,
        ModuleKind::Unknown,
        ModuleKind::Columns,
        ModuleKind::Recursive,
        ModuleKind::MomentaryMix,
        ModuleKind::MixedScratch,
    ];
    match fault_in(alloc, &kinds, collections, facts, rules)? {
        Some(fault) => Err(CheckFault::Bad(fault)),
        None => Ok(heads_by(alloc, collections, facts)?),
    }
}

// The heads of a module without fault in order, or its first fault.
fn clean_heads(alloc: Global, module: &Module) -> Result<Vec<u32>, CheckFault>
    requires { HasOwnNames (form_of module.now) }
    ensures { checking.ChecksHeads (form_of module.now) result }
{
    let collections = module.collections.as_slice();
    let rules = module.rules.as_slice();
    let size = size_fault(alloc, collections, rules)?;
    if let Some(fault) = size {
        return Err(CheckFault::Bad(fault));
    }
    later(alloc, collections, rules)
}

/// The module, without fault, with its heads in order, or its first fault: kinds come before places, and
/// collections before rules. The error is that fault or want of memory.
pub fn check(alloc: Global, module: &Module) -> Result<Checked, CheckFault>
    requires names { HasOwnNames (form_of module.now) }
    ensures checked { Checks (form_of module.now) result }
    ensures heads { IfOk result (λ checked. checked.heads ≡ heads_of (form_of module.now)) }
{
    let heads = clean_heads(alloc, module)?;
    let module = module.copy(alloc)?;
    Ok(Checked::new(alloc, module, heads)?)
}
