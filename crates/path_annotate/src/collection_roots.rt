//! The roots of the collections of a module, heads in the order in which a step takes them.
ghost use Rattle.std.specs.Prelude.{◌≡◌, ◌==◌, ◌<◌, map, filter, length, slice_set, IfOk, OnOk};
ghost use Rattle.path_annotate.specs.Code.ByNumber.{roots_by, head_roots_by};
ghost use Rattle.bloom_forms.specs.Gates as gates;
ghost use Rattle.bloom_forms.specs.HeadRoots as spec;
ghost use Rattle.bloom_forms.specs.Roots as tracing;

use crate::tracing::{roots_numbered, trace};
use bloom_forms::{Checked, Collection, Kind, NumberedRule};
use blz_value::{Attrs, Items, Str};
use fd_closure::AttrNames;
use path_facts::agreed_root;
use std::alloc::{AllocError, Global};

/// The set of all attributes.
pub(crate) fn all_attributes(names: &AttrNames) -> Attrs
    ensures { result.bits ≡ gates.all_attributes names.now }
{
    let mut all = Attrs::from_bits(0);
    let held = names.names();
    for (i, _) in held.iter().enumerate() {
        all = all.union(Attrs::of(i));
    }
    all
}

/// The attributes of these names.
pub(crate) fn attribute_roots(
    alloc: Global,
    names: &AttrNames,
    columns: &[Str],
) -> Result<Vec<Option<u8>>, AllocError>
    ensures { IfOk result (λ roots. roots.items ≡ spec.attribute_roots names.now columns.now) }
{
    columns
        .iter()
        .map(|column| names.find(column))
        .collect(alloc)
}

// No root for each of these columns.
fn no_roots(alloc: Global, columns: &[Str]) -> Result<Vec<Option<u8>>, AllocError>
    ensures { IfOk result (λ roots. roots.items ≡ tracing.no_roots columns.now) }
{
    columns.iter().map(|_| None).collect(alloc)
}

// The roots of a collection without rules.
fn first_roots(
    alloc: Global,
    names: &AttrNames,
    collection: &Collection,
) -> Result<Vec<Option<u8>>, AllocError>
    ensures { IfOk result (λ roots. roots.items ≡ spec.first_roots names.now collection.now) }
{
    let columns = collection.columns.as_slice();
    match collection.kind {
        Kind::Input => attribute_roots(alloc, names, columns),
        Kind::Output | Kind::Table | Kind::Scratch => no_roots(alloc, columns),
    }
}

// The roots of the collections, as if none had rules.
fn first_table(
    alloc: Global,
    names: &AttrNames,
    collections: &[Collection],
) -> Result<Vec<Items<Option<u8>>>, AllocError>
    ensures { IfOk result (λ table. table.items ≡ map (spec.first_roots names.now) collections.now) }
{
    let mut table = Vec::new(alloc);
    for collection in collections {
        table.push(Items::from_vec(first_roots(alloc, names, collection)?))?;
    }
    Ok(table)
}

// The roots that each rule of a head gives.
fn rules_roots(
    alloc: Global,
    all: Attrs,
    table: &[Items<Option<u8>>],
    rules: &[NumberedRule],
    head: u32,
) -> Result<Vec<Items<Option<u8>>>, AllocError>
    ensures { IfOk result (λ given. given.items ≡ map (λ rule. roots_by table.now rule.body) (filter (λ rule. rule.head == head) rules.now)) }
{
    let mut given = Vec::new(alloc);
    for rule in rules {
        if rule.head == head {
            given.push(Items::from_vec(trace(alloc, all, table, &rule.body)?.roots))?;
        }
    }
    Ok(given)
}

// The roots of a head: each column has the root that all its rules give it.
fn head_roots(
    alloc: Global,
    all: Attrs,
    table: &[Items<Option<u8>>],
    rules: &[NumberedRule],
    head: u32,
) -> Result<Vec<Option<u8>>, AllocError>
    ensures { IfOk result (λ roots. roots.items ≡ head_roots_by table.now rules.now head) }
{
    let given = rules_roots(alloc, all, table, rules, head)?;
    let width = roots_numbered(table, head).len();
    (0..width)
        .map(|number| agreed_root(&given, number))
        .collect(alloc)
}

// Takes a head: it gets the roots that its rules give.
fn take_head(
    alloc: Global,
    all: Attrs,
    table: &mut Vec<Items<Option<u8>>>,
    rules: &[NumberedRule],
    head: u32,
) -> Result<(), AllocError>
    requires { head < length table.old.items }
    ensures { OnOk result (table.new.items ≡ slice_set table.old.items head (head_roots_by table.old.items rules.now head)) }
{
    let roots = head_roots(alloc, all, table, rules, head)?;
    table[head as usize] = Items::from_vec(roots);
    Ok(())
}

/// The roots of all collections of a module by their numbers.
pub(crate) fn roots_table(
    alloc: Global,
    names: &AttrNames,
    checked: &Checked,
) -> Result<Vec<Items<Option<u8>>>, AllocError>
    ensures { IfOk result (λ table. table.items ≡ spec.roots_table names.now checked.now) }
{
    let all = all_attributes(names);
    let rules = checked.rules();
    let mut table = first_table(alloc, names, checked.module().collections.as_slice())?;
    let heads = checked.heads();
    for head in heads {
        take_head(alloc, all, &mut table, rules, *head)?;
    }
    Ok(table)
}
