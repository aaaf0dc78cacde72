//! Steps of modules that keep nothing and whose rules choose rows of ports: one record that arrives is put
//! out or not, and no set is made.
ghost use Rattle.std.specs.Prelude.{◌≡◌, ◌<◌, ◌^◌, ◌∷◌, [], List, Some, ℕ, length, All, IsTrue, OnOk};
ghost use Rattle.std.specs.List.{list_all, list_any};
ghost use Rattle.blz_pool.specs.Entries.{row_with_id, entries_with_ids};
ghost use Rattle.bloom_forms.specs.declared.module.Kind.TheVariants.{Input, Output};
ghost use Rattle.bloom_forms.specs.Kinds.{kind_at};
ghost use Rattle.bloom_forms.specs.Program.{columns_of_kind};
ghost use Rattle.bloom_forms.specs.Step.{Sets, set_at, sets_of_kind, outputs_of};
ghost use Rattle.bloom_forms.specs.Widths.{AreSetsOf};
ghost use Rattle.bloom_eval.specs.Arrivals.{timestep_of};
ghost use Rattle.bloom_eval.specs.StepAnswers.{AllFit, counted_sets};
ghost use Rattle.bloom_eval.specs.Puts.{put_rows, puts_in, IsPutOf, ArePutOf};
ghost use Rattle.bloom_index.specs.Code.ByRows.{is_choice_of, is_passing, only_chooses, chooses, Fits, chooses_for, chosen_rows};

use crate::places::collection_at;
use bloom_eval::{Put, Puts};
use bloom_forms::{Checked, Collection, Kind, NumberedExpr, NumberedRule};
use blz_pool::{Id, Pool};
use blz_set::RecordSet;
use blz_value::{Record, holds};
use std::alloc::{AllocError, Global};

// Whether an expression has rows of a port that tests choose.
fn is_choice(collections: &[Collection], expr: &NumberedExpr) -> bool
    ensures { result ≡ is_choice_of collections.now expr.now }
{
    match expr {
        NumberedExpr::Base(number) => match collections.get(*number as usize) {
            Some(collection) => collection.kind == Kind::Input,
            None => false,
        },
        NumberedExpr::Select(part, _) => is_choice(collections, part),
        NumberedExpr::Project(_, _) => false,
        NumberedExpr::Join(_, _, _) => false,
        NumberedExpr::NotIn(_, _, _) => false,
        NumberedExpr::Group(_, _, _) => false,
        NumberedExpr::AtLeast(_, _, _) => false,
    }
}

// Whether a collection holds rows of one step and is read by no rule but as a port.
fn is_passing(kind: Kind) -> bool
    ensures { result ≡ is_passing kind }
{
    match kind {
        Kind::Input | Kind::Output => true,
        Kind::Table | Kind::Scratch => false,
    }
}

// Whether each collection is so.
fn all_pass(collections: &[Collection]) -> bool
    ensures { result ≡ list_all (λ c. is_passing c.kind) collections.now }
{
    collections
        .iter()
        .all(|collection| is_passing(collection.kind))
}

// Whether each rule has rows of a port that tests choose.
fn all_choose(collections: &[Collection], rules: &[NumberedRule]) -> bool
    ensures { result ≡ list_all (λ rule. is_choice_of collections.now rule.body) rules.now }
{
    rules.iter().all(|rule| is_choice(collections, &rule.body))
}

/// Whether a module keeps nothing and each of its rules gives an output rows of a port that tests choose.
pub(crate) fn only_chooses(program: &Checked) -> bool
    ensures { result ≡ only_chooses program.now.form }
{
    let collections = program.module().collections.as_slice();
    all_pass(collections) && all_choose(collections, program.rules())
}

// Whether an expression has a record that arrives alone, at the port that is the collection with a number.
fn chooses(expr: &NumberedExpr, port: u32, row: &Record) -> bool
    requires { Fits expr.now port row.now }
    ensures { result ≡ chooses expr.now port row.now }
{
    match expr {
        NumberedExpr::Base(number) => *number == port,
        NumberedExpr::Select(part, test) => chooses(part, port, row) && holds(test, row),
        NumberedExpr::Project(_, _) => false,
        NumberedExpr::Join(_, _, _) => false,
        NumberedExpr::NotIn(_, _, _) => false,
        NumberedExpr::Group(_, _, _) => false,
        NumberedExpr::AtLeast(_, _, _) => false,
    }
}

// Whether a rule of a head chooses such a record.
fn is_chosen(rules: &[NumberedRule], head: u32, port: u32, row: &Record) -> bool
    requires { All (λ rule. Fits rule.body port row.now) rules.now }
    ensures { result ≡ list_any (chooses_for head port row.now) rules.now }
{
    for rule in rules {
        if rule.head == head && chooses(&rule.body, port, row) {
            return true;
        }
    }
    false
}

// What an output puts out of the record of an entry, which arrives alone.
fn put_of(
    alloc: Global,
    rules: &[NumberedRule],
    head: u32,
    port: u32,
    pool: &Pool,
    entry: &(u32, Id),
) -> Put
    requires given { entry.now.1 < length pool.now }
    requires fits { All (λ rule. Fits rule.body port (row_with_id pool.now entry.now.1)) rules.now }
    ensures rows { put_rows pool.now result ≡ chosen_rows rules.now port (row_with_id pool.now entry.now.1) head }
    ensures id { IsPutOf (entry.now ∷ []) result }
{
    if is_chosen(rules, head, port, pool.get(entry.1)) {
        Put::Arrived(entry.1)
    } else {
        Put::Rows(RecordSet::new(alloc))
    }
}

// Makes `puts` what the outputs have of the record.
fn put_outputs(
    alloc: Global,
    collections: &[Collection],
    rules: &[NumberedRule],
    port: u32,
    pool: &Pool,
    entry: &(u32, Id),
    puts: &mut Puts,
) -> Result<(), AllocError>
    requires few { length collections.now < 2 ^ 32 }
    requires given { entry.now.1 < length pool.now }
    requires fits { All (λ rule. Fits rule.body port (row_with_id pool.now entry.now.1)) rules.now }
    ensures rows { OnOk result ((sets : Sets) → length sets ≡ length collections.now → ((k : ℕ) → kind_at collections.now k ≡ Some Output → set_at sets k ≡ chosen_rows rules.now port (row_with_id pool.now entry.now.1) k) → puts_in pool.now puts.new ≡ sets_of_kind Output collections.now sets) }
    ensures ids { OnOk result (ArePutOf (entry.now ∷ []) puts.new) }
{
    puts.clear();
    for (i, collection) in collections.iter().enumerate() {
        if collection.kind == Kind::Output {
            puts.push(put_of(alloc, rules, i as u32, port, pool, entry))?;
        }
    }
    Ok(())
}

/// Puts out what the outputs of a module have, that keeps nothing and only chooses, where the record of one
/// entry arrives.
pub(crate) fn put_by_rows(
    alloc: Global,
    program: &Checked,
    pool: &Pool,
    ports: usize,
    entry: &(u32, Id),
    puts: &mut Puts,
) -> Result<(), AllocError>
    requires chosen { IsTrue (only_chooses program.now.form) }
    requires given { entry.now.1 < length pool.now }
    requires port { entry.now.0 < ports }
    requires ports { AreSetsOf (columns_of_kind Input program.now.form.collections) (timestep_of ports (entries_with_ids pool.now (entry.now ∷ []))) }
    ensures rows { OnOk result (puts_in pool.now puts.new ≡ outputs_of program.now [] (timestep_of ports (entries_with_ids pool.now (entry.now ∷ [])))) }
    ensures ids { OnOk result (ArePutOf (entry.now ∷ []) puts.new) }
    ensures few { OnOk result (AllFit (counted_sets program.now [] (timestep_of ports (entries_with_ids pool.now (entry.now ∷ []))))) }
{
    let collections = program.module().collections.as_slice();
    let port = collection_at(collections, Kind::Input, entry.0);
    put_outputs(
        alloc,
        collections,
        program.rules(),
        port as u32,
        pool,
        entry,
        puts,
    )
}
