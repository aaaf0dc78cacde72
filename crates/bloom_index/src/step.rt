//! One step over what is kept.
ghost use Rattle.std.specs.Prelude.{◌≡◌, ◌<◌, ◌^◌, ◌+◌, ◌∷◌, ◌++◌, [], false, Some, Err, ℕ, length, slice_get, slice_set, IfOk, IsTrue, OnOk};
ghost use Rattle.blz_set.specs.RecordSet.{IsRecordSet};
ghost use Rattle.bloom_forms.specs.declared.module.Kind.TheVariants.{Input};
ghost use Rattle.bloom_forms.specs.Kinds.{of_kind};
ghost use Rattle.bloom_forms.specs.Program.{columns_of_kind};
ghost use Rattle.bloom_forms.specs.Step.{set_at, begun, tables_after};
ghost use Rattle.bloom_forms.specs.Widths.{AreSetsOf};
ghost use Rattle.bloom_eval.specs.Begin.{place_after};
ghost use Rattle.bloom_eval.specs.declared.fault.StepFault.TheVariants.{TooManyRows};
ghost use Rattle.bloom_eval.specs.StepAnswers.{AllFit, SomeIsOver, counted_sets};
ghost use Rattle.bloom_parts.specs.Turns.{rows_in};
ghost use Rattle.bloom_index.specs.Code.Growth.{grows_at};
ghost use Rattle.bloom_growth.specs.declared.bag.Bag.{Bag as TheBag};
ghost use Rattle.bloom_index.specs.Code.HeadRules.{CanTurn, HasOldHead, HasGiven, AllLast, GrowsHead, TurnsHead, MakesHead};
ghost use Rattle.bloom_index.specs.Code.Lasting.{lasts_at};
ghost use Rattle.bloom_index.specs.Code.Kept.{tables_in, PartsStand, PutsOut};
ghost use Rattle.bloom_index.specs.Code.Arriving.{arrived_in};
ghost use Rattle.bloom_index.specs.Code.StepSets.{AreBegunAt, outs_in};

use crate::arrived::Arrived;
use crate::heads::{grow_head, make_head, turn_head};
use crate::plan::Plan;
use bloom_eval::StepFault;
use bloom_forms::{Checked, Collection, Kind, NumberedRule};
use bloom_growth::{Bag, GrowSet};
use bloom_parts::{Change, Rows};
use blz_set::{RecordSet, SetFault};
use std::alloc::{AllocError, Global};

/// What is kept: of each collection that grows its rows, of each other what its rules that are kept give
/// it, and the plan of each rule's body.
#[derive(Drop)]
pub(crate) struct Parts {
    pub(crate) growing: Vec<bool>,
    pub(crate) lasting: Vec<bool>,
    pub(crate) rows: Vec<GrowSet>,
    pub(crate) bags: Vec<Bag>,
    pub(crate) plans: Vec<Plan>,
}

// The place of the next port, after a collection of a kind.
fn next_port(kind: Kind, port: usize) -> usize
    requires { port < 2 ^ 63 }
    ensures { result ≡ place_after Input kind port }
{
    match kind {
        Kind::Input => port + 1,
        Kind::Output | Kind::Table | Kind::Scratch => port,
    }
}

// What a collection has at the beginning of a step: a port what arrives, any other nothing.
fn begin_rows<'r>(alloc: Global, kind: Kind, now: &Arrived<'r>, port: usize) -> Rows<'r, 'r>
    requires { kind ≡ Input → port < length (arrived_in now.now) }
    ensures { rows_in result ≡ begun (Some kind) [] (set_at (arrived_in now.now) port) }
{
    match kind {
        Kind::Input => now.at(alloc, port),
        Kind::Output | Kind::Table | Kind::Scratch => Rows::Own(RecordSet::new(alloc)),
    }
}

// Adds what a collection has.
fn push_change<'r>(
    held: &mut Vec<Change<'r, 'r>>,
    kept: bool,
    rows: Rows<'r, 'r>,
    gone: Rows<'r, 'r>,
) -> Result<(), AllocError>
    ensures many { OnOk result (length held.new.items ≡ length held.old.items + 1) }
    ensures held { OnOk result (held.new.items ≡ held.old.items ++ (record { kept = kept; rows = rows.entry; gone = gone.entry }) ∷ []) }
    ensures set { IsRecordSet (rows_in rows.entry) }
{
    // for the proof alone: what holds of each set
    rows.known();
    held.push(Change { kept, rows, gone })?;
    Ok(())
}

// What the collections have at the beginning of a step.
fn begin<'r>(
    alloc: Global,
    collections: &[Collection],
    parts: &Parts,
    now: &Arrived<'r>,
) -> Result<Vec<Change<'r, 'r>>, AllocError>
    requires lasting { length parts.now.lasting.items ≡ length collections.now }
    requires rows { length parts.now.rows.items ≡ length collections.now }
    requires ports { length (arrived_in now.now) ≡ length (of_kind Input collections.now) }
    ensures begun { IfOk result (λ held. AreBegunAt collections.now parts.now.lasting.items (arrived_in now.now) (length collections.now) held.items) }
    ensures sets { OnOk result ((number : ℕ) → IsRecordSet (set_at parts.now.rows.items number)) }
{
    let mut held = Vec::with_capacity(alloc, collections.len())?;
    let mut port = 0;
    for (i, collection) in collections.iter().enumerate() {
        // for the proof alone: what holds of each set
        parts.rows[i].known();
        let rows = begin_rows(alloc, collection.kind, now, port);
        let gone = Rows::Own(RecordSet::new(alloc));
        push_change(&mut held, parts.lasting[i], rows, gone)?;
        port = next_port(collection.kind, port);
    }
    Ok(held)
}

// What a head has: where it is kept what changes of it, else all, or where not the whole is asked for
// all but what the tables of before gave.
fn head_change<'r>(
    alloc: Global,
    rules: &[NumberedRule],
    head: u32,
    parts: &mut Parts,
    held: &[Change<'_, 'r>],
    whole: bool,
) -> Result<Change<'r, 'r>, SetFault>
    requires growing { head < length parts.old.growing.items }
    requires lasting { head < length parts.old.lasting.items }
    requires rows { head < length parts.old.rows.items }
    requires bags { head < length parts.old.bags.items }
    requires ready { CanTurn rules.now head parts.old.plans.items held.now }
    ensures growing { parts.new.growing ≡ parts.old.growing }
    ensures lasting { parts.new.lasting ≡ parts.old.lasting }
    ensures rows { parts.new.rows.items ≡ slice_set parts.old.rows.items head (set_at parts.new.rows.items head) }
    ensures bags { length parts.new.bags.items ≡ length parts.old.bags.items }
    ensures others { (number : ℕ) → ¬ (number ≡ head) → slice_get parts.new.bags.items number ≡ slice_get parts.old.bags.items number }
    ensures grown { (can : CanTurn rules.now head parts.old.plans.items held.now) → can.ready.growing ≡ parts.old.growing.items → HasOldHead can.rules head parts.old.plans.items held.now can.ready (set_at parts.old.rows.items head) → IsTrue (grows_at parts.old.growing.items head) → GrowsHead can.rules head parts.old.plans.items held.now can.ready (set_at parts.old.rows.items head) (set_at parts.new.rows.items head) parts.new.plans.items result }
    ensures turned { (can : CanTurn rules.now head parts.old.plans.items held.now) (old new : TheBag) → slice_get parts.old.bags.items head ≡ Some old → slice_get parts.new.bags.items head ≡ Some new → can.ready.lasting ≡ parts.old.lasting.items → HasGiven can.ready.lasting can.ready.old can.rules head old → AllLast can.ready.lasting can.rules head → grows_at parts.old.growing.items head ≡ false → IsTrue (lasts_at parts.old.lasting.items head) → TurnsHead can.rules head parts.old.plans.items held.now can.ready new parts.new.plans.items result }
    ensures made { (can : CanTurn rules.now head parts.old.plans.items held.now) (old new : TheBag) → slice_get parts.old.bags.items head ≡ Some old → slice_get parts.new.bags.items head ≡ Some new → can.ready.lasting ≡ parts.old.lasting.items → HasGiven can.ready.lasting can.ready.old can.rules head old → grows_at parts.old.growing.items head ≡ false → lasts_at parts.old.lasting.items head ≡ false → MakesHead can.rules head parts.old.plans.items held.now can.ready whole new parts.new.plans.items result }
{
    let number = head as usize;
    if parts.growing[number] {
        let rows = &mut parts.rows[number];
        return grow_head(alloc, rules, head, &mut parts.plans, held, rows);
    }
    let bag = &mut parts.bags[number];
    if parts.lasting[number] {
        turn_head(alloc, rules, head, &mut parts.plans, held, bag)
    } else {
        make_head(alloc, rules, head, &mut parts.plans, held, bag, whole)
    }
}

// Makes a change that of a collection.
fn put_change<'r>(held: &mut Vec<Change<'r, 'r>>, number: usize, change: Change<'r, 'r>)
    requires { number < length held.old.items }
    ensures held { held.new.items ≡ slice_set held.old.items number change.entry }
    ensures set { IsRecordSet (rows_in change.entry.rows) }
{
    // for the proof alone: what holds of each set
    change.rows.known();
    held[number] = change;
}

/// One step: what is kept becomes what is kept after it, and the answer is what the collections have, of which
/// the outputs put out theirs, less rows which the tables of before already give. After a fault nothing is said
/// of what is kept.
pub(crate) fn step<'r>(
    alloc: Global,
    program: &Checked,
    parts: &mut Parts,
    now: &Arrived<'r>,
) -> Result<Vec<Change<'r, 'r>>, StepFault>
    requires parts { PartsStand program.now parts.old }
    requires ports { AreSetsOf (columns_of_kind Input program.now.form.collections) (arrived_in now.now) }
    ensures parts { OnOk result (PartsStand program.now parts.new) }
    ensures tables { OnOk result (tables_in program.now parts.new.rows.items ≡ tables_after program.now (tables_in program.now parts.old.rows.items) (arrived_in now.now)) }
    ensures many { IfOk result (λ held. length held.items ≡ length program.now.form.collections) }
    ensures outs { IfOk result (λ held. PutsOut program.now (tables_in program.now parts.old.rows.items) (arrived_in now.now) (outs_in program.now held.items)) }
    ensures few { OnOk result (AllFit (counted_sets program.now (tables_in program.now parts.old.rows.items) (arrived_in now.now))) }
    ensures too_many { result ≡ Err TooManyRows → SomeIsOver (counted_sets program.now (tables_in program.now parts.old.rows.items) (arrived_in now.now)) }
{
    let written = program.module();
    let collections = written.collections.as_slice();
    let rules = program.rules();
    let mut held = begin(alloc, collections, parts, now)?;
    for head in program.heads() {
        let number = *head as usize;
        // What reads a scratch asks for all its rows.
        let whole = collections[number].kind != Kind::Output;
        let change = head_change(alloc, rules, *head, parts, &held, whole)?;
        put_change(&mut held, number, change);
    }
    Ok(held)
}
