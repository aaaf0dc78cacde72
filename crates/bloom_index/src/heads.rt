//! The heads of a module, each with what its rules give in a step.
ghost use Rattle.std.specs.Prelude.{◌≡◌, false, List, IsTrue};
ghost use Rattle.blz_value.specs.Record.{Row};
ghost use Rattle.bloom_forms.specs.declared.numbered.NumberedExpr.{NumberedExpr};
ghost use Rattle.bloom_growth.specs.Growth.{Extends, Takes};
ghost use Rattle.bloom_parts.specs.Turns.{rows_in};
ghost use Rattle.bloom_index.specs.Code.Evaluation.{IsReady};
ghost use Rattle.bloom_index.specs.Code.Growth.{grows_at};
ghost use Rattle.bloom_index.specs.Code.HeadRules.{CanTurn, HasOldHead, HasGiven, AllLast, AddsRule, GrowsHead, MakesParts, TurnsHead, MakesHead};
ghost use Rattle.bloom_index.specs.Code.Heads.{HasOldRows, GrowsBy};
ghost use Rattle.bloom_index.specs.Code.Lasting.{lasts_at};
ghost use Rattle.bloom_index.specs.Code.Plans.{expr_of};

use crate::evaluate::evaluate;
use crate::plan::Plan;
use bloom_forms::NumberedRule;
use bloom_growth::{Bag, GrowSet};
use bloom_parts::{Change, Rows, one_row, turn_bag, turn_bodies, with_bag};
use blz_set::{RecordSet, SetFault};
use std::alloc::Global;

/// What the rules of a head give: the changes of those that are kept, and the rows of the others.
#[derive(Drop)]
pub(crate) struct HeadParts<'a, 'r> {
    pub(crate) changes: Vec<Change<'a, 'r>>,
    pub(crate) rows: Rows<'a, 'r>,
}

// Adds rows to a growing head, and answers with those that were new.
fn taken(alloc: Global, rows: &mut GrowSet, more: &Rows<'_, '_>) -> Result<RecordSet, SetFault>
    ensures { Takes rows.old (rows_in more.now) rows.new result }
{
    match more {
        Rows::Lent(set) => rows.take(alloc, *set),
        Rows::Own(set) => rows.take(alloc, set),
        Rows::One(row) => {
            if rows.take_one(*row)? {
                Ok(one_row(alloc, *row)?)
            } else {
                Ok(RecordSet::new(alloc))
            }
        }
    }
}

// Adds to a growing head what a rule gives, and to the new rows those that are new.
fn grow_by<'r>(
    alloc: Global,
    plan: &mut Plan,
    held: &[Change<'_, 'r>],
    rows: &mut GrowSet,
    fresh: &mut Rows<'r, 'r>,
) -> Result<(), SetFault>
    requires { IsReady (expr_of plan.old) plan.old held.now }
    ensures { (e : NumberedExpr) (ready : IsReady e plan.old held.now) (start : List Row) → HasOldRows e plan.old held.now ready rows.old → Extends start rows.old (rows_in fresh.old) → GrowsBy e plan.old plan.new held.now ready start rows.old rows.new (rows_in fresh.new) result }
{
    let change = evaluate(alloc, plan, held)?;
    let new = taken(alloc, rows, &change.rows)?;
    Rows::Own(new).put_onto(alloc, fresh)
}

/// What a growing head gets.
pub(crate) fn grow_head<'r>(
    alloc: Global,
    rules: &[NumberedRule],
    head: u32,
    plans: &mut Vec<Plan>,
    held: &[Change<'_, 'r>],
    rows: &mut GrowSet,
) -> Result<Change<'r, 'r>, SetFault>
    requires { CanTurn rules.now head plans.old.items held.now }
    ensures { (can : CanTurn rules.now head plans.old.items held.now) → HasOldHead can.rules head plans.old.items held.now can.ready rows.old → IsTrue (grows_at can.ready.growing head) → GrowsHead can.rules head plans.old.items held.now can.ready rows.old rows.new plans.new.items result }
{
    // for the proof alone: what holds of each set
    rows.known();
    let mut more = Rows::Own(RecordSet::new(alloc));
    for (i, rule) in rules.iter().enumerate() {
        if rule.head == head {
            grow_by(alloc, &mut plans[i], held, rows, &mut more)?;
        }
    }
    let gone = Rows::Own(RecordSet::new(alloc));
    Ok(Change::kept(more, gone))
}

// Adds what a rule gives: the change of one that is kept, or all rows.
fn add_rule<'a, 'r>(
    alloc: Global,
    change: Change<'a, 'r>,
    parts: &mut HeadParts<'a, 'r>,
) -> Result<(), SetFault>
    ensures { AddsRule change.entry parts.old parts.new result }
{
    if change.kept {
        parts.changes.push(change)?;
    } else {
        change.rows.put_onto(alloc, &mut parts.rows)?;
    }
    Ok(())
}

// What the rules of a head give.
fn head_parts<'a, 'r>(
    alloc: Global,
    rules: &[NumberedRule],
    head: u32,
    plans: &mut Vec<Plan>,
    held: &'a [Change<'_, 'r>],
) -> Result<HeadParts<'a, 'r>, SetFault>
    requires { CanTurn rules.now head plans.old.items held.now }
    ensures { (can : CanTurn rules.now head plans.old.items held.now) → MakesParts can.rules head plans.old.items held.now can.ready plans.new.items result }
{
    let mut parts = HeadParts {
        changes: Vec::new(alloc),
        rows: Rows::Own(RecordSet::new(alloc)),
    };
    for (i, rule) in rules.iter().enumerate() {
        if rule.head == head {
            let change = evaluate(alloc, &mut plans[i], held)?;
            add_rule(alloc, change, &mut parts)?;
        }
    }
    Ok(parts)
}

/// What a head gets and loses that doesn't grow, but is kept. Where it has one rule it is what the rule's
/// body gets and loses, and its bag isn't touched.
pub(crate) fn turn_head<'a, 'r>(
    alloc: Global,
    rules: &[NumberedRule],
    head: u32,
    plans: &mut Vec<Plan>,
    held: &[Change<'_, '_>],
    bag: &mut Bag,
) -> Result<Change<'a, 'r>, SetFault>
    requires { CanTurn rules.now head plans.old.items held.now }
    ensures { (can : CanTurn rules.now head plans.old.items held.now) → HasGiven can.ready.lasting can.ready.old can.rules head bag.old → AllLast can.ready.lasting can.rules head → IsTrue (lasts_at can.ready.lasting head) → TurnsHead can.rules head plans.old.items held.now can.ready bag.new plans.new.items result }
{
    let parts = head_parts(alloc, rules, head, plans, held)?;
    let turn = turn_bodies(alloc, parts.changes, bag)?;
    Ok(Change::turned(turn))
}

/// The rows of a head that isn't kept, or where the whole isn't asked for all but what its kept rules
/// gave before.
pub(crate) fn make_head<'r>(
    alloc: Global,
    rules: &[NumberedRule],
    head: u32,
    plans: &mut Vec<Plan>,
    held: &[Change<'_, 'r>],
    bag: &mut Bag,
    whole: bool,
) -> Result<Change<'r, 'r>, SetFault>
    requires { CanTurn rules.now head plans.old.items held.now }
    ensures { (can : CanTurn rules.now head plans.old.items held.now) → HasGiven can.ready.lasting can.ready.old can.rules head bag.old → lasts_at can.ready.lasting head ≡ false → MakesHead can.rules head plans.old.items held.now can.ready whole bag.new plans.new.items result }
{
    let parts = head_parts(alloc, rules, head, plans, held)?;
    if parts.changes.is_empty() {
        // for the proof alone: what holds of the set
        parts.rows.known();
        return Ok(Change::all(alloc, parts.rows.lasting()?));
    }
    let turn = turn_bag(alloc, &parts.changes, bag)?;
    let set = with_bag(alloc, parts.rows.into_set(alloc)?, bag, turn.more, whole)?;
    Ok(Change::of_set(alloc, set))
}
