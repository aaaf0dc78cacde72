//! One step of a module.
ghost use Rattle.std.specs.Prelude.{◌≡◌, ◌<◌, [], length, slice_set, IfOk, OnOk};
ghost use Rattle.bloom_forms.specs.Lookup.{declared};
ghost use Rattle.bloom_forms.specs.declared.module.Kind.TheVariants.{Input, Table};
ghost use Rattle.bloom_forms.specs.Program.{columns_of_kind};
ghost use Rattle.bloom_forms.specs.Step.{set_at, rows_named, rules_at};
ghost use Rattle.bloom_eval.specs.Code.Held.{sets_in};
ghost use Rattle.bloom_eval.specs.NumberedRows.{numbered_rows, numbered_sets, TestsFit};
ghost use Rattle.bloom_eval.specs.Counted.{AddsRows, Adds, TakesHead};
ghost use Rattle.bloom_forms.specs.Widths.{AreSetsOf};
ghost use Rattle.bloom_eval.specs.StepAnswers.{IsRunnable, StepGives};
ghost use Rattle.bloom_eval.specs.Taken.{AreSetsOfAll, AreBegun, TakesHeads};

use crate::begin::begin;
use crate::evaluate::evaluate;
use crate::fault::StepFault;
use crate::finish::finish;
use crate::rows::{Rows, take_rows};
use crate::sets::{Arrivals, Kept, Outs};
use bloom_forms::{Checked, NumberedRule};
use blz_set::{RecordSet, SetFault};
use std::alloc::{AllocError, Global};

// Adds the rows of a rule's body to a set.
fn add_rule(
    alloc: Global,
    rule: &NumberedRule,
    held: &[Rows<'_>],
    set: &mut RecordSet,
) -> Result<(), SetFault>
    requires { TestsFit (sets_in held.now) rule.now.body }
    ensures { AddsRows (numbered_rows (sets_in held.now) rule.now.body) (numbered_sets (sets_in held.now) rule.now.body) set.old set.new result }
{
    let rows = evaluate(alloc, &rule.body, held)?;
    set.union_in(rows.as_set())
}

// Adds to a set what the rules of a head give. After a fault the set has some of it.
fn add_rules(
    alloc: Global,
    program: &Checked,
    held: &[Rows<'_>],
    head: u32,
    set: &mut RecordSet,
) -> Result<(), SetFault>
    requires { AreSetsOfAll program.now.form.collections (sets_in held.now) }
    ensures { Adds (declared program.now.form.collections) (rows_named program.now.form.collections (sets_in held.now)) (rules_at program.now.form.collections program.now.form.rules head) set.old set.new result }
{
    for rule in program.rules() {
        if rule.head == head {
            add_rule(alloc, rule, held, set)?;
        }
    }
    let _rows = set.rows();
    Ok(())
}

// Takes the set of a collection, and leaves the empty one in its place.
fn take_set(alloc: Global, held: &mut Vec<Rows<'_>>, number: usize) -> Result<RecordSet, AllocError>
    requires { number < length held.old.items }
    ensures taken { IfOk result (λ set. set ≡ set_at (sets_in held.old.items) number) }
    ensures left { sets_in held.new.items ≡ slice_set (sets_in held.old.items) number [] }
{
    take_rows(alloc, held, number).into_set()
}

// Makes a set that of a collection.
fn put_set(held: &mut Vec<Rows<'_>>, number: usize, set: RecordSet)
    requires { number < length held.old.items }
    ensures { sets_in held.new.items ≡ slice_set (sets_in held.old.items) number set }
{
    held[number] = Rows::Own(set);
}

// Takes a head: its set gets what its rules give.
fn take_head(
    alloc: Global,
    program: &Checked,
    held: &mut Vec<Rows<'_>>,
    head: u32,
) -> Result<(), SetFault>
    requires within { head < length held.old.items }
    requires wide { AreSetsOfAll program.now.form.collections (sets_in held.old.items) }
    ensures { TakesHead program.now.form.collections program.now.form.rules head (sets_in held.old.items) (sets_in held.new.items) result }
{
    let number = head as usize;
    let mut set = take_set(alloc, held, number)?;
    add_rules(alloc, program, held, head, &mut set)?;
    put_set(held, number, set);
    Ok(())
}

// Takes the heads of a module in their order.
fn take_heads(
    alloc: Global,
    program: &Checked,
    heads: &[u32],
    held: &mut Vec<Rows<'_>>,
) -> Result<(), SetFault>
    requires heads { heads.now ≡ program.now.heads }
    requires runnable { IsRunnable program.now }
    requires begun { AreBegun program.now.form.collections (sets_in held.old.items) }
    ensures taken { TakesHeads program.now (sets_in held.old.items) (sets_in held.new.items) result }
    ensures wide { OnOk result (AreSetsOfAll program.now.form.collections (sets_in held.new.items)) }
{
    for head in heads {
        take_head(alloc, program, held, *head)?;
    }
    Ok(())
}

/// One step of a module that was checked: `kept` becomes the new tables, and the answer is the outputs.
/// TooManyRows comes exactly where one of these has more than 262,144 rows in this step: a new table, a
/// scratch, an output, the body of a rule or some part of it. After a fault `kept` has one set for
/// each table, with rows of its width, and nothing else is said of it.
pub fn step_plain(
    alloc: Global,
    program: &Checked,
    kept: &mut Kept,
    now: &Arrivals,
) -> Result<Outs, StepFault>
    requires tables { AreSetsOf (columns_of_kind Table program.now.form.collections) kept.old }
    requires ports { AreSetsOf (columns_of_kind Input program.now.form.collections) now.now }
    ensures step { StepGives program.now kept.old now.now kept.new result }
    ensures tables { AreSetsOf (columns_of_kind Table program.now.form.collections) kept.new }
{
    let written = program.module();
    let collections = written.collections.as_slice();
    let mut held = begin(alloc, collections, kept, now.sets())?;
    take_heads(alloc, program, program.heads(), &mut held)?;
    let (tables, outs) = finish(alloc, collections, held)?;
    *kept = tables;
    Ok(outs)
}
