//! A shell that keeps indexes, over a module that joins its two tables by all of their columns: what its
//! sides lend, and that each of its steps equals that of a plain shell.
ghost use Rattle.std.specs.Prelude.{◌≡◌, ◌<◌, ◌-◌, ◌^◌, length, Some, IsSome, IfOk};
ghost use Rattle.bloom_forms.specs.Program.{IsStock, port_columns, table_columns};
ghost use Rattle.bloom_forms.specs.Widths.{AreSetsOf};
ghost use Rattle.bloom_eval.specs.Step.{Arrive};

use crate::checked::program_of;
use crate::shells::{boxed, load, lone_pair, pair, show_table, step_shown};
use crate::texts::Text;
use anyhow::{Result, ensure};
use bloom_ast::Program;
use bloom_eval::{Arrivals, Outs};
use bloom_index::IndexShell;
use blz_boxes::{Component, PlainShell};
use blz_set::RecordSet;
use blz_value::Value;
use std::alloc::Global;

/// What the two sides of the module of a text lend once the record (1, 5) came to its first port, and that an
/// indexed and a plain shell put out and keep the same after each of twenty steps, in which ten records come
/// to each port one by one.
pub(crate) fn sides_shown(alloc: Global, text: &[u8]) -> Result<Vec<u8>>
    requires { length text.now < 2 ^ 32 - 1 }
{
    let program = program_of(alloc, text, 2)?;
    sides_of(alloc, &program)
}

// The same of the module's program.
fn sides_of(alloc: Global, program: &Program) -> Result<Vec<u8>>
    requires stock { IsStock program.now }
    requires tables { length (table_columns program.now) ≡ 2 }
{
    let mut shown = Text::new(alloc);
    lent_shown(alloc, program, &mut shown)?;
    same_steps(alloc, program)?;
    shown.add(b"the same after each of 20 steps\n");
    shown.into_bytes()
}

// What arrives where the record of two numbers comes to one of the two ports of a program.
#[tactic(auto, using(crate::proofs::Ports::two_ports_wide))]
fn arrival(
    alloc: Global,
    program: &Program,
    is_left: bool,
    first: i64,
    second: i64,
) -> Result<Arrivals>
    requires { IsStock program.now }
    ensures { IfOk result (AreSetsOf (port_columns program.now)) }
{
    ensure!(program.port_count() == 2, "the module has two ports");
    ensure!(program.port_width(0) == 2, "the first has two columns");
    ensure!(program.port_width(1) == 2, "the second has two columns");
    let some = lone_pair(alloc, first, second)?;
    let none = RecordSet::new(alloc);
    if is_left {
        Ok(Arrivals::from_sets(vec![in alloc; some, none]?))
    } else {
        Ok(Arrivals::from_sets(vec![in alloc; none, some]?))
    }
}

// What each side of an indexed shell lends for the record that came to the first port alone.
fn lent_shown(alloc: Global, program: &Program, shown: &mut Text) -> Result<()>
    requires { IsStock program.now }
{
    let mut shell = IndexShell::new(alloc);
    lends_shown(alloc, &mut shell, program, shown)
}

// A function that owned the shell, with all of its parts, would take minutes to check: each `?` may end it.
fn lends_shown(
    alloc: Global,
    shell: &mut IndexShell,
    program: &Program,
    shown: &mut Text,
) -> Result<()>
    requires { IsStock program.now }
{
    ensure!(shell.fits(program), "the shell is one for modules");
    shell.load(program)?;
    let now = arrival(alloc, program, true, 1, 5)?;
    stepped_sides(alloc, shell, &now, shown)
}

// What each side lends after a step.
fn stepped_sides(
    alloc: Global,
    shell: &mut IndexShell,
    now: &Arrivals,
    shown: &mut Text,
) -> Result<()>
    requires program { IsSome (⟦<IndexShell as Component>⟧.program shell.old) }
    requires arrivals { Arrive (⟦<IndexShell as Component>⟧.program shell.old) now.now }
{
    let mut outs = Outs::from_sets(Vec::new(alloc));
    shell.step(now, &mut outs)?;
    two_sides(alloc, shell, shown)
}

// What each of two sides lends.
fn two_sides(alloc: Global, shell: &IndexShell, shown: &mut Text) -> Result<()>
    requires { IsSome (⟦<IndexShell as Component>⟧.program shell.now) }
{
    ensure!(shell.sides() == 2, "the module has two sides");
    let key = pair(alloc, Value::Int(1), 5)?;
    shown.add_line("side 0", shell.side(0, &key).rows());
    shown.add_line("side 1", shell.side(1, &key).rows());
    Ok(())
}

// That an indexed and a plain shell put out and keep the same after each of twenty steps.
fn same_steps(alloc: Global, program: &Program) -> Result<()>
    requires stock { IsStock program.now }
    requires tables { length (table_columns program.now) ≡ 2 }
{
    let mut indexed: Box<dyn Component> = boxed(alloc, IndexShell::new(alloc))?;
    let mut plain: Box<dyn Component> = boxed(alloc, PlainShell::new(alloc))?;
    both_loaded(alloc, program, &mut indexed, &mut plain)
}

// The same of two shells for modules.
fn both_loaded(
    alloc: Global,
    program: &Program,
    indexed: &mut Box<dyn Component>,
    plain: &mut Box<dyn Component>,
) -> Result<()>
    requires stock { IsStock program.now }
    requires tables { length (table_columns program.now) ≡ 2 }
{
    load(indexed, program)?;
    load(plain, program)?;
    ten_rounds(alloc, program, indexed, plain)
}

// Ten rounds, of two steps each.
fn ten_rounds(
    alloc: Global,
    given: &Program,
    indexed: &mut Box<dyn Component>,
    plain: &mut Box<dyn Component>,
) -> Result<()>
    requires stock { IsStock given.now }
    requires tables { length (table_columns given.now) ≡ 2 }
    requires indexed { program indexed.old ≡ Some given.now }
    requires plain { program plain.old ≡ Some given.now }
{
    for number in 0..10u8 {
        round(alloc, given, indexed, plain, number)?;
    }
    Ok(())
}

// A record comes to the first port, and then an equal one to the second, which it meets there.
fn round(
    alloc: Global,
    given: &Program,
    indexed: &mut Box<dyn Component>,
    plain: &mut Box<dyn Component>,
    number: u8,
) -> Result<()>
    requires stock { IsStock given.now }
    requires tables { length (table_columns given.now) ≡ 2 }
    requires indexed { program indexed.old ≡ Some given.now }
    requires plain { program plain.old ≡ Some given.now }
    ensures indexed { program indexed.new ≡ Some given.now }
    ensures plain { program plain.new ≡ Some given.now }
{
    same_step(alloc, given, indexed, plain, true, number)?;
    same_step(alloc, given, indexed, plain, false, number)
}

fn same_step(
    alloc: Global,
    given: &Program,
    indexed: &mut Box<dyn Component>,
    plain: &mut Box<dyn Component>,
    is_left: bool,
    number: u8,
) -> Result<()>
    requires stock { IsStock given.now }
    requires tables { length (table_columns given.now) ≡ 2 }
    requires indexed { program indexed.old ≡ Some given.now }
    requires plain { program plain.old ≡ Some given.now }
    ensures indexed { program indexed.new ≡ Some given.now }
    ensures plain { program plain.new ≡ Some given.now }
{
    let now = arrival(alloc, given, is_left, (number % 3) as i64, number as i64)?;
    let own = state_after(alloc, indexed, given, &now)?;
    let other = state_after(alloc, plain, given, &now)?;
    ensure!(
        own.as_slice() == other.as_slice(),
        "the shells differ in round {number}"
    );
    Ok(())
}

// What a shell that is loaded puts out in a step, and what it keeps then.
fn state_after(
    alloc: Global,
    shell: &mut Box<dyn Component>,
    given: &Program,
    now: &Arrivals,
) -> Result<Vec<u8>>
    requires loaded { program shell.old ≡ Some given.now }
    requires wide { AreSetsOf (port_columns given.now) now.now }
    requires tables { length (table_columns given.now) ≡ 2 }
    ensures loaded { program shell.new ≡ Some given.now }
{
    let mut state = Text::new(alloc);
    step_shown(alloc, shell, given, now, &mut state)?;
    show_table(alloc, shell, 0, &mut state)?;
    show_table(alloc, shell, 1, &mut state)?;
    state.into_bytes()
}
