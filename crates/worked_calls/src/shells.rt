//! Three boxed shells, with a module, with Number and with Latest: what they put out step by step, and what
//! they keep.
ghost use Rattle.std.specs.Prelude.{◌≡◌, ◌<◌, ◌-◌, ◌^◌, ◌∷◌, [], codes, length, Some, IsSome, IfOk, OnOk, All};
ghost use Rattle.bloom_forms.specs.declared.program.Program.TheVariants.{Latest, Number};
ghost use Rattle.bloom_forms.specs.Program.{IsStock, port_columns, table_columns};
ghost use Rattle.bloom_forms.specs.Widths.{AreSetsOf};

use crate::checked::program_of;
use crate::texts::Text;
use anyhow::{Result, ensure};
use bloom_ast::Program;
use bloom_eval::{Arrivals, Outs};
use blz_boxes::{Component, LatestShell, NumberShell, PlainShell};
use blz_set::RecordSet;
use blz_value::{Items, Record, Str, Value};
use std::alloc::{AllocError, Global};

/// What a shell with Latest, one with Number and one with the module of a text, whose one port has two
/// columns, put out and keep, and what they keep once they are cleared.
pub(crate) fn shells_shown(alloc: Global, text: &[u8]) -> Result<Vec<u8>>
    requires { length text.now < 2 ^ 32 - 1 }
{
    let mut shown = Text::new(alloc);
    latest_shown(alloc, &mut shown)?;
    number_shown(alloc, &mut shown)?;
    tally_shown(alloc, text, &mut shown)?;
    shown.into_bytes()
}

// Two puts of one word and the question for it arrive at once.
fn latest_shown(alloc: Global, shown: &mut Text) -> Result<()> {
    let mut shell: Box<dyn Component> = boxed(alloc, LatestShell::new(alloc))?;
    let now = puts_and_question(alloc)?;
    let program = latest_program(alloc)?;
    once_shown(alloc, &mut shell, &program, &now, shown)
}

// The record (7) arrives.
fn number_shown(alloc: Global, shown: &mut Text) -> Result<()> {
    let mut shell: Box<dyn Component> = boxed(alloc, NumberShell::new(alloc))?;
    let now = seven(alloc)?;
    let program = number_program(alloc)?;
    once_shown(alloc, &mut shell, &program, &now, shown)
}

// What a shell puts out and keeps where this arrives.
fn once_shown(
    alloc: Global,
    shell: &mut Box<dyn Component>,
    given: &Program,
    now: &Arrivals,
    shown: &mut Text,
) -> Result<()>
    requires stock { IsStock given.now }
    requires table { length (table_columns given.now) ≡ 1 }
    requires wide { AreSetsOf (port_columns given.now) now.now }
{
    load(shell, given)?;
    step_shown(alloc, shell, given, now, shown)?;
    kept_and_cleared(alloc, shell, given, shown)
}

// The records (1, 10) and (1, 11) arrive one after the other.
fn tally_shown(alloc: Global, text: &[u8], shown: &mut Text) -> Result<()>
    requires { length text.now < 2 ^ 32 - 1 }
{
    let mut shell: Box<dyn Component> = boxed(alloc, PlainShell::new(alloc))?;
    let program = program_of(alloc, text, 1)?;
    clicks_shown(alloc, &mut shell, &program, shown)
}

fn clicks_shown(
    alloc: Global,
    shell: &mut Box<dyn Component>,
    program: &Program,
    shown: &mut Text,
) -> Result<()>
    requires stock { IsStock program.now }
    requires table { length (table_columns program.now) ≡ 1 }
{
    load(shell, program)?;
    click_shown(alloc, shell, program, 10, shown)?;
    click_shown(alloc, shell, program, 11, shown)?;
    kept_and_cleared(alloc, shell, program, shown)
}

// The record of 1 and a number arrives.
fn click_shown(
    alloc: Global,
    shell: &mut Box<dyn Component>,
    given: &Program,
    id: i64,
    shown: &mut Text,
) -> Result<()>
    requires stock { IsStock given.now }
    requires loaded { program shell.old ≡ Some given.now }
    ensures loaded { program shell.new ≡ Some given.now }
    ensures kept { OnOk result (length (kept shell.new) ≡ length (table_columns given.now)) }
{
    let now = click(alloc, given, id)?;
    step_shown(alloc, shell, given, &now, shown)
}

/// A value in a box of its own.
pub(crate) fn boxed<T: Drop>(alloc: Global, value: T) -> Result<Box<T>, AllocError> {
    Ok(Box::new(alloc, value)?)
}

/// Loads a shell with a program for which it is one.
pub(crate) fn load(shell: &mut Box<dyn Component>, given: &Program) -> Result<()>
    requires { IsStock given.now }
    ensures { OnOk result (program shell.new ≡ Some given.now) }
{
    ensure!(shell.fits(given), "the shell isn't one for the program");
    Ok(shell.load(given)?)
}

/// Steps a shell that is loaded, and adds a line with what it puts out.
pub(crate) fn step_shown(
    alloc: Global,
    shell: &mut Box<dyn Component>,
    given: &Program,
    now: &Arrivals,
    shown: &mut Text,
) -> Result<()>
    requires loaded { program shell.old ≡ Some given.now }
    requires wide { AreSetsOf (port_columns given.now) now.now }
    ensures loaded { program shell.new ≡ Some given.now }
    ensures kept { OnOk result (length (kept shell.new) ≡ length (table_columns given.now)) }
{
    let mut outs = Outs::from_sets(Vec::new(alloc));
    shell.step(now, &mut outs)?;
    shown.add_sets("puts out", outs.sets());
    Ok(())
}

// Shows the one table of a loaded shell, clears the shell, and shows it again.
fn kept_and_cleared(
    alloc: Global,
    shell: &mut Box<dyn Component>,
    given: &Program,
    shown: &mut Text,
) -> Result<()>
    requires loaded { program shell.old ≡ Some given.now }
    requires table { length (table_columns given.now) ≡ 1 }
    requires kept { length (kept shell.old) ≡ 1 }
{
    show_table(alloc, shell, 0, shown)?;
    shell.clear();
    show_table(alloc, shell, 0, shown)
}

/// Adds a line with a table of a loaded shell.
pub(crate) fn show_table(
    alloc: Global,
    shell: &Box<dyn Component>,
    table: u32,
    shown: &mut Text,
) -> Result<()>
    requires loaded { IsSome (program shell.now) }
    requires table { table < length (kept shell.now) }
{
    let mut rows = RecordSet::new(alloc);
    shell.kept_rows(table, &mut rows)?;
    shown.add_line("keeps", rows.rows());
    Ok(())
}

/// Adds a line with the first table of a loaded shell.
pub fn show_kept(alloc: Global, shell: &Box<dyn Component>, shown: &mut Vec<u8>) -> Result<()>
    requires loaded { IsSome (program shell.now) }
    requires table { 0 < length (kept shell.now) }
{
    let mut line = Text::new(alloc);
    show_table(alloc, shell, 0, &mut line)?;
    let line = line.into_bytes()?;
    Ok(shown.extend_from_slice(&line)?)
}

// Latest with the columns `word` and `n` and the key `word`.
fn latest_program(alloc: Global) -> Result<Program, AllocError>
    ensures { IfOk result (λ program. program ≡ Latest (codes "word" ∷ codes "n" ∷ []) (0 ∷ [])) }
{
    let columns = Items::from_vec(latest_columns(alloc)?);
    let keys = Items::from_vec(vec![in alloc; 0]?);
    Ok(Program::Latest { columns, keys })
}

// The columns `word` and `n`.
fn latest_columns(alloc: Global) -> Result<Vec<Str>, AllocError>
    ensures { IfOk result (λ columns. columns.items ≡ codes "word" ∷ codes "n" ∷ []) }
{
    let word = Str::from_text(alloc, "word")?;
    let n = Str::from_text(alloc, "n")?;
    Ok(vec![in alloc; word, n]?)
}

// Number with the column `x`.
fn number_program(alloc: Global) -> Result<Program, AllocError>
    ensures { IfOk result (λ program. program ≡ Number (codes "x" ∷ [])) }
{
    let columns = vec![in alloc; Str::from_text(alloc, "x")?]?;
    Ok(Program::Number {
        columns: Items::from_vec(columns),
    })
}

fn text_value(alloc: Global, text: &str) -> Result<Value, AllocError> {
    Ok(Value::Text(Str::from_text(alloc, text)?))
}

/// A record of two values.
pub(crate) fn pair(alloc: Global, first: Value, second: i64) -> Result<Record, AllocError>
    ensures { IfOk result (λ row. length row ≡ 2) }
{
    Ok(Record::from_values(vec![in alloc; first, Value::Int(second)]?))
}

/// The record of two numbers, alone.
pub(crate) fn lone_pair(alloc: Global, first: i64, second: i64) -> Result<RecordSet>
    ensures { IfOk result (All (λ row. length row ≡ 2)) }
{
    let row = pair(alloc, Value::Int(first), second)?;
    Ok(RecordSet::from_rows(vec![in alloc; row]?)?)
}

// What arrives at the two ports of Latest.
fn puts_and_question(alloc: Global) -> Result<Arrivals>
    ensures { IfOk result (AreSetsOf (port_columns (Latest (codes "word" ∷ codes "n" ∷ []) (0 ∷ [])))) }
{
    let puts = puts(alloc)?;
    let asks = asks(alloc)?;
    Ok(Arrivals::from_sets(vec![in alloc; puts, asks]?))
}

// The record ("a"), alone.
fn asks(alloc: Global) -> Result<RecordSet>
    ensures { IfOk result (All (λ row. length row ≡ 1)) }
{
    let asked = asked(alloc)?;
    Ok(RecordSet::from_rows(vec![in alloc; asked]?)?)
}

// The record ("a").
fn asked(alloc: Global) -> Result<Record, AllocError>
    ensures { IfOk result (λ row. length row ≡ 1) }
{
    let word = text_value(alloc, "a")?;
    Ok(Record::from_values(vec![in alloc; word]?))
}

// The records ("a", 1) and ("a", 2).
fn puts(alloc: Global) -> Result<RecordSet>
    ensures { IfOk result (All (λ row. length row ≡ 2)) }
{
    let one = pair(alloc, text_value(alloc, "a")?, 1)?;
    let two = pair(alloc, text_value(alloc, "a")?, 2)?;
    Ok(RecordSet::from_rows(vec![in alloc; one, two]?)?)
}

// What arrives at the one port of Number.
fn seven(alloc: Global) -> Result<Arrivals>
    ensures { IfOk result (AreSetsOf (port_columns (Number (codes "x" ∷ [])))) }
{
    let row = Record::from_values(vec![in alloc; Value::Int(7)]?);
    let rows = RecordSet::from_rows(vec![in alloc; row]?)?;
    Ok(Arrivals::from_sets(vec![in alloc; rows]?))
}

// What arrives at the one port of a program.
#[tactic(auto, using(blz_boxes::proofs::Tables::one_port_wide))]
fn click(alloc: Global, program: &Program, id: i64) -> Result<Arrivals>
    requires { IsStock program.now }
    ensures { IfOk result (AreSetsOf (port_columns program.now)) }
{
    ensure!(program.port_count() == 1, "the module has one port");
    ensure!(program.port_width(0) == 2, "its port has two columns");
    let rows = lone_pair(alloc, 1, id)?;
    Ok(Arrivals::from_sets(vec![in alloc; rows]?))
}
