//! The operators of record sets, and sets of as many rows as there may be.
ghost use Rattle.std.specs.Prelude.{◌≡◌, All, IfOk, Ok, length};

use crate::lines::Lines;
use blz_set::{RecordSet, SetFault};
use blz_value::{Agg, Op, Operand, Record, Str, Test, Value, write_record};
use std::alloc::{AllocError, Global};

/// The row of a number alone.
pub(crate) fn single(alloc: Global, number: i64) -> Result<Record, AllocError> {
    let mut values = Vec::new(alloc);
    values.push(Value::Int(number))?;
    Ok(Record::from_values(values))
}

// The row of a number and a text.
fn pair(alloc: Global, number: i64, text: &str) -> Result<Record, AllocError>
    ensures { IfOk result (λ row. length row ≡ 2) }
{
    let text = Str::from_text(alloc, text)?;
    let mut values = Vec::new(alloc);
    values.push(Value::Int(number))?;
    values.push(Value::Text(text))?;
    Ok(Record::from_values(values))
}

// What an operator gave; of these sets none has too many rows.
fn made(answer: Result<RecordSet, SetFault>) -> Result<RecordSet, AllocError>
    ensures { IfOk result (λ set. answer ≡ Ok set) }
{
    match answer {
        Ok(set) => Ok(set),
        Err(_) => Err(AllocError),
    }
}

// The rows (1, "x"), (2, "y") and (2, "z").
fn pairs(alloc: Global) -> Result<RecordSet, SetFault>
    ensures { IfOk result (All (λ row. length row ≡ 2)) }
{
    let mut rows = Vec::new(alloc);
    for (number, text) in [(2, "z"), (1, "x"), (2, "y"), (2, "z")] {
        rows.push(pair(alloc, number, text)?)?;
    }
    Ok(RecordSet::from_rows(rows)?)
}

// The numbers from one up to the other.
fn numbers(alloc: Global, first: i64, last: i64) -> Result<RecordSet, AllocError> {
    let mut rows = Vec::new(alloc);
    for number in first..=last {
        rows.push(single(alloc, number)?)?;
    }
    made(RecordSet::from_rows(rows))
}

// An operator of record sets, beside its columns.
#[derive(Clone, Copy)]
enum Operator {
    Select,
    Project,
    Join,
    Antijoin,
    Count,
    Min,
    Max,
    Sum,
    AtLeast(u64),
}

const OPERATORS: [(&'static str, Operator); 9] = [
    ("select", Operator::Select),
    ("project", Operator::Project),
    ("join", Operator::Join),
    ("antijoin", Operator::Antijoin),
    ("count", Operator::Count),
    ("min", Operator::Min),
    ("max", Operator::Max),
    ("sum", Operator::Sum),
    ("at least", Operator::AtLeast(2)),
];

// The rows whose number is greater than 1.
fn over_one(rows: &RecordSet) -> Result<RecordSet, SetFault>
    requires { All (λ row. length row ≡ 2) rows.now }
{
    rows.select(&Test::Compare {
        left: Operand::Column(0),
        op: Op::Gt,
        right: Operand::Literal(Value::Int(1)),
    })
}

// What an operator gives of pairs and, where it takes two sets, of numbers.
fn given(operator: Operator, pairs: &RecordSet, numbers: &RecordSet) -> Result<RecordSet, SetFault>
    requires { All (λ row. length row ≡ 2) pairs.now }
{
    match operator {
        Operator::Select => over_one(pairs),
        Operator::Project => pairs.project(&[0]),
        Operator::Join => pairs.join(numbers, &[(0, 0)]),
        Operator::Antijoin => pairs.antijoin(numbers, &[(0, 0)]),
        Operator::Count => pairs.group(&[0], Agg::Count),
        Operator::Min => pairs.group(&[0], Agg::Min(1)),
        Operator::Max => pairs.group(&[0], Agg::Max(1)),
        Operator::Sum => pairs.group(&[], Agg::Sum(0)),
        Operator::AtLeast(bound) => pairs.at_least(&[0], bound),
    }
}

// The rows of a set, one behind the other.
fn show_rows(lines: &mut Lines, name: &str, set: &RecordSet) -> Result<(), AllocError> {
    let mut shown = Vec::new(lines.alloc());
    for row in set.rows() {
        write_record(row, &mut shown)?;
    }
    lines.push(name, &shown)
}

fn show_operator(
    lines: &mut Lines,
    name: &str,
    operator: Operator,
    pairs: &RecordSet,
) -> Result<(), AllocError>
    requires { All (λ row. length row ≡ 2) pairs.now }
{
    let one = numbers(lines.alloc(), 1, 1)?;
    let set = made(given(operator, pairs, &one))?;
    show_rows(lines, name, &set)
}

fn show_operators(lines: &mut Lines) -> Result<(), AllocError> {
    let pairs = made(pairs(lines.alloc()))?;
    for (name, operator) in OPERATORS {
        show_operator(lines, name, operator, &pairs)?;
    }
    Ok(())
}

fn show_operators_of_nothing(lines: &mut Lines) -> Result<(), AllocError> {
    let nothing = RecordSet::new(lines.alloc());
    for (name, operator) in OPERATORS {
        show_operator(lines, name, operator, &nothing)?;
    }
    show_operator(lines, "at least none", Operator::AtLeast(0), &nothing)
}

fn two_numbers(alloc: Global, first: i64, second: i64) -> Result<RecordSet, AllocError> {
    let mut rows = Vec::new(alloc);
    for number in [first, second] {
        rows.push(single(alloc, number)?)?;
    }
    made(RecordSet::from_rows(rows))
}

// The sum of two numbers, which moves to the nearest number that there is.
fn show_sum(lines: &mut Lines, first: i64, second: i64) -> Result<(), AllocError> {
    let set = two_numbers(lines.alloc(), first, second)?;
    let sum = made(set.group(&[], Agg::Sum(0)))?;
    show_rows(lines, "sum", &sum)
}

fn show_sums(lines: &mut Lines) -> Result<(), AllocError> {
    for (first, second) in [(1, i64::MAX), (-1, i64::MIN), (-1, i64::MAX)] {
        show_sum(lines, first, second)?;
    }
    Ok(())
}

// Whether the row of a number is new to a set that it comes to.
fn show_insert(lines: &mut Lines, set: &mut RecordSet, number: i64) -> Result<(), AllocError> {
    let shown: &[u8] = match set.insert(single(lines.alloc(), number)?) {
        Ok(true) => b"new",
        Ok(false) => b"known",
        Err(SetFault::TooManyRows) => b"too many rows",
        Err(SetFault::NoMemory) => return Err(AllocError),
    };
    lines.push("insert", shown)
}

// Whether there was room for rows that came to a set.
fn room_text(outcome: Result<(), SetFault>) -> Result<&'static [u8], AllocError> {
    let text: &[u8] = match outcome {
        Ok(()) => b"done",
        Err(SetFault::TooManyRows) => b"too many rows",
        Err(SetFault::NoMemory) => return Err(AllocError),
    };
    Ok(text)
}

// The numbers from one up to the other come to a set.
fn show_union(
    lines: &mut Lines,
    set: &mut RecordSet,
    first: i64,
    last: i64,
) -> Result<(), AllocError> {
    let others = numbers(lines.alloc(), first, last)?;
    let shown = room_text(set.union_in(&others))?;
    lines.push("union", shown)
}

// A set takes the numbers from one up to the other over.
fn show_take(
    lines: &mut Lines,
    set: &mut RecordSet,
    first: i64,
    last: i64,
) -> Result<(), AllocError> {
    let others = numbers(lines.alloc(), first, last)?;
    let shown = room_text(set.take_in(others))?;
    lines.push("take", shown)
}

fn show_contains(lines: &mut Lines, set: &RecordSet, number: i64) -> Result<(), AllocError> {
    let row = single(lines.alloc(), number)?;
    lines.test("contains", set.contains(&row))
}

fn show_at(lines: &mut Lines, set: &RecordSet, index: usize) -> Result<(), AllocError> {
    let mut shown = Vec::new(lines.alloc());
    if let Some(row) = set.at(index) {
        write_record(row, &mut shown)?;
    }
    lines.push("at", &shown)
}

// What is done with a set, and shown.
#[derive(Clone, Copy)]
enum Step {
    Insert(i64),
    Contains(i64),
    At(usize),
    Union(i64, i64),
    Take(i64, i64),
    Count,
    Copy,
}

// A set holds each row once.
const FEW: [Step; 9] = [
    Step::Insert(2),
    Step::Insert(0),
    Step::Contains(0),
    Step::Contains(4),
    Step::At(3),
    Step::At(4),
    Step::Union(2, 4),
    Step::Union(3, 6),
    Step::Copy,
];

// A set to which few rows come: one goes before its own, and one behind them; and then two, of which it
// has one.
const MANY: [Step; 8] = [
    Step::Union(0, 41),
    Step::Count,
    Step::At(0),
    Step::At(1),
    Step::At(41),
    Step::Take(41, 42),
    Step::Count,
    Step::At(42),
];

// A set of as many rows as there may be.
const FULL: [Step; 13] = [
    Step::Insert(0),
    Step::Contains(0),
    Step::Insert(262_145),
    Step::Contains(262_145),
    Step::Insert(262_144),
    Step::Contains(262_144),
    Step::Union(0, 9),
    Step::Union(1, 9),
    Step::Take(0, 9),
    Step::Take(1, 9),
    Step::Count,
    Step::At(0),
    Step::At(262_143),
];

fn show_copy(lines: &mut Lines, set: &RecordSet) -> Result<(), AllocError> {
    let copy = set.copy()?;
    show_rows(lines, "copy", &copy)
}

fn show_step(lines: &mut Lines, set: &mut RecordSet, step: Step) -> Result<(), AllocError> {
    match step {
        Step::Insert(number) => show_insert(lines, set, number),
        Step::Contains(number) => show_contains(lines, set, number),
        Step::At(index) => show_at(lines, set, index),
        Step::Union(first, last) => show_union(lines, set, first, last),
        Step::Take(first, last) => show_take(lines, set, first, last),
        Step::Count => lines.count("rows", set.len()),
        Step::Copy => show_copy(lines, set),
    }
}

// What is done with the numbers from 1 on.
fn show_steps(lines: &mut Lines, last: i64, steps: &[Step]) -> Result<(), AllocError> {
    let mut set = numbers(lines.alloc(), 1, last)?;
    for step in steps {
        show_step(lines, &mut set, *step)?;
    }
    Ok(())
}

// How many pairs so many rows have.
fn show_pairs(lines: &mut Lines, count: i64) -> Result<(), AllocError> {
    let rows = numbers(lines.alloc(), 1, count)?;
    match rows.join(&rows, &[]) {
        Ok(joined) => lines.count("join", joined.len()),
        Err(SetFault::TooManyRows) => lines.push("join", b"too many rows"),
        Err(SetFault::NoMemory) => Err(AllocError),
    }
}

/// Shows operators and full sets.
pub(crate) fn show(lines: &mut Lines) -> Result<(), AllocError> {
    show_operators(lines)?;
    show_operators_of_nothing(lines)?;
    show_sums(lines)?;
    show_steps(lines, 3, &FEW)?;
    show_steps(lines, 40, &MANY)?;
    show_steps(lines, 262_144, &FULL)?;
    show_pairs(lines, 512)?;
    show_pairs(lines, 513)
}
