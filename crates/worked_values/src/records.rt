//! The record order, tests over records, and texts.
ghost use Rattle.blz_value.specs.Test.{TestFits};
ghost use Rattle.std.specs.Prelude.{◌≡◌, IfOk, length};

use crate::lines::Lines;
use blz_value::{
    Op, Operand, Record, Str, Test, Value, compare, holds, write_escaped, write_record, write_value,
};
use std::alloc::{AllocError, Global};

// A value, as it is written here.
#[derive(Clone, Copy)]
enum Cell {
    Number(i64),
    Text(&'static str),
}

fn value_of(alloc: Global, cell: Cell) -> Result<Value, AllocError> {
    match cell {
        Cell::Number(number) => Ok(Value::Int(number)),
        Cell::Text(text) => Ok(Value::Text(Str::from_text(alloc, text)?)),
    }
}

fn record_of(alloc: Global, cells: &[Cell]) -> Result<Record, AllocError> {
    let mut values = Vec::new(alloc);
    for cell in cells {
        values.push(value_of(alloc, *cell)?)?;
    }
    Ok(Record::from_values(values))
}

// Records in ascending order.
const ASCENDING: [&'static [Cell]; 11] = [
    &[],
    &[Cell::Number(-1)],
    &[Cell::Number(-1), Cell::Number(-7)],
    &[Cell::Number(2)],
    &[Cell::Number(10)],
    &[Cell::Text("")],
    &[Cell::Text("a")],
    &[Cell::Text("a"), Cell::Number(1)],
    &[Cell::Text("ab")],
    &[Cell::Text("z")],
    &[Cell::Text("\u{e9}")],
];

fn ascending(alloc: Global) -> Result<Vec<Record>, AllocError> {
    let mut rows = Vec::new(alloc);
    for cells in ASCENDING {
        rows.push(record_of(alloc, cells)?)?;
    }
    Ok(rows)
}

// How many of these stand against a record otherwise than their places against its own.
fn out_of_order(rows: &[Record], place: usize, row: &Record) -> u32 {
    let mut count = 0u32;
    for (other, beside) in rows.iter().enumerate() {
        if compare(row, beside) != place.cmp(&other) {
            count = count.saturating_add(1);
        }
    }
    count
}

fn show_row(lines: &mut Lines, row: &Record) -> Result<(), AllocError> {
    let alloc = lines.alloc();
    let copy = row.copy()?;
    let mut shown = Vec::new(alloc);
    write_record(&copy, &mut shown)?;
    lines.push("ascending", &shown)
}

fn show_order(lines: &mut Lines) -> Result<(), AllocError> {
    let rows = ascending(lines.alloc())?;
    for (place, row) in rows.iter().enumerate() {
        show_row(lines, row)?;
        lines.number("out of order", i64::from(out_of_order(&rows, place, row)))?;
    }
    Ok(())
}

fn compared(op: Op) -> Test
    ensures { TestFits result 1 }
{
    Test::Compare {
        left: Operand::Column(0),
        op,
        right: Operand::Literal(Value::Int(1)),
    }
}

// The record of a number alone.
fn single(alloc: Global, number: i64) -> Result<Record, AllocError>
    ensures { IfOk result (λ row. length row ≡ 1) }
{
    let mut values = Vec::new(alloc);
    values.push(Value::Int(number))?;
    Ok(Record::from_values(values))
}

// Whether the test holds of a number.
fn holds_of(alloc: Global, op: Op, number: i64) -> Result<bool, AllocError> {
    let row = single(alloc, number)?;
    Ok(holds(&compared(op), &row))
}

// Whether the test holds of 0, of 1 and of 2.
fn show_test(lines: &mut Lines, name: &str, op: Op) -> Result<(), AllocError> {
    for number in [0, 1, 2] {
        let is_so = holds_of(lines.alloc(), op, number)?;
        lines.test(name, is_so)?;
    }
    Ok(())
}

fn show_tests(lines: &mut Lines) -> Result<(), AllocError> {
    for (name, op) in [
        ("= 1", Op::Eq),
        ("!= 1", Op::Ne),
        ("< 1", Op::Lt),
        ("<= 1", Op::Le),
        ("> 1", Op::Gt),
        (">= 1", Op::Ge),
    ] {
        show_test(lines, name, op)?;
    }
    Ok(())
}

fn push_texts(row: &Record, into: &mut Vec<u8>) -> Result<(), AllocError> {
    write_record(row, into)?;
    write_value(&Value::Int(0), into)?;
    write_escaped("x\ty", into)
}

fn show_texts(lines: &mut Lines) -> Result<(), AllocError> {
    let odd = Cell::Text("a\"b\\c\n\u{1f}\u{7f}\u{e9}");
    let row = record_of(lines.alloc(), &[Cell::Number(i64::MIN), odd])?;
    let mut shown = Vec::new(lines.alloc());
    push_texts(&row, &mut shown)?;
    lines.push("escaped", &shown)
}

/// Shows records, tests and texts.
pub(crate) fn show(lines: &mut Lines) -> Result<(), AllocError> {
    show_order(lines)?;
    show_tests(lines)?;
    show_texts(lines)
}
