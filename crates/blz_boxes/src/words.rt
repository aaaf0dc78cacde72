//! Words of texts, and what Split makes of a record.
ghost use Rattle.std.specs.Prelude.{◌≡◌, ◌<◌, ◌^◌, ◌==◌, ◌++◌, ◌∷◌, [], length, map, filter, not, pos, IfOk, OnOk};
ghost use Rattle.std.specs.List.{remove, flat_map, enumerate_from, position_from};
ghost use Rattle.blz_value.specs.declared.value.Value.TheVariants.{Int, Text};
ghost use Rattle.bloom_forms.specs.StockSteps.{is_space, words, split_row};
ghost use Rattle.blz_boxes.specs.Code.Texts.{texts};

use blz_value::{Record, Str, Value};
use std::alloc::{AllocError, Global};

fn is_space(byte: u8) -> bool
    ensures { result ≡ is_space byte }
{
    matches!(byte, b' ' | b'\t' | b'\n' | b'\r')
}

// The place of the first space in a text.
fn first_space(text: &str) -> Option<usize>
    ensures { result ≡ position_from is_space 0 text.now }
{
    text.as_bytes().iter().position(|byte| is_space(*byte))
}

// Adds a run of bytes to the words, unless it is empty.
fn push_word<'a>(found: &mut Vec<&'a str>, run: &'a str) -> Result<(), AllocError>
    ensures { OnOk result (texts found.new.items ≡ texts found.old.items ++ filter (λ part. not (length part == 0)) (run.now ∷ [])) }
{
    if !run.is_empty() {
        found.push(run)?;
    }
    Ok(())
}

// The words of a text: the longest runs of bytes that are no space.
#[tactic(auto, using(crate::proofs::Cuts::words_end))]
fn words_of<'a>(alloc: Global, text: &'a str) -> Result<Vec<&'a str>, AllocError>
    ensures { IfOk result (λ found. texts found.items ≡ words text.now) }
{
    let mut found = Vec::new(alloc);
    let mut rest = text;
    while let Some(end) = first_space(rest) {
        let (run, _) = rest.split_at(end);
        push_word(&mut found, run)?;
        let (_, tail) = rest.split_at(end + 1);
        rest = tail;
    }
    push_word(&mut found, rest)?;
    Ok(found)
}

// The values of a record without the split column.
fn other_values(alloc: Global, row: &Record, split: u32) -> Result<Vec<Value>, AllocError>
    ensures { IfOk result (λ values. values.items ≡ remove row.now split) }
{
    let mut values = Vec::new(alloc);
    for (column, value) in row.values().iter().enumerate() {
        if column != split as usize {
            values.push(value.copy()?)?;
        }
    }
    Ok(values)
}

// A record without the split column, followed by the number and the part.
fn row_of_part(
    alloc: Global,
    row: &Record,
    split: u32,
    number: usize,
    part: Value,
) -> Result<Record, AllocError>
    requires { number < 2 ^ 63 }
    ensures { IfOk result (λ made. made ≡ remove row.now split ++ Int (pos number) ∷ part ∷ []) }
{
    let mut values = other_values(alloc, row, split)?;
    values.push(Value::Int(number as i64))?;
    values.push(part)?;
    Ok(Record::from_values(values))
}

// Adds what Split makes of a record with these words in the split column.
#[tactic(auto, using(crate::proofs::Cuts::word_rows_more))]
fn push_words(
    alloc: Global,
    rows: &mut Vec<Record>,
    row: &Record,
    split: u32,
    found: &[&str],
) -> Result<(), AllocError>
    ensures { OnOk result (rows.new.items ≡ rows.old.items ++ map (λ word. remove row.now split ++ Int (pos word.0) ∷ Text word.1 ∷ []) (enumerate_from 1 (texts found.now))) }
{
    for (i, word) in found.iter().enumerate() {
        let part = Value::Text(Str::from_text(alloc, *word)?);
        rows.push(row_of_part(alloc, row, split, i + 1, part)?)?;
    }
    Ok(())
}

// Adds what Split makes of a record.
fn push_parts(
    alloc: Global,
    rows: &mut Vec<Record>,
    row: &Record,
    split: u32,
) -> Result<(), AllocError>
    ensures { OnOk result (rows.new.items ≡ rows.old.items ++ split_row split row.now) }
{
    let number = match row.values().get(split as usize) {
        Some(Value::Text(text)) => {
            let found = words_of(alloc, text.as_str())?;
            push_words(alloc, rows, row, split, &found)?;
            return Ok(());
        }
        Some(Value::Int(number)) => *number,
        None => 0,
    };
    rows.push(row_of_part(alloc, row, split, 1, Value::Int(number))?)?;
    Ok(())
}

/// What Split makes of records, in their order: one record for each word of the text in the split
/// column, or one for a number there. A column past the end of a record counts as the number 0.
pub(crate) fn split_rows(
    alloc: Global,
    arriving: &[Record],
    split: u32,
) -> Result<Vec<Record>, AllocError>
    ensures { IfOk result (λ rows. rows.items ≡ flat_map (split_row split) arriving.now) }
{
    let mut rows = Vec::new(alloc);
    for row in arriving {
        push_parts(alloc, &mut rows, row, split)?;
    }
    Ok(rows)
}
