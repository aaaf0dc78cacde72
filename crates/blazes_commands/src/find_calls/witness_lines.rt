//! The text of `witness`.
ghost use Rattle.std.specs.Prelude.{◌≡◌, ◌<◌, ◌++◌, IfOk, OnOk};
ghost use Rattle.witness_check.specs.Difference.{AreAlike, difference};
ghost use Rattle.blazes_commands.specs.Finds.Code.Seen.{IsWithin, seen_text};
ghost use Rattle.blazes_commands.specs.Finds.WitnessText as spec;

use crate::find_calls::seeing::Seen;
use report_lines::{Word, push_line};
use std::alloc::{AllocError, Global};
use topo_forms::Valid;
use witness_check::{Difference, Which, compare};

fn which_word(which: &Which) -> &'static str
    ensures { result.now ≡ spec.which_word which.now }
{
    match which {
        Which::First => "first",
        Which::Second => "second",
    }
}

fn push_difference<'a>(
    alloc: Global,
    valid: &'a Valid,
    difference: &'a Option<Difference>,
    text: &mut Vec<u8>,
) -> Result<(), AllocError>
    requires { IsWithin valid.now.view difference.now }
    ensures { OnOk result (text.new.items ≡ text.old.items ++ spec.difference_line valid.now.view difference.now) }
{
    match difference {
        None => push_line(alloc, &[Word::Plain("same")], text),
        Some(found) => {
            let words = [
                Word::Plain("differ"),
                Word::Plain(valid.stream_name(found.stream).as_str()),
                Word::Number(found.replica),
                Word::Plain(which_word(&found.held_by)),
                Word::Row(&found.row),
            ];
            push_line(alloc, &words, text)
        }
    }
}

fn complete_word(complete: bool) -> &'static str
    ensures { result.now ≡ spec.complete_word complete }
{
    if complete { "complete" } else { "incomplete" }
}

fn push_end(
    alloc: Global,
    which: &Which,
    complete: bool,
    text: &mut Vec<u8>,
) -> Result<(), AllocError>
    ensures { OnOk result (text.new.items ≡ text.old.items ++ spec.end_line which.now complete) }
{
    let words = [
        Word::Plain(which_word(which)),
        Word::Plain(complete_word(complete)),
    ];
    push_line(alloc, &words, text)
}

/// The text of `witness`: the first difference between what was taken of two executions, if any, and
/// whether each is complete.
pub(crate) fn witness_text(
    alloc: Global,
    valid: &Valid,
    first: &Seen,
    second: &Seen,
) -> Result<Vec<u8>, AllocError>
    requires alike { AreAlike first.now.contents second.now.contents }
    requires within { IsWithin valid.now.view (difference first.now.contents second.now.contents) }
    ensures { IfOk result (λ text. text.items ≡ seen_text valid.now.view first.now second.now) }
{
    let difference = compare(&first.contents, &second.contents)?;
    let mut text = Vec::new(alloc);
    push_difference(alloc, valid, &difference, &mut text)?;
    push_end(alloc, &Which::First, first.complete, &mut text)?;
    push_end(alloc, &Which::Second, second.complete, &mut text)?;
    Ok(text)
}
