//! The text of `why`.
ghost use Rattle.std.specs.Prelude.{◌≡◌, ◌<◌, ◌++◌, IfOk, OnOk, codes, length, true};
ghost use Rattle.std.specs.List.{AllPass, flat_map};
ghost use Rattle.sched_text.specs.Text.{event_text, is_printable};
ghost use Rattle.blazes_commands.specs.Finds.Code.Looked.{wanted_shown};
ghost use Rattle.blazes_commands.specs.Finds.WhyText as spec;

use crate::find_calls::finding::Wanted;
use report_lines::{Word, push_line};
use sched_text::{Event, Schedule, print};
use std::alloc::{AllocError, Global};
use topo_forms::Valid;
use why_trace::copy_of_event;

fn push_wanted<'a>(
    alloc: Global,
    valid: &'a Valid,
    wanted: &'a Wanted,
    text: &mut Vec<u8>,
) -> Result<(), AllocError>
    requires { wanted.now.stream < length valid.now.view.streams }
    ensures { OnOk result (text.new.items ≡ text.old.items ++ spec.wanted_line valid.now.view (wanted_shown wanted.now)) }
{
    let words = [
        Word::Plain("why"),
        Word::Plain(valid.stream_name(wanted.stream).as_str()),
        Word::Number(wanted.replica),
        Word::Row(&wanted.row),
    ];
    push_line(alloc, &words, text)
}

// The line of an event, as a schedule has it that has no other.
fn event_line(alloc: Global, event: &Event) -> Result<Vec<u8>, AllocError>
    requires { is_printable event.now ≡ true }
    ensures { IfOk result (λ line. line.items ≡ event_text event.now ++ codes "\n") }
{
    let mut alone = Vec::new(alloc);
    alone.push((1, copy_of_event(alloc, event)?))?;
    print(alloc, &Schedule::from_lines(alone))
}

fn push_reason(
    alloc: Global,
    number: u32,
    event: &Event,
    text: &mut Vec<u8>,
) -> Result<(), AllocError>
    requires { is_printable event.now ≡ true }
    ensures { OnOk result (text.new.items ≡ text.old.items ++ spec.reason_line (number, event.now)) }
{
    text.extend_from_slice(b"  ")?;
    text.extend_from_slice(number.to_string(alloc)?.as_bytes())?;
    text.extend_from_slice(b" ")?;
    text.extend_from_slice(&event_line(alloc, event)?)
}

fn push_reasons(
    alloc: Global,
    reasons: &[(u32, Event)],
    text: &mut Vec<u8>,
) -> Result<(), AllocError>
    requires { AllPass (λ reason. is_printable reason.1) reasons.now }
    ensures { OnOk result (text.new.items ≡ text.old.items ++ flat_map spec.reason_line reasons.now) }
{
    for (number, event) in reasons {
        push_reason(alloc, *number, event, text)?;
    }
    Ok(())
}

fn push_count(alloc: Global, reasons: &[(u32, Event)], text: &mut Vec<u8>) -> Result<(), AllocError>
    ensures { OnOk result (text.new.items ≡ text.old.items ++ spec.count_line reasons.now) }
{
    let words = [Word::Plain("events"), Word::Large(reasons.len() as u64)];
    push_line(alloc, &words, text)
}

/// The text of `why`: a record, and the events that it needs, each with the number of its line.
pub(crate) fn why_text(
    alloc: Global,
    valid: &Valid,
    wanted: &Wanted,
    reasons: &[(u32, Event)],
) -> Result<Vec<u8>, AllocError>
    requires stream { wanted.now.stream < length valid.now.view.streams }
    requires printable { AllPass (λ reason. is_printable reason.1) reasons.now }
    ensures { IfOk result (λ text. text.items ≡ spec.why_text valid.now.view (wanted_shown wanted.now) reasons.now) }
{
    let mut text = Vec::new(alloc);
    push_wanted(alloc, valid, wanted, &mut text)?;
    push_reasons(alloc, reasons, &mut text)?;
    push_count(alloc, reasons, &mut text)?;
    Ok(text)
}
