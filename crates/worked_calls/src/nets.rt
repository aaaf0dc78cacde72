//! What is shown of a net: the schedule that it makes, how many records it keeps, and what was emitted.
ghost use Rattle.std.specs.Prelude.{◌<◌, OnOk, length, map};
ghost use Rattle.sched_net.specs.Net.{BooksRun};
ghost use Rattle.sched_run.specs.Making.{RunsFirst};
ghost use Rattle.topo_forms.specs.Data.{IsData};

use crate::benches::PoorShell;
use crate::inputs::{given_of, schedule_of, valid_of};
use crate::shells::boxed;
use crate::texts::Text;
use anyhow::{Result, ensure};
use blz_boxes::{Component, PlainShell, SplitShell};
use blz_outside::MemFiles;
use blz_value::Record;
use data_read::Data;
use inbox::Message;
use messages::MessageList;
use replay_run::{StepRefusal, run};
use sched_run::{Net, make};
use sched_text::{Event, print};
use std::alloc::Global;
use topo_types::Valid;

/// The schedule that is made of the seed 0 over a topology and data, as it is printed.
pub(crate) fn made_shown(
    alloc: Global,
    topology: &str,
    given: &str,
    files: &mut MemFiles,
) -> Result<Vec<u8>> {
    let valid = valid_of(alloc, topology, files)?;
    shown_over(alloc, &valid, given, files, "made", &[])
}

/// What is shown, by this word, of a net after the events of a schedule.
pub(crate) fn run_shown(
    alloc: Global,
    kind: &str,
    names: (&str, &str, &str),
    files: &mut MemFiles,
) -> Result<Vec<u8>> {
    let (topology, given, schedule) = names;
    let schedule = schedule_of(alloc, schedule, files)?;
    let valid = valid_of(alloc, topology, files)?;
    shown_over(alloc, &valid, given, files, kind, schedule.lines())
}

// The same of a topology and the data of a file, over shells of its own: one of Split and nine for modules, of
// which the first may be one that wants memory at each step.
fn shown_over(
    alloc: Global,
    valid: &Valid,
    given: &str,
    files: &mut MemFiles,
    kind: &str,
    lines: &[(u32, Event)],
) -> Result<Vec<u8>> {
    let mut bench: Vec<Box<dyn Component>> = Vec::new(alloc);
    for place in 0..10u8 {
        let pushed = match place {
            0 => bench.push(boxed(alloc, SplitShell::new(alloc))?),
            1 if kind == "poor" => {
                bench.push(boxed(alloc, PoorShell::new(PlainShell::new(alloc)))?)
            }
            _ => bench.push(boxed(alloc, PlainShell::new(alloc))?),
        };
        pushed?;
    }
    let given = given_of(alloc, valid, given, files)?;
    opened_shown(alloc, valid, given, &mut bench, kind, lines)
}

// The same over a bench.
fn opened_shown(
    alloc: Global,
    valid: &Valid,
    given: Data,
    bench: &mut Vec<Box<dyn Component>>,
    kind: &str,
    lines: &[(u32, Event)],
) -> Result<Vec<u8>>
    requires { IsData valid.now.view given }
{
    let mut net = Net::open(alloc, valid, given, bench)?;
    net_shown(alloc, &mut net, kind, lines)
}

// The same of a net to which no event was applied.
fn net_shown(
    alloc: Global,
    net: &mut Net<'_>,
    kind: &str,
    lines: &[(u32, Event)],
) -> Result<Vec<u8>>
    requires { RunsFirst net.old.valid.now.view (map (λ b. program (b.vtable, b.value)) net.old.shells.items) (map (λ b. kept (b.vtable, b.value)) net.old.shells.items) net.old.books }
{
    match kind {
        "made" => Ok(print(alloc, &make(net, 0)?)?),
        _ => ran_shown(alloc, net, kind, lines),
    }
}

// The same once some events were applied.
fn ran_shown(
    alloc: Global,
    net: &mut Net<'_>,
    kind: &str,
    lines: &[(u32, Event)],
) -> Result<Vec<u8>>
    requires { RunsFirst net.old.valid.now.view (map (λ b. program (b.vtable, b.value)) net.old.shells.items) (map (λ b. kept (b.vtable, b.value)) net.old.shells.items) net.old.books }
{
    match ran(net, lines) {
        Ok(()) => left_text(alloc, net, kind),
        Err(refusal) => refused_text(alloc, kind, refusal.line, net.is_ended()),
    }
}

// Applies events to a net.
fn ran(net: &mut Net<'_>, lines: &[(u32, Event)]) -> Result<(), StepRefusal>
    requires { RunsFirst net.old.valid.now.view (map (λ b. program (b.vtable, b.value)) net.old.shells.items) (map (λ b. kept (b.vtable, b.value)) net.old.shells.items) net.old.books }
    ensures { OnOk result (BooksRun net.new.valid.now.view net.new.books) }
{
    run(net, lines)
}

// The line of an event that is refused, and whether that ended the net.
fn refused_text(alloc: Global, kind: &str, line: u32, is_ended: bool) -> Result<Vec<u8>> {
    ensure!(kind != "emitted", "the event in line {line} can't happen");
    Ok(format!(in alloc; "refused {line}\nended {is_ended}\n")?.into_bytes())
}

// What a net was left with: the messages of all emitted lists, or how many records it keeps.
fn left_text(alloc: Global, net: &Net<'_>, kind: &str) -> Result<Vec<u8>>
    requires { BooksRun net.now.valid.now.view net.now.books }
{
    match kind {
        "emitted" => lists_text(alloc, net.valid(), net),
        _ => placed_text(alloc, net.placed(), net.pool().len(), net.is_ended()),
    }
}

// How many records a net keeps, and its pool has; and whether it is ended.
fn placed_text(alloc: Global, placed: usize, pool: usize, is_ended: bool) -> Result<Vec<u8>> {
    Ok(format!(in alloc; "placed {placed}\npool {pool}\nended {is_ended}\n")?.into_bytes())
}

// The messages of all emitted lists of a net of this topology.
fn lists_text(alloc: Global, valid: &Valid, net: &Net<'_>) -> Result<Vec<u8>>
    requires { BooksRun net.now.valid.now.view net.now.books }
{
    let mut shown = Text::new(alloc);
    for stream in 0..valid.stream_count() {
        stream_shown(alloc, valid, net, stream, &mut shown);
    }
    shown.into_bytes()
}

// Adds a line for each message that the replicas of a stream emitted.
fn stream_shown(alloc: Global, valid: &Valid, net: &Net<'_>, stream: u32, shown: &mut Text)
    requires runs { BooksRun net.now.valid.now.view net.now.books }
    requires stream { stream < length valid.now.view.streams }
{
    let name = valid.stream_name(stream);
    for replica in 0..valid.stream_replicas(stream) {
        list_shown(alloc, name.as_str(), net, stream, replica, shown);
    }
}

// Adds a line for each message of a list, and one where its length isn't the one that the net tells.
fn list_shown(alloc: Global, name: &str, net: &Net<'_>, stream: u32, replica: u32, shown: &mut Text)
    requires { BooksRun net.now.valid.now.view net.now.books }
{
    let count = list_of(net, stream, replica).len();
    if count != net.emitted(stream, replica) {
        shown.add(b"the net tells another length\n");
    }
    for index in 0..count {
        shown.add_text(format!(in alloc; "{name} {replica} {index} "));
        entry_shown(alloc, net, stream, replica, index, shown);
    }
}

// Adds the rest of the line of a message of a list.
fn entry_shown(
    alloc: Global,
    net: &Net<'_>,
    stream: u32,
    replica: u32,
    index: usize,
    shown: &mut Text,
)
    requires { BooksRun net.now.valid.now.view net.now.books }
{
    let messages = list_of(net, stream, replica);
    match messages.message(index) {
        Ok(Some(message)) => {
            message_shown(
                alloc,
                &message,
                record_at(net, stream, replica, index),
                shown,
            );
        }
        Ok(None) => {}
        Err(_) => shown.lose(),
    }
}

// An emitted list.
fn list_of<'n>(net: &'n Net<'_>, stream: u32, replica: u32) -> MessageList<'n>
    requires { BooksRun net.now.valid.now.view net.now.books }
{
    net.books().messages(net.valid(), stream, replica)
}

// The record at a place of an emitted list.
fn record_at<'n>(net: &'n Net<'_>, stream: u32, replica: u32, index: usize) -> Option<&'n Record>
    requires { BooksRun net.now.valid.now.view net.now.books }
{
    match u32::try_from(index) {
        Ok(index) => net.record_at(stream, replica, index),
        Err(_) => None,
    }
}

// Adds the rest of the line of a message, whose record is this.
fn message_shown(alloc: Global, message: &Message, row: Option<&Record>, shown: &mut Text) {
    match message {
        Message::Row(_) => {
            if let Some(row) = row {
                shown.add_record(row);
            }
        }
        Message::Seal { key, count } => {
            shown.add(b"seal ");
            shown.add_record(key);
            shown.add_text(format!(in alloc; " of {count}"));
        }
    }
    shown.add(b"\n");
}
