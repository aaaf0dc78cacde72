//! The lines of refusals.
ghost use Rattle.std.specs.Prelude.{◌≡◌, [], ◌∷◌, ◌++◌, IfOk, OnOk, map};
ghost use Rattle.report_lines.specs.Lines.{word_text, later_text};
ghost use Rattle.report_lines.specs.Refusals as spec;

use crate::line::Word::{Escaped, Names, Number, Numbered, Plain, Row};
use crate::line::{Word, push_each};
use crate::refusal::{EventKind, MakeKind, Refusal, ShardKind, WhyKind};
use bloom_forms::{ModuleFault, ModuleKind, ModulePlace};
use blz_value::Str;
use std::alloc::{AllocError, Global};
use topo_forms::{TopoFault, TopoKind, TopoPlace};

fn module_kind(kind: ModuleKind) -> &'static str
    ensures { result.now ≡ spec.module_kind kind }
{
    match kind {
        ModuleKind::TooMany => "TooMany",
        ModuleKind::Twice => "Twice",
        ModuleKind::Unknown => "Unknown",
        ModuleKind::Columns => "Columns",
        ModuleKind::Recursive => "Recursive",
        ModuleKind::MomentaryMix => "MomentaryMix",
        ModuleKind::MixedScratch => "MixedScratch",
    }
}

fn topology_kind(kind: TopoKind) -> &'static str
    ensures { result.now ≡ spec.topology_kind kind }
{
    match kind {
        TopoKind::TooMany => "TooMany",
        TopoKind::Twice => "Twice",
        TopoKind::Unknown => "Unknown",
        TopoKind::Columns => "Columns",
        TopoKind::ReplicaMismatch => "ReplicaMismatch",
        TopoKind::SealInCycle => "SealInCycle",
        TopoKind::Understated => "Understated",
    }
}

fn event_kind(kind: EventKind) -> &'static str
    ensures { result.now ≡ spec.event_kind kind }
{
    match kind {
        EventKind::NoInstance => "NoInstance",
        EventKind::NoMessage => "NoMessage",
        EventKind::NothingToTake => "NothingToTake",
        EventKind::TooManyRows => "TooManyRows",
        EventKind::TooManyMessages => "TooManyMessages",
    }
}

fn make_kind(kind: MakeKind) -> &'static str
    ensures { result.now ≡ spec.make_kind kind }
{
    match kind {
        MakeKind::TooManyEvents => "TooManyEvents",
        MakeKind::TooManyRows => "TooManyRows",
        MakeKind::TooManyMessages => "TooManyMessages",
    }
}

fn shard_kind(kind: ShardKind) -> &'static str
    ensures { result.now ≡ spec.shard_kind kind }
{
    match kind {
        ShardKind::NoComponent => "NoComponent",
        ShardKind::NoModule => "NoModule",
        ShardKind::InCycle => "InCycle",
        ShardKind::NoColumn => "NoColumn",
        ShardKind::NotInGate => "NotInGate",
        ShardKind::TooDeep => "TooDeep",
        ShardKind::Names => "Names",
    }
}

fn why_kind(kind: WhyKind) -> &'static str
    ensures { result.now ≡ spec.why_kind kind }
{
    match kind {
        WhyKind::TooManyEvents => "TooManyEvents",
        WhyKind::NoStream => "NoStream",
        WhyKind::NoRecord => "NoRecord",
    }
}

fn module_place(place: ModulePlace) -> Word<'static>
    ensures { word_text result ≡ spec.module_place place }
{
    match place {
        ModulePlace::Collection(number) => Numbered("collection", number),
        ModulePlace::Rule(number) => Numbered("rule", number),
    }
}

fn topology_place(place: TopoPlace) -> Word<'static>
    ensures { word_text result ≡ spec.topology_place place }
{
    match place {
        TopoPlace::Source(number) => Numbered("source", number),
        TopoPlace::Component(number) => Numbered("component", number),
        TopoPlace::Stream(number) => Numbered("stream", number),
        TopoPlace::Fd(number) => Numbered("fd", number),
    }
}

fn module_fault(fault: ModuleFault) -> [Word<'static>; 2]
    ensures { map word_text result ≡ spec.module_kind fault.kind ∷ spec.module_place fault.place ∷ [] }
{
    [Plain(module_kind(fault.kind)), module_place(fault.place)]
}

fn topology_fault(fault: TopoFault) -> [Word<'static>; 2]
    ensures { map word_text result ≡ spec.topology_kind fault.kind ∷ spec.topology_place fault.place ∷ [] }
{
    [
        Plain(topology_kind(fault.kind)),
        topology_place(fault.place),
    ]
}

// One name by itself, more as a set.
fn side(names: &[Str]) -> Word<'_>
    ensures { word_text result ≡ spec.side_text names.now }
{
    match names {
        [name] => Plain(name.as_str()),
        _ => Names(names),
    }
}

fn name(refusal: &Refusal) -> &'static str
    ensures { result.now ≡ (spec.refusal_row refusal.now).0 }
{
    match refusal {
        Refusal::TooLong { .. } => "TooLong",
        Refusal::NotToml => "NotToml",
        Refusal::Form { .. } => "Form",
        Refusal::ModuleText { .. } => "ModuleText",
        Refusal::Module { .. } => "Module",
        Refusal::Topology(_) => "Topology",
        Refusal::NotJson => "NotJson",
        Refusal::DataForm { .. } => "DataForm",
        Refusal::DataTooMany { .. } => "DataTooMany",
        Refusal::FdBroken { .. } => "FdBroken",
        Refusal::ScheduleText { .. } => "ScheduleText",
        Refusal::NoBody { .. } => "NoBody",
        Refusal::NoShell { .. } => "NoShell",
        Refusal::Event { .. } => "Event",
        Refusal::Make { .. } => "Make",
        Refusal::Shard(_) => "Shard",
        Refusal::SecondScheduleText { .. } => "SecondScheduleText",
        Refusal::SecondEvent { .. } => "SecondEvent",
        Refusal::Why(_) => "Why",
    }
}

// Each part behind the name, after a space.
fn push_parts(alloc: Global, refusal: &Refusal, text: &mut Vec<u8>) -> Result<(), AllocError>
    ensures { OnOk result (text.new.items ≡ text.old.items ++ later_text (spec.refusal_row refusal.now).1) }
{
    match refusal {
        Refusal::NotToml | Refusal::NotJson => Ok(()),
        Refusal::TooLong { file: name }
        | Refusal::Form { path: name }
        | Refusal::DataTooMany { name } => push_each(alloc, &[Escaped(name)], text),
        Refusal::ModuleText { file, line, column } => {
            let words = [Escaped(file), Number(*line), Number(*column)];
            push_each(alloc, &words, text)
        }
        Refusal::Module { file, fault } => {
            push_each(alloc, &[Escaped(file)], text)?;
            push_each(alloc, &module_fault(*fault), text)
        }
        Refusal::Topology(fault) => push_each(alloc, &topology_fault(*fault), text),
        Refusal::DataForm { name, row } => push_each(alloc, &[Escaped(name), Number(*row)], text),
        Refusal::FdBroken {
            from,
            to,
            first,
            second,
        } => {
            push_each(alloc, &[side(from.as_slice()), side(to.as_slice())], text)?;
            push_each(alloc, &[Row(first), Row(second)], text)
        }
        Refusal::ScheduleText { line } | Refusal::SecondScheduleText { line } => {
            push_each(alloc, &[Number(*line)], text)
        }
        Refusal::NoBody { component } | Refusal::NoShell { component } => {
            push_each(alloc, &[Plain(component.as_str())], text)
        }
        Refusal::Event { line, kind } | Refusal::SecondEvent { line, kind } => {
            push_each(alloc, &[Number(*line), Plain(event_kind(*kind))], text)
        }
        Refusal::Make { event, kind } => {
            push_each(alloc, &[Number(*event), Plain(make_kind(*kind))], text)
        }
        Refusal::Shard(kind) => push_each(alloc, &[Plain(shard_kind(*kind))], text),
        Refusal::Why(kind) => push_each(alloc, &[Plain(why_kind(*kind))], text),
    }
}

/// The line of a refusal.
pub fn refusal_text(alloc: Global, refusal: &Refusal) -> Result<Vec<u8>, AllocError>
    ensures { IfOk result (λ text. text.items ≡ spec.refusal_line refusal.now) }
{
    let mut text = Vec::from_slice(alloc, b"refused ")?;
    text.extend_from_slice(name(refusal).as_bytes())?;
    push_parts(alloc, refusal, &mut text)?;
    text.push(b'\n')?;
    Ok(text)
}
