//! The types of the calls that others make. Each is named here with exactly its own, so one that changes its form is
//! refused.

use bloom_ast::{CheckFault, Checked, Module, Program, check};
use bloom_eval::{Arrivals, Kept, Outs, StepFault, step_plain};
use bloom_index::IndexShell;
use bloom_parse::{ParseFault, Token, parse, tokens};
use blz_boxes::{LatestShell, NumberShell, PlainShell, SplitShell};
use blz_pool::{Id, Pool};
use blz_set::RecordSet;
use blz_value::{Record, Str};
use coord_synth::{order_plan, plan, seal_plan};
use data_read::{Data, DataFault, of_lists};
use fd_closure::{AttrNames, Attrs, Fd};
use inbox::{Inbox, Log, Message, Timesteps};
use label_rules::{Label, PathLabel, pass_path, reconcile, severity};
use label_walk::{Labels, labels};
use path_annotate::{Note, Notes, annotate, combine, covers, gate_of, roots};
use replay_run::Step;
use report_print::{Refusal, derive_text, label_text, refusal_text};
use sched_text::{Event, Schedule, ScheduleFault, read_line};
use shard_route::{ShardFault, Sharded, shard};
use std::alloc::{AllocError, Global};
use topo_read::{TopoTextFault, topology_of};
use topo_types::{Mode, Topology, Valid, ValidFault, carries, upholds, usable, validate};
use witness_check::{Difference, Snapshot};

// Of module texts, modules and their notes.
fn modules() {
    let _: fn(&Program) -> u32 = Program::port_count;
    let _: fn(&Program) -> u32 = Program::output_count;
    let _: fn(&Program) -> u32 = Program::table_count;
    let _: fn(&Program, u32) -> u32 = Program::port_width;
    let _: fn(&Program, u32) -> u32 = Program::output_width;
    let _: fn(Global, &Module) -> Result<Checked, CheckFault> = check;
    let _: fn(Global, &[u8]) -> Result<Module, ParseFault> = parse;
    let _: fn(Global, &Checked) -> Result<Vec<u8>, AllocError> = bloom_parse::print;
    let _: fn(Global, &[u8]) -> Result<Vec<Token>, ParseFault> = tokens;
    let _: fn(&Notes, u32, u32) -> Option<Note> = Notes::at;
    let _: fn(Global, &Program, &AttrNames) -> Result<Notes, AllocError> = annotate;
    let _: fn(Note, Note) -> Note = combine;
    let _: fn(Note, Note) -> bool = covers;
    let _: fn(Global, &Program, &AttrNames, u32) -> Result<Attrs, AllocError> = gate_of;
    let _: fn(Global, &Program, &AttrNames, u32) -> Result<Vec<Option<u8>>, AllocError> = roots;
}

// Of steps and shells.
fn shells() {
    let _: fn(Vec<RecordSet>) -> Arrivals = Arrivals::from_sets;
    let _: fn(Vec<RecordSet>) -> Kept = Kept::from_sets;
    let _: fn(Vec<RecordSet>) -> Outs = Outs::from_sets;
    let _: fn(Global, &Checked, &mut Kept, &Arrivals) -> Result<Outs, StepFault> = step_plain;
    let _: fn(Global) -> LatestShell = LatestShell::new;
    let _: fn(Global) -> NumberShell = NumberShell::new;
    let _: fn(Global) -> PlainShell = PlainShell::new;
    let _: fn(Global) -> SplitShell = SplitShell::new;
    let _: fn(&IndexShell) -> u32 = IndexShell::sides;
}

// Of what a valid topology is asked.
fn valid_topologies() {
    let _: fn(&Valid) -> u32 = Valid::stream_count;
    let _: fn(&Valid) -> u32 = Valid::source_count;
    let _: fn(&Valid, u32) -> Option<(u32, u32)> = Valid::origin;
    let _: fn(&Valid, u32) -> u32 = Valid::stream_width;
    let _: fn(&Valid, u32, u32) -> Option<u8> = Valid::stream_column;
    let _: fn(&Valid, u32) -> u32 = Valid::to_count;
    let _: fn(&Valid, u32, u32) -> (u32, u32) = Valid::to;
    let _: fn(&Valid, u32) -> u32 = Valid::stream_replicas;
    let _: fn(&Valid) -> u32 = Valid::component_count;
    let _: fn(&Valid, u32) -> u32 = Valid::replicas;
    let _: fn(&Valid, u32) -> u32 = Valid::port_count;
    let _: fn(&Valid, u32) -> u32 = Valid::output_count;
    let _: fn(&Valid, u32) -> Mode = Valid::mode;
    let _: fn(&Valid, u32, u32, u32) -> Option<Note> = Valid::note;
    let _: fn(&Valid, u32) -> u32 = Valid::region;
    let _: fn(&Valid, u32) -> bool = Valid::is_cyclic;
    let _: fn(&Valid, &Str) -> Option<u32> = Valid::find_stream;
    let _: fn(&Valid, &Str) -> Option<u32> = Valid::find_component;
    let _: fn(&Valid, u32, &Str) -> Option<u32> = Valid::find_port;
    let _: fn(&Valid) -> u32 = Valid::fd_count;
    let _: fn(&Valid, u32) -> Fd = Valid::fd;
    let _: fn(&Valid, u32) -> Option<Attrs> = carries;
    let _: fn(&Valid, u32, u32) -> bool = upholds;
    let _: fn(&Valid, u32, u32) -> bool = usable;
    let _: fn(Global, &Topology, &[Checked]) -> Result<Valid, ValidFault> = validate;
}

// Of the texts of topologies and of data.
fn files() {
    let _: fn(Global, &[u8]) -> Result<Topology, TopoTextFault> = topo_read::read;
    let _: fn(Global, &Valid) -> Result<Topology, AllocError> = topology_of;
    let _: fn(Global, &Topology) -> Result<Vec<u8>, AllocError> = topo_read::write;
    let _: fn(&Data) -> Result<Data, AllocError> = Data::copy;
    let _: fn(Global, &Valid, Vec<Vec<Record>>, Vec<Vec<Record>>) -> Result<Data, DataFault> =
        of_lists;
    let _: fn(Global, &[u8], &Valid) -> Result<Data, DataFault> = data_read::read;
}

// Of labels, plans and shards.
fn labels_and_plans() {
    let _: fn(Label, Note, Attrs, Mode, &[Fd]) -> PathLabel = pass_path;
    let _: fn(&[PathLabel], Mode, bool, &[Fd]) -> Label = reconcile;
    let _: fn(Label) -> u8 = severity;
    let _: fn(&Labels, u32) -> Label = Labels::of;
    let _: fn(Global, &Valid) -> Result<Labels, AllocError> = labels;
    let _: fn(Global, &Valid) -> Result<Valid, AllocError> = order_plan;
    let _: fn(Global, &Valid) -> Result<Valid, AllocError> = plan;
    let _: fn(Global, &Valid) -> Result<Valid, AllocError> = seal_plan;
    let _: fn(Global, &Topology, &[Checked], &Str, &Str, &[i64]) -> Result<Sharded, ShardFault> =
        shard;
}

// Of what an instance hears, and of logs.
fn instances() {
    let _: fn(Global, &Valid, u32, u32) -> Result<Inbox, AllocError> = Inbox::new;
    let _: fn(&mut Inbox) = Inbox::clear;
    let _: fn(&mut Inbox, &Pool, Vec<(u32, Message)>) -> Result<Timesteps, AllocError> =
        Inbox::hear;
    let _: fn(&Inbox) -> u64 = Inbox::held;
    let _: fn(Global) -> Log = Log::new;
    let _: fn(&Log) -> usize = Log::len;
    let _: fn(&Log, usize) -> Option<(u32, Id)> = Log::entry;
    let _: fn(&mut Log, u32, Id) -> Result<bool, AllocError> = Log::append;
}

// Of schedules, and of what is found by them.
fn schedules() {
    let _: fn(Vec<(u32, Event)>) -> Schedule = Schedule::from_lines;
    let _: fn(Global, &Schedule) -> Result<Vec<u8>, AllocError> = sched_text::print;
    let _: fn(Global, &[u8]) -> Result<Schedule, ScheduleFault> = sched_text::read;
    let _: fn(Global, &[u8]) -> Result<Option<Event>, ScheduleFault> = read_line;
    let _: fn(Global, &[u8]) -> Result<Vec<(u32, Step)>, ScheduleFault> = replay_run::read;
    let _: fn(&Snapshot, &Snapshot) -> Result<Option<Difference>, AllocError> =
        witness_check::compare;
}

// Of the texts of reports.
fn reports() {
    let _: fn(Global, &Valid, &Labels) -> Result<Vec<u8>, AllocError> = derive_text;
    let _: fn(Global, &Valid, &Labels) -> Result<Vec<u8>, AllocError> = label_text;
    let _: fn(Global, &Refusal) -> Result<Vec<u8>, AllocError> = refusal_text;
}

/// Names each call with its type.
pub(crate) fn name_all() {
    modules();
    shells();
    valid_topologies();
    files();
    labels_and_plans();
    instances();
    schedules();
    reports();
}
