//! What each rule of a module reads, and its gate, told what each rule says by itself.
ghost use Rattle.std.specs.Prelude.{◌≡◌, map, IfOk};
ghost use Rattle.path_facts.specs.Readings as spec;

use crate::kinds::{gate_if, kind_set, set_if};
use bloom_forms::{Collection, Kind};
use blz_value::{Attrs, Fd, Items, closure};
use std::alloc::{AllocError, Global};

/// What a rule says by itself.
#[derive(Clone, Copy)]
pub struct RuleFacts {
    /// The number of its head.
    pub head: u32,
    /// The collections that stand in its body.
    pub named: Attrs,
    /// Whether no group and no antijoin stands in its body.
    pub is_plain: bool,
    /// The attributes in the set of each operator that stands in its body.
    pub gate: Attrs,
}

// Who reads a rule's head reads what its body names.
fn arrow(rule: &RuleFacts) -> Fd
    ensures { result ≡ spec.rule_arrow rule.now }
{
    Fd {
        from: Attrs::of(rule.head as usize),
        to: rule.named,
    }
}

// The same through some scratches alone: other heads lead to nothing.
fn arrow_through(scratches: Attrs, rule: &RuleFacts) -> Fd
    ensures { result ≡ spec.arrow_through scratches.bits rule.now }
{
    let from = Attrs::of(rule.head as usize);
    let to = if from.meets(scratches) {
        rule.named
    } else {
        Attrs::from_bits(0)
    };
    Fd { from, to }
}

fn arrows(alloc: Global, rules: &[RuleFacts]) -> Result<Vec<Fd>, AllocError>
    ensures { IfOk result (λ arrows. arrows.items ≡ map spec.rule_arrow rules.now) }
{
    rules.iter().map(|rule| arrow(rule)).collect(alloc)
}

fn scratch_arrows(
    alloc: Global,
    scratches: Attrs,
    rules: &[RuleFacts],
) -> Result<Vec<Fd>, AllocError>
    ensures { IfOk result (λ arrows. arrows.items ≡ map (spec.arrow_through scratches.bits) rules.now) }
{
    rules
        .iter()
        .map(|rule| arrow_through(scratches, rule))
        .collect(alloc)
}

// The scratches that have a rule with a group or an antijoin.
fn stopped(scratches: Attrs, rules: &[RuleFacts]) -> Attrs
    ensures { result.bits ≡ spec.stopped scratches.bits rules.now }
{
    let mut set = Attrs::from_bits(0);
    for rule in rules {
        let head = Attrs::of(rule.head as usize);
        let here = head.meets(scratches) && !rule.is_plain;
        set = set.union(set_if(here, rule.head as usize));
    }
    set
}

/// What the rules of a module say of its collections, by their numbers.
#[derive(Drop)]
pub struct Graph {
    /// Who reads a rule's head reads what its body names.
    pub arrows: Items<Fd>,
    /// The same through scratches alone.
    pub scratch_arrows: Items<Fd>,
    /// The inputs.
    pub inputs: Attrs,
    /// The tables.
    pub tables: Attrs,
    /// The scratches that have a rule with a group or an antijoin.
    pub stopped: Attrs,
}

fn graph_of(
    alloc: Global,
    collections: &[Collection],
    rules: &[RuleFacts],
) -> Result<Graph, AllocError>
    ensures { IfOk result (λ graph. graph ≡ spec.graph_of collections.now rules.now) }
{
    let scratches = kind_set(collections, Kind::Scratch);
    let all = arrows(alloc, rules)?;
    let through_scratches = scratch_arrows(alloc, scratches, rules)?;
    Ok(Graph {
        arrows: Items::from_vec(all),
        scratch_arrows: Items::from_vec(through_scratches),
        inputs: kind_set(collections, Kind::Input),
        tables: kind_set(collections, Kind::Table),
        stopped: stopped(scratches, rules),
    })
}

// The attributes that are in the gates of all rules whose heads are among some collections.
fn gate_among(all: Attrs, rules: &[RuleFacts], heads: Attrs) -> Attrs
    ensures { result.bits ≡ spec.gate_among all.bits heads.bits rules.now }
{
    let mut common = all;
    for rule in rules {
        let here = Attrs::of(rule.head as usize).meets(heads);
        common = common.intersection(gate_if(here, rule.gate, all));
    }
    common
}

/// What a rule reads, and its gate.
#[derive(Clone, Copy)]
pub struct Reading {
    /// The number of its head.
    pub head: u32,
    /// What it reads, directly or through scratches.
    pub direct: Attrs,
    /// The tables among these, and all that they read.
    pub behind: Attrs,
    /// Whether it reads an input.
    pub is_momentary: bool,
    /// Whether it and the scratches that it reads are free of groups and antijoins.
    pub is_free: bool,
    /// The gate of its body.
    pub gate: Attrs,
}

// What a rule reads, and its gate, where these are all rules.
fn rule_reading(graph: &Graph, all: Attrs, rules: &[RuleFacts], rule: &RuleFacts) -> Reading
    ensures { result ≡ spec.reading_from graph.now all.bits rules.now rule.now }
{
    let direct = closure(rule.named, graph.scratch_arrows.as_slice());
    let cone = closure(rule.named, graph.arrows.as_slice());
    let tables = graph.tables.intersection(direct);
    Reading {
        head: rule.head,
        direct,
        behind: closure(tables, graph.arrows.as_slice()),
        is_momentary: graph.inputs.meets(direct),
        is_free: rule.is_plain && !graph.stopped.meets(direct),
        gate: rule.gate.intersection(gate_among(all, rules, cone)),
    }
}

// What each of some rules reads, and its gate.
fn all_readings(
    alloc: Global,
    graph: &Graph,
    all: Attrs,
    rules: &[RuleFacts],
) -> Result<Vec<Reading>, AllocError>
    ensures { IfOk result (λ readings. readings.items ≡ map (spec.reading_from graph.now all.bits rules.now) rules.now) }
{
    rules
        .iter()
        .map(|rule| rule_reading(graph, all, rules, rule))
        .collect(alloc)
}

// The tables that have a rule which no good table has, whatever tables are good.
fn bad_tables(tables: Attrs, readings: &[Reading]) -> Attrs
    ensures { result.bits ≡ spec.bad_among tables.bits readings.now }
{
    let mut set = Attrs::from_bits(0);
    for reading in readings {
        let head = Attrs::of(reading.head as usize);
        let bad = if reading.is_momentary {
            tables.meets(reading.direct)
        } else {
            !reading.is_free
        };
        set = set.union(set_if(head.meets(tables) && bad, reading.head as usize));
    }
    set
}

/// What the rules of a module read, and which of its tables are bad.
#[derive(Drop)]
pub struct Readings {
    /// What each rule reads, in the order of the text.
    pub rules: Items<Reading>,
    /// The tables.
    pub tables: Attrs,
    /// The tables that have a rule which no good table has.
    pub bad: Attrs,
}

/// What all rules read, told what each says by itself.
pub fn readings_from(
    alloc: Global,
    collections: &[Collection],
    all: Attrs,
    facts: &[RuleFacts],
) -> Result<Readings, AllocError>
    ensures { IfOk result (λ readings. readings ≡ spec.readings_from collections.now all.bits facts.now) }
{
    let graph = graph_of(alloc, collections, facts)?;
    let rules = all_readings(alloc, &graph, all, facts)?;
    let bad = bad_tables(graph.tables, &rules);
    Ok(Readings {
        rules: Items::from_vec(rules),
        tables: graph.tables,
        bad,
    })
}
