//! What the rules of an output make of a port.
ghost use Rattle.std.specs.Prelude.{◌≡◌};
ghost use Rattle.path_annotate.specs.Code.ReadingUses as spec_from;
ghost use Rattle.path_annotate.specs.Code.ReadingUses.{use_from, path_note_from, gate_towards};
ghost use Rattle.bloom_forms.specs.Uses as spec;

use bloom_forms::{Note, combine};
use blz_value::Attrs;
use path_facts::{Reading, Readings, gate_if};

// Two uses of one port, of which each may be missing.
fn both_uses(a: Option<Note>, b: Option<Note>) -> Option<Note>
    ensures { result ≡ spec.both_uses a b }
{
    match (a, b) {
        (None, b) => b,
        (Some(a), None) => Some(a),
        (Some(a), Some(b)) => Some(combine(a, b)),
    }
}

// A use where the test holds.
fn use_if(holds: bool, note: Note) -> Option<Note>
    ensures { result ≡ spec.use_if holds note }
{
    if holds { Some(note) } else { None }
}

// W, and C where the test holds, else O with the gate.
fn writes(confluent: bool, gate: Attrs) -> Note
    ensures { result ≡ spec.writes confluent gate.bits }
{
    if confluent { Note::CW } else { Note::OW(gate) }
}

// What a rule gives to a port.
fn use_of(rules: &Readings, rule: &Reading, port: Attrs) -> Option<Note>
    ensures { result ≡ use_from rules.now rule.now port.bits }
{
    let is_read = port.meets(rule.direct);
    let feeds = port.meets(rule.behind);
    let are_good = !rules.bad.meets(rule.behind);
    if !rule.is_momentary {
        use_if(feeds, writes(rule.is_free && are_good, rule.gate))
    } else if rules.tables.meets(rule.direct) {
        both_uses(
            use_if(is_read, Note::OR(rule.gate)),
            use_if(feeds, writes(are_good, rule.gate)),
        )
    } else {
        use_if(is_read, Note::CR)
    }
}

// What a rule gives to a port towards an output.
fn use_towards(rules: &Readings, port: u32, output: u32, rule: &Reading) -> Option<Note>
    ensures { result ≡ spec_from.use_towards rules.now port output rule.now }
{
    if rule.head == output {
        use_of(rules, rule, Attrs::of(port as usize))
    } else {
        None
    }
}

/// The note of a path from the collection of a port to that of an output: what all rules of the
/// output give to the port.
pub(crate) fn path_note(rules: &Readings, port: u32, output: u32) -> Option<Note>
    ensures { result ≡ path_note_from rules.now port output }
{
    let mut note = None;
    let all = rules.rules.as_slice();
    for rule in all {
        note = both_uses(note, use_towards(rules, port, output, rule));
    }
    note
}

/// The gate of an output, by the number of its collection.
pub(crate) fn output_gate(all: Attrs, rules: &[Reading], output: u32) -> Attrs
    ensures { result.bits ≡ gate_towards all.bits output rules.now }
{
    let mut gate = all;
    for rule in rules {
        let here = rule.head == output;
        gate = gate.intersection(gate_if(here, rule.gate, all));
    }
    gate
}
