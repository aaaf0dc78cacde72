//! Sets of attributes, what dependencies add to them, and the places of names.
use crate::lines::Lines;
use blz_value::Str;
use fd_closure::{AttrNames, Attrs, Fd, NamesFault, closure, compatible};
use std::alloc::{AllocError, Global};

fn set(bits: u64) -> Attrs {
    Attrs::from_bits(bits)
}

// What holds of the sets of single attributes.
fn show_sets(lines: &mut Lines) -> Result<(), AllocError> {
    let ends = Attrs::of(0).union(Attrs::of(63));
    lines.test("the last attribute", ends.has(63))?;
    lines.test("one between", ends.has(1))?;
    lines.test("nothing", Attrs::of(64).is_empty())?;
    lines.test("a part", Attrs::of(63).is_within(ends))?;
    lines.test("no part", ends.is_within(Attrs::of(63)))?;
    lines.test("one in common", ends.meets(Attrs::of(63)))?;
    lines.test("none in common", ends.meets(Attrs::of(62)))?;
    let both = set(0b0110).intersection(set(0b0011));
    lines.test("what is in both", both == set(0b0010))
}

// A gate, pairs of sets that are dependencies, and a key.
type Gate = (&'static str, u64, &'static [(u64, u64)], u64);

const GATES: [Gate; 11] = [
    ("no dependency", 0b001, &[], 0b001),
    ("no dependency, a longer key", 0b001, &[], 0b011),
    ("an empty key", 0b001, &[], 0),
    ("an empty key at an empty gate", 0, &[(0b01, 0b10)], 0),
    (
        "a chain in the order of the file",
        0b0001,
        &[(0b0001, 0b0010), (0b0010, 0b0100), (0b0100, 0b1000)],
        0b1000,
    ),
    (
        "a chain against it",
        0b0001,
        &[(0b0100, 0b1000), (0b0010, 0b0100), (0b0001, 0b0010)],
        0b1010,
    ),
    ("no way back", 0b10, &[(0b01, 0b10)], 0b01),
    (
        "one of two that are needed",
        0b001,
        &[(0b011, 0b100)],
        0b100,
    ),
    ("both that are needed", 0b011, &[(0b011, 0b100)], 0b100),
    (
        "one of two that another gives",
        0b0001,
        &[(0b0011, 0b1100), (0b0001, 0b0010)],
        0b1100,
    ),
    ("the last attribute", 1, &[(1, 1 << 63)], 1 << 63),
];

// Whether the key of a gate is compatible, and how many attributes the gate leads to.
fn show_gate(lines: &mut Lines, gate: Gate) -> Result<(), AllocError> {
    let (name, from, pairs, key) = gate;
    let mut fds = Vec::new(lines.alloc());
    for (from, to) in pairs {
        fds.push(Fd {
            from: set(*from),
            to: set(*to),
        })?;
    }
    let reached = closure(set(from), &fds).bits();
    lines.number(name, i64::from(reached.count_ones()))?;
    lines.test(name, compatible(set(from), set(key), &fds))
}

fn column(alloc: Global, number: usize) -> Result<Str, AllocError> {
    let text = format!(in alloc; "column{number}")?;
    Str::from_text(alloc, &text)
}

// The place that a name gets.
fn show_added(lines: &mut Lines, names: &mut AttrNames, number: usize) -> Result<(), AllocError> {
    match names.add(&column(lines.alloc(), number)?) {
        Ok(place) => lines.number("added at", i64::from(place)),
        Err(NamesFault::Full) => lines.push("added", b"no, there are 64"),
        Err(NamesFault::NoMemory) => Err(AllocError),
    }
}

// The place of a name.
fn show_found(lines: &mut Lines, names: &AttrNames, number: usize) -> Result<(), AllocError> {
    match names.find(&column(lines.alloc(), number)?) {
        Some(place) => lines.number("found at", i64::from(place)),
        None => lines.push("found", b"no"),
    }
}

fn show_names(lines: &mut Lines) -> Result<(), AllocError> {
    let mut names = AttrNames::new(lines.alloc());
    show_found(lines, &names, 0)?;
    for number in 0..64 {
        show_added(lines, &mut names, number)?;
    }
    for number in [64, 7] {
        show_added(lines, &mut names, number)?;
    }
    for number in [63, 64] {
        show_found(lines, &names, number)?;
    }
    lines.count("names", names.names().len())
}

/// Shows sets, gates and names.
pub(crate) fn show(lines: &mut Lines) -> Result<(), AllocError> {
    show_sets(lines)?;
    for gate in GATES {
        show_gate(lines, gate)?;
    }
    show_names(lines)
}
