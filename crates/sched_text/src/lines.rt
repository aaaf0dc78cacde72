//! The lines of a text, read one after another.
ghost use Rattle.std.specs.Prelude.{◌≡◌, ◌∷◌, ◌≤◌, [], ℕ, List, length, drop, not, MatchOption};
ghost use Rattle.std.specs.List.{prefix_len};
ghost use Rattle.sched_text.specs.Lines as spec;
ghost use Rattle.sched_text.specs.Reading.{LineReading, GivesEntries};
ghost use Rattle.sched_text.specs.Given.{GivesLine};

use crate::fault::{LineFault, ScheduleFault};
use memchr::memchr;
use std::alloc::Global;
use std::marker::Model;

const MAX_LINES: u32 = 1_000_000;

// How many bytes stand before the first LF.
fn line_size(text: &[u8]) -> usize
    ensures value { result ≡ prefix_len (λ byte. not (spec.is_line_feed byte)) text.now }
    ensures within { result ≤ length text.now }
{
    match memchr(b'\n', text) {
        Some(size) => size,
        None => text.len(),
    }
}

// What is left of a text behind its first byte.
fn behind_first(text: &[u8]) -> &[u8]
    ensures { result.now ≡ drop 1 text.now }
{
    match text {
        [_, behind @ ..] => behind,
        [] => text,
    }
}

// What is left of the lines of a text, seen as the list of these lines, each without its LF.
#[derive(Drop)]
struct Lines<'a> {
    rest: &'a [u8],
}

impl<'a> Model for Lines<'a> {
    ghost use Rattle.std.specs.Prelude.{List};
    ghost use Rattle.sched_text.specs.Lines.{Line, lines_of};

    ghost Value = { List Line };

    ghost view = { λ lines. lines_of lines.rest.now };
}

impl<'a> Lines<'a> {
    // The lines of a text.
    fn of_text(text: &'a [u8]) -> Lines<'a>
        ensures { result ≡ spec.lines_of text.now }
    {
        Lines { rest: text }
    }

    // Takes the first line, None where there is none.
    fn next_line(&mut self) -> Option<&'a [u8]>
        ensures { MatchOption result ((self.old ≡ []) × (self.new ≡ [])) (λ line. self.old ≡ line.now ∷ self.new) }
    {
        if self.rest.is_empty() {
            return None;
        }
        let (line, rest) = self.rest.split_at(line_size(self.rest));
        self.rest = behind_first(rest);
        Some(line)
    }
}

/// What a line of a text may stand for.
pub trait FromLine: Drop + Sized {
    ghost reading: { List ℕ → LineReading Self };

    /// Reads a line that has no LF: None where it is passed over.
    fn from_line(alloc: Global, line: &[u8]) -> Result<Option<Self>, LineFault>
        ensures { GivesLine result (reading line.now) };
}

/// What the lines of a text stand for, each with its number, counted from 1. A line goes on to an LF,
/// in front of which a CR is no part of it, or to the end of the text. The fault names the first line that stands for nothing
/// and isn't passed over, as each line past the 1,000,000th. One pass, without a copy of the text.
pub fn read_lines<T: FromLine>(alloc: Global, text: &[u8]) -> Result<Vec<(u32, T)>, ScheduleFault>
    ensures { GivesEntries (λ entries. entries.items) T.reading text.now result }
{
    let mut entries = Vec::new(alloc);
    let mut lines = Lines::of_text(text);
    let mut number = 0;
    while let Some(line) = lines.next_line() {
        number += 1;
        if number > MAX_LINES {
            return Err(ScheduleFault::Text { line: number });
        }
        match T::from_line(alloc, line) {
            Ok(Some(entry)) => entries.push((number, entry))?,
            Ok(None) => {}
            Err(fault) => return Err(fault.at(number)),
        }
    }
    Ok(entries)
}
