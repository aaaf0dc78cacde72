//! The fields of a line, taken from the front one after another.
ghost use Rattle.std.specs.Prelude.{◌≡◌, ◌∷◌, ◌↔◌, ◌≤◌, ◌<◌, [], Some, Option, length, take, drop, not, option_map, IsTrue, MatchOption, IfSome};
ghost use Rattle.std.specs.List.{list_all, prefix_len, position_or_len, before_first, after_first};
ghost use Rattle.std.specs.Str.{bytes_eq};
ghost use Rattle.sched_text.specs.Fields as spec;
ghost use Rattle.sched_text.specs.Lines.{without_return};
ghost use Rattle.sched_text.specs.Kinds.{name_at, number_at, spot_at, word_at, is_empty};
ghost use Rattle.sched_text.specs.Given.{TakesFront};

use crate::fault::LineFault;
use blz_value::{Str, is_name};
use std::alloc::Global;
use std::marker::Model;

fn is_blank(byte: u8) -> bool
    ensures { result ≡ spec.is_blank byte }
{
    matches!(byte, b' ' | b'\t')
}

fn is_all_blank(text: &[u8]) -> bool
    ensures { result ≡ list_all spec.is_blank text.now }
{
    text.iter().all(|byte| is_blank(*byte))
}

// How many blanks a text begins with.
fn blanks(text: &[u8]) -> usize
    ensures value { result ≡ prefix_len spec.is_blank text.now }
    ensures within { result ≤ length text.now }
{
    text.iter().take_while(|byte| is_blank(**byte)).count()
}

// How many bytes stand before the first blank.
fn field_size(text: &[u8]) -> usize
    ensures value { result ≡ prefix_len (λ byte. not (spec.is_blank byte)) text.now }
    ensures within { result ≤ length text.now }
{
    text.iter().take_while(|byte| !is_blank(**byte)).count()
}

// The name that a field is.
fn name_of(field: &[u8]) -> Option<&str>
    ensures { option_map (λ name. name.now) result ≡ spec.name_of field.now }
{
    match std::str::from_utf8(field) {
        Ok(text) => if is_name(text) { Some(text) } else { None },
        Err(_) => None,
    }
}

// The number that a field is. Ten digits fit into 64 bits.
fn number_of(field: &[u8]) -> Option<u32>
    ensures { result ≡ spec.number_of field.now }
{
    if field.is_empty() || field.len() > 10 {
        return None;
    }
    let mut number = 0u64;
    for byte in field {
        if !byte.is_ascii_digit() {
            return None;
        }
        number = number * 10 + u64::from(*byte - b'0');
    }
    u32::try_from(number).ok()
}

/// Whether a field is this word.
pub(crate) fn is_word(field: &[u8], word: &[u8]) -> bool
    ensures { result ≡ bytes_eq field.now word.now }
{
    field == word
}

// How many bytes stand before the first dot.
fn dot_place(field: &[u8]) -> usize
    ensures value { result ≡ position_or_len spec.is_dot field.now }
    ensures within { result ≤ length field.now }
{
    field.iter().take_while(|byte| **byte != b'.').count()
}

// What stands before and behind the first dot.
fn around_dot(field: &[u8]) -> (&[u8], &[u8])
    ensures before { result.0.now ≡ before_first spec.is_dot field.now }
    ensures behind { result.1.now ≡ after_first spec.is_dot field.now }
{
    let (before, rest) = field.split_at(dot_place(field));
    match rest {
        [_, behind @ ..] => (before, behind),
        [] => (before, rest),
    }
}

// The component and the port that a field names.
fn spot_of(field: &[u8]) -> Option<(&str, &str)>
    ensures { option_map (λ names. record { component = names.0.now; port = names.1.now }) result ≡ spec.spot_of field.now }
{
    let (component, port) = around_dot(field);
    match (name_of(component), name_of(port)) {
        (Some(component), Some(port)) => Some((component, port)),
        _ => None,
    }
}

/// What is left of the fields of a line, seen as the list of these fields. Fields are divided by
/// spaces and tabs.
#[derive(Drop)]
pub struct Fields<'a> {
    rest: &'a [u8],
}

impl<'a> Model for Fields<'a> {
    ghost use Rattle.std.specs.Prelude.{List};
    ghost use Rattle.sched_text.specs.Fields.{Field, fields_of};

    ghost Value = { List Field };

    ghost view = { λ fields. fields_of fields.rest.now };
}

impl<'a> Fields<'a> {
    /// The fields of a line. One CR at its end is no part of it.
    pub fn of_line(line: &'a [u8]) -> Fields<'a>
        ensures { result ≡ spec.fields_of (without_return line.now) }
    {
        match line {
            [rest @ .., b'\r'] => Fields { rest },
            _ => Fields { rest: line },
        }
    }

    /// Takes the first field, None where there is none.
    pub fn next_field(&mut self) -> Option<&'a [u8]>
        ensures { MatchOption result ((self.old ≡ []) × (self.new ≡ [])) (λ field. self.old ≡ field.now ∷ self.new) }
    {
        let (_, rest) = self.rest.split_at(blanks(self.rest));
        let (field, rest) = rest.split_at(field_size(rest));
        self.rest = rest;
        if field.is_empty() {
            return None;
        }
        Some(field)
    }

    /// Whether no field is left.
    pub fn is_empty(&self) -> bool
        ensures { result ≡ is_empty self.now }
    {
        is_all_blank(self.rest)
    }

    /// Takes a name.
    pub fn name(&mut self, alloc: Global) -> Result<Str, LineFault>
        ensures { TakesFront (λ name. name) result self.new (name_at self.old) }
    {
        let Some(name) = self.next_field().and_then(name_of) else {
            return Err(LineFault::Bad);
        };
        Ok(Str::from_text(alloc, name)?)
    }

    /// Takes a number of 1 to 10 decimal digits, below 2^32.
    pub fn number(&mut self) -> Result<u32, LineFault>
        ensures { TakesFront (λ number. number) result self.new (number_at self.old) }
    {
        let Some(number) = self.next_field().and_then(number_of) else {
            return Err(LineFault::Bad);
        };
        Ok(number)
    }

    /// Takes a component and a port of it, with a dot between their names.
    pub fn spot(&mut self, alloc: Global) -> Result<(Str, Str), LineFault>
        ensures { TakesFront (λ names. record { component = names.0; port = names.1 }) result self.new (spot_at self.old) }
    {
        let Some((component, port)) = self.next_field().and_then(spot_of) else {
            return Err(LineFault::Bad);
        };
        let component = Str::from_text(alloc, component)?;
        let port = Str::from_text(alloc, port)?;
        Ok((component, port))
    }

    /// Takes this word.
    pub fn word(&mut self, word: &[u8]) -> Result<(), LineFault>
        ensures { TakesFront (λ _. word.now) result self.new (word_at word.now self.old) }
    {
        match self.next_field() {
            Some(field) if is_word(field, word) => Ok(()),
            _ => Err(LineFault::Bad),
        }
    }
}
