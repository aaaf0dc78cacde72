//! Lines of words.
ghost use Rattle.std.specs.Prelude.{◌≡◌, ◌++◌, IfOk, OnOk, [], codes, map, slice_index_or};
ghost use Rattle.std.specs.Fmt.{decimal};
ghost use Rattle.std.specs.List.{flat_map, join_by};
ghost use Rattle.report_lines.specs.Lines.{word_text, later_text, shown};
ghost use Rattle.report_lines.specs.Words as spec;

use blz_value::{Attrs, Record, Str, write_escaped, write_record};
use label_walk::members;
use std::alloc::{AllocError, Global};

/// A word of a line.
#[derive(Clone, Copy)]
pub enum Word<'a> {
    /// A text as it is.
    Plain(&'a str),
    /// A text with its escapes, without quotes.
    Escaped(&'a Str),
    /// A number in decimal.
    Number(u32),
    /// A large number in decimal.
    Large(u64),
    /// A word and a number behind it.
    Numbered(&'a str, u32),
    /// A record.
    Row(&'a Record),
    /// A set of names.
    Names(&'a [Str]),
    /// A text and, behind it, those of these names whose numbers are in the set.
    Marked(&'a str, &'a [Str], Attrs),
}

fn push_number(alloc: Global, number: u32, into: &mut Vec<u8>) -> Result<(), AllocError>
    ensures { OnOk result (into.new.items ≡ into.old.items ++ decimal number) }
{
    into.extend_from_slice(number.to_string(alloc)?.as_bytes())
}

fn push_large(alloc: Global, number: u64, into: &mut Vec<u8>) -> Result<(), AllocError>
    ensures { OnOk result (into.new.items ≡ into.old.items ++ decimal number) }
{
    into.extend_from_slice(number.to_string(alloc)?.as_bytes())
}

fn push_later_names(names: &[&str], into: &mut Vec<u8>) -> Result<(), AllocError>
    ensures { OnOk result (into.new.items ≡ into.old.items ++ flat_map (λ name. codes ", " ++ name) (shown names.now)) }
{
    for name in names {
        into.extend_from_slice(b", ")?;
        into.extend_from_slice(name.as_bytes())?;
    }
    Ok(())
}

fn push_joined_names(names: &[&str], into: &mut Vec<u8>) -> Result<(), AllocError>
    ensures { OnOk result (into.new.items ≡ into.old.items ++ join_by (λ name. name) (codes ", ") (shown names.now)) }
{
    match names {
        [] => Ok(()),
        [first, later @ ..] => {
            into.extend_from_slice(first.as_bytes())?;
            push_later_names(later, into)
        }
    }
}

fn push_names(names: &[&str], into: &mut Vec<u8>) -> Result<(), AllocError>
    ensures { OnOk result (into.new.items ≡ into.old.items ++ spec.names_text (shown names.now)) }
{
    into.push(b'[')?;
    push_joined_names(names, into)?;
    into.push(b']')?;
    Ok(())
}

fn texts<'a>(alloc: Global, names: &'a [Str]) -> Result<Vec<&'a str>, AllocError>
    ensures { IfOk result (λ texts. shown texts.items ≡ names.now) }
{
    let mut texts = Vec::new(alloc);
    for name in names {
        texts.push(name.as_str())?;
    }
    Ok(texts)
}

// The name of an attribute; past the last stands an empty one.
fn name_at(names: &[Str], attribute: u32) -> &str
    ensures { result.now ≡ slice_index_or names.now attribute [] }
{
    match names.get(attribute as usize) {
        Some(name) => name.as_str(),
        None => "",
    }
}

fn names_at<'a>(
    alloc: Global,
    names: &'a [Str],
    attributes: &[u32],
) -> Result<Vec<&'a str>, AllocError>
    ensures { IfOk result (λ texts. shown texts.items ≡ map (λ attribute. slice_index_or names.now attribute []) attributes.now) }
{
    let mut texts = Vec::new(alloc);
    for attribute in attributes {
        texts.push(name_at(names, *attribute))?;
    }
    Ok(texts)
}

fn push_set(alloc: Global, names: &[Str], set: Attrs, into: &mut Vec<u8>) -> Result<(), AllocError>
    ensures { OnOk result (into.new.items ≡ into.old.items ++ spec.set_text names.now set.bits) }
{
    let held = names_at(alloc, names, &members(alloc, set)?)?;
    push_names(&held, into)
}

fn push_word(alloc: Global, word: &Word<'_>, into: &mut Vec<u8>) -> Result<(), AllocError>
    ensures { OnOk result (into.new.items ≡ into.old.items ++ word_text word.now) }
{
    match word {
        Word::Plain(text) => into.extend_from_slice(text.as_bytes()),
        Word::Escaped(text) => write_escaped(text.as_str(), into),
        Word::Number(number) => push_number(alloc, *number, into),
        Word::Large(number) => push_large(alloc, *number, into),
        Word::Numbered(text, number) => {
            into.extend_from_slice(text.as_bytes())?;
            into.push(b' ')?;
            push_number(alloc, *number, into)
        }
        Word::Row(row) => write_record(row, into),
        Word::Names(names) => push_names(&texts(alloc, names)?, into),
        Word::Marked(text, names, set) => {
            into.extend_from_slice(text.as_bytes())?;
            push_set(alloc, names, *set, into)
        }
    }
}

/// Appends these words, with a space before each.
pub(crate) fn push_each(
    alloc: Global,
    words: &[Word<'_>],
    into: &mut Vec<u8>,
) -> Result<(), AllocError>
    ensures { OnOk result (into.new.items ≡ into.old.items ++ later_text (map word_text words.now)) }
{
    for word in words {
        into.push(b' ')?;
        push_word(alloc, word, into)?;
    }
    Ok(())
}

fn push_words(alloc: Global, words: &[Word<'_>], into: &mut Vec<u8>) -> Result<(), AllocError>
    ensures { OnOk result (into.new.items ≡ into.old.items ++ join_by (λ word. word) (codes " ") (map word_text words.now)) }
{
    match words {
        [] => Ok(()),
        [first, later @ ..] => {
            push_word(alloc, first, into)?;
            push_each(alloc, later, into)
        }
    }
}

/// Appends the line of these words, with a space between each two.
pub fn push_line(alloc: Global, words: &[Word<'_>], into: &mut Vec<u8>) -> Result<(), AllocError>
    ensures { OnOk result (into.new.items ≡ into.old.items ++ spec.line (map word_text words.now)) }
{
    push_words(alloc, words, into)?;
    into.push(b'\n')?;
    Ok(())
}

/// Appends the line of these words, behind two spaces.
pub fn push_inner_line(
    alloc: Global,
    words: &[Word<'_>],
    into: &mut Vec<u8>,
) -> Result<(), AllocError>
    ensures { OnOk result (into.new.items ≡ into.old.items ++ spec.inner_line (map word_text words.now)) }
{
    into.extend_from_slice(b"  ")?;
    push_line(alloc, words, into)
}
