//! The token at the front of a text.
ghost use Rattle.std.specs.Prelude.{◌≡◌, ◌<◌, ◌≤◌, length, drop, false, true, [], IfOk};
ghost use Rattle.std.specs.Char.{is_ascii_digit};
ghost use Rattle.std.specs.List.{prefix_len, list_all};
ghost use Rattle.std.specs.Option.{option_map};
ghost use Rattle.blz_value.specs.Name as name_spec;
ghost use Rattle.bloom_parse.specs.Spelling as spelling;
ghost use Rattle.bloom_parse.specs.Tokens as spec;

use crate::lexing::terminal::{Mark, Terminal, Word};
use blz_value::{Op, Str};
use std::alloc::{AllocError, Global};

// ---- between tokens

fn is_white(byte: u8) -> bool
    ensures { result ≡ spec.is_white byte }
{
    matches!(byte, b' ' | b'\t' | b'\r' | b'\n')
}

// What is left behind white space and comments.
pub(crate) fn behind_blanks(text: &[u8]) -> &[u8]
    ensures { result.now ≡ spec.behind_blanks false text.now }
{
    let mut rest = text;
    let mut within = false;
    while let [byte, after @ ..] = rest {
        if !(within || is_white(*byte) || *byte == b'#') {
            break;
        }
        within = if within {
            *byte != b'\n'
        } else {
            *byte == b'#'
        };
        rest = after;
    }
    rest
}

// ---- names and words

fn is_name_start(byte: u8) -> bool
    ensures { result ≡ name_spec.is_name_start byte }
{
    matches!(byte, b'a'..=b'z' | b'A'..=b'Z' | b'_')
}

fn is_name_byte(byte: u8) -> bool
    ensures { result ≡ name_spec.is_name_byte byte }
{
    is_name_start(byte) || matches!(byte, b'0'..=b'9')
}

fn word_of(name: &str) -> Option<Word>
    ensures { result ≡ spelling.word_of name.now }
{
    match name {
        "module" => Some(Word::Module),
        "input" => Some(Word::Input),
        "output" => Some(Word::Output),
        "table" => Some(Word::Table),
        "scratch" => Some(Word::Scratch),
        "select" => Some(Word::Select),
        "project" => Some(Word::Project),
        "join" => Some(Word::Join),
        "notin" => Some(Word::NotIn),
        "group" => Some(Word::Group),
        "atleast" => Some(Word::AtLeast),
        "count" => Some(Word::Count),
        "sum" => Some(Word::Sum),
        "min" => Some(Word::Min),
        "max" => Some(Word::Max),
        "as" => Some(Word::As),
        "and" => Some(Word::And),
        "or" => Some(Word::Or),
        "not" => Some(Word::Not),
        _ => None,
    }
}

// What a run of name bytes is.
fn named(alloc: Global, run: &[u8]) -> Result<Option<Terminal>, AllocError>
    requires { list_all name_spec.is_name_byte run.now ≡ true }
    ensures { IfOk result (λ found. found ≡ spec.named run.now) }
{
    if run.len() > 64 {
        return Ok(None);
    }
    let Ok(name) = std::str::from_utf8(run) else {
        return Ok(None);
    };
    match word_of(name) {
        Some(word) => Ok(Some(Terminal::Word(word))),
        None => Ok(Some(Terminal::Name(Str::from_text(alloc, name)?))),
    }
}

// How many bytes the longest run of name bytes takes.
fn name_size(text: &[u8]) -> usize
    ensures value { result ≡ prefix_len name_spec.is_name_byte text.now }
    ensures within { result ≤ length text.now }
{
    text.iter().take_while(|byte| is_name_byte(**byte)).count()
}

fn name_front(alloc: Global, text: &[u8]) -> Result<Option<(Terminal, &[u8])>, AllocError>
    ensures { IfOk result (λ found. option_map (λ x. (x.0, x.1.now)) found ≡ spec.name_front text.now) }
{
    let (run, rest) = text.split_at(name_size(text));
    match named(alloc, run)? {
        Some(terminal) => Ok(Some((terminal, rest))),
        None => Ok(None),
    }
}

// ---- integers

fn numbered(run: &[u8]) -> Option<Terminal>
    ensures { result ≡ spec.numbered run.now }
{
    match std::str::from_utf8(run) {
        Ok(text) => match text.parse::<i64>() {
            Ok(number) => Some(Terminal::Integer(number)),
            Err(_) => None,
        },
        Err(_) => None,
    }
}

fn digits_size(text: &[u8]) -> usize
    ensures value { result ≡ prefix_len is_ascii_digit text.now }
    ensures within { result ≤ length text.now }
{
    text.iter().take_while(|byte| byte.is_ascii_digit()).count()
}

fn number_size(text: &[u8]) -> usize
    ensures value { result ≡ spec.number_size text.now }
    ensures within { result ≤ length text.now }
{
    match text {
        [b'-', digits @ ..] => 1 + digits_size(digits),
        _ => digits_size(text),
    }
}

fn number_front(text: &[u8]) -> Option<(Terminal, &[u8])>
    ensures { option_map (λ x. (x.0, x.1.now)) result ≡ spec.number_front text.now }
{
    let (run, rest) = text.split_at(number_size(text));
    Some((numbered(run)?, rest))
}

// ---- text literals

fn hex_value(byte: u8) -> Option<u8>
    ensures { result ≡ spec.hex_value byte }
{
    match byte {
        b'0'..=b'9' => Some(byte - b'0'),
        b'a'..=b'f' => Some(byte - 87),
        _ => None,
    }
}

fn is_control(byte: u8) -> bool
    ensures { result ≡ spec.is_control byte }
{
    byte < 32 || byte == 127
}

fn hex_front(text: &[u8]) -> Option<(u8, &[u8])>
    ensures { option_map (λ x. (x.0, x.1.now)) result ≡ spec.hex_front text.now }
{
    match text {
        [high, low, rest @ ..] => {
            let byte = 16 * hex_value(*high)? + hex_value(*low)?;
            if is_control(byte) {
                Some((byte, rest))
            } else {
                None
            }
        }
        _ => None,
    }
}

fn escape_front(text: &[u8]) -> Option<(u8, &[u8])>
    ensures { option_map (λ x. (x.0, x.1.now)) result ≡ spec.escape_front text.now }
{
    match text {
        [byte, rest @ ..] => match *byte {
            b'"' | b'\\' => Some((*byte, rest)),
            b'x' => hex_front(rest),
            _ => None,
        },
        [] => None,
    }
}

fn byte_front(text: &[u8]) -> Option<(u8, &[u8])>
    ensures { option_map (λ x. (x.0, x.1.now)) result ≡ spec.byte_front text.now }
{
    match text {
        [b'\\', rest @ ..] => escape_front(rest),
        [byte, rest @ ..] if !is_control(*byte) && *byte != b'"' => Some((*byte, rest)),
        _ => None,
    }
}

fn closing_front(text: &[u8]) -> Option<&[u8]>
    ensures { option_map (λ x. ([], x.now)) result ≡ spec.closing_front text.now }
{
    match text {
        [b'"', rest @ ..] => Some(rest),
        _ => None,
    }
}

// The bytes of a text literal behind its opening quote, at most 64.
fn bytes_front(alloc: Global, text: &[u8]) -> Result<Option<(Vec<u8>, &[u8])>, AllocError>
    ensures { IfOk result (λ found. option_map (λ x. (x.0.items, x.1.now)) found ≡ spec.bytes_front 64 text.now) }
{
    let mut bytes = Vec::new(alloc);
    let mut rest = text;
    for _ in 0..64u32 {
        if let Some(after) = closing_front(rest) {
            return Ok(Some((bytes, after)));
        }
        let Some((byte, after)) = byte_front(rest) else {
            return Ok(None);
        };
        bytes.push(byte)?;
        rest = after;
    }
    match closing_front(rest) {
        Some(after) => Ok(Some((bytes, after))),
        None => Ok(None),
    }
}

fn literal<'a>(
    alloc: Global,
    bytes: &[u8],
    rest: &'a [u8],
) -> Result<Option<(Terminal, &'a [u8])>, AllocError>
    ensures { IfOk result (λ found. option_map (λ x. (x.0, x.1.now)) found ≡ spec.literal bytes.now rest.now) }
{
    match std::str::from_utf8(bytes) {
        Ok(text) => Ok(Some((Terminal::Text(Str::from_text(alloc, text)?), rest))),
        Err(_) => Ok(None),
    }
}

fn text_front(alloc: Global, text: &[u8]) -> Result<Option<(Terminal, &[u8])>, AllocError>
    ensures { IfOk result (λ found. option_map (λ x. (x.0, x.1.now)) found ≡ spec.text_front text.now) }
{
    match bytes_front(alloc, text)? {
        Some((bytes, rest)) => literal(alloc, &bytes, rest),
        None => Ok(None),
    }
}

// ---- marks

fn mark_of(byte: u8) -> Option<Mark>
    ensures { result ≡ spec.mark_of byte }
{
    match byte {
        b';' => Some(Mark::Semicolon),
        b',' => Some(Mark::Comma),
        b'(' => Some(Mark::Open),
        b')' => Some(Mark::Close),
        b'[' => Some(Mark::OpenKeys),
        b']' => Some(Mark::CloseKeys),
        _ => None,
    }
}

fn sign_front(byte: u8, rest: &[u8]) -> Option<(Op, &[u8])>
    ensures { option_map (λ x. (x.0, x.1.now)) result ≡ spec.sign_front byte rest.now }
{
    let longer = match rest {
        [b'=', after @ ..] => Some(after),
        _ => None,
    };
    match (byte, longer) {
        (b'=', _) => Some((Op::Eq, rest)),
        (b'!', Some(after)) => Some((Op::Ne, after)),
        (b'<', Some(after)) => Some((Op::Le, after)),
        (b'<', None) => Some((Op::Lt, rest)),
        (b'>', Some(after)) => Some((Op::Ge, after)),
        (b'>', None) => Some((Op::Gt, rest)),
        _ => None,
    }
}

fn mark_front(byte: u8, rest: &[u8]) -> Option<(Terminal, &[u8])>
    ensures { option_map (λ x. (x.0, x.1.now)) result ≡ spec.mark_front byte rest.now }
{
    if let Some(mark) = mark_of(byte) {
        return Some((Terminal::Mark(mark), rest));
    }
    let (op, after) = sign_front(byte, rest)?;
    Some((Terminal::Sign(op), after))
}

/// The longest token at the front of a text and what is left behind it, None where the first byte
/// begins none.
#[tactic(auto, unfolding(crate::specs::Tokens::front))]
pub(crate) fn front(alloc: Global, text: &[u8]) -> Result<Option<(Terminal, &[u8])>, AllocError>
    ensures { IfOk result (λ found. option_map (λ x. (x.0, x.1.now)) found ≡ spec.front text.now) }
{
    let [byte, rest @ ..] = text else {
        return Ok(None);
    };
    if is_name_start(*byte) {
        name_front(alloc, text)
    } else if byte.is_ascii_digit() || *byte == b'-' {
        Ok(number_front(text))
    } else if *byte == b'"' {
        text_front(alloc, rest)
    } else {
        Ok(mark_front(*byte, rest))
    }
}
