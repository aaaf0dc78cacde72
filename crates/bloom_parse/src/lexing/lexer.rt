//! The tokens of a text.
ghost use Rattle.std.specs.Prelude.{◌≡◌, ◌≤◌, ◌<◌, ◌+◌, ◌-◌, ◌^◌, length, vec_len, take, reverse, not, ◌==◌, count_by, IfOk, IfErr};
ghost use Rattle.std.specs.List.{prefix_len};
ghost use Rattle.bloom_parse.specs.Tokens as spec;

use crate::lexing::front::{behind_blanks, front};
use crate::lexing::terminal::Terminal;
use crate::lexing::token::{Class, Token};
use crate::refusal::{ParseFault, TextFault};
use std::alloc::{AllocError, Global};

fn class_of(terminal: &Terminal) -> Class
    ensures { result ≡ spec.class_of terminal.now }
{
    match terminal {
        Terminal::Name(_) => Class::Name,
        Terminal::Word(_) => Class::Word,
        Terminal::Integer(_) => Class::Integer,
        Terminal::Text(_) => Class::Text,
        Terminal::Mark(_) | Terminal::Sign(_) | Terminal::End | Terminal::Bad => Class::Mark,
    }
}

// The token from what is left of a text up to what is left behind it.
fn token_at(size: usize, left: &[u8], after: &[u8], terminal: &Terminal) -> Token
    ensures { result ≡ spec.token_at size (length left.now) (length after.now) terminal.now }
{
    Token {
        from: size.saturating_sub(left.len()),
        to: size.saturating_sub(after.len()),
        class: class_of(terminal),
    }
}

fn last_of(rest: &[u8]) -> Terminal
    ensures { result ≡ spec.last_of rest.now }
{
    if rest.is_empty() {
        Terminal::End
    } else {
        Terminal::Bad
    }
}

/// The tokens of a text up to its end or to the first bad one, their terminals with a last one, End
/// or Bad, and what is left of the text from there on.
pub(crate) fn lexed(
    alloc: Global,
    text: &[u8],
) -> Result<(Vec<Token>, Vec<Terminal>, &[u8]), AllocError>
    ensures { IfOk result (λ x. spec.HasTokens text.now x.0.items x.1.items x.2.now) }
{
    let mut tokens = Vec::new(alloc);
    let mut terminals = Vec::new(alloc);
    let mut rest = behind_blanks(text);
    while let Some((terminal, after)) = front(alloc, rest)? {
        tokens.push(token_at(text.len(), rest, after, &terminal))?;
        terminals.push(terminal)?;
        rest = behind_blanks(after);
    }
    terminals.push(last_of(rest))?;
    Ok((tokens, terminals, rest))
}

fn line_behind(bytes: &[u8]) -> u32
    requires { length bytes.now < 2 ^ 32 - 1 }
    ensures { result ≡ spec.line_behind bytes.now }
{
    bytes.iter().filter(|byte| **byte == b'\n').count() as u32 + 1
}

#[tactic(auto, using(crate::proofs::Texts::RunLemmas::column_next))]
fn column_behind(bytes: &[u8]) -> u32
    requires { length bytes.now < 2 ^ 32 - 1 }
    ensures { result ≡ spec.column_behind bytes.now }
{
    let mut column = 1;
    for byte in bytes {
        column = if *byte == b'\n' { 1 } else { column + 1 };
    }
    column
}

// The place of the byte with this number.
#[tactic(auto, using(crate::proofs::Texts::RunLemmas::take_within))]
fn place_of(text: &[u8], number: usize) -> TextFault
    requires { length text.now < 2 ^ 32 - 1 }
    ensures { result ≡ spec.place_of text.now number }
{
    let before = &text[..number.min(text.len())];
    TextFault {
        line: line_behind(before),
        column: column_behind(before),
    }
}

/// The place of the terminal from which on so many terminals are left, in a text with these tokens
/// and with this rest left behind them.
pub(crate) fn place_at(text: &[u8], tokens: &[Token], rest: &[u8], left: usize) -> TextFault
    requires { length text.now < 2 ^ 32 - 1 }
    ensures { result ≡ spec.place_of text.now (spec.start_of (length text.now) tokens.now rest.now left) }
{
    let number = match tokens.get((tokens.len() + 1).saturating_sub(left)) {
        Some(token) => token.from,
        None => text.len().saturating_sub(rest.len()),
    };
    place_of(text, number)
}

/// The tokens of a text, in order. The fault is at the first bad token.
pub fn tokens(alloc: Global, text: &[u8]) -> Result<Vec<Token>, ParseFault>
    requires { length text.now < 2 ^ 32 - 1 }
    // They are all its tokens.
    ensures all { IfOk result (λ tokens. spec.AreTokens text.now tokens.items) }
    ensures fault { IfErr result (λ e. spec.IsBadFault text.now e) }
{
    let (tokens, _, rest) = lexed(alloc, text)?;
    if rest.is_empty() {
        Ok(tokens)
    } else {
        let number = text.len().saturating_sub(rest.len());
        Err(ParseFault::Text(place_of(text, number)))
    }
}
