//! What is shown of the text of a module: its tokens, what is printed of it, or the roots of its outputs.
ghost use Rattle.std.specs.Prelude.{◌≡◌, ◌<◌, ◌-◌, ◌^◌, IfOk, codes, length};
ghost use Rattle.worked_calls.specs.Shown.{IsModuleShown};

use crate::checked::checked_of;
use crate::roots::roots_shown;
use crate::texts::Text;
use anyhow::{Result, bail};
use bloom_parse::{ParseFault, Token, print, tokens};
use std::alloc::{AllocError, Global};

/// What is shown of a text:
///
/// - `tokens`: its tokens, each with the numbers of its first byte and of the byte behind it, or the place
///   of its first bad token.
/// - `module`: the module that it is, once that was checked, as it is printed.
/// - `roots`: the root of each column of each of its outputs.
pub(crate) fn module_shown(alloc: Global, kind: &str, text: &[u8]) -> Result<Vec<u8>>
    requires { length text.now < 2 ^ 32 - 1 }
    ensures { IfOk result (λ shown. kind.now ≡ codes "module" → IsModuleShown text.now shown.items) }
{
    match kind {
        "tokens" => tokens_shown(alloc, text),
        "module" => printed(alloc, text),
        "roots" => roots_shown(alloc, text),
        _ => bail!("nothing of a module is shown as {kind}"),
    }
}

fn tokens_shown(alloc: Global, text: &[u8]) -> Result<Vec<u8>>
    requires { length text.now < 2 ^ 32 - 1 }
{
    match tokens(alloc, text) {
        Ok(tokens) => lines_of(alloc, &tokens),
        Err(ParseFault::Text(fault)) => bad_line(alloc, fault.line, fault.column),
        Err(ParseFault::NoMemory) => Err(AllocError.into()),
    }
}

// A line for each token.
fn lines_of(alloc: Global, tokens: &[Token]) -> Result<Vec<u8>> {
    let mut shown = Text::new(alloc);
    for token in tokens {
        shown.add_text(format!(in alloc; "{} {} {:?}\n", token.from, token.to, token.class));
    }
    shown.into_bytes()
}

// The line of a place at which there is no token.
fn bad_line(alloc: Global, line: u32, column: u32) -> Result<Vec<u8>> {
    Ok(format!(in alloc; "bad {line} {column}\n")?.into_bytes())
}

fn printed(alloc: Global, text: &[u8]) -> Result<Vec<u8>>
    requires { length text.now < 2 ^ 32 - 1 }
    ensures { IfOk result (λ shown. IsModuleShown text.now shown.items) }
{
    let checked = checked_of(alloc, text)?;
    Ok(print(alloc, &checked)?)
}
