//! The module of a text.
ghost use Rattle.std.specs.Prelude.{◌≡◌, ◌<◌, ◌-◌, ◌^◌, length, IfOk, IfErr};
ghost use Rattle.bloom_forms.specs.Form.{Form, form_of};
ghost use Rattle.bloom_forms.specs.Reserved.{HasOwnNames};
ghost use Rattle.bloom_parse.specs.Parsing.{IsTextOf, IsParseFault, GivesModule};
ghost use Rattle.bloom_parse.specs.Reading.{reading_of, GivesReading};

use crate::lexing::lexer::{lexed, place_at};
use crate::reading::read_fault::ReadFault;
use crate::reading::reader::module_of;
use crate::refusal::ParseFault;
use bloom_forms::Module;
use std::alloc::Global;

/// The module whose text this is. The fault is at the first token that no module text has there, where
/// the end of the text counts as a token.
pub fn parse(alloc: Global, text: &[u8]) -> Result<Module, ParseFault>
    requires { length text.now < 2 ^ 32 - 1 }
    ensures read { IfOk result (λ read. IsTextOf text.now (form_of read)) }
    // Its names are those that `check` asks for.
    ensures names { IfOk result (λ read. HasOwnNames (form_of read)) }
    // The answer is the text's reading, unless memory runs out.
    ensures exact { GivesReading (reading_of text.now) result }
    // A text of a module is read as this one, unless memory runs out.
    ensures only { (m : Form) → IsTextOf text.now m → GivesModule m result }
    ensures fault { IfErr result (λ e. IsParseFault text.now e) }
{
    let (tokens, terminals, rest) = lexed(alloc, text)?;
    match module_of(alloc, &terminals) {
        Ok(module) => Ok(module),
        Err(ReadFault::Left(left)) => Err(ParseFault::Text(place_at(text, &tokens, rest, left))),
        Err(ReadFault::NoMemory) => Err(ParseFault::NoMemory),
    }
}
