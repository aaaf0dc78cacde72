//! Single terminals at the front of a list.
ghost use Rattle.std.specs.Prelude.{◌≡◌, drop};
ghost use Rattle.bloom_parse.specs.Code.ReadingSingle.{Gives, mark_at, name_at, operand_at, sign_at, equals_at, arrow_at, as_at, module_word_at, bound_at, has_comma, has_close_keys, has_as, has_name};

use crate::lexing::terminal::{Mark, Terminal, Word};
use crate::reading::read_fault::ReadFault;
use bloom_forms::Term;
use blz_value::{Op, Str, Value};
use std::alloc::Global;

/// The terminals behind this mark.
pub(crate) fn mark(wanted: Mark, terminals: &[Terminal]) -> Result<&[Terminal], ReadFault>
    ensures { Gives (λ x. x.now) result (mark_at wanted terminals.now) }
{
    match terminals {
        [Terminal::Mark(found), rest @ ..] if wanted == *found => Ok(rest),
        _ => Err(ReadFault::Left(terminals.len())),
    }
}

/// A name, and the terminals behind it.
pub(crate) fn name(alloc: Global, terminals: &[Terminal]) -> Result<(Str, &[Terminal]), ReadFault>
    ensures { Gives (λ x. (x.0, x.1.now)) result (name_at terminals.now) }
{
    match terminals {
        [Terminal::Name(name), rest @ ..] => Ok((name.copy()?, rest)),
        _ => Err(ReadFault::Left(terminals.len())),
    }
}

/// One side of a comparison, and the terminals behind it.
pub(crate) fn operand(
    alloc: Global,
    terminals: &[Terminal],
) -> Result<(Term, &[Terminal]), ReadFault>
    ensures { Gives (λ x. (x.0, x.1.now)) result (operand_at terminals.now) }
{
    match terminals {
        [Terminal::Name(name), rest @ ..] => Ok((Term::Column(name.copy()?), rest)),
        [Terminal::Integer(number), rest @ ..] => Ok((Term::Literal(Value::Int(*number)), rest)),
        [Terminal::Text(text), rest @ ..] => Ok((Term::Literal(Value::Text(text.copy()?)), rest)),
        _ => Err(ReadFault::Left(terminals.len())),
    }
}

/// How two sides are compared, and the terminals behind it.
pub(crate) fn sign(terminals: &[Terminal]) -> Result<(Op, &[Terminal]), ReadFault>
    ensures { Gives (λ x. (x.0, x.1.now)) result (sign_at terminals.now) }
{
    match terminals {
        [Terminal::Sign(op), rest @ ..] => Ok((*op, rest)),
        _ => Err(ReadFault::Left(terminals.len())),
    }
}

/// The terminals behind `=`.
pub(crate) fn equals(terminals: &[Terminal]) -> Result<&[Terminal], ReadFault>
    ensures { Gives (λ x. x.now) result (equals_at terminals.now) }
{
    match terminals {
        [Terminal::Sign(Op::Eq), rest @ ..] => Ok(rest),
        _ => Err(ReadFault::Left(terminals.len())),
    }
}

/// The terminals behind `<=`.
pub(crate) fn arrow(terminals: &[Terminal]) -> Result<&[Terminal], ReadFault>
    ensures { Gives (λ x. x.now) result (arrow_at terminals.now) }
{
    match terminals {
        [Terminal::Sign(Op::Le), rest @ ..] => Ok(rest),
        _ => Err(ReadFault::Left(terminals.len())),
    }
}

/// The terminals behind `as`.
pub(crate) fn as_word(terminals: &[Terminal]) -> Result<&[Terminal], ReadFault>
    ensures { Gives (λ x. x.now) result (as_at terminals.now) }
{
    match terminals {
        [Terminal::Word(Word::As), rest @ ..] => Ok(rest),
        _ => Err(ReadFault::Left(terminals.len())),
    }
}

/// The terminals behind `module`.
pub(crate) fn module_word(terminals: &[Terminal]) -> Result<&[Terminal], ReadFault>
    ensures { Gives (λ x. x.now) result (module_word_at terminals.now) }
{
    match terminals {
        [Terminal::Word(Word::Module), rest @ ..] => Ok(rest),
        _ => Err(ReadFault::Left(terminals.len())),
    }
}

/// An integer that is 1 or more, and the terminals behind it.
pub(crate) fn bound(terminals: &[Terminal]) -> Result<(i64, &[Terminal]), ReadFault>
    ensures { Gives (λ x. (x.0, x.1.now)) result (bound_at terminals.now) }
{
    match terminals {
        [Terminal::Integer(number), rest @ ..] if 1 <= *number => Ok((*number, rest)),
        _ => Err(ReadFault::Left(terminals.len())),
    }
}

/// The terminals behind the first.
pub(crate) fn behind_first(terminals: &[Terminal]) -> &[Terminal]
    ensures { result.now ≡ drop 1 terminals.now }
{
    match terminals {
        [] => terminals,
        [_, rest @ ..] => rest,
    }
}

/// Whether a comma comes first.
pub(crate) fn is_comma_first(terminals: &[Terminal]) -> bool
    ensures { result ≡ has_comma terminals.now }
{
    matches!(terminals, [Terminal::Mark(Mark::Comma), ..])
}

/// Whether `]` comes first.
pub(crate) fn is_close_keys_first(terminals: &[Terminal]) -> bool
    ensures { result ≡ has_close_keys terminals.now }
{
    matches!(terminals, [Terminal::Mark(Mark::CloseKeys), ..])
}

/// Whether `as` comes first.
pub(crate) fn is_as_first(terminals: &[Terminal]) -> bool
    ensures { result ≡ has_as terminals.now }
{
    matches!(terminals, [Terminal::Word(Word::As), ..])
}

/// Whether a name comes first.
pub(crate) fn is_name_first(terminals: &[Terminal]) -> bool
    ensures { result ≡ has_name terminals.now }
{
    matches!(terminals, [Terminal::Name(_), ..])
}
