//! Lists and aggregates at the front of a list of terminals.
ghost use Rattle.std.specs.Prelude.{◌≡◌, ◌∷◌, []};
ghost use Rattle.bloom_parse.specs.Code.ReadingSingle.{Gives};
ghost use Rattle.bloom_parse.specs.Code.ReadingLists.{item_at, pair_at, items_at, pairs_at, names_at, key_names_at, keys_at, measure_of, column_at, by_measure, agg_at};

use crate::lexing::terminal::{Mark, Terminal, Word};
use crate::reading::read_fault::ReadFault;
use crate::reading::single::{
    behind_first, equals, is_as_first, is_close_keys_first, is_comma_first, mark, name,
};
use bloom_forms::NamedAgg;
use blz_value::Str;
use std::alloc::Global;

/// Which aggregate begins.
#[derive(Clone, Copy)]
enum Measure {
    Count,
    Sum,
    Min,
    Max,
    Other,
}

/// Pairs of names, and the terminals behind them.
type PairsRead<'a> = Result<(Vec<(Str, Str)>, &'a [Terminal]), ReadFault>;

/// Names, and the terminals behind them.
type NamesRead<'a> = Result<(Vec<Str>, &'a [Terminal]), ReadFault>;

/// A column and its new name, and the terminals behind them.
#[tactic(auto, unfolding(crate::specs::Code::ReadingLists::item_at))]
pub(crate) fn item(
    alloc: Global,
    terminals: &[Terminal],
) -> Result<((Str, Str), &[Terminal]), ReadFault>
    ensures { Gives (λ x. (x.0, x.1.now)) result (item_at terminals.now) }
{
    let (column, rest) = name(alloc, terminals)?;
    if is_as_first(rest) {
        let (renamed, rest) = name(alloc, behind_first(rest))?;
        Ok(((column, renamed), rest))
    } else {
        let same = column.copy()?;
        Ok(((column, same), rest))
    }
}

#[tactic(auto, unfolding(crate::specs::Code::ReadingLists::pair_at))]
fn pair(alloc: Global, terminals: &[Terminal]) -> Result<((Str, Str), &[Terminal]), ReadFault>
    ensures { Gives (λ x. (x.0, x.1.now)) result (pair_at terminals.now) }
{
    let (left, rest) = name(alloc, terminals)?;
    let rest = equals(rest)?;
    let (right, rest) = name(alloc, rest)?;
    Ok(((left, right), rest))
}

/// The first item, the items behind commas, and the terminals behind them.
#[tactic(auto, using(crate::proofs::Grammar::RepeatLemmas::many_open, crate::proofs::Grammar::RepeatLemmas::many_ended))]
pub(crate) fn items(alloc: Global, first: (Str, Str), terminals: &[Terminal]) -> PairsRead<'_>
    ensures { Gives (λ x. (x.0.items, x.1.now)) result (items_at first terminals.now) }
{
    let mut found = Vec::new(alloc);
    found.push(first)?;
    let mut rest = terminals;
    for _ in 0..terminals.len() {
        if !is_comma_first(rest) {
            return Ok((found, rest));
        }
        let (next, after) = item(alloc, behind_first(rest))?;
        found.push(next)?;
        rest = after;
    }
    Ok((found, rest))
}

/// The pairs behind commas, and the terminals behind them.
#[tactic(auto, using(crate::proofs::Grammar::RepeatLemmas::many_open, crate::proofs::Grammar::RepeatLemmas::many_ended))]
pub(crate) fn pairs(alloc: Global, terminals: &[Terminal]) -> PairsRead<'_>
    ensures { Gives (λ x. (x.0.items, x.1.now)) result (pairs_at terminals.now) }
{
    let mut found = Vec::new(alloc);
    let mut rest = terminals;
    for _ in 0..terminals.len() {
        if !is_comma_first(rest) {
            return Ok((found, rest));
        }
        let (next, after) = pair(alloc, behind_first(rest))?;
        found.push(next)?;
        rest = after;
    }
    Ok((found, rest))
}

/// The first name, the names behind commas, and the terminals behind them.
#[tactic(auto, using(crate::proofs::Grammar::RepeatLemmas::many_open, crate::proofs::Grammar::RepeatLemmas::many_ended))]
pub(crate) fn names(alloc: Global, first: Str, terminals: &[Terminal]) -> NamesRead<'_>
    ensures { Gives (λ x. (x.0.items, x.1.now)) result (names_at first terminals.now) }
{
    let mut found = Vec::new(alloc);
    found.push(first)?;
    let mut rest = terminals;
    for _ in 0..terminals.len() {
        if !is_comma_first(rest) {
            return Ok((found, rest));
        }
        let (next, after) = name(alloc, behind_first(rest))?;
        found.push(next)?;
        rest = after;
    }
    Ok((found, rest))
}

#[tactic(auto, unfolding(crate::specs::Code::ReadingLists::key_names_at))]
fn key_names(alloc: Global, terminals: &[Terminal]) -> NamesRead<'_>
    ensures { Gives (λ x. (x.0.items, x.1.now)) result (key_names_at terminals.now) }
{
    let (first, rest) = name(alloc, terminals)?;
    let (found, rest) = names(alloc, first, rest)?;
    let rest = mark(Mark::CloseKeys, rest)?;
    Ok((found, rest))
}

/// The names between `[` and `]`, and the terminals behind them.
#[tactic(auto, unfolding(crate::specs::Code::ReadingLists::keys_at))]
pub(crate) fn keys(alloc: Global, terminals: &[Terminal]) -> NamesRead<'_>
    ensures { Gives (λ x. (x.0.items, x.1.now)) result (keys_at terminals.now) }
{
    let rest = mark(Mark::OpenKeys, terminals)?;
    if is_close_keys_first(rest) {
        Ok((Vec::new(alloc), behind_first(rest)))
    } else {
        key_names(alloc, rest)
    }
}

fn measure_at(terminals: &[Terminal]) -> Measure
    ensures { result ≡ measure_of terminals.now }
{
    match terminals {
        [Terminal::Word(Word::Count), ..] => Measure::Count,
        [Terminal::Word(Word::Sum), ..] => Measure::Sum,
        [Terminal::Word(Word::Min), ..] => Measure::Min,
        [Terminal::Word(Word::Max), ..] => Measure::Max,
        _ => Measure::Other,
    }
}

#[tactic(auto, unfolding(crate::specs::Code::ReadingLists::column_at))]
fn column(alloc: Global, terminals: &[Terminal]) -> Result<(Str, &[Terminal]), ReadFault>
    ensures { Gives (λ x. (x.0, x.1.now)) result (column_at terminals.now) }
{
    let rest = mark(Mark::Open, terminals)?;
    let (found, rest) = name(alloc, rest)?;
    let rest = mark(Mark::Close, rest)?;
    Ok((found, rest))
}

/// An aggregate, and the terminals behind it.
pub(crate) fn aggregate(
    alloc: Global,
    terminals: &[Terminal],
) -> Result<(NamedAgg, &[Terminal]), ReadFault>
    ensures { Gives (λ x. (x.0, x.1.now)) result (agg_at terminals.now) }
{
    let rest = behind_first(terminals);
    match measure_at(terminals) {
        Measure::Count => Ok((NamedAgg::Count, rest)),
        Measure::Sum => {
            let (of, rest) = column(alloc, rest)?;
            Ok((NamedAgg::Sum(of), rest))
        }
        Measure::Min => {
            let (of, rest) = column(alloc, rest)?;
            Ok((NamedAgg::Min(of), rest))
        }
        Measure::Max => {
            let (of, rest) = column(alloc, rest)?;
            Ok((NamedAgg::Max(of), rest))
        }
        Measure::Other => Err(ReadFault::Left(terminals.len())),
    }
}
