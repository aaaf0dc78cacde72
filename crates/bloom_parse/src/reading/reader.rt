//! Reads a module, over terminals.
ghost use Rattle.std.specs.Prelude.{◌≡◌, Ok, IfOk, IfErr};
ghost use Rattle.bloom_forms.specs.Form.{Form, rule_form, rule_forms, form_of};
ghost use Rattle.bloom_parse.specs.Places.{IsModuleText};
ghost use Rattle.bloom_parse.specs.Code.ReadPlaces.{IsPlace};
ghost use Rattle.bloom_parse.specs.Code.ReadingSingle.{Gives};
ghost use Rattle.bloom_parse.specs.Code.ReadingModules.{kind_at, has_kind, declared_at, collection_at, rule_at, collections_at, rules_at, end_at, module_at};

use crate::lexing::terminal::{Mark, Terminal, Word};
use crate::reading::expressions::expr;
use crate::reading::lists::names;
use crate::reading::read_fault::ReadFault;
use crate::reading::single::{arrow, behind_first, is_name_first, mark, module_word, name};
use bloom_forms::{Collection, Kind, MOST_LEVELS, Module, Rule};
use blz_value::Items;
use std::alloc::Global;

/// A collection, and the terminals behind it.
type CollectionRead<'a> = Result<(Collection, &'a [Terminal]), ReadFault>;

/// Collections, and the terminals behind them.
type CollectionsRead<'a> = Result<(Vec<Collection>, &'a [Terminal]), ReadFault>;

/// Rules, and the terminals behind them.
type RulesRead<'a> = Result<(Vec<Rule>, &'a [Terminal]), ReadFault>;

fn first_kind(terminals: &[Terminal]) -> Option<Kind>
    ensures { result ≡ kind_at terminals.now }
{
    match terminals {
        [Terminal::Word(Word::Input), ..] => Some(Kind::Input),
        [Terminal::Word(Word::Output), ..] => Some(Kind::Output),
        [Terminal::Word(Word::Table), ..] => Some(Kind::Table),
        [Terminal::Word(Word::Scratch), ..] => Some(Kind::Scratch),
        _ => None,
    }
}

/// A collection behind the word for its kind.
#[tactic(auto, unfolding(crate::specs::Code::ReadingModules::declared_at))]
fn declared(alloc: Global, kind: Kind, terminals: &[Terminal]) -> CollectionRead<'_>
    ensures { Gives (λ x. (x.0, x.1.now)) result (declared_at kind terminals.now) }
{
    let (named, rest) = name(alloc, terminals)?;
    let rest = mark(Mark::Open, rest)?;
    let (first, rest) = name(alloc, rest)?;
    let (columns, rest) = names(alloc, first, rest)?;
    let rest = mark(Mark::Close, rest)?;
    let rest = mark(Mark::Semicolon, rest)?;
    let found = Collection {
        kind,
        name: named,
        columns: Items::from_vec(columns),
    };
    Ok((found, rest))
}

#[tactic(auto, unfolding(crate::specs::Code::ReadingModules::collection_at))]
fn collection(alloc: Global, terminals: &[Terminal]) -> CollectionRead<'_>
    ensures { Gives (λ x. (x.0, x.1.now)) result (collection_at terminals.now) }
{
    match first_kind(terminals) {
        Some(kind) => declared(alloc, kind, behind_first(terminals)),
        None => Err(ReadFault::Left(terminals.len())),
    }
}

#[tactic(auto, using(crate::proofs::Grammar::RepeatLemmas::many_open, crate::proofs::Grammar::RepeatLemmas::many_ended))]
fn collections(alloc: Global, terminals: &[Terminal]) -> CollectionsRead<'_>
    ensures { Gives (λ x. (x.0.items, x.1.now)) result (collections_at terminals.now) }
{
    let mut found = Vec::new(alloc);
    let mut rest = terminals;
    for _ in 0..terminals.len() {
        if first_kind(rest).is_none() {
            return Ok((found, rest));
        }
        let (next, after) = collection(alloc, rest)?;
        found.push(next)?;
        rest = after;
    }
    Ok((found, rest))
}

#[tactic(auto, unfolding(crate::specs::Code::ReadingModules::rule_at))]
fn rule(alloc: Global, terminals: &[Terminal]) -> Result<(Rule, &[Terminal]), ReadFault>
    ensures { Gives (λ x. (rule_form x.0, x.1.now)) result (rule_at terminals.now) }
{
    let (head, rest) = name(alloc, terminals)?;
    let rest = arrow(rest)?;
    let (body, rest) = expr(alloc, MOST_LEVELS, rest)?;
    let rest = mark(Mark::Semicolon, rest)?;
    let body = Box::into_inner(body);
    Ok((Rule { head, body }, rest))
}

#[tactic(auto, using(crate::proofs::Grammar::RepeatLemmas::many_open, crate::proofs::Grammar::RepeatLemmas::many_ended, crate::proofs::Grammar::ModuleCorrect::one_more_rule))]
fn rules(alloc: Global, terminals: &[Terminal]) -> RulesRead<'_>
    ensures { Gives (λ x. (rule_forms x.0.items, x.1.now)) result (rules_at terminals.now) }
{
    let mut found = Vec::new(alloc);
    let mut rest = terminals;
    for _ in 0..terminals.len() {
        if !is_name_first(rest) {
            return Ok((found, rest));
        }
        let (next, after) = rule(alloc, rest)?;
        found.push(next)?;
        rest = after;
    }
    Ok((found, rest))
}

fn end(terminals: &[Terminal]) -> Result<&[Terminal], ReadFault>
    ensures { Gives (λ x. x.now) result (end_at terminals.now) }
{
    match terminals {
        [Terminal::End] => Ok(&[]),
        [Terminal::End, rest @ ..] => Err(ReadFault::Left(rest.len())),
        _ => Err(ReadFault::Left(terminals.len())),
    }
}

#[tactic(auto, unfolding(crate::specs::Code::ReadingModules::module_at))]
fn whole(alloc: Global, terminals: &[Terminal]) -> Result<Module, ReadFault>
    ensures { Gives (λ x. form_of x) result (module_at terminals.now) }
{
    let rest = module_word(terminals)?;
    let (named, rest) = name(alloc, rest)?;
    let rest = mark(Mark::Semicolon, rest)?;
    let (declared, rest) = collections(alloc, rest)?;
    let (written, rest) = rules(alloc, rest)?;
    end(rest)?;
    Ok(Module {
        name: named,
        collections: Items::from_vec(declared),
        rules: Items::from_vec(written),
    })
}

/// Reads the module whose text the terminals are, with the end of the text as the last; else
/// answers how many terminals are left from the first on that no module text has there, or that
/// memory ran out.
#[tactic(auto, using(crate::proofs::Machine::PlacesCorrect::read_is_text, crate::proofs::Machine::PlacesCorrect::place_is_first, crate::proofs::Grammar::ModuleComplete::only_text))]
pub(crate) fn module_of(alloc: Global, terminals: &[Terminal]) -> Result<Module, ReadFault>
    // What is read is a text of the grammar, as the module that the grammar gives.
    ensures read { IfOk result (λ m. IsModuleText terminals.now (form_of m)) }
    // Each text of the grammar is read as the one module that the grammar gives, unless memory runs out.
    ensures only { (m : Form) → IsModuleText terminals.now m → Gives (λ x. form_of x) result (Ok m) }
    // A fault is the first terminal that no module text has there.
    ensures place { IfErr result (λ f. IsPlace terminals.now f) }
    ensures exact { Gives (λ x. form_of x) result (module_at terminals.now) }
{
    whole(alloc, terminals)
}
