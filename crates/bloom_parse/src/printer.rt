//! The text of a module.
ghost use Rattle.std.specs.Prelude.{◌≡◌, ◌++◌, [], ◌∷◌, if◌then◌else◌, map, codes, OnOk, IfOk};
ghost use Rattle.std.specs.List.{flat_map};
ghost use Rattle.bloom_forms.specs.Form.{formula_of, query_of, rule_form, rule_forms};
ghost use Rattle.bloom_parse.specs.declared.lexing.terminal.Terminal.TheVariants as terminals;
ghost use Rattle.bloom_parse.specs.Trees as trees;
ghost use Rattle.bloom_parse.specs.Spelling as spelling;
ghost use Rattle.bloom_parse.specs.Layout as spec;
ghost use Rattle.bloom_parse.specs.Code.Printing as printing;
ghost use Rattle.bloom_parse.specs.Parsing.{IsTextOf};

use bloom_forms::{Checked, Collection, Expr, Kind, NamedAgg, Pred, Rule, Term};
use blz_value::{Op, Str, Value, write_value};
use std::alloc::{AllocError, Global};

// Which parentheses a predicate needs where it stands: none, none around `and`, or none around a
// single unit.
#[derive(Clone, Copy, PartialEq, Eq)]
pub(crate) enum Place {
    /// A whole predicate.
    Whole,
    /// A side of `or` or the left side of `and`.
    Side,
    /// The right side of `and`, or behind `not`.
    Single,
}

fn push_name(name: &Str, into: &mut Vec<u8>) -> Result<(), AllocError>
    ensures { OnOk result (into.new.items ≡ into.old.items ++ name.now) }
{
    into.extend_from_slice(name.as_str().as_bytes())
}

fn push_op(op: Op, into: &mut Vec<u8>) -> Result<(), AllocError>
    ensures { OnOk result (into.new.items ≡ into.old.items ++ spelling.op_bytes op) }
{
    match op {
        Op::Eq => into.extend_from_slice(b"="),
        Op::Ne => into.extend_from_slice(b"!="),
        Op::Lt => into.extend_from_slice(b"<"),
        Op::Le => into.extend_from_slice(b"<="),
        Op::Gt => into.extend_from_slice(b">"),
        Op::Ge => into.extend_from_slice(b">="),
    }
}

fn push_term(term: &Term, into: &mut Vec<u8>) -> Result<(), AllocError>
    ensures { OnOk result (into.new.items ≡ into.old.items ++ spelling.spelled (trees.term_token term.now)) }
{
    match term {
        Term::Column(name) => push_name(name, into),
        Term::Literal(value) => write_value(value, into),
    }
}

fn push_comparison(left: &Term, op: Op, right: &Term, into: &mut Vec<u8>) -> Result<(), AllocError>
    ensures { OnOk result (into.new.items ≡ into.old.items ++ spec.text_of (trees.term_token left.now ∷ terminals.Sign op ∷ trees.term_token right.now ∷ [])) }
{
    push_term(left, into)?;
    into.push(b' ')?;
    push_op(op, into)?;
    into.push(b' ')?;
    push_term(right, into)
}

impl Place {
    fn encloses_and(self) -> bool
        ensures { result ≡ printing.encloses_and self }
    {
        match self {
            Place::Whole | Place::Side => false,
            Place::Single => true,
        }
    }

    fn encloses_or(self) -> bool
        ensures { result ≡ printing.encloses_or self }
    {
        match self {
            Place::Whole => false,
            Place::Side | Place::Single => true,
        }
    }
}

fn push_if(needed: bool, byte: u8, into: &mut Vec<u8>) -> Result<(), AllocError>
    ensures { OnOk result (into.new.items ≡ into.old.items ++ (if needed then byte ∷ [] else [])) }
{
    if needed {
        into.push(byte)?;
    }
    Ok(())
}

pub(crate) fn push_pred(pred: &Pred, place: Place, into: &mut Vec<u8>) -> Result<(), AllocError>
    ensures { OnOk result (into.new.items ≡ into.old.items ++ spec.text_of (printing.placed place (spec.levels (formula_of pred.now)))) }
{
    match pred {
        Pred::Compare { left, op, right } => push_comparison(left, *op, right, into),
        Pred::Not(part) => {
            into.extend_from_slice(b"not ")?;
            push_pred(part, Place::Single, into)
        }
        Pred::And(left, right) => {
            push_if(place.encloses_and(), b'(', into)?;
            push_pred(left, Place::Side, into)?;
            into.extend_from_slice(b" and ")?;
            push_pred(right, Place::Single, into)?;
            push_if(place.encloses_and(), b')', into)
        }
        Pred::Or(left, right) => {
            push_if(place.encloses_or(), b'(', into)?;
            push_pred(left, Place::Whole, into)?;
            into.extend_from_slice(b" or ")?;
            push_pred(right, Place::Side, into)?;
            push_if(place.encloses_or(), b')', into)
        }
    }
}

// ---- lists

fn push_more_names(names: &[Str], into: &mut Vec<u8>) -> Result<(), AllocError>
    ensures { OnOk result (into.new.items ≡ into.old.items ++ spec.text_of (trees.more_names_text names.now)) }
{
    for name in names {
        into.extend_from_slice(b", ")?;
        push_name(name, into)?;
    }
    Ok(())
}

fn push_names(names: &[Str], into: &mut Vec<u8>) -> Result<(), AllocError>
    ensures { OnOk result (into.new.items ≡ into.old.items ++ spec.text_of (printing.names_text names.now)) }
{
    match names {
        [] => Ok(()),
        [first, more @ ..] => {
            push_name(first, into)?;
            push_more_names(more, into)
        }
    }
}

fn push_keys(keys: &[Str], into: &mut Vec<u8>) -> Result<(), AllocError>
    ensures { OnOk result (into.new.items ≡ into.old.items ++ spec.text_of (trees.keys_text keys.now)) }
{
    into.push(b'[')?;
    push_names(keys, into)?;
    into.push(b']')?;
    Ok(())
}

fn push_item(item: &(Str, Str), into: &mut Vec<u8>) -> Result<(), AllocError>
    ensures { OnOk result (into.new.items ≡ into.old.items ++ spec.text_of (trees.item_text (spec.item_of item.now))) }
{
    let (column, name) = item;
    push_name(column, into)?;
    if !column.equals(name) {
        into.extend_from_slice(b" as ")?;
        push_name(name, into)?;
    }
    Ok(())
}

fn push_more_items(items: &[(Str, Str)], into: &mut Vec<u8>) -> Result<(), AllocError>
    ensures { OnOk result (into.new.items ≡ into.old.items ++ spec.text_of (trees.more_items_text (map spec.item_of items.now))) }
{
    for item in items {
        into.extend_from_slice(b", ")?;
        push_item(item, into)?;
    }
    Ok(())
}

fn push_items(items: &[(Str, Str)], into: &mut Vec<u8>) -> Result<(), AllocError>
    ensures { OnOk result (into.new.items ≡ into.old.items ++ spec.text_of (printing.items_text items.now)) }
{
    match items {
        [] => Ok(()),
        [first, more @ ..] => {
            push_item(first, into)?;
            push_more_items(more, into)
        }
    }
}

fn push_pairs(pairs: &[(Str, Str)], into: &mut Vec<u8>) -> Result<(), AllocError>
    ensures { OnOk result (into.new.items ≡ into.old.items ++ spec.text_of (trees.more_pairs_text pairs.now)) }
{
    for (left, right) in pairs {
        into.extend_from_slice(b", ")?;
        push_name(left, into)?;
        into.extend_from_slice(b" = ")?;
        push_name(right, into)?;
    }
    Ok(())
}

fn push_agg_of(word: &str, column: &Str, into: &mut Vec<u8>) -> Result<(), AllocError>
    ensures { OnOk result (into.new.items ≡ into.old.items ++ (word.now ++ (codes "(" ++ (column.now ++ codes ")")))) }
{
    into.extend_from_slice(word.as_bytes())?;
    into.push(b'(')?;
    push_name(column, into)?;
    into.push(b')')?;
    Ok(())
}

fn push_agg(agg: &NamedAgg, into: &mut Vec<u8>) -> Result<(), AllocError>
    ensures { OnOk result (into.new.items ≡ into.old.items ++ spec.text_of (trees.agg_text agg.now)) }
{
    match agg {
        NamedAgg::Count => into.extend_from_slice(b"count"),
        NamedAgg::Sum(column) => push_agg_of("sum", column, into),
        NamedAgg::Min(column) => push_agg_of("min", column, into),
        NamedAgg::Max(column) => push_agg_of("max", column, into),
    }
}

// ---- expressions

// The end of a select, behind its part.
fn push_test(pred: &Pred, into: &mut Vec<u8>) -> Result<(), AllocError>
    ensures { OnOk result (into.new.items ≡ into.old.items ++ spec.text_of (printing.test_text (formula_of pred.now))) }
{
    into.extend_from_slice(b", ")?;
    push_pred(pred, Place::Whole, into)?;
    Ok(into.push(b')')?)
}

// The end of a project, behind its part.
fn push_projected(items: &[(Str, Str)], into: &mut Vec<u8>) -> Result<(), AllocError>
    ensures { OnOk result (into.new.items ≡ into.old.items ++ spec.text_of (printing.projected_text items.now)) }
{
    into.extend_from_slice(b", ")?;
    push_items(items, into)?;
    Ok(into.push(b')')?)
}

// The end of a join or a notin, behind its second part.
fn push_matched(pairs: &[(Str, Str)], into: &mut Vec<u8>) -> Result<(), AllocError>
    ensures { OnOk result (into.new.items ≡ into.old.items ++ spec.text_of (printing.matched_text pairs.now)) }
{
    push_pairs(pairs, into)?;
    Ok(into.push(b')')?)
}

// The end of a group, behind its part.
fn push_named_agg(
    keys: &[Str],
    agg: &NamedAgg,
    name: &Str,
    into: &mut Vec<u8>,
) -> Result<(), AllocError>
    ensures { OnOk result (into.new.items ≡ into.old.items ++ spec.text_of (printing.named_agg_text keys.now agg.now name.now)) }
{
    into.extend_from_slice(b", ")?;
    push_keys(keys, into)?;
    into.extend_from_slice(b", ")?;
    push_agg(agg, into)?;
    into.extend_from_slice(b" as ")?;
    push_name(name, into)?;
    Ok(into.push(b')')?)
}

// The end of an atleast, behind its part.
fn push_bound(keys: &[Str], bound: i64, into: &mut Vec<u8>) -> Result<(), AllocError>
    ensures { OnOk result (into.new.items ≡ into.old.items ++ spec.text_of (printing.bound_text keys.now bound)) }
{
    into.extend_from_slice(b", ")?;
    push_keys(keys, into)?;
    into.extend_from_slice(b", ")?;
    write_value(&Value::Int(bound), into)?;
    Ok(into.push(b')')?)
}

pub(crate) fn push_expr(expr: &Expr, into: &mut Vec<u8>) -> Result<(), AllocError>
    ensures { OnOk result (into.new.items ≡ into.old.items ++ spec.text_of (trees.expr_text (spec.tree_of (query_of expr.now)))) }
{
    match expr {
        Expr::Base(name) => push_name(name, into),
        Expr::Select(part, pred) => {
            into.extend_from_slice(b"select(")?;
            push_expr(part, into)?;
            push_test(pred, into)
        }
        Expr::Project(part, items) => {
            into.extend_from_slice(b"project(")?;
            push_expr(part, into)?;
            push_projected(items.as_slice(), into)
        }
        Expr::Join(left, right, pairs) => {
            into.extend_from_slice(b"join(")?;
            push_expr(left, into)?;
            into.extend_from_slice(b", ")?;
            push_expr(right, into)?;
            push_matched(pairs.as_slice(), into)
        }
        Expr::NotIn(left, right, pairs) => {
            into.extend_from_slice(b"notin(")?;
            push_expr(left, into)?;
            into.extend_from_slice(b", ")?;
            push_expr(right, into)?;
            push_matched(pairs.as_slice(), into)
        }
        Expr::Group(part, keys, agg, name) => {
            into.extend_from_slice(b"group(")?;
            push_expr(part, into)?;
            push_named_agg(keys.as_slice(), agg, name, into)
        }
        Expr::AtLeast(part, keys, bound) => {
            into.extend_from_slice(b"atleast(")?;
            push_expr(part, into)?;
            push_bound(keys.as_slice(), *bound, into)
        }
    }
}

// ---- modules

fn push_kind(kind: Kind, into: &mut Vec<u8>) -> Result<(), AllocError>
    ensures { OnOk result (into.new.items ≡ into.old.items ++ spelling.word_bytes (trees.kind_word kind)) }
{
    match kind {
        Kind::Input => into.extend_from_slice(b"input"),
        Kind::Output => into.extend_from_slice(b"output"),
        Kind::Table => into.extend_from_slice(b"table"),
        Kind::Scratch => into.extend_from_slice(b"scratch"),
    }
}

fn push_collection(collection: &Collection, into: &mut Vec<u8>) -> Result<(), AllocError>
    ensures { OnOk result (into.new.items ≡ into.old.items ++ spec.text_of (trees.collection_text (spec.collection_tree collection.now))) }
{
    push_kind(collection.kind, into)?;
    into.push(b' ')?;
    push_name(&collection.name, into)?;
    into.push(b'(')?;
    push_names(collection.columns.as_slice(), into)?;
    into.extend_from_slice(b");\n")
}

fn push_rule(rule: &Rule, into: &mut Vec<u8>) -> Result<(), AllocError>
    ensures { OnOk result (into.new.items ≡ into.old.items ++ spec.text_of (trees.rule_text (spec.rule_tree (rule_form rule.now)))) }
{
    push_name(&rule.head, into)?;
    into.extend_from_slice(b" <= ")?;
    push_expr(&rule.body, into)?;
    into.extend_from_slice(b";\n")
}

fn push_collections(collections: &[Collection], into: &mut Vec<u8>) -> Result<(), AllocError>
    ensures { OnOk result (into.new.items ≡ into.old.items ++ spec.text_of (flat_map trees.collection_text (map spec.collection_tree collections.now))) }
{
    for collection in collections {
        push_collection(collection, into)?;
    }
    Ok(())
}

fn push_rules(rules: &[Rule], into: &mut Vec<u8>) -> Result<(), AllocError>
    ensures { OnOk result (into.new.items ≡ into.old.items ++ spec.text_of (flat_map trees.rule_text (map spec.rule_tree (rule_forms rules.now)))) }
{
    for rule in rules {
        push_rule(rule, into)?;
    }
    Ok(())
}

/// The text of a module, a line for its name and one for each collection and each rule. What
/// `parse` reads of it is the module again.
pub fn print(alloc: Global, module: &Checked) -> Result<Vec<u8>, AllocError>
    ensures text { IfOk result (λ text. text.items ≡ spec.printed module.now.form) }
    ensures read_again { IfOk result (λ text. IsTextOf text.items module.now.form) }
{
    let module = module.module();
    let mut text = Vec::new(alloc);
    text.extend_from_slice(b"module ")?;
    push_name(&module.name, &mut text)?;
    text.extend_from_slice(b";\n")?;
    push_collections(module.collections.as_slice(), &mut text)?;
    push_rules(module.rules.as_slice(), &mut text)?;
    Ok(text)
}
