//! The numbers of the names in expressions and rules.
ghost use Rattle.std.specs.Prelude.{◌≡◌, ◌≤◌, ◌<◌, ◌++◌, ◌∷◌, [], List, length, IfOk};
ghost use Rattle.blz_value.specs.Members.{Has};
ghost use Rattle.bloom_forms.specs.Borrowed.{names_in};
ghost use Rattle.bloom_forms.specs.Columns as spec;
ghost use Rattle.bloom_forms.specs.Form.{RuleForm, formula_of, query_of, rule_form, rule_forms};
ghost use Rattle.bloom_forms.specs.Lookup.{declared};
ghost use Rattle.bloom_forms.specs.Numbered.{IsNumberable, IsNumberedRule, AreNumbered};
ghost use Rattle.bloom_forms.specs.Code.NumberedParts.{IsNumberedPart};
ghost use Rattle.bloom_forms.specs.Query.{Query};
ghost use Rattle.bloom_forms.specs.Query.Query.{base, select, project, join, notin, group, at_least};
ghost use Rattle.bloom_forms.specs.Rows as rows;
ghost use Rattle.bloom_forms.specs.Tests.{TermFits, FormulaFits, IsOperandOf, IsTestOf};
ghost use Rattle.bloom_forms.specs.declared.module.Collection.{Collection};

use crate::columns;
use crate::expr::{Expr, NamedAgg, Pred, Term};
use crate::lookup::{collection_number, declared};
use crate::module::{Collection, Rule};
use crate::numbered::{NumberedExpr, NumberedRule};
use blz_value::{Agg, Items, Operand, Str, Test};
use std::alloc::{AllocError, Global};

fn column_number(columns: &[&Str], name: &Str) -> u32
    requires { length columns.now ≤ 8 }
    ensures { result ≡ spec.column_number (names_in columns.now) name.now }
{
    columns::column_number(columns, name) as u32
}

fn column_numbers(alloc: Global, columns: &[&Str], names: &[Str]) -> Result<Items<u32>, AllocError>
    requires { length columns.now ≤ 8 }
    ensures { IfOk result (λ numbers. numbers ≡ rows.column_numbers (names_in columns.now) names.now) }
{
    let mut numbers = Vec::new(alloc);
    for name in names {
        numbers.push(column_number(columns, name))?;
    }
    Ok(Items::from_vec(numbers))
}

// The numbers of the columns that items project.
fn item_numbers(
    alloc: Global,
    columns: &[&Str],
    items: &[(Str, Str)],
) -> Result<Items<u32>, AllocError>
    requires { length columns.now ≤ 8 }
    ensures { IfOk result (λ numbers. numbers ≡ rows.item_numbers (names_in columns.now) items.now) }
{
    let mut numbers = Vec::new(alloc);
    for item in items {
        numbers.push(column_number(columns, &item.0))?;
    }
    Ok(Items::from_vec(numbers))
}

fn pair_numbers(
    alloc: Global,
    left: &[&Str],
    right: &[&Str],
    pairs: &[(Str, Str)],
) -> Result<Items<(u32, u32)>, AllocError>
    requires left { length left.now ≤ 8 }
    requires right { length right.now ≤ 8 }
    ensures { IfOk result (λ numbers. numbers ≡ spec.pair_numbers (names_in left.now) (names_in right.now) pairs.now) }
{
    let mut numbers = Vec::new(alloc);
    for pair in pairs {
        numbers.push((column_number(left, &pair.0), column_number(right, &pair.1)))?;
    }
    Ok(Items::from_vec(numbers))
}

// The aggregate over the column with the number of the one that is named.
fn numbered_agg(columns: &[&Str], agg: &NamedAgg) -> Agg
    requires { length columns.now ≤ 8 }
    ensures { result ≡ rows.numbered_agg (names_in columns.now) agg.now }
{
    match agg {
        NamedAgg::Count => Agg::Count,
        NamedAgg::Sum(name) => Agg::Sum(column_number(columns, name)),
        NamedAgg::Min(name) => Agg::Min(column_number(columns, name)),
        NamedAgg::Max(name) => Agg::Max(column_number(columns, name)),
    }
}

// A bound as a number of rows.
fn row_bound(bound: i64) -> u64
    ensures { result ≡ rows.row_bound bound }
{
    if bound < 0 { 0 } else { bound as u64 }
}

#[tactic(auto, using(crate::proofs::Collections::NameNumbers::number_below))]
fn operand(columns: &[&Str], term: &Term) -> Result<Operand, AllocError>
    requires few { length columns.now ≤ 8 }
    requires fits { TermFits (names_in columns.now) term.now }
    ensures { IfOk result (IsOperandOf (names_in columns.now) term.now) }
{
    match term {
        Term::Column(name) => Ok(Operand::Column(column_number(columns, name))),
        Term::Literal(value) => Ok(Operand::Literal(value.copy()?)),
    }
}

// A predicate over rows with these columns, as a test by their numbers.
fn test(alloc: Global, columns: &[&Str], pred: &Pred) -> Result<Test, AllocError>
    requires few { length columns.now ≤ 8 }
    requires fits { FormulaFits (names_in columns.now) (formula_of pred.now) }
    ensures { IfOk result (IsTestOf (names_in columns.now) (formula_of pred.now)) }
{
    match pred {
        Pred::Compare { left, op, right } => Ok(Test::Compare {
            left: operand(columns, left)?,
            op: *op,
            right: operand(columns, right)?,
        }),
        Pred::And(a, b) => {
            let a = Box::new(alloc, test(alloc, columns, a)?)?;
            let b = Box::new(alloc, test(alloc, columns, b)?)?;
            Ok(Test::And(a, b))
        }
        Pred::Or(a, b) => {
            let a = Box::new(alloc, test(alloc, columns, a)?)?;
            let b = Box::new(alloc, test(alloc, columns, b)?)?;
            Ok(Test::Or(a, b))
        }
        Pred::Not(a) => Ok(Test::Not(Box::new(alloc, test(alloc, columns, a)?)?)),
    }
}

// The expression in a box: a part that is held in one costs the prover less than the expression itself.
fn boxed(alloc: Global, expr: NumberedExpr) -> Result<Box<NumberedExpr>, AllocError>
    ensures { IfOk result (λ boxed. boxed.value ≡ expr) }
{
    Ok(Box::new(alloc, expr)?)
}

/// A part of a body by numbers, with the names of its columns.
#[derive(Drop)]
struct NumberedPart<'a> {
    expr: Box<NumberedExpr>,
    columns: Vec<&'a Str>,
}

// The columns of a group: its keys, and the name of the aggregate.
fn group_columns<'a>(
    alloc: Global,
    keys: &'a [Str],
    name: &'a Str,
) -> Result<Vec<&'a Str>, AllocError>
    ensures { IfOk result (λ columns. names_in columns.items ≡ keys.now ++ name.now ∷ []) }
{
    let mut columns = columns::borrowed(alloc, keys)?;
    columns.push(name)?;
    Ok(columns)
}

impl<'a> NumberedPart<'a> {
    fn select(self, alloc: Global, pred: &Pred) -> Result<NumberedPart<'a>, AllocError>
        requires few { length self.columns.items ≤ 8 }
        requires fits { FormulaFits (names_in self.columns.items) (formula_of pred.now) }
        ensures { IfOk result (λ part. (cs : List Collection) (q : Query) → IsNumberedPart cs q self.entry → IsNumberedPart cs (select q (formula_of pred.now)) part) }
    {
        let NumberedPart { expr, columns } = self;
        let test = test(alloc, &columns, pred)?;
        let expr = boxed(alloc, NumberedExpr::Select(expr, test))?;
        Ok(NumberedPart { expr, columns })
    }

    fn project(self, alloc: Global, items: &'a [(Str, Str)]) -> Result<NumberedPart<'a>, AllocError>
        requires { length self.columns.items ≤ 8 }
        ensures { IfOk result (λ part. (cs : List Collection) (q : Query) → IsNumberable (declared cs) (project q items.now) → IsNumberedPart cs q self.entry → IsNumberedPart cs (project q items.now) part) }
    {
        let NumberedPart { expr, columns } = self;
        let numbers = item_numbers(alloc, &columns, items)?;
        let expr = boxed(alloc, NumberedExpr::Project(expr, numbers))?;
        let columns = columns::seconds(alloc, items)?;
        Ok(NumberedPart { expr, columns })
    }

    fn join(
        self,
        alloc: Global,
        other: NumberedPart<'a>,
        pairs: &[(Str, Str)],
    ) -> Result<NumberedPart<'a>, AllocError>
        requires left { length self.columns.items ≤ 8 }
        requires right { length other.columns.items ≤ 8 }
        ensures { IfOk result (λ part. (cs : List Collection) (a b : Query) → IsNumberable (declared cs) (join a b pairs.now) → IsNumberedPart cs a self.entry → IsNumberedPart cs b other.entry → IsNumberedPart cs (join a b pairs.now) part) }
    {
        let NumberedPart {
            expr: left,
            columns,
        } = self;
        let NumberedPart {
            expr: right,
            columns: others,
        } = other;
        let numbers = pair_numbers(alloc, &columns, &others, pairs)?;
        let expr = boxed(alloc, NumberedExpr::Join(left, right, numbers))?;
        let all = columns::joined(columns, &others, pairs)?;
        Ok(NumberedPart { expr, columns: all })
    }

    fn not_in(
        self,
        alloc: Global,
        other: NumberedPart<'_>,
        pairs: &[(Str, Str)],
    ) -> Result<NumberedPart<'a>, AllocError>
        requires left { length self.columns.items ≤ 8 }
        requires right { length other.columns.items ≤ 8 }
        ensures { IfOk result (λ part. (cs : List Collection) (a b : Query) → IsNumberedPart cs a self.entry → IsNumberedPart cs b other.entry → IsNumberedPart cs (notin a b pairs.now) part) }
    {
        let NumberedPart {
            expr: left,
            columns,
        } = self;
        let NumberedPart {
            expr: right,
            columns: others,
        } = other;
        let numbers = pair_numbers(alloc, &columns, &others, pairs)?;
        let expr = boxed(alloc, NumberedExpr::NotIn(left, right, numbers))?;
        Ok(NumberedPart { expr, columns })
    }

    fn group(
        self,
        alloc: Global,
        keys: &'a [Str],
        agg: &NamedAgg,
        name: &'a Str,
    ) -> Result<NumberedPart<'a>, AllocError>
        requires { length self.columns.items ≤ 8 }
        ensures { IfOk result (λ part. (cs : List Collection) (q : Query) → IsNumberable (declared cs) (group q keys.now agg.now name.now) → IsNumberedPart cs q self.entry → IsNumberedPart cs (group q keys.now agg.now name.now) part) }
    {
        let NumberedPart { expr, columns } = self;
        let numbers = column_numbers(alloc, &columns, keys)?;
        let agg = numbered_agg(&columns, agg);
        let expr = boxed(alloc, NumberedExpr::Group(expr, numbers, agg))?;
        let all = group_columns(alloc, keys, name)?;
        Ok(NumberedPart { expr, columns: all })
    }

    fn at_least(
        self,
        alloc: Global,
        keys: &'a [Str],
        bound: i64,
    ) -> Result<NumberedPart<'a>, AllocError>
        requires { length self.columns.items ≤ 8 }
        ensures { IfOk result (λ part. (cs : List Collection) (q : Query) → IsNumberable (declared cs) (at_least q keys.now bound) → IsNumberedPart cs q self.entry → IsNumberedPart cs (at_least q keys.now bound) part) }
    {
        let NumberedPart { expr, columns } = self;
        let numbers = column_numbers(alloc, &columns, keys)?;
        let expr = boxed(
            alloc,
            NumberedExpr::AtLeast(expr, numbers, row_bound(bound)),
        )?;
        let columns = columns::borrowed(alloc, keys)?;
        Ok(NumberedPart { expr, columns })
    }
}

// The collection of a name, by its number.
fn base_part<'a>(
    alloc: Global,
    collections: &'a [Collection],
    name: &Str,
) -> Result<NumberedPart<'a>, AllocError>
    requires few { length collections.now ≤ 32 }
    requires narrow { IsNumberable (declared collections.now) (base name.now) }
    ensures { IfOk result (IsNumberedPart collections.now (base name.now)) }
{
    let columns = columns::borrowed(alloc, declared(collections, name))?;
    let number = collection_number(collections, name) as u32;
    let expr = boxed(alloc, NumberedExpr::Base(number))?;
    Ok(NumberedPart { expr, columns })
}

// An expression by numbers. It recurses as deep as the expression.
fn numbered_part<'a>(
    alloc: Global,
    collections: &'a [Collection],
    expr: &'a Expr,
) -> Result<NumberedPart<'a>, AllocError>
    requires few { length collections.now ≤ 32 }
    requires numberable { IsNumberable (declared collections.now) (query_of expr.now) }
    ensures { IfOk result (IsNumberedPart collections.now (query_of expr.now)) }
{
    match expr {
        Expr::Base(name) => base_part(alloc, collections, name),
        Expr::Select(part, pred) => {
            let part = numbered_part(alloc, collections, part)?;
            part.select(alloc, pred)
        }
        Expr::Project(part, items) => {
            let part = numbered_part(alloc, collections, part)?;
            part.project(alloc, items.as_slice())
        }
        Expr::Join(left, right, pairs) => {
            let left = numbered_part(alloc, collections, left)?;
            let right = numbered_part(alloc, collections, right)?;
            left.join(alloc, right, pairs.as_slice())
        }
        Expr::NotIn(left, right, pairs) => {
            let left = numbered_part(alloc, collections, left)?;
            let right = numbered_part(alloc, collections, right)?;
            left.not_in(alloc, right, pairs.as_slice())
        }
        Expr::Group(part, keys, agg, name) => {
            let part = numbered_part(alloc, collections, part)?;
            part.group(alloc, keys.as_slice(), agg, name)
        }
        Expr::AtLeast(part, keys, bound) => {
            let part = numbered_part(alloc, collections, part)?;
            part.at_least(alloc, keys.as_slice(), *bound)
        }
    }
}

fn numbered_rule(
    alloc: Global,
    collections: &[Collection],
    rule: &Rule,
) -> Result<NumberedRule, AllocError>
    requires few { length collections.now ≤ 32 }
    requires numberable { IsNumberable (declared collections.now) (query_of rule.now.body) }
    ensures { IfOk result (IsNumberedRule collections.now (rule_form rule.now)) }
{
    let part = numbered_part(alloc, collections, &rule.body)?;
    Ok(NumberedRule {
        head: collection_number(collections, &rule.head) as u32,
        body: Box::into_inner(part.expr),
    })
}

/// The rules with their names as numbers.
pub(crate) fn numbered_rules(
    alloc: Global,
    collections: &[Collection],
    rules: &[Rule],
) -> Result<Vec<NumberedRule>, AllocError>
    requires few { length collections.now ≤ 32 }
    requires numberable { (rule : RuleForm) → Has rule (rule_forms rules.now) → IsNumberable (declared collections.now) rule.1 }
    ensures { IfOk result (λ numbered. AreNumbered collections.now (rule_forms rules.now) numbered.items) }
{
    let mut numbered = Vec::new(alloc);
    for rule in rules {
        numbered.push(numbered_rule(alloc, collections, rule)?)?;
    }
    Ok(numbered)
}
