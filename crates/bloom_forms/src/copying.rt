//! Copies of modules and of their parts.
ghost use Rattle.std.specs.Prelude.{◌≡◌, take, IfOk};
ghost use Rattle.bloom_forms.specs.Form.{formula_of, query_of, rule_form, rule_forms, form_of};
ghost use Rattle.bloom_forms.specs.Literals.{IsLiteral, TermLiterals, FormulaLiterals, HasLiterals, RulesHaveLiterals};

use crate::expr::{Expr, Pred, Term};
use crate::module::{Module, Rule};
use blz_value::{Faithful, Items, Value};
use std::alloc::{AllocError, Global};

// An equal value. To lend a text shows that it is in UTF-8.
fn copy_literal(value: &Value) -> Result<Value, AllocError>
    ensures copied { IfOk result (λ copy. copy ≡ value.now) }
    ensures literal { IfOk result (λ _. IsLiteral value.now) }
{
    match value {
        Value::Int(number) => Ok(Value::Int(*number)),
        Value::Text(text) => {
            let _lent = text.as_str();
            Ok(Value::Text(text.copy()?))
        }
    }
}

impl Term {
    /// An equal term of its own.
    pub fn copy(&self) -> Result<Term, AllocError>
        ensures copied { IfOk result (λ term. term ≡ self.now) }
        ensures literals { IfOk result (λ _. TermLiterals self.now) }
    {
        match self {
            Term::Column(name) => Ok(Term::Column(name.copy()?)),
            Term::Literal(value) => Ok(Term::Literal(copy_literal(value)?)),
        }
    }
}

fn boxed_pred(alloc: Global, pred: Pred) -> Result<Box<Pred>, AllocError>
    ensures { IfOk result (λ boxed. boxed.value ≡ pred) }
{
    Ok(Box::new(alloc, pred)?)
}

// An equal predicate in a box. It recurses as deep as the predicate.
fn copy_pred(alloc: Global, pred: &Pred) -> Result<Box<Pred>, AllocError>
    ensures copied { IfOk result (λ copy. formula_of copy.value ≡ formula_of pred.now) }
    ensures literals { IfOk result (λ _. FormulaLiterals (formula_of pred.now)) }
{
    match pred {
        Pred::Compare { left, op, right } => {
            let left = left.copy()?;
            let right = right.copy()?;
            let op = *op;
            boxed_pred(alloc, Pred::Compare { left, op, right })
        }
        Pred::And(a, b) => {
            let a = copy_pred(alloc, a)?;
            let b = copy_pred(alloc, b)?;
            boxed_pred(alloc, Pred::And(a, b))
        }
        Pred::Or(a, b) => {
            let a = copy_pred(alloc, a)?;
            let b = copy_pred(alloc, b)?;
            boxed_pred(alloc, Pred::Or(a, b))
        }
        Pred::Not(a) => {
            let a = copy_pred(alloc, a)?;
            boxed_pred(alloc, Pred::Not(a))
        }
    }
}

impl Pred {
    /// An equal predicate of its own.
    pub fn copy(&self, alloc: Global) -> Result<Pred, AllocError>
        ensures copied { IfOk result (λ pred. formula_of pred ≡ formula_of self.now) }
        ensures literals { IfOk result (λ _. FormulaLiterals (formula_of self.now)) }
    {
        let copy = copy_pred(alloc, self)?;
        Ok(Box::into_inner(copy))
    }
}

fn boxed(alloc: Global, expr: Expr) -> Result<Box<Expr>, AllocError>
    ensures { IfOk result (λ boxed. boxed.value ≡ expr) }
{
    Ok(Box::new(alloc, expr)?)
}

// An equal expression in a box. It recurses as deep as the expression.
fn copy_expr(alloc: Global, expr: &Expr) -> Result<Box<Expr>, AllocError>
    ensures copied { IfOk result (λ copy. query_of copy.value ≡ query_of expr.now) }
    ensures literals { IfOk result (λ _. HasLiterals (query_of expr.now)) }
{
    match expr {
        Expr::Base(name) => {
            let name = name.copy()?;
            boxed(alloc, Expr::Base(name))
        }
        Expr::Select(part, pred) => {
            let pred = copy_pred(alloc, pred)?;
            let part = copy_expr(alloc, part)?;
            boxed(alloc, Expr::Select(part, Box::into_inner(pred)))
        }
        Expr::Project(part, items) => {
            let items = items.copied()?;
            let part = copy_expr(alloc, part)?;
            boxed(alloc, Expr::Project(part, items))
        }
        Expr::Join(a, b, pairs) => {
            let a = copy_expr(alloc, a)?;
            let b = copy_expr(alloc, b)?;
            let pairs = pairs.copied()?;
            boxed(alloc, Expr::Join(a, b, pairs))
        }
        Expr::NotIn(a, b, pairs) => {
            let a = copy_expr(alloc, a)?;
            let b = copy_expr(alloc, b)?;
            let pairs = pairs.copied()?;
            boxed(alloc, Expr::NotIn(a, b, pairs))
        }
        Expr::Group(part, keys, agg, name) => {
            let part = copy_expr(alloc, part)?;
            let keys = keys.copied()?;
            let agg = agg.copied()?;
            let name = name.copy()?;
            boxed(alloc, Expr::Group(part, keys, agg, name))
        }
        Expr::AtLeast(part, keys, bound) => {
            let part = copy_expr(alloc, part)?;
            let keys = keys.copied()?;
            boxed(alloc, Expr::AtLeast(part, keys, *bound))
        }
    }
}

impl Expr {
    /// An equal expression of its own.
    pub fn copy(&self, alloc: Global) -> Result<Expr, AllocError>
        ensures copied { IfOk result (λ expr. query_of expr ≡ query_of self.now) }
        ensures literals { IfOk result (λ _. HasLiterals (query_of self.now)) }
    {
        let copy = copy_expr(alloc, self)?;
        Ok(Box::into_inner(copy))
    }
}

impl Rule {
    /// An equal rule of its own.
    pub fn copy(&self, alloc: Global) -> Result<Rule, AllocError>
        ensures copied { IfOk result (λ rule. rule_form rule ≡ rule_form self.now) }
        ensures literals { IfOk result (λ _. HasLiterals (query_of self.now.body)) }
    {
        Ok(Rule {
            head: self.head.copy()?,
            body: self.body.copy(alloc)?,
        })
    }
}

fn copy_rules(alloc: Global, rules: &[Rule]) -> Result<Items<Rule>, AllocError>
    ensures copied { IfOk result (λ copies. rule_forms copies ≡ rule_forms rules.now) }
    ensures literals { IfOk result (λ _. RulesHaveLiterals (rule_forms rules.now)) }
{
    let mut copies = Vec::new(alloc);
    for rule in rules {
        copies.push(rule.copy(alloc)?)?;
    }
    Ok(Items::from_vec(copies))
}

impl Module {
    /// An equal module of its own.
    pub fn copy(&self, alloc: Global) -> Result<Module, AllocError>
        ensures copied { IfOk result (λ copy. form_of copy ≡ form_of self.now) }
        ensures literals { IfOk result (λ _. RulesHaveLiterals (rule_forms self.now.rules)) }
    {
        Ok(Module {
            name: self.name.copy()?,
            collections: self.collections.copied()?,
            rules: copy_rules(alloc, self.rules.as_slice())?,
        })
    }
}
