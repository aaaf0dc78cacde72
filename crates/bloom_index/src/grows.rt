//! Which collections and expressions are kept, as their rows come from tables alone, and which of them
//! grow, as they do without group and notin.
ghost use Rattle.std.specs.Prelude.{◌≡◌, ◌<◌, false, length, replicate, slice_index_or, IfOk};
ghost use Rattle.std.specs.List.{list_all};
ghost use Rattle.bloom_forms.specs.Kinds.{kind_at};
ghost use Rattle.bloom_index.specs.Code.Growth.{grows, grows_for, rules_grow, kind_grows, AreMarkedBelow, AreGrowing};
ghost use Rattle.bloom_index.specs.Code.Lasting.{lasts, lasts_for, rules_last, AreLastingBelow, AreLasting};

use bloom_forms::{Checked, Kind, NumberedExpr, NumberedRule};
use std::alloc::{AllocError, Global};

// Whether a collection is marked. One that there isn't isn't.
fn is_marked(marks: &[bool], number: u32) -> bool
    ensures { result ≡ slice_index_or marks.now number false }
{
    match marks.get(number as usize) {
        Some(here) => *here,
        None => false,
    }
}

/// Whether an expression grows.
pub(crate) fn grows(expr: &NumberedExpr, growing: &[bool]) -> bool
    ensures { result ≡ grows growing.now expr.now }
{
    match expr {
        NumberedExpr::Base(number) => is_marked(growing, *number),
        NumberedExpr::Select(part, _) => grows(part, growing),
        NumberedExpr::Project(part, _) => grows(part, growing),
        NumberedExpr::Join(a, b, _) => grows(a, growing) && grows(b, growing),
        NumberedExpr::NotIn(_, _, _) => false,
        NumberedExpr::Group(_, _, _) => false,
        NumberedExpr::AtLeast(part, _, _) => grows(part, growing),
    }
}

// Whether a rule is of another head, or its body grows.
fn grows_for(rule: &NumberedRule, head: u32, growing: &[bool]) -> bool
    ensures { result ≡ grows_for growing.now head rule.now }
{
    rule.head != head || grows(&rule.body, growing)
}

// Whether all rules of a head grow.
fn rules_grow(rules: &[NumberedRule], head: u32, growing: &[bool]) -> bool
    ensures { result ≡ list_all (grows_for growing.now head) rules.now }
{
    rules.iter().all(|rule| grows_for(rule, head, growing))
}

// Whether a collection grows, where those that its rules name are marked.
fn head_grows(program: &Checked, head: u32, growing: &[bool]) -> bool
    requires within { head < length program.now.form.collections }
    requires marked { AreMarkedBelow program.now.form growing.now head }
    ensures { result ≡ kind_grows (kind_at program.now.form.collections head) (rules_grow program.now.form head) }
{
    let collections = program.module().collections.as_slice();
    match collections[head as usize].kind {
        Kind::Input => false,
        Kind::Table => true,
        Kind::Output | Kind::Scratch => rules_grow(program.rules(), head, growing),
    }
}

// Whether an expression is kept.
fn lasts(expr: &NumberedExpr, lasting: &[bool]) -> bool
    ensures { result ≡ lasts lasting.now expr.now }
{
    match expr {
        NumberedExpr::Base(number) => is_marked(lasting, *number),
        NumberedExpr::Select(part, _) => lasts(part, lasting),
        NumberedExpr::Project(part, _) => lasts(part, lasting),
        NumberedExpr::Join(a, b, _) => lasts(a, lasting) && lasts(b, lasting),
        NumberedExpr::NotIn(a, b, _) => lasts(a, lasting) && lasts(b, lasting),
        NumberedExpr::Group(part, _, _) => lasts(part, lasting),
        NumberedExpr::AtLeast(part, _, _) => lasts(part, lasting),
    }
}

// Whether a rule is of another head, or its body is kept.
fn lasts_for(rule: &NumberedRule, head: u32, lasting: &[bool]) -> bool
    ensures { result ≡ lasts_for lasting.now head rule.now }
{
    rule.head != head || lasts(&rule.body, lasting)
}

// Whether all rules of a head are kept.
fn rules_last(rules: &[NumberedRule], head: u32, lasting: &[bool]) -> bool
    ensures { result ≡ list_all (lasts_for lasting.now head) rules.now }
{
    rules.iter().all(|rule| lasts_for(rule, head, lasting))
}

// Whether a collection is kept, where those that its rules name are marked.
fn head_lasts(program: &Checked, head: u32, lasting: &[bool]) -> bool
    requires within { head < length program.now.form.collections }
    requires marked { AreLastingBelow program.now.form lasting.now head }
    ensures { result ≡ kind_grows (kind_at program.now.form.collections head) (rules_last program.now.form head) }
{
    let collections = program.module().collections.as_slice();
    match collections[head as usize].kind {
        Kind::Input => false,
        Kind::Table => true,
        Kind::Output | Kind::Scratch => rules_last(program.rules(), head, lasting),
    }
}

// So many marks of collections that aren't so.
fn no_marks(alloc: Global, count: usize) -> Result<Vec<bool>, AllocError>
    ensures { IfOk result (λ marks. marks.items ≡ replicate count false) }
{
    Ok(vec![in alloc; false; count]?)
}

/// Which collections are kept: tables, and scratches and outputs all of whose rules are.
pub(crate) fn lasting_heads(alloc: Global, program: &Checked) -> Result<Vec<bool>, AllocError>
    ensures { IfOk result (λ lasting. AreLasting program.now lasting.items) }
{
    let collections = program.module().collections.as_slice();
    let mut lasting = no_marks(alloc, collections.len())?;
    // A head comes after those that its rules name.
    for head in program.heads() {
        let here = head_lasts(program, *head, &lasting);
        lasting[*head as usize] = here;
    }
    Ok(lasting)
}

/// Which collections grow: tables, and scratches and outputs all whose rules grow.
pub(crate) fn growing_heads(alloc: Global, program: &Checked) -> Result<Vec<bool>, AllocError>
    ensures { IfOk result (λ growing. AreGrowing program.now growing.items) }
{
    let collections = program.module().collections.as_slice();
    let mut growing = no_marks(alloc, collections.len())?;
    // A head comes after those that its rules name.
    for head in program.heads() {
        let here = head_grows(program, *head, &growing);
        growing[*head as usize] = here;
    }
    Ok(growing)
}
