//! The roots of an expression's columns and the gates of its operators, by numbers.
ghost use Rattle.std.specs.Prelude.{◌≡◌, ◌∷◌, ◌++◌, [], None, bit_and, IfOk};
ghost use Rattle.path_annotate.specs.Code.ByNumber.{roots_by, gate_by};
ghost use Rattle.bloom_forms.specs.Gates as gates;
ghost use Rattle.bloom_forms.specs.HeadRoots as collections;
ghost use Rattle.bloom_forms.specs.Roots as spec;

use bloom_forms::NumberedExpr;
use blz_value::{Attrs, Items};
use path_facts::{joined_roots, pairs_set, roots_at, set_of_roots};
use std::alloc::{AllocError, Global};

/// The roots of an expression's columns, and the attributes in the set of each of its operators.
#[derive(Drop)]
pub(crate) struct Traced {
    pub(crate) roots: Vec<Option<u8>>,
    pub(crate) gate: Attrs,
}

impl Traced {
    fn project(self, alloc: Global, numbers: &[u32]) -> Result<Traced, AllocError>
        ensures roots { IfOk result (λ traced. traced.roots.items ≡ spec.roots_at self.roots.items numbers.now) }
        ensures gate { IfOk result (λ traced. traced.gate ≡ self.gate) }
    {
        Ok(Traced {
            roots: roots_at(alloc, &self.roots, numbers)?,
            gate: self.gate,
        })
    }

    fn join(self, alloc: Global, other: &Traced, pairs: &[(u32, u32)]) -> Result<Traced, AllocError>
        ensures roots { IfOk result (λ traced. traced.roots.items ≡ spec.joined_roots pairs.now self.roots.items other.now.roots.items) }
        ensures gate { IfOk result (λ traced. traced.gate.bits ≡ bit_and (gates.pairs_set pairs.now self.roots.items other.now.roots.items) (bit_and self.gate.bits other.now.gate.bits)) }
    {
        let set = pairs_set(pairs, &self.roots, &other.roots);
        Ok(Traced {
            roots: joined_roots(alloc, pairs, &self.roots, &other.roots)?,
            gate: set.intersection(self.gate.intersection(other.gate)),
        })
    }

    fn not_in(self, other: &Traced, pairs: &[(u32, u32)]) -> Traced
        ensures roots { result.roots.items ≡ self.roots.items }
        ensures gate { result.gate.bits ≡ bit_and (gates.pairs_set pairs.now self.roots.items other.now.roots.items) (bit_and self.gate.bits other.now.gate.bits) }
    {
        let set = pairs_set(pairs, &self.roots, &other.roots);
        Traced {
            gate: set.intersection(self.gate.intersection(other.gate)),
            roots: self.roots,
        }
    }

    fn at_least(self, alloc: Global, keys: &[u32]) -> Result<Traced, AllocError>
        ensures roots { IfOk result (λ traced. traced.roots.items ≡ spec.roots_at self.roots.items keys.now) }
        ensures gate { IfOk result (λ traced. traced.gate.bits ≡ bit_and (gates.set_of_roots (spec.roots_at self.roots.items keys.now)) self.gate.bits) }
    {
        let roots = roots_at(alloc, &self.roots, keys)?;
        let set = set_of_roots(&roots);
        Ok(Traced {
            roots,
            gate: set.intersection(self.gate),
        })
    }

    fn group(self, alloc: Global, keys: &[u32]) -> Result<Traced, AllocError>
        ensures roots { IfOk result (λ traced. traced.roots.items ≡ spec.roots_at self.roots.items keys.now ++ None ∷ []) }
        ensures gate { IfOk result (λ traced. traced.gate.bits ≡ bit_and (gates.set_of_roots (spec.roots_at self.roots.items keys.now)) self.gate.bits) }
    {
        let mut traced = self.at_least(alloc, keys)?;
        traced.roots.push(None)?;
        Ok(traced)
    }
}

/// The roots of a collection by its number; past the end there are none.
pub(crate) fn roots_numbered<'a>(table: &'a [Items<Option<u8>>], number: u32) -> &'a [Option<u8>]
    ensures { result.now ≡ collections.roots_numbered table.now number }
{
    match table.get(number as usize) {
        Some(roots) => roots.as_slice(),
        None => &[],
    }
}

/// Traces an expression, where the collections have these roots. It recurses as deep as the
/// expression.
pub(crate) fn trace(
    alloc: Global,
    all: Attrs,
    table: &[Items<Option<u8>>],
    expr: &NumberedExpr,
) -> Result<Traced, AllocError>
    ensures roots { IfOk result (λ traced. traced.roots.items ≡ roots_by table.now expr.now) }
    ensures gate { IfOk result (λ traced. traced.gate.bits ≡ gate_by all.bits table.now expr.now) }
{
    match expr {
        NumberedExpr::Base(number) => Ok(Traced {
            roots: Vec::from_slice(alloc, roots_numbered(table, *number))?,
            gate: all,
        }),
        NumberedExpr::Select(part, _) => trace(alloc, all, table, part),
        NumberedExpr::Project(part, numbers) => {
            let part = trace(alloc, all, table, part)?;
            part.project(alloc, numbers.as_slice())
        }
        NumberedExpr::Join(left, right, pairs) => {
            let left = trace(alloc, all, table, left)?;
            let right = trace(alloc, all, table, right)?;
            left.join(alloc, &right, pairs.as_slice())
        }
        NumberedExpr::NotIn(left, right, pairs) => {
            let left = trace(alloc, all, table, left)?;
            let right = trace(alloc, all, table, right)?;
            Ok(left.not_in(&right, pairs.as_slice()))
        }
        NumberedExpr::Group(part, keys, _) => {
            let part = trace(alloc, all, table, part)?;
            part.group(alloc, keys.as_slice())
        }
        NumberedExpr::AtLeast(part, keys, _) => {
            let part = trace(alloc, all, table, part)?;
            part.at_least(alloc, keys.as_slice())
        }
    }
}
