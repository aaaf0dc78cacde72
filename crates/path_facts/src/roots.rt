//! Lists of roots: what each operator makes of them, their sets, and the root on which rules agree.
ghost use Rattle.std.specs.Prelude.{◌≡◌, ◌∷◌, ◌++◌, [], None, if◌then◌else◌, IfOk, OnOk};
ghost use Rattle.std.specs.List.{list_all};
ghost use Rattle.blz_value.specs.Operators.{unpaired};
ghost use Rattle.blz_value.specs.Operators as operators;
ghost use Rattle.bloom_forms.specs.Gates as gates;
ghost use Rattle.bloom_forms.specs.HeadRoots as collections;
ghost use Rattle.bloom_forms.specs.Roots as spec;

use blz_value::{Attrs, Items};
use std::alloc::{AllocError, Global};

// The root of the column with the number; past the end there is none.
fn root_at(roots: &[Option<u8>], number: usize) -> Option<u8>
    ensures { result ≡ spec.root_at roots.now number }
{
    match roots.get(number) {
        Some(root) => *root,
        None => None,
    }
}

// Whether both columns have a root, and it is the same.
fn are_same(a: Option<u8>, b: Option<u8>) -> bool
    ensures { result ≡ spec.are_same a b }
{
    match (a, b) {
        (Some(a), Some(b)) => a == b,
        (Some(_), None) => false,
        (None, _) => false,
    }
}

/// The roots of some columns by their numbers.
pub fn roots_at(
    alloc: Global,
    roots: &[Option<u8>],
    numbers: &[u32],
) -> Result<Vec<Option<u8>>, AllocError>
    ensures { IfOk result (λ some. some.items ≡ spec.roots_at roots.now numbers.now) }
{
    numbers
        .iter()
        .map(|number| root_at(roots, *number as usize))
        .collect(alloc)
}

// Whether a left column stands in a pair whose right column has the same root.
fn is_equated(pairs: &[(u32, u32)], right: &[Option<u8>], number: usize, root: Option<u8>) -> bool
    ensures { result ≡ spec.is_equated pairs.now right.now number root }
{
    pairs.iter().any(|pair| {
        pair.0 as usize == number && are_same(root, root_at(right, pair.1 as usize))
    })
}

fn is_paired(pairs: &[(u32, u32)], number: usize) -> bool
    ensures { result ≡ operators.is_paired pairs.now number }
{
    pairs.iter().any(|pair| pair.1 as usize == number)
}

// The left columns, of which those that are equated keep their roots.
fn kept_roots(
    alloc: Global,
    pairs: &[(u32, u32)],
    left: &[Option<u8>],
    right: &[Option<u8>],
) -> Result<Vec<Option<u8>>, AllocError>
    ensures { IfOk result (λ kept. kept.items ≡ spec.kept_roots pairs.now left.now right.now) }
{
    left.iter()
        .enumerate()
        .map(|(i, root)| if is_equated(pairs, right, i, *root) {
            *root
        } else {
            None
        })
        .collect(alloc)
}

// Adds a column without a root, where the test holds.
fn add_if(roots: &mut Vec<Option<u8>>, here: bool) -> Result<(), AllocError>
    ensures { OnOk result (roots.new.items ≡ roots.old.items ++ (if here then None ∷ [] else [])) }
{
    if here {
        roots.push(None)?;
    }
    Ok(())
}

// Adds the right columns that stand in no pair, which have no root.
fn add_unpaired(
    roots: &mut Vec<Option<u8>>,
    pairs: &[(u32, u32)],
    right: &[Option<u8>],
) -> Result<(), AllocError>
    ensures { OnOk result (roots.new.items ≡ roots.old.items ++ spec.no_roots (unpaired pairs.now right.now)) }
{
    for (i, _) in right.iter().enumerate() {
        add_if(roots, !is_paired(pairs, i))?;
    }
    Ok(())
}

/// The roots of a join's columns: left ones that are equated keep theirs.
pub fn joined_roots(
    alloc: Global,
    pairs: &[(u32, u32)],
    left: &[Option<u8>],
    right: &[Option<u8>],
) -> Result<Vec<Option<u8>>, AllocError>
    ensures { IfOk result (λ roots. roots.items ≡ spec.joined_roots pairs.now left.now right.now) }
{
    let mut roots = kept_roots(alloc, pairs, left, right)?;
    add_unpaired(&mut roots, pairs, right)?;
    Ok(roots)
}

// The set of a root.
fn root_set(root: Option<u8>) -> Attrs
    ensures { result.bits ≡ gates.root_set root }
{
    match root {
        None => Attrs::from_bits(0),
        Some(attribute) => Attrs::of(attribute as usize),
    }
}

/// The set of some roots.
pub fn set_of_roots(roots: &[Option<u8>]) -> Attrs
    ensures { result.bits ≡ gates.set_of_roots roots.now }
{
    let mut set = Attrs::from_bits(0);
    for root in roots {
        set = set.union(root_set(*root));
    }
    set
}

// The root of a pair, where both its columns have the same.
fn pair_root(left: &[Option<u8>], right: &[Option<u8>], pair: (u32, u32)) -> Option<u8>
    ensures { result ≡ gates.pair_root left.now right.now pair }
{
    let root = root_at(left, pair.0 as usize);
    if are_same(root, root_at(right, pair.1 as usize)) {
        root
    } else {
        None
    }
}

/// The set of the roots of pairs.
pub fn pairs_set(pairs: &[(u32, u32)], left: &[Option<u8>], right: &[Option<u8>]) -> Attrs
    ensures { result.bits ≡ gates.pairs_set pairs.now left.now right.now }
{
    let mut set = Attrs::from_bits(0);
    for pair in pairs {
        set = set.union(root_set(pair_root(left, right, *pair)));
    }
    set
}

// Whether all of some rules give a column the root that a first one gives it.
fn all_give(first: &[Option<u8>], given: &[Items<Option<u8>>], number: usize) -> bool
    ensures { result ≡ list_all (λ other. spec.are_same (spec.root_at first.now number) (spec.root_at other number)) given.now }
{
    given.iter().all(|other| {
        are_same(root_at(first, number), root_at(other.as_slice(), number))
    })
}

/// The root that all of some rules give a column, where there is a rule.
pub fn agreed_root(given: &[Items<Option<u8>>], number: usize) -> Option<u8>
    ensures { result ≡ collections.agreed_root given.now number }
{
    if given.is_empty() {
        return None;
    }
    let first = given[0].as_slice();
    if all_give(first, given, number) {
        root_at(first, number)
    } else {
        None
    }
}
