//! The roots, gates and notes of stock bodies.
ghost use Rattle.std.specs.Prelude.{◌≡◌, ◌==◌, ◌<◌, ◌∷◌, ◌++◌, [], None, length, IfOk};
ghost use Rattle.std.specs.List.{list_any, remove};
ghost use Rattle.bloom_forms.specs.Annotation as spec;
ghost use Rattle.bloom_forms.specs.HeadRoots as collections;

use crate::collection_roots::attribute_roots;
use blz_value::Str;
use fd_closure::AttrNames;
use std::alloc::{AllocError, Global};

/// The roots of Split's output: its columns without the split one, the number and the word.
pub(crate) fn split_roots(
    alloc: Global,
    names: &AttrNames,
    columns: &[Str],
    split: u32,
) -> Result<Vec<Option<u8>>, AllocError>
    requires { split < length columns.now }
    ensures { IfOk result (λ roots. roots.items ≡ collections.attribute_roots names.now (remove columns.now split) ++ None ∷ None ∷ []) }
{
    let mut roots = attribute_roots(alloc, names, columns)?;
    roots.remove(split as usize);
    roots.push(None)?;
    roots.push(None)?;
    Ok(roots)
}

// Whether a column is a key.
fn is_key(keys: &[u32], column: usize) -> bool
    ensures { result ≡ list_any (λ key. key == column) keys.now }
{
    keys.iter().any(|key| *key as usize == column)
}

/// The roots of Latest's output: key columns have their roots, and no others.
pub(crate) fn latest_roots(
    alloc: Global,
    names: &AttrNames,
    columns: &[Str],
    keys: &[u32],
) -> Result<Vec<Option<u8>>, AllocError>
    ensures { IfOk result (λ roots. roots.items ≡ spec.latest_roots names.now columns.now keys.now) }
{
    columns
        .iter()
        .enumerate()
        .map(|(i, column)| if is_key(keys, i) {
            names.find(column)
        } else {
            None
        })
        .collect(alloc)
}

/// The roots of Number's output: its port's columns, and the number.
pub(crate) fn number_roots(
    alloc: Global,
    names: &AttrNames,
    columns: &[Str],
) -> Result<Vec<Option<u8>>, AllocError>
    ensures { IfOk result (λ roots. roots.items ≡ collections.attribute_roots names.now columns.now ++ None ∷ []) }
{
    let mut roots = attribute_roots(alloc, names, columns)?;
    roots.push(None)?;
    Ok(roots)
}
