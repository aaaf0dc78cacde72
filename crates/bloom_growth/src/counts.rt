//! How often keys are given, in a tree that has no key that isn't.
ghost use Rattle.std.specs.Prelude.{◌≡◌, ◌↔◌, false, IsTrue, IsSome, IfSome, IfNone, OnOk};
ghost use Rattle.std.specs.BTreeMap.{get, IsUnchanged};
ghost use Rattle.std.specs.declared.cmp.Ordering.TheVariants.{Equal};
ghost use Rattle.bloom_growth.specs.Counts.{CountsMore, CountsLess, IsStill, IsOnce};

use std::alloc::AllocError;
use std::collections::BTreeMap;

/// Counts a key that is there once more, and answers whether it is there.
pub(crate) fn is_again<K: Ord>(counts: &mut BTreeMap<K, u32>, key: &K) -> bool
    ensures there { IsTrue result ↔ IsSome (get K.cmp counts.old key.now) }
    ensures more { IsTrue result → CountsMore K.cmp key.now counts.old counts.new }
    ensures same { result ≡ false → IsUnchanged counts.old counts.new }
{
    match counts.get_mut(key) {
        Some(count) => {
            *count = count.saturating_add(1);
            true
        }
        None => false,
    }
}

/// Counts a key once more.
pub(crate) fn put_key<K: Ord + Drop>(
    counts: &mut BTreeMap<K, u32>,
    key: K,
) -> Result<(), AllocError>
    ensures { OnOk result (CountsMore K.cmp key counts.old counts.new) }
{
    if !is_again(counts, &key) {
        let _ = counts.insert(key, 1)?;
    }
    Ok(())
}

// Counts a key once less where it is given more often, and answers whether it is given once.
fn is_last<K: Ord>(counts: &mut BTreeMap<K, u32>, key: &K) -> bool
    ensures once { IsTrue result → IsOnce K.cmp key.now counts.old }
    ensures same { IsTrue result → IsUnchanged counts.old counts.new }
    ensures still { result ≡ false → IsStill K.cmp key.now counts.old }
    ensures less { result ≡ false → CountsLess K.cmp key.now counts.old counts.new }
{
    match counts.get_mut(key) {
        Some(count) => {
            if *count <= 1 {
                return true;
            }
            *count -= 1;
            false
        }
        None => false,
    }
}

/// Counts a key once less, and answers with it where it is given no more.
pub(crate) fn take_key<K: Ord + Drop>(counts: &mut BTreeMap<K, u32>, key: &K) -> Option<K>
    ensures less { CountsLess K.cmp key.now counts.old counts.new }
    ensures once { IfSome result (λ taken. IsOnce K.cmp key.now counts.old × (K.cmp key.now taken ≡ Equal)) }
    ensures still { IfNone result (IsStill K.cmp key.now counts.old) }
{
    if !is_last(counts, key) {
        return None;
    }
    match counts.remove_entry(key) {
        Some((taken, _)) => Some(taken),
        None => None,
    }
}
