//! What a clone equals, and lists of it.
ghost use Rattle.std.specs.Prelude.{◌≡◌, IfOk};
ghost use Rattle.std.proofs.Common.{rules};

use crate::attrs::{Attrs, Fd};
use crate::items::Items;
use crate::record::Record;
use crate::text::Str;
use crate::value::Value;
use std::alloc::{AllocError, Global};

/// What each of its clones equals.
pub trait Faithful: Clone {
    ghost equal: { (one clone : Self) → Self.is_clone one clone → clone ≡ one };

    /// An equal one of its own.
    final fn copied(&self) -> Result<Self, AllocError>
        ensures { IfOk result (λ copy. copy ≡ self.now) }
    {
        self.clone()
    }
}

/// Equal items of their own, in a list that can be changed.
pub fn copies_of<T: Faithful>(alloc: Global, items: &[T]) -> Result<Vec<T>, AllocError>
    ensures { IfOk result (λ copies. copies.items ≡ items.now) }
{
    items.to_vec(alloc)
}

/// Equal items of their own.
pub fn copy_all<T: Faithful>(alloc: Global, items: &[T]) -> Result<Items<T>, AllocError>
    ensures { IfOk result (λ copies. copies ≡ items.now) }
{
    Ok(Items::from_vec(copies_of(alloc, items)?))
}

impl Faithful for bool {
    ghost equal = { λ _ _ same. same };
}

impl Faithful for u8 {
    ghost equal = { λ _ _ same. same };
}

impl Faithful for u32 {
    ghost equal = { λ _ _ same. same };
}

impl Faithful for u64 {
    ghost equal = { λ _ _ same. same };
}

impl<A: Faithful, B: Faithful> Faithful for (A, B) {
    ghost equal = { Prim.search rules };
}

impl<T: Faithful> Faithful for Option<T> {
    ghost equal = { Prim.search rules };
}

impl Faithful for Attrs {
    ghost equal = { Prim.search rules };
}

impl Faithful for Fd {
    ghost equal = { Prim.search rules };
}

impl Faithful for Str {
    ghost equal = { λ _ _ same. same };
}

impl Faithful for Value {
    ghost equal = { Prim.search rules };
}

impl Faithful for Record {
    ghost equal = { λ _ _ same. same };
}

impl<T: Faithful> Faithful for Items<T> {
    ghost equal = { λ _ _ same. same };
}
