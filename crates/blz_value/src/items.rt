//! A list that structs and enums hold, seen as the list of its items.
ghost use Rattle.std.specs.Prelude.{◌≡◌};

use crate::faithful::{Faithful, copies_of};
use std::alloc::AllocError;
use std::marker::Model;

/// A list, seen as the list of its items in order.
#[derive(Debug, Drop)]
pub struct Items<T> {
    items: Vec<T>,
}

impl<T> Model for Items<T> {
    ghost use Rattle.std.specs.Prelude.{List};

    ghost Value = { List T };

    ghost view = { λ list. list.items.items };
}

impl<T> Items<T> {
    /// The list of these items.
    pub fn from_vec(items: Vec<T>) -> Items<T>
        ensures { result ≡ items.items }
    {
        Items { items }
    }

    /// The items in order.
    pub fn as_slice(&self) -> &[T]
        ensures { result.now ≡ self.now }
    {
        &self.items
    }

    /// The list of these items, handed back.
    pub fn into_vec(self) -> Vec<T>
        ensures { result.items ≡ self }
    {
        self.items
    }
}

impl<T: Faithful> Clone for Items<T> {
    ghost is_clone = { λ one clone. clone ≡ one };

    fn clone(&self) -> Result<Items<T>, AllocError> {
        let items = copies_of(*self.items.allocator(), &self.items)?;
        Ok(Items { items })
    }
}
