//! Small lists that contracts see as lists of their items.
//!
//! Promise: a list holds just the items that were pushed, in their order. A push that is refused
//! memory leaves it as it was.

ghost use Rattle.std.specs.Prelude.{◌≡◌, ◌∷◌, ◌++◌, List, [], length, IfOk, OnOk, OnErr, slice_get};
ghost use Rattle.std.specs.Option.{option_copied as copied};
ghost use Rattle.std.specs.Cmp.Lexicographic.{pointwise, lists_per, lists_equiv};

use std::alloc::{AllocError, Global};
use std::marker::Model;

/// A list of items of one type. It keeps the allocator that its items are stored by.
#[derive(Debug, Drop)]
pub struct ListOf<T> {
    items: Vec<T>,
}

/// The name of a file or directory, as its bytes. Which bytes make a name is not said here.
pub type Name = ListOf<u8>;

/// Bytes of a file.
pub type Content = ListOf<u8>;

/// The names of a path, from the root on.
pub type PathNames = ListOf<Name>;

impl<T> Model for ListOf<T> {
    ghost use Rattle.std.specs.Prelude.{List};

    ghost Value = { List T };

    ghost view = { λ list. list.items.items };
}

impl<T> ListOf<T> {
    /// The empty list. It takes no memory.
    pub fn new(alloc: Global) -> Self
        ensures { result ≡ [] }
    {
        ListOf {
            items: Vec::new(alloc),
        }
    }

    /// The items of a `Vec`, moved.
    pub fn from_vec(items: Vec<T>) -> Self
        ensures { result ≡ items.items }
    {
        ListOf { items }
    }

    /// The items as a `Vec`, moved.
    pub fn into_vec(self) -> Vec<T>
        ensures { result.items ≡ self }
    {
        let ListOf { items } = self;
        items
    }

    /// How many items the list has.
    pub fn len(&self) -> u64
        ensures { result ≡ length self.now }
    {
        self.items.len() as u64
    }

    /// The item at a place counted from 0, and `None` exactly where `at` is not below the length.
    pub fn item(&self, at: u64) -> Option<&T>
        ensures { copied result ≡ slice_get self.now at }
    {
        self.items.get(at as usize)
    }

    /// The items, borrowed.
    pub fn as_slice(&self) -> &[T]
        ensures { result.now ≡ self.now }
    {
        &self.items
    }
}

impl<T: Drop> ListOf<T> {
    /// Puts an item at the end. Where memory is refused, the list stays as it was.
    pub fn push(&mut self, it: T) -> Result<(), AllocError>
        ensures appended { OnOk result (self.new ≡ self.old ++ it ∷ []) }
        ensures unchanged { OnErr result (self.new ≡ self.old) }
    {
        self.items.push(it)?;
        Ok(())
    }
}

impl<T: Copy> ListOf<T> {
    /// The items of a slice, copied.
    pub fn from_slice(alloc: Global, items: &[T]) -> Result<Self, AllocError>
        ensures { IfOk result (λ list. list ≡ items.now) }
    {
        Ok(ListOf {
            items: Vec::from_slice(alloc, items)?,
        })
    }

    /// A second list with the same items.
    pub fn copy(&self, alloc: Global) -> Result<Self, AllocError>
        ensures { IfOk result (λ list. list ≡ self.now) }
    {
        ListOf::from_slice(alloc, &self.items)
    }
}

impl<T: PartialEq> PartialEq for ListOf<T> {
    ghost eq = { λ a b. pointwise T.eq a b };

    ghost laws = { lists_per T.laws };

    fn eq(&self, other: &Self) -> bool {
        self.items == other.items
    }
}

impl<T: Eq> Eq for ListOf<T> {
    ghost laws = { lists_equiv T.Eq.laws };
}
