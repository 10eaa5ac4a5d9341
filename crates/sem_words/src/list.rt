//! A list of values, for trees and scripts.
ghost use Rattle.std.specs.Prelude.{◌≡◌, ◌<◌, [], ◌∷◌, ◌++◌, length, IfErr, IfOk, IsSome, IsTrue, OnOk, OnErr, ◌↔◌, option_copied, slice_get};
ghost use Rattle.sem_words.specs.Lists.{list_items};

use std::alloc::{AllocError, Global};

/// A list of values that owns them. It may stand inside the type of its own values.
#[derive(PartialEq, Eq, Debug, Drop)]
pub struct List<T> {
    items: Vec<T>,
}

impl<T> List<T> {
    /// The empty list. It takes no memory.
    pub fn new(alloc: Global) -> List<T>
        ensures { list_items result ≡ [] }
    {
        List {
            items: Vec::new(alloc),
        }
    }

    /// An empty list with room for so many items and no more, since a list that grows takes room for four at once.
    pub fn with_capacity(alloc: Global, count: usize) -> Result<List<T>, AllocError>
        ensures { IfOk result (λ list. list_items list ≡ []) }
    {
        let items = Vec::with_capacity(alloc, count)?;
        Ok(List { items })
    }

    /// Puts `item` at the end. For want of memory the item comes back, and the list is as before.
    pub fn push(&mut self, item: T) -> Result<(), T>
        ensures ok { OnOk result (list_items self.new ≡ list_items self.old ++ item ∷ []) }
        ensures err { OnErr result (list_items self.new ≡ list_items self.old) }
        ensures item_back { IfErr result (λ back. back ≡ item) }
    {
        match self.items.push(item) {
            Ok(()) => Ok(()),
            Err(failed) => Err(failed.value),
        }
    }

    /// How many items there are.
    pub fn len(&self) -> usize
        ensures { result ≡ length (list_items self.now) }
    {
        self.items.len()
    }

    /// Whether there is no item.
    pub fn is_empty(&self) -> bool
        ensures { IsTrue result ↔ (list_items self.now ≡ []) }
    {
        self.items.is_empty()
    }

    /// The item at `i`, or None past the end.
    pub fn get(&self, i: usize) -> Option<&T>
        ensures value { option_copied result ≡ slice_get (list_items self.now) i }
        ensures found { IsSome result ↔ (i < length (list_items self.now)) }
    {
        self.items.get(i)
    }

    /// The items as a slice.
    pub fn as_slice(&self) -> &[T]
        ensures { result.now ≡ list_items self.now }
    {
        self.items.as_slice()
    }

    /// The list that owns the items of a vector.
    pub fn from_vec(items: Vec<T>) -> List<T>
        ensures { list_items result ≡ items.items }
    {
        List { items }
    }

    /// The items as a vector.
    pub fn into_vec(self) -> Vec<T>
        ensures { result.items ≡ list_items self }
    {
        self.items
    }
}
