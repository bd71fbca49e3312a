//! A list that contracts compare.

ghost use Rattle.std.specs.Prelude.{◌≡◌, ◌<◌, ◌++◌, ◌∷◌, [], OnOk, OnErr, IfOk, length, slice_get, slice_set, replicate, option_map};

use crate::{Memory, copied};
use std::alloc::Global;
use std::marker::Model;

/// The items of a `Vec`, seen as the bare list: two of them with equal items are equal in contracts, whatever
/// memory they keep. Made from a `Vec` and given back without memory.
#[derive(Drop)]
pub struct Sequence<T> {
    items: Vec<T>,
}

impl<T> Model for Sequence<T> {
    ghost use Rattle.std.specs.Prelude.{List};

    ghost Value = { List T };

    ghost view = { λ a. a.items.items };
}

impl<T> Sequence<T> {
    /// These items in order. Takes no memory.
    pub fn new(items: Vec<T>) -> Sequence<T>
        ensures { result ≡ items.items }
    {
        Sequence { items }
    }

    /// The list of no items, which keeps its allocator and takes no memory.
    pub fn empty(alloc: Global) -> Sequence<T>
        ensures { result ≡ [] }
    {
        Sequence {
            items: Vec::new(alloc),
        }
    }

    /// The items in order.
    pub fn as_slice(&self) -> &[T]
        ensures { result.now ≡ self.now }
    {
        self.items.as_slice()
    }

    /// Gives the items back. Takes no memory.
    pub fn into_vec(self) -> Vec<T>
        ensures { result.items ≡ self }
    {
        let Sequence { items } = self;
        items
    }

    /// The number of items.
    pub fn len(&self) -> usize
        ensures { result ≡ length self.now }
    {
        self.items.len()
    }

    /// The item at a place, from 0. `None` exactly where the list is not so long.
    pub fn get(&self, at: usize) -> Option<&T>
        ensures { option_map (λ item. item.now) result ≡ slice_get self.now at }
    {
        self.items.get(at)
    }
}

impl<T: Drop> Sequence<T> {
    /// Appends an item. After `Memory` the list is unchanged.
    pub fn push(&mut self, item: T) -> Result<(), Memory>
        ensures pushed { OnOk result (self.new ≡ self.old ++ item ∷ []) }
        ensures refused { OnErr result (self.new ≡ self.old) }
    {
        self.items.push(item)?;
        Ok(())
    }

    /// Puts an item in the place of another, from 0.
    pub fn set(&mut self, at: usize, item: T)
        requires { at < length self.old }
        ensures { self.new ≡ slice_set self.old at item }
    {
        self.items[at] = item;
    }
}

impl<T: Copy + Drop> Sequence<T> {
    /// An equal list.
    pub fn copy(&self, alloc: Global) -> Result<Sequence<T>, Memory>
        ensures { IfOk result (λ copy. copy ≡ self.now) }
    {
        Ok(Sequence {
            items: copied(alloc, self.items.as_slice())?,
        })
    }

    /// The list of `count` times this item.
    pub fn filled(alloc: Global, item: T, count: usize) -> Result<Sequence<T>, Memory>
        ensures { IfOk result (λ list. list ≡ replicate count item) }
    {
        let mut list = Sequence::empty(alloc);
        for _ in 0..count {
            list.push(item)?;
        }
        Ok(list)
    }

    /// Appends a copy of each item of another list. After `Memory` the list is unchanged.
    pub fn append(&mut self, other: &Sequence<T>) -> Result<(), Memory>
        ensures appended { OnOk result (self.new ≡ self.old ++ other.now) }
        ensures refused { OnErr result (self.new ≡ self.old) }
    {
        self.items.extend_from_slice(other.as_slice())?;
        Ok(())
    }
}
