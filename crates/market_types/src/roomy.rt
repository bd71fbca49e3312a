//! A list whose kept places a contract counts, on which the public lists stand.

ghost use Rattle.std.specs.Prelude.{◌≡◌, ◌<◌, ◌≤◌, ◌-◌, ◌++◌, ◌∷◌, [], IsOk, OnOk, OnErr, length, option_map, slice_get};

use crate::Memory;
use std::alloc::Global;
use std::marker::Model;

/// A list and the number of places that it keeps for more.
#[derive(Drop)]
pub struct Roomy<T: Drop> {
    items: Vec<T>,
    spare: usize,
}

impl<T: Drop> Model for Roomy<T> {
    ghost use Rattle.std.specs.Prelude.{◌≤◌, ◌+◌, vec_len, vec_capacity};
    ghost use Rattle.market_types.specs.Room.{Room};

    ghost Value = { Room T };

    ghost view = { λ a. record { list = a.items.items; spare = a.spare } };

    ghost invariant = { λ a. vec_len a.items + a.spare ≤ vec_capacity a.items };
}

impl<T: Drop> Roomy<T> {
    /// The empty list.
    pub fn new(alloc: Global) -> Roomy<T>
        ensures { result ≡ record { list = []; spare = 0 } }
    {
        Roomy {
            items: Vec::new(alloc),
            spare: 0,
        }
    }

    /// The items in order.
    pub fn as_slice(&self) -> &[T]
        ensures { result.now ≡ self.now.list }
    {
        self.items.as_slice()
    }

    /// The number of items.
    pub fn len(&self) -> usize
        ensures { result ≡ length self.now.list }
    {
        self.items.as_slice().len()
    }

    /// The item at a place, from 0; none past the last.
    pub fn get(&self, i: usize) -> Option<&T>
        ensures { option_map (λ x. x.now) result ≡ slice_get self.now.list i }
    {
        self.items.as_slice().get(i)
    }

    /// The allocator that the list was made with.
    pub fn allocator(&self) -> Global {
        *self.items.allocator()
    }

    /// Makes room for `n` more.
    pub fn reserve(&mut self, n: usize) -> Result<(), Memory>
        ensures list { self.new.list ≡ self.old.list }
        ensures room { OnOk result (n ≤ self.new.spare) }
        ensures never_falls { self.old.spare ≤ self.new.spare }
        ensures refused { OnErr result (self.new ≡ self.old) }
    {
        if n <= self.spare {
            return Ok(());
        }
        self.items.reserve(n)?;
        self.spare = n;
        Ok(())
    }

    /// Empties the list. It holds on to its memory, so that what is appended next takes none, though no place counts as kept.
    pub fn clear(&mut self)
        ensures { self.new ≡ record { list = []; spare = 0 } }
    {
        self.items.clear();
        self.spare = 0;
    }

    /// Appends a value.
    pub fn push(&mut self, value: T) -> Result<(), Memory>
        ensures pushed { OnOk result (self.new ≡ record { list = self.old.list ++ value ∷ []; spare = self.old.spare - 1 }) }
        ensures within_room { 0 < self.old.spare → IsOk result }
        ensures refused { OnErr result (self.new ≡ self.old) }
    {
        self.items.push(value)?;
        self.spare = self.spare.saturating_sub(1);
        Ok(())
    }

    /// Appends a value where room was made.
    pub fn put(&mut self, value: T)
        requires { 0 < self.old.spare }
        ensures { self.new ≡ record { list = self.old.list ++ value ∷ []; spare = self.old.spare - 1 } }
    {
        self.items.push_reserved(value);
        self.spare -= 1;
    }

    /// Appends the values of another list.
    pub fn append(&mut self, mut other: Vec<T>) -> Result<(), Memory>
        ensures appended { OnOk result (self.new.list ≡ self.old.list ++ other.items) }
        ensures refused { OnErr result (self.new ≡ self.old) }
    {
        self.items.append(&mut other)?;
        self.spare = 0;
        Ok(())
    }
}

impl<T: Copy + Drop> Roomy<T> {
    /// Appends copies of these values.
    pub fn append_slice(&mut self, values: &[T]) -> Result<(), Memory>
        ensures appended { OnOk result (self.new.list ≡ self.old.list ++ values.now) }
        ensures refused { OnErr result (self.new ≡ self.old) }
    {
        self.items.extend_from_slice(values)?;
        self.spare = 0;
        Ok(())
    }
}
