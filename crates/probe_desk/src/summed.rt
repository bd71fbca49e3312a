//! Entries of a run, with what the four columns of every table say of them.

ghost use Rattle.std.specs.Prelude.{◌≡◌, ◌++◌, ◌∷◌, [], OnOk, OnErr, length, map};
ghost use Rattle.std.specs.List.{flat_map};
ghost use Rattle.market_types.specs.Told.{entry_told, event};
ghost use Rattle.packed_entries.specs.Told.{parts_told};
ghost use Rattle.probe_desk.specs.Sums.{AreSums};

use crate::Sums;
use market_types::{Entry, Memory};
use packed_entries::{EventParts, Packed};
use std::alloc::Global;
use std::marker::Model;

/// The entries of a run in order, kept small, and their sums, to which each is added as it comes.
#[derive(Drop)]
pub struct Summed {
    packed: Packed,
    sums: Sums,
}

impl Model for Summed {
    ghost use Rattle.packed_entries.specs.Held.{Held};
    ghost use Rattle.probe_desk.specs.Sums.{AreSums};

    ghost Value = { Held };

    ghost view = { λ a. a.packed };

    ghost invariant = { λ a. AreSums a.sums a.packed.list };
}

impl Summed {
    /// No entries.
    pub fn new(alloc: Global) -> Summed
        ensures { result ≡ record { list = [] } }
    {
        Summed {
            packed: Packed::new(alloc),
            sums: Sums::new(),
        }
    }

    /// How many entries there are.
    pub fn len(&self) -> usize
        ensures { result ≡ length self.now.list }
    {
        self.packed.len()
    }

    /// Makes room for so many events that may come. That is a hint: without it the entries grow as they come.
    pub fn expect(&mut self, events: usize)
        ensures { self.new ≡ self.old }
    {
        self.packed.expect(events);
    }

    /// Appends an event.
    ///
    /// # Errors
    /// Want of memory alone. The entries are then as they were.
    pub fn push_event(&mut self, e: &EventParts<'_>) -> Result<(), Memory>
        ensures pushed { OnOk result (self.new.list ≡ self.old.list ++ event (parts_told e.now) ∷ []) }
        ensures refused { OnErr result (self.new ≡ self.old) }
    {
        self.packed.push_event(e)?;
        self.sums = self.sums.followed_by(&Sums::of(e.fee, e.put_back, e.body));
        Ok(())
    }

    /// Appends an entry.
    ///
    /// # Errors
    /// Want of memory alone. The entries are then as they were.
    pub fn push(&mut self, entry: &Entry) -> Result<(), Memory>
        ensures pushed { OnOk result (self.new.list ≡ self.old.list ++ entry_told entry.now ∷ []) }
        ensures refused { OnErr result (self.new ≡ self.old) }
    {
        self.packed.push(entry)?;
        if let Entry::Event(e) = entry {
            self.sums = self.sums.followed_by(&Sums::of(e.fee, e.put_back, &e.body));
        }
        Ok(())
    }

    /// Appends entries in order.
    ///
    /// # Errors
    /// Want of memory alone. Some of them are then appended, the first ones.
    pub fn push_all(&mut self, entries: &[Entry]) -> Result<(), Memory>
        ensures { OnOk result (self.new.list ≡ self.old.list ++ map entry_told entries.now) }
    {
        for entry in entries {
            self.push(entry)?;
        }
        Ok(())
    }

    /// The entries alone.
    pub fn packed(&self) -> &Packed
        ensures { result.now ≡ self.now }
    {
        &self.packed
    }

    /// Their sums.
    pub fn sums(&self) -> Sums
        ensures { AreSums result self.now.list }
    {
        self.sums
    }
}

/// The sums of entries one after another.
pub fn sums_of_parts(parts: &[&Summed]) -> Sums
    ensures { AreSums result (flat_map (λ t. t.now.list) parts.now) }
{
    let mut sums = Sums::new();
    for part in parts {
        sums = sums.followed_by(&part.sums());
    }
    sums
}
