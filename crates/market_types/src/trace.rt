//! The trace of a run.

ghost use Rattle.std.specs.Prelude.{◌≡◌, ◌<◌, ◌≤◌, ◌-◌, ◌++◌, ◌∷◌, [], IsOk, IsTrue, IfOk, OnOk, OnErr, length, map, option_map, slice_get, ◌↔◌};
ghost use Rattle.market_types.specs.Told.{event_told, edit_told, entry_told};

use crate::Memory;
use crate::entry::{EditMark, Entry, Record};
use crate::roomy::Roomy;
use std::alloc::Global;
use std::marker::Model;

/// The entries of a run in order, seen as plain data, and the places that are kept for more.
#[derive(Drop)]
pub struct Trace {
    entries: Roomy<Entry>,
}

impl Model for Trace {
    ghost use Rattle.std.specs.Prelude.{map};
    ghost use Rattle.market_types.specs.Room.{Room};
    ghost use Rattle.market_types.specs.Told.{EntryTold, entry_told};

    ghost Value = { Room EntryTold };

    ghost view = { λ a. record { list = map entry_told a.entries.list; spare = a.entries.spare } };
}

impl Trace {
    /// The empty trace.
    pub fn new(alloc: Global) -> Trace
        ensures { result ≡ record { list = []; spare = 0 } }
    {
        Trace {
            entries: Roomy::new(alloc),
        }
    }

    /// How many entries the trace has.
    pub fn len(&self) -> usize
        ensures { result ≡ length self.now.list }
    {
        self.entries.as_slice().len()
    }

    /// Whether the trace has none.
    pub fn is_empty(&self) -> bool
        ensures { IsTrue result ↔ (self.now.list ≡ []) }
    {
        self.entries.as_slice().is_empty()
    }

    /// The entry at a place, from 0.
    pub fn get(&self, i: usize) -> Option<&Entry>
        ensures { option_map (λ e. entry_told e.now) result ≡ slice_get self.now.list i }
    {
        self.entries.as_slice().get(i)
    }

    /// The entries in order.
    pub fn as_slice(&self) -> &[Entry]
        ensures { map entry_told result.now ≡ self.now.list }
    {
        self.entries.as_slice()
    }

    /// Makes room for `n` more entries.
    pub fn reserve(&mut self, n: usize) -> Result<(), Memory>
        ensures list { self.new.list ≡ self.old.list }
        ensures room { OnOk result (n ≤ self.new.spare) }
        ensures never_falls { self.old.spare ≤ self.new.spare }
        ensures refused { OnErr result (self.new ≡ self.old) }
    {
        self.entries.reserve(n)
    }

    /// Appends an entry. It can't be refused where room was made.
    pub fn push(&mut self, value: Entry) -> Result<(), Memory>
        ensures pushed { OnOk result (self.new ≡ record { list = self.old.list ++ entry_told value ∷ []; spare = self.old.spare - 1 }) }
        ensures within_room { 0 < self.old.spare → IsOk result }
        ensures refused { OnErr result (self.new ≡ self.old) }
    {
        self.entries.push(value)
    }

    /// Appends an entry where room was made.
    pub fn put(&mut self, value: Entry)
        requires { 0 < self.old.spare }
        ensures { self.new ≡ record { list = self.old.list ++ entry_told value ∷ []; spare = self.old.spare - 1 } }
    {
        self.entries.put(value);
    }

    /// Appends copies of the entries of another trace.
    pub fn append_copy(&mut self, other: &Trace) -> Result<(), Memory>
        ensures appended { OnOk result (self.new.list ≡ self.old.list ++ other.now.list) }
        ensures refused { OnErr result (self.new ≡ self.old) }
    {
        let copies = copies_of(self.entries.allocator(), other.as_slice())?;
        self.entries.append(copies)
    }
}

// Equal entries.
fn copies_of(alloc: Global, entries: &[Entry]) -> Result<Vec<Entry>, Memory>
    ensures { IfOk result (λ copies. map entry_told copies.items ≡ map entry_told entries.now) }
{
    let mut copies = Vec::new(alloc);
    for entry in entries {
        let copy = copy_of(alloc, entry)?;
        copies.push(copy)?;
    }
    Ok(copies)
}

// An equal entry.
fn copy_of(alloc: Global, entry: &Entry) -> Result<Entry, Memory>
    ensures { IfOk result (λ copy. entry_told copy ≡ entry_told entry.now) }
{
    match entry {
        Entry::Event(event) => Ok(Entry::Event(copy_of_record(alloc, event)?)),
        Entry::Edit(mark) => Ok(Entry::Edit(copy_of_mark(alloc, mark)?)),
    }
}

fn copy_of_record(alloc: Global, event: &Record) -> Result<Record, Memory>
    ensures { IfOk result (λ copy. event_told copy ≡ event_told event.now) }
{
    let before = event.before.copy(alloc)?;
    let after = event.after.copy(alloc)?;
    Ok(Record {
        number: event.number,
        time: event.time,
        seq: event.seq,
        from: event.from,
        to: event.to,
        put_back: event.put_back,
        until: event.until,
        fee: event.fee,
        body: event.body,
        before,
        after,
    })
}

fn copy_of_mark(alloc: Global, mark: &EditMark) -> Result<EditMark, Memory>
    ensures { IfOk result (λ copy. edit_told copy ≡ edit_told mark.now) }
{
    let feed = mark.feed.copy(alloc)?;
    Ok(EditMark {
        events: mark.events,
        time: mark.time,
        branch: mark.branch,
        index: mark.index,
        letter: mark.letter,
        feed,
    })
}
