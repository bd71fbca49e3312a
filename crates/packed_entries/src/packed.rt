//! Entries that are kept.

ghost use Rattle.std.specs.Prelude.{◌≡◌, ◌<◌, ◌≤◌, ◌++◌, ◌∷◌, [], OnOk, OnErr, length, map};
ghost use Rattle.market_types.specs.Told.{edit, edit_told, entry_told, event, event_told};
ghost use Rattle.packed_entries.specs.Told.{HasRoom, columns_told, parts_told};

use crate::columns::Columns;
use crate::mark::Mark;
use crate::marking::{edit_mark, has_long_feed, has_more, mark_of};
use crate::parts::EventParts;
use crate::rest::Rest;
use crate::walk::Walk;
use market_types::{EditMark, Entry, Memory, Record, Roomy};
use std::alloc::Global;
use std::marker::Model;

// For so many entries room is made at once.
const ENTRIES_AHEAD: usize = 256;

// For so many events that are expected room is made at most.
const MOST_AHEAD: usize = 1_048_576;

/// The entries of a run in order, about 80 bytes each: what each has in a mark of 32 bytes, and what only some have in
/// columns.
#[derive(Drop)]
pub struct Packed {
    marks: Roomy<Mark>,
    columns: Columns,
    // For so many entries more there is room, but for their feeds.
    room: usize,
}

impl Model for Packed {
    ghost use Rattle.packed_entries.specs.Held.{Held};
    ghost use Rattle.packed_entries.specs.Entries.{IsWhole, entries_of};
    ghost use Rattle.packed_entries.specs.Told.{HasRoom, columns_told};
    ghost use Rattle.std.specs.Prelude.{◌≤◌};

    ghost Value = { Held };

    ghost view = { λ a. record { list = entries_of a.marks.list (columns_told a.columns) } };

    ghost invariant = { λ a. IsWhole a.marks.list (columns_told a.columns) × (a.room ≤ a.marks.spare) × HasRoom a.room a.columns };
}

// Makes room for one entry more at least, but for its feeds.
fn make_room(marks: &mut Roomy<Mark>, columns: &mut Columns, room: &mut usize) -> Result<(), Memory>
    requires marks { room.old ≤ marks.old.spare }
    requires columns { HasRoom room.old columns.old }
    ensures list { marks.new.list ≡ marks.old.list }
    ensures lists { columns_told columns.new ≡ columns_told columns.old }
    ensures marks { room.new ≤ marks.new.spare }
    ensures columns { HasRoom room.new columns.new }
    ensures more { OnOk result (0 < room.new) }
{
    if *room > 0 {
        return Ok(());
    }
    marks.reserve(ENTRIES_AHEAD)?;
    columns.reserve(ENTRIES_AHEAD)?;
    *room = ENTRIES_AHEAD;
    Ok(())
}

impl Packed {
    /// No entries.
    pub fn new(alloc: Global) -> Packed
        ensures { result ≡ record { list = [] } }
    {
        Packed {
            marks: Roomy::new(alloc),
            columns: Columns::new(alloc),
            room: 0,
        }
    }

    /// How many entries there are.
    pub fn len(&self) -> usize
        ensures { result ≡ length self.now.list }
    {
        self.marks.len()
    }

    /// Makes room for so many events that may come. That is a hint: without it, as for more than a million, the entries
    /// grow as they come.
    pub fn expect(&mut self, events: usize)
        ensures { self.new ≡ self.old }
    {
        if events <= MOST_AHEAD {
            let _ = self.marks.reserve(events);
            self.columns.expect(events);
        }
    }

    /// Appends an event.
    ///
    /// # Errors
    /// Want of memory alone. The entries are then as they were.
    pub fn push_event(&mut self, e: &EventParts<'_>) -> Result<(), Memory>
        ensures pushed { OnOk result (self.new.list ≡ self.old.list ++ event (parts_told e.now) ∷ []) }
        ensures refused { OnErr result (self.new ≡ self.old) }
    {
        make_room(&mut self.marks, &mut self.columns, &mut self.room)?;
        self.columns.reserve_feed(e.before.len() + e.after.len())?;
        let is_more = has_more(e);
        self.marks.put(mark_of(is_more, e));
        self.columns.put_event(is_more, e);
        self.room -= 1;
        Ok(())
    }

    /// Appends an edit.
    ///
    /// # Errors
    /// Want of memory alone. The entries are then as they were.
    pub fn push_edit(&mut self, d: &EditMark) -> Result<(), Memory>
        ensures pushed { OnOk result (self.new.list ≡ self.old.list ++ edit (edit_told d.now) ∷ []) }
        ensures refused { OnErr result (self.new ≡ self.old) }
    {
        make_room(&mut self.marks, &mut self.columns, &mut self.room)?;
        self.columns.reserve_feed(d.feed.len())?;
        let is_more = has_long_feed(d);
        self.marks.put(edit_mark(is_more, d));
        self.columns.put_edit(is_more, d);
        self.room -= 1;
        Ok(())
    }

    /// Appends an entry.
    ///
    /// # Errors
    /// Want of memory alone. The entries are then as they were.
    pub fn push(&mut self, entry: &Entry) -> Result<(), Memory>
        ensures pushed { OnOk result (self.new.list ≡ self.old.list ++ entry_told entry.now ∷ []) }
        ensures refused { OnErr result (self.new ≡ self.old) }
    {
        match entry {
            Entry::Event(e) => self.push_event(&parts_of(e)),
            Entry::Edit(d) => self.push_edit(d),
        }
    }

    /// Appends entries in order.
    ///
    /// # Errors
    /// Want of memory alone. Some of them are then appended, the first ones.
    pub fn push_all(&mut self, entries: &[Entry]) -> Result<(), Memory>
        ensures { OnOk result (self.new.list ≡ self.old.list ++ map entry_told entries.now) }
    {
        for entry in entries {
            self.push(entry)?;
        }
        Ok(())
    }

    /// The entries, to read them in order.
    pub fn walk(&self) -> Walk<'_>
        ensures { result ≡ self.now.list }
    {
        Walk {
            marks: self.marks.as_slice(),
            rest: Rest {
                enters: self.columns.enters.as_slice(),
                cancels: self.columns.cancels.as_slice(),
                accepted: self.columns.accepted.as_slice(),
                shorts: self.columns.shorts.as_slice(),
                quotes: self.columns.quotes.as_slice(),
                extras: self.columns.extras.as_slice(),
                edits: self.columns.edits.as_slice(),
                feed: self.columns.feed.as_slice(),
            },
        }
    }
}

// An event by its parts.
fn parts_of(e: &Record) -> EventParts<'_>
    ensures { parts_told result ≡ event_told e.now }
{
    EventParts {
        number: e.number,
        time: e.time,
        seq: e.seq,
        from: e.from,
        to: e.to,
        put_back: e.put_back,
        until: e.until,
        fee: e.fee,
        body: &e.body,
        before: e.before.as_slice(),
        after: e.after.as_slice(),
    }
}
