//! The entries of a branch, and how their feed is split.

ghost use Rattle.std.specs.Prelude.{◌≡◌, [], ◌∷◌, ◌++◌, None, Some, IsOk, IfOk, OnOk, if◌then◌else◌};
ghost use Rattle.market_types.specs.Told.{edit_told, entry_told, event_told};
ghost use Rattle.bundle_reader.specs.declared.frame.Frame.TheVariants as kind;
ghost use Rattle.bundle_reader.specs.Frames.{event_with, edit_with};
ghost use Rattle.bundle_reader.specs.Told.{BegunTold, WholeTold, apart as apart_read, begun_told, edit as edit_read, ended as ended_read, entries as entries_read, last_told, whole_told};
ghost use Rattle.bundle_reader.specs.Order.{all_entries, before_next, belongs, is_none, take_entry as take_entry_of, take_message as take_message_of, take_of_orders as take_of_orders_of, take_trading};
ghost use Rattle.bundle_reader.specs.Reads.{Takes};

use crate::reading::{Begun, Misplaced, Reading, Whole};
use crate::{EditHead, EventFrame, Frame};
use market_types::{EditMark, Entry, Feed, FeedList, Memory, Record, Trace, What};
use std::alloc::Global;

// What the next message of the feed may belong to.
#[derive(Drop)]
pub(crate) enum Last {
    // The event that is still to come, of which these trading actions were read.
    Apart(FeedList),
    Event(Record),
    Edit(EditMark),
}

// One entry more, and no trading actions yet.
fn with_entry(alloc: Global, mut entries: Trace, entry: Entry) -> Result<(Trace, FeedList), Memory>
    ensures entries { IfOk result (λ p. p.0.list ≡ entries.list ++ entry_told entry ∷ []) }
    ensures before { IfOk result (λ p. p.1.list ≡ []) }
{
    match entries.push(entry) {
        Ok(()) => Ok((entries, FeedList::new(alloc))),
        Err(memory) => {
            drop(entries);
            Err(memory)
        }
    }
}

// The entries with the last one, and the trading actions that are the next event's.
fn closed(alloc: Global, entries: Trace, last: Last) -> Result<(Trace, FeedList), Memory>
    ensures entries { IfOk result (λ p. p.0.list ≡ all_entries entries.list (last_told last)) }
    ensures before { IfOk result (λ p. p.1.list ≡ before_next (last_told last)) }
{
    match last {
        Last::Apart(before) => Ok((entries, before)),
        Last::Event(event) => with_entry(alloc, entries, Entry::Event(event)),
        Last::Edit(edit) => with_entry(alloc, entries, Entry::Edit(edit)),
    }
}

// An event with these trading actions before it.
fn event_of(alloc: Global, e: &EventFrame, before: FeedList) -> Record
    ensures { event_told result ≡ event_with e.now before.list [] }
{
    Record {
        number: e.number,
        time: e.time,
        seq: e.seq,
        from: e.from,
        to: e.to,
        put_back: e.put_back,
        until: e.until,
        fee: e.fee,
        body: e.body,
        before,
        after: FeedList::new(alloc),
    }
}

// An edit without a feed.
fn edit_of(alloc: Global, d: &EditHead) -> EditMark
    ensures { edit_told result ≡ edit_with d.now [] }
{
    EditMark {
        events: d.events,
        time: d.time,
        branch: d.branch,
        index: d.index,
        letter: d.letter,
        feed: FeedList::new(alloc),
    }
}

// An event, an edit or a message among the entries.
pub(crate) fn take_entry(
    alloc: Global,
    whole: Whole,
    begun: Begun,
    entries: Trace,
    last: Last,
    frame: Frame,
) -> Result<Reading, Misplaced>
    ensures { Takes (take_entry_of (whole_told whole) (begun_told begun) entries.list (last_told last) frame) result }
{
    match frame {
        Frame::Event(event) => take_event(alloc, whole, begun, entries, last, &event),
        Frame::Edit(edit) => take_edit(alloc, whole, begun, entries, last, &edit),
        Frame::Message(message) => take_message(alloc, whole, begun, entries, last, message),
        other => {
            drop(other);
            Reading::Entries(whole, begun, entries, last).refused(Misplaced::Order)
        }
    }
}

// An event among the entries.
fn take_event(
    alloc: Global,
    whole: Whole,
    begun: Begun,
    entries: Trace,
    last: Last,
    event: &EventFrame,
) -> Result<Reading, Misplaced>
    ensures { Takes (take_entry_of (whole_told whole) (begun_told begun) entries.list (last_told last) (kind.Event event.now)) result }
{
    match closed(alloc, entries, last) {
        Ok((entries, before)) => {
            let last = Last::Event(event_of(alloc, event, before));
            Ok(Reading::Entries(whole, begun, entries, last))
        }
        Err(Memory) => Reading::Opening(whole, begun).refused(Misplaced::Memory),
    }
}

// An edit among the entries.
fn take_edit(
    alloc: Global,
    whole: Whole,
    begun: Begun,
    entries: Trace,
    last: Last,
    edit: &EditHead,
) -> Result<Reading, Misplaced>
    ensures { Takes (take_entry_of (whole_told whole) (begun_told begun) entries.list (last_told last) (kind.Edit edit.now)) result }
{
    match closed(alloc, entries, last) {
        Ok((entries, before)) => {
            if before.is_empty() {
                drop(before);
                let last = Last::Edit(edit_of(alloc, edit));
                Ok(Reading::Entries(whole, begun, entries, last))
            } else {
                Reading::Entries(whole, begun, entries, Last::Apart(before)).refused(
                    Misplaced::Order,
                )
            }
        }
        Err(Memory) => Reading::Opening(whole, begun).refused(Misplaced::Memory),
    }
}

// A message of the feed among the entries, or the one that ends them.
fn take_message(
    alloc: Global,
    whole: Whole,
    begun: Begun,
    entries: Trace,
    last: Last,
    message: Feed,
) -> Result<Reading, Misplaced>
    ensures { Takes (take_message_of (whole_told whole) (begun_told begun) entries.list (last_told last) message) result }
{
    match message.what {
        What::Trading { .. } => match with_trading(alloc, entries, last, message) {
            Ok((entries, last)) => Ok(Reading::Entries(whole, begun, entries, last)),
            Err(Memory) => Reading::Opening(whole, begun).refused(Misplaced::Memory),
        },
        What::Add { .. }
        | What::Executed { .. }
        | What::Cancel { .. }
        | What::Delete { .. }
        | What::Trade { .. } => take_of_orders(whole, begun, entries, last, message),
        What::System { .. } => take_system(alloc, whole, begun, entries, last, message),
        What::Directory { .. } | What::Cross { .. } => {
            Reading::Entries(whole, begun, entries, last).refused(Misplaced::Order)
        }
    }
}

// A message on orders behind its event.
fn take_of_orders(
    whole: Whole,
    begun: Begun,
    entries: Trace,
    last: Last,
    message: Feed,
) -> Result<Reading, Misplaced>
    ensures { Takes (take_of_orders_of (whole_told whole) (begun_told begun) entries.list (last_told last) message) result }
{
    match last {
        Last::Event(mut event) => {
            let put = event.after.push(message);
            let next = Reading::Entries(whole, begun, entries, Last::Event(event));
            match put {
                Ok(()) => Ok(next),
                Err(Memory) => next.refused(Misplaced::Memory),
            }
        }
        other => Reading::Entries(whole, begun, entries, other).refused(Misplaced::Order),
    }
}

// The message that ends the entries.
fn take_system(
    alloc: Global,
    whole: Whole,
    begun: Begun,
    entries: Trace,
    last: Last,
    message: Feed,
) -> Result<Reading, Misplaced>
    ensures { Takes (if is_none (before_next (last_told last)) then Some (ended_read (whole_told whole) (begun_told begun) (all_entries entries.list (last_told last)) message) else None) result }
{
    match closed(alloc, entries, last) {
        Ok((entries, before)) => {
            if before.is_empty() {
                drop(before);
                Ok(Reading::Ended(whole, begun, entries, message))
            } else {
                Reading::Entries(whole, begun, entries, Last::Apart(before)).refused(
                    Misplaced::Order,
                )
            }
        }
        Err(Memory) => Reading::Opening(whole, begun).refused(Misplaced::Memory),
    }
}

// Whether a trading action belongs to an edit: a halt or a resume that it follows at once and with its time.
fn belongs(edit: &EditMark, message: &Feed) -> bool
    ensures { result ≡ belongs (edit_told edit.now) message.now }
{
    (edit.letter == b'h' || edit.letter == b'r')
        && edit.feed.is_empty()
        && message.time == edit.time
}

// A trading action more: that of the last edit, or of the next event.
fn with_trading(
    alloc: Global,
    entries: Trace,
    last: Last,
    message: Feed,
) -> Result<(Trace, Last), Memory>
    ensures { IfOk result (λ p. (w : WholeTold) (b : BegunTold) → take_trading w b entries.list (last_told last) message ≡ entries_read w b p.0.list (last_told p.1)) }
{
    match last {
        Last::Edit(edit) => edit_trading(alloc, entries, edit, message),
        Last::Apart(before) => next_trading(alloc, entries, Last::Apart(before), message),
        Last::Event(event) => next_trading(alloc, entries, Last::Event(event), message),
    }
}

// Entries and what may belong to the last one, where it was put.
fn given(entries: Trace, last: Last, put: Result<(), Memory>) -> Result<(Trace, Last), Memory>
    ensures put { OnOk result (IsOk put) }
    ensures given { IfOk result (λ p. p ≡ (entries, last)) }
{
    match put {
        Ok(()) => Ok((entries, last)),
        Err(memory) => {
            drop(last);
            drop(entries);
            Err(memory)
        }
    }
}

// A trading action behind an edit.
fn edit_trading(
    alloc: Global,
    entries: Trace,
    mut edit: EditMark,
    message: Feed,
) -> Result<(Trace, Last), Memory>
    ensures { IfOk result (λ p. (w : WholeTold) (b : BegunTold) → take_trading w b entries.list (edit_read (edit_told edit)) message ≡ entries_read w b p.0.list (last_told p.1)) }
{
    if belongs(&edit, &message) {
        let put = edit.feed.push(message);
        given(entries, Last::Edit(edit), put)
    } else {
        next_trading(alloc, entries, Last::Edit(edit), message)
    }
}

// A trading action that is the next event's.
fn next_trading(
    alloc: Global,
    entries: Trace,
    last: Last,
    message: Feed,
) -> Result<(Trace, Last), Memory>
    ensures entries { IfOk result (λ p. p.0.list ≡ all_entries entries.list (last_told last)) }
    ensures last { IfOk result (λ p. last_told p.1 ≡ apart_read (before_next (last_told last) ++ message ∷ [])) }
{
    let (entries, mut before) = closed(alloc, entries, last)?;
    let put = before.push(message);
    given(entries, Last::Apart(before), put)
}
