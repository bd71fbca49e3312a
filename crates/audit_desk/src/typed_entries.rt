//! The numbers of events are as their fields hold them, by their types.

ghost use Rattle.std.specs.Prelude.{◌≡◌, All, OnOk};
ghost use Rattle.market_types.specs.Told.{event, event_told};
ghost use Rattle.audit_desk.specs.Clipped.{clipped_body, clipped_inbound, clipped_reply};
ghost use Rattle.audit_desk.specs.Typed.{IsTyped};

use crate::fields::{eight, four, signed, two};
use market_types::{Body, EditMark, Inbound, Memory, Record, Reply};
use packed_entries::{Packed, Step, Walk, blank_edit, blank_event};
use std::alloc::Global;

// An order.
fn order_numbers(order: &Inbound)
    ensures { clipped_inbound order.now ≡ order.now }
{
    match order {
        Inbound::Enter(m) => {
            four(m.shares);
            four(m.price);
            four(m.tif);
            four(m.minimum);
        }
        Inbound::Cancel(m) => four(m.shares),
    }
}

// A reply.
fn reply_numbers(reply: &Reply)
    ensures { clipped_reply reply.now ≡ reply.now }
{
    match reply {
        Reply::System { time, .. } => eight(*time),
        Reply::Accepted {
            time,
            shares,
            price,
            tif,
            reference,
            minimum,
            ..
        } => {
            eight(*time);
            four(*shares);
            four(*price);
            four(*tif);
            eight(*reference);
            four(*minimum);
        }
        Reply::Canceled {
            time,
            decrement,
            ..
        } => {
            eight(*time);
            four(*decrement);
        }
        Reply::Executed {
            time,
            shares,
            price,
            number,
            ..
        } => {
            eight(*time);
            four(*shares);
            four(*price);
            eight(*number);
        }
        Reply::Rejected { time, .. } => eight(*time),
    }
}

// A body.
fn body_numbers(body: &Body)
    ensures { clipped_body body.now ≡ body.now }
{
    match body {
        Body::Wake => (),
        Body::Order(order) => order_numbers(order),
        Body::Answer(reply) => reply_numbers(reply),
        Body::Ask(stock) => two(*stock),
        Body::Quote(quote) => {
            two(quote.stock);
            four(quote.bid);
            eight(quote.bid_shares);
            four(quote.ask);
            eight(quote.ask_shares);
            four(quote.last);
        }
    }
}

// An event.
fn event_fits(e: &Record)
    ensures { IsTyped (event (event_told e.now)) }
{
    four(e.number);
    eight(e.time);
    eight(e.seq);
    two(e.from);
    two(e.to);
    eight(e.until);
    signed(e.fee);
    body_numbers(&e.body);
}

// The entries that are left to read.
fn rest_fits(walk: &mut Walk<'_>, event: &mut Record, edit: &mut EditMark) -> Result<(), Memory>
    ensures { OnOk result (All IsTyped walk.old) }
{
    'entries: loop {
        match walk.next(event, edit)? {
            Step::Event => event_fits(event),
            Step::Edit => (),
            Step::End => return Ok(()),
        }
    }
}

// Entries, which are read one at a time.
pub(crate) fn entries_fit(alloc: Global, entries: &Packed) -> Result<(), Memory>
    ensures { OnOk result (All IsTyped entries.now.list) }
{
    let mut event = blank_event(alloc);
    let mut edit = blank_edit(alloc);
    let mut walk = entries.walk();
    rest_fits(&mut walk, &mut event, &mut edit)
}
