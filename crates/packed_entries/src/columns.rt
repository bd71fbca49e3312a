//! The columns, to which what an entry has is put.

ghost use Rattle.std.specs.Prelude.{◌≡◌, ℕ, ◌+◌, ◌<◌, ◌≤◌, ◌++◌, ◌∷◌, [], OnOk, if◌then◌else◌, length};
ghost use Rattle.market_types.specs.Told.{edit_told};
ghost use Rattle.packed_entries.specs.Own.{accepted_of, accepted_told, cancels_of, cancels_sent, edit_extra, edit_head, edit_parts, enters_of, enters_sent, extra_of, own_parts, quotes_of, shorts_of, shorts_told};
ghost use Rattle.packed_entries.specs.Parts.{joined};
ghost use Rattle.packed_entries.specs.Told.{HasRoom, columns_told, parts_told};

use crate::EventParts;
use crate::mark::{Accepted, EditHead, Extra, Short};
use crate::marking::edit_head;
use market_types::{
    Body, Cancel, EditMark, Enter, Feed, Inbound, Memory, Quote, Reply, Roomy, Token,
};
use std::alloc::Global;

// What entries of each kind have.
#[derive(Drop)]
pub(crate) struct Columns {
    pub enters: Roomy<Enter>,
    pub cancels: Roomy<Cancel>,
    pub accepted: Roomy<Accepted>,
    pub shorts: Roomy<Short>,
    pub quotes: Roomy<Quote>,
    pub extras: Roomy<Extra>,
    pub edits: Roomy<EditHead>,
    pub feed: Roomy<Feed>,
}

fn put_order(enters: &mut Roomy<Enter>, cancels: &mut Roomy<Cancel>, order: &Inbound)
    requires enters { 1 ≤ enters.old.spare }
    requires cancels { 1 ≤ cancels.old.spare }
    ensures enters { enters.new.list ≡ enters.old.list ++ enters_sent order.now }
    ensures cancels { cancels.new.list ≡ cancels.old.list ++ cancels_sent order.now }
    ensures enters_room { enters.old.spare ≤ enters.new.spare + 1 }
    ensures cancels_room { cancels.old.spare ≤ cancels.new.spare + 1 }
{
    match order {
        Inbound::Enter(enter) => enters.put(*enter),
        Inbound::Cancel(cancel) => cancels.put(*cancel),
    }
}

fn put_reply(replies: &mut Roomy<Accepted>, shorts: &mut Roomy<Short>, reply: &Reply)
    requires replies { 1 ≤ replies.old.spare }
    requires shorts { 1 ≤ shorts.old.spare }
    ensures replies { replies.new.list ≡ replies.old.list ++ accepted_told reply.now }
    ensures shorts { shorts.new.list ≡ shorts.old.list ++ shorts_told reply.now }
    ensures replies_room { replies.old.spare ≤ replies.new.spare + 1 }
    ensures shorts_room { shorts.old.spare ≤ shorts.new.spare + 1 }
{
    match *reply {
        Reply::System { time, code } => shorts.put(Short {
            time,
            number: 0,
            shares: 0,
            price: 0,
            token: Token([0; 14]),
            letter: code,
        }),
        Reply::Accepted {
            time,
            token,
            side,
            shares,
            stock,
            price,
            tif,
            firm,
            display,
            reference,
            capacity,
            sweep,
            minimum,
            cross,
            state,
            bbo,
        } => replies.put(Accepted {
            time,
            reference,
            shares,
            price,
            tif,
            minimum,
            token,
            stock,
            firm,
            side,
            display,
            capacity,
            sweep,
            cross,
            state,
            bbo,
        }),
        Reply::Canceled {
            time,
            token,
            decrement,
            reason,
        } => shorts.put(Short {
            time,
            number: 0,
            shares: decrement,
            price: 0,
            token,
            letter: reason,
        }),
        Reply::Executed {
            time,
            token,
            shares,
            price,
            flag,
            number,
        } => shorts.put(Short {
            time,
            number,
            shares,
            price,
            token,
            letter: flag,
        }),
        Reply::Rejected {
            time,
            token,
            reason,
        } => shorts.put(Short {
            time,
            number: 0,
            shares: 0,
            price: 0,
            token,
            letter: reason,
        }),
    }
}

fn put_extra(column: &mut Roomy<Extra>, is_more: bool, e: &EventParts<'_>)
    requires { 1 ≤ column.old.spare }
    ensures room { column.old.spare ≤ column.new.spare + 1 }
    ensures list { column.new.list ≡ column.old.list ++ (if is_more then extra_of (parts_told e.now) ∷ [] else []) }
{
    if is_more {
        column.put(Extra {
            seq: e.seq,
            until: e.until,
            fee: e.fee,
            before: e.before.len(),
            after: e.after.len(),
        });
    }
}

fn put_edit_extra(column: &mut Roomy<Extra>, is_more: bool, d: &EditMark)
    requires { 1 ≤ column.old.spare }
    ensures room { column.old.spare ≤ column.new.spare + 1 }
    ensures list { column.new.list ≡ column.old.list ++ (if is_more then edit_extra (edit_told d.now) ∷ [] else []) }
{
    if is_more {
        column.put(Extra {
            seq: 0,
            until: 0,
            fee: 0,
            before: d.feed.len(),
            after: 0,
        });
    }
}

// Messages of a feed.
fn put_feed(column: &mut Roomy<Feed>, feed: &[Feed])
    requires { length feed.now ≤ column.old.spare }
    ensures list { column.new.list ≡ column.old.list ++ feed.now }
    ensures spare { column.new.spare + length feed.now ≡ column.old.spare }
{
    for message in feed {
        column.put(*message);
    }
}

impl Columns {
    pub(crate) fn new(alloc: Global) -> Columns
        ensures { columns_told result ≡ record { enters = []; cancels = []; accepted = []; shorts = []; quotes = []; extras = []; edits = []; feed = [] } }
    {
        Columns {
            enters: Roomy::new(alloc),
            cancels: Roomy::new(alloc),
            accepted: Roomy::new(alloc),
            shorts: Roomy::new(alloc),
            quotes: Roomy::new(alloc),
            extras: Roomy::new(alloc),
            edits: Roomy::new(alloc),
            feed: Roomy::new(alloc),
        }
    }

    // Makes room for so many items in each column but that of the feed.
    pub(crate) fn reserve(&mut self, items: usize) -> Result<(), Memory>
        ensures lists { columns_told self.new ≡ columns_told self.old }
        ensures room { OnOk result (HasRoom items self.new) }
    {
        self.enters.reserve(items)?;
        self.cancels.reserve(items)?;
        self.accepted.reserve(items)?;
        self.shorts.reserve(items)?;
        self.quotes.reserve(items)?;
        self.extras.reserve(items)?;
        self.edits.reserve(items)
    }

    // Makes room for what so many events may have. That is a hint.
    pub(crate) fn expect(&mut self, events: usize)
        ensures lists { columns_told self.new ≡ columns_told self.old }
        ensures room { (n : ℕ) → HasRoom n self.old → HasRoom n self.new }
    {
        let _ = self.enters.reserve(events / 4);
        let _ = self.cancels.reserve(events / 4);
        let _ = self.accepted.reserve(events / 4);
        let _ = self.shorts.reserve(events / 3);
        let _ = self.quotes.reserve(events / 4);
        let _ = self.feed.reserve(events / 4);
    }

    // Makes room for so many messages.
    pub(crate) fn reserve_feed(&mut self, messages: usize) -> Result<(), Memory>
        ensures lists { columns_told self.new ≡ columns_told self.old }
        ensures room { (n : ℕ) → HasRoom n self.old → HasRoom n self.new }
        ensures feed { OnOk result (messages ≤ self.new.feed.spare) }
    {
        self.feed.reserve(messages)
    }

    // Puts what a body has.
    fn put_body(&mut self, body: &Body)
        requires { HasRoom 1 self.old }
        ensures enters { self.new.enters.list ≡ self.old.enters.list ++ enters_of body.now }
        ensures cancels { self.new.cancels.list ≡ self.old.cancels.list ++ cancels_of body.now }
        ensures accepted { self.new.accepted.list ≡ self.old.accepted.list ++ accepted_of body.now }
        ensures shorts { self.new.shorts.list ≡ self.old.shorts.list ++ shorts_of body.now }
        ensures quotes { self.new.quotes.list ≡ self.old.quotes.list ++ quotes_of body.now }
        ensures enters_room { self.old.enters.spare ≤ self.new.enters.spare + 1 }
        ensures cancels_room { self.old.cancels.spare ≤ self.new.cancels.spare + 1 }
        ensures accepted_room { self.old.accepted.spare ≤ self.new.accepted.spare + 1 }
        ensures shorts_room { self.old.shorts.spare ≤ self.new.shorts.spare + 1 }
        ensures quotes_room { self.old.quotes.spare ≤ self.new.quotes.spare + 1 }
        ensures extras { self.new.extras ≡ self.old.extras }
        ensures edits { self.new.edits ≡ self.old.edits }
        ensures feed { self.new.feed ≡ self.old.feed }
    {
        match body {
            Body::Wake | Body::Ask(_) => (),
            Body::Order(order) => put_order(&mut self.enters, &mut self.cancels, order),
            Body::Answer(reply) => put_reply(&mut self.accepted, &mut self.shorts, reply),
            Body::Quote(quote) => self.quotes.put(*quote),
        }
    }

    // Puts what an event has.
    pub(crate) fn put_event(&mut self, is_more: bool, e: &EventParts<'_>)
        requires room { HasRoom 1 self.old }
        requires feed { length e.now.before.now + length e.now.after.now ≤ self.old.feed.spare }
        ensures told { columns_told self.new ≡ joined (columns_told self.old) (own_parts is_more (parts_told e.now)) }
        ensures room { (n m : ℕ) → m < n → HasRoom n self.old → HasRoom m self.new }
    {
        self.put_body(e.body);
        put_extra(&mut self.extras, is_more, e);
        put_feed(&mut self.feed, e.before);
        put_feed(&mut self.feed, e.after);
    }

    // Puts what an edit has.
    pub(crate) fn put_edit(&mut self, is_more: bool, d: &EditMark)
        requires room { HasRoom 1 self.old }
        requires feed { length d.now.feed.list ≤ self.old.feed.spare }
        ensures told { columns_told self.new ≡ joined (columns_told self.old) (edit_parts is_more (edit_told d.now)) }
        ensures room { (n m : ℕ) → m < n → HasRoom n self.old → HasRoom m self.new }
    {
        put_edit_extra(&mut self.extras, is_more, d);
        self.edits.put(edit_head(d));
        put_feed(&mut self.feed, d.feed.as_slice());
    }
}
