//! Columns as they are read.

ghost use Rattle.std.specs.Prelude.{◌≡◌, OnOk, OnErr, drop, false, true};
ghost use Rattle.market_types.specs.Told.{edit_told, event_told};
ghost use Rattle.market_types.specs.declared.message.Body.TheVariants as body;
ghost use Rattle.packed_entries.specs.Entries.{HasFor, accepted, body_in, cancelled, edit_in, entered, event_in, executed, first, left_by, lowered, no_edit, quoted, rejected, system, with_feed};
ghost use Rattle.packed_entries.specs.Kinds.{accepted_in, cancels_in, enters_in, is_edit, quotes_in, shorts_in};
ghost use Rattle.packed_entries.specs.Told.{rest_told};

use crate::mark::{Accepted, EditHead, Extra, Kind, Mark, Short};
use crate::reading::{extra_in, extras_in, fill};
use market_types::{Body, Cancel, EditMark, Enter, Feed, Inbound, Memory, Quote, Record, Reply};

// What is left of the columns.
#[derive(Clone, Copy)]
pub(crate) struct Rest<'a> {
    pub enters: &'a [Enter],
    pub cancels: &'a [Cancel],
    pub accepted: &'a [Accepted],
    pub shorts: &'a [Short],
    pub quotes: &'a [Quote],
    pub extras: &'a [Extra],
    pub edits: &'a [EditHead],
    pub feed: &'a [Feed],
}

fn entered(enters: &[Enter], to: &mut Body)
    ensures { to.new ≡ first entered body.Wake enters.now }
{
    match enters.first() {
        Some(order) => *to = Body::Order(Inbound::Enter(*order)),
        None => *to = Body::Wake,
    }
}

fn cancelled(cancels: &[Cancel], to: &mut Body)
    ensures { to.new ≡ first cancelled body.Wake cancels.now }
{
    match cancels.first() {
        Some(cancel) => *to = Body::Order(Inbound::Cancel(*cancel)),
        None => *to = Body::Wake,
    }
}

fn quoted(quotes: &[Quote], to: &mut Body)
    ensures { to.new ≡ first quoted body.Wake quotes.now }
{
    match quotes.first() {
        Some(quote) => *to = Body::Quote(*quote),
        None => *to = Body::Wake,
    }
}

fn accepted(replies: &[Accepted], to: &mut Body)
    ensures { to.new ≡ first accepted body.Wake replies.now }
{
    match replies.first() {
        Some(a) => *to = Body::Answer(Reply::Accepted {
            time: a.time,
            token: a.token,
            side: a.side,
            shares: a.shares,
            stock: a.stock,
            price: a.price,
            tif: a.tif,
            firm: a.firm,
            display: a.display,
            reference: a.reference,
            capacity: a.capacity,
            sweep: a.sweep,
            minimum: a.minimum,
            cross: a.cross,
            state: a.state,
            bbo: a.bbo,
        }),
        None => *to = Body::Wake,
    }
}

fn system(replies: &[Short], to: &mut Body)
    ensures { to.new ≡ first system body.Wake replies.now }
{
    match replies.first() {
        Some(s) => *to = Body::Answer(Reply::System {
            time: s.time,
            code: s.letter,
        }),
        None => *to = Body::Wake,
    }
}

fn lowered(replies: &[Short], to: &mut Body)
    ensures { to.new ≡ first lowered body.Wake replies.now }
{
    match replies.first() {
        Some(s) => *to = Body::Answer(Reply::Canceled {
            time: s.time,
            token: s.token,
            decrement: s.shares,
            reason: s.letter,
        }),
        None => *to = Body::Wake,
    }
}

fn executed(replies: &[Short], to: &mut Body)
    ensures { to.new ≡ first executed body.Wake replies.now }
{
    match replies.first() {
        Some(s) => *to = Body::Answer(Reply::Executed {
            time: s.time,
            token: s.token,
            shares: s.shares,
            price: s.price,
            flag: s.letter,
            number: s.number,
        }),
        None => *to = Body::Wake,
    }
}

fn rejected(replies: &[Short], to: &mut Body)
    ensures { to.new ≡ first rejected body.Wake replies.now }
{
    match replies.first() {
        Some(s) => *to = Body::Answer(Reply::Rejected {
            time: s.time,
            token: s.token,
            reason: s.letter,
        }),
        None => *to = Body::Wake,
    }
}

// Makes a mark of a trace the first edit, with the feed that it has.
fn head_into(edits: &[EditHead], edit: &mut EditMark)
    ensures { edit_told edit.new ≡ first (with_feed edit.old.feed.list) no_edit edits.now }
{
    match edits.first() {
        Some(d) => {
            edit.events = d.events;
            edit.time = d.time;
            edit.branch = d.branch;
            edit.index = d.index;
            edit.letter = d.letter;
        }
        None => {
            edit.events = 0;
            edit.time = 0;
            edit.branch = 0;
            edit.index = 0;
            edit.letter = 0;
            edit.feed.clear();
        }
    }
}

impl<'a> Rest<'a> {
    // Makes a body that of a mark's event, and goes on behind what it has.
    fn take_body(&mut self, mark: &Mark, to: &mut Body)
        requires { HasFor mark.now (rest_told self.old) }
        ensures value { to.new ≡ body_in mark.now.kind mark.now.stock (rest_told self.old) }
        ensures enters { self.new.enters.now ≡ drop (enters_in mark.now.kind) self.old.enters.now }
        ensures cancels { self.new.cancels.now ≡ drop (cancels_in mark.now.kind) self.old.cancels.now }
        ensures accepted { self.new.accepted.now ≡ drop (accepted_in mark.now.kind) self.old.accepted.now }
        ensures shorts { self.new.shorts.now ≡ drop (shorts_in mark.now.kind) self.old.shorts.now }
        ensures quotes { self.new.quotes.now ≡ drop (quotes_in mark.now.kind) self.old.quotes.now }
        ensures extras { self.new.extras.now ≡ self.old.extras.now }
        ensures edits { self.new.edits.now ≡ self.old.edits.now }
        ensures feed { self.new.feed.now ≡ self.old.feed.now }
    {
        match mark.kind {
            Kind::Wake | Kind::Edit => *to = Body::Wake,
            Kind::Ask => *to = Body::Ask(mark.stock),
            Kind::Enter => {
                entered(self.enters, to);
                self.enters = &self.enters[1..];
            }
            Kind::Cancel => {
                cancelled(self.cancels, to);
                self.cancels = &self.cancels[1..];
            }
            Kind::Quote => {
                quoted(self.quotes, to);
                self.quotes = &self.quotes[1..];
            }
            Kind::Accepted => {
                accepted(self.accepted, to);
                self.accepted = &self.accepted[1..];
            }
            Kind::System => {
                system(self.shorts, to);
                self.shorts = &self.shorts[1..];
            }
            Kind::Canceled => {
                lowered(self.shorts, to);
                self.shorts = &self.shorts[1..];
            }
            Kind::Executed => {
                executed(self.shorts, to);
                self.shorts = &self.shorts[1..];
            }
            Kind::Rejected => {
                rejected(self.shorts, to);
                self.shorts = &self.shorts[1..];
            }
        }
    }

    // Makes a record the event of a mark, and goes on behind it.
    pub(crate) fn take_event(&mut self, mark: &Mark, event: &mut Record) -> Result<(), Memory>
        requires has { HasFor mark.now (rest_told self.old) }
        requires kind { is_edit mark.now.kind ≡ false }
        ensures told { OnOk result (event_told event.new ≡ event_in mark.now (rest_told self.old)) }
        ensures left { OnOk result (rest_told self.new ≡ left_by mark.now (rest_told self.old)) }
        ensures refused { OnErr result (rest_told self.new ≡ rest_told self.old) }
    {
        let more = extra_in(mark, self.extras);
        let own = &self.feed[more.before..];
        fill(&mut event.before, &self.feed[..more.before])?;
        fill(&mut event.after, &own[..more.after])?;
        event.number = mark.number;
        event.time = mark.time;
        event.seq = more.seq;
        event.from = mark.from;
        event.to = mark.to;
        event.put_back = mark.put_back;
        event.until = more.until;
        event.fee = more.fee;
        self.take_body(mark, &mut event.body);
        self.extras = &self.extras[extras_in(mark.is_more)..];
        self.feed = &own[more.after..];
        Ok(())
    }

    // Makes a mark of a trace the edit of a mark, and goes on behind it.
    pub(crate) fn take_edit(&mut self, mark: &Mark, edit: &mut EditMark) -> Result<(), Memory>
        requires has { HasFor mark.now (rest_told self.old) }
        requires kind { is_edit mark.now.kind ≡ true }
        ensures told { OnOk result (edit_told edit.new ≡ edit_in mark.now (rest_told self.old)) }
        ensures left { OnOk result (rest_told self.new ≡ left_by mark.now (rest_told self.old)) }
        ensures refused { OnErr result (rest_told self.new ≡ rest_told self.old) }
    {
        let more = extra_in(mark, self.extras);
        let rest = &self.feed[more.before..];
        fill(&mut edit.feed, &self.feed[..more.before])?;
        head_into(self.edits, edit);
        self.extras = &self.extras[extras_in(mark.is_more)..];
        self.edits = &self.edits[1..];
        self.feed = &rest[more.after..];
        Ok(())
    }
}
