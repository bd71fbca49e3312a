//! What is kept of an event beside its columns.

ghost use Rattle.std.specs.Prelude.{◌≡◌, ◌<◌, ◌≤◌, ◌-◌, ◌^◌, length, pos, false};
ghost use Rattle.packed_entries.specs.Own.{edit_head, edit_mark, kind_of, kind_of_order, kind_of_reply, low, mark_of, stock_of};
ghost use Rattle.packed_entries.specs.Told.{parts_told};
ghost use Rattle.market_types.specs.Told.{edit_told};

use crate::EventParts;
use crate::mark::{EditHead, Kind, Mark};
use market_types::{Body, EditMark, Inbound, Reply, StockNo};

// The highest number that has room in a mark.
const MOST: u64 = 4_294_967_295;

// The most messages that a mark can count.
const MOST_MESSAGES: usize = 255;

fn kind_of_order(order: &Inbound) -> Kind
    ensures { result ≡ kind_of_order order.now }
{
    match order {
        Inbound::Enter(_) => Kind::Enter,
        Inbound::Cancel(_) => Kind::Cancel,
    }
}

fn kind_of_reply(reply: &Reply) -> Kind
    ensures { result ≡ kind_of_reply reply.now }
{
    match reply {
        Reply::System { .. } => Kind::System,
        Reply::Accepted { .. } => Kind::Accepted,
        Reply::Canceled { .. } => Kind::Canceled,
        Reply::Executed { .. } => Kind::Executed,
        Reply::Rejected { .. } => Kind::Rejected,
    }
}

fn kind_of(body: &Body) -> Kind
    ensures { result ≡ kind_of body.now }
{
    match body {
        Body::Wake => Kind::Wake,
        Body::Order(order) => kind_of_order(order),
        Body::Answer(reply) => kind_of_reply(reply),
        Body::Ask(_) => Kind::Ask,
        Body::Quote(_) => Kind::Quote,
    }
}

fn stock_of(body: &Body) -> StockNo
    ensures { result ≡ stock_of body.now }
{
    match body {
        Body::Ask(stock) => *stock,
        _ => 0,
    }
}

// Whether an event has a fee, or a number that has no room in a mark.
pub(crate) fn has_more(e: &EventParts<'_>) -> bool
    ensures fee { result ≡ false → e.now.fee ≡ pos 0 }
    ensures seq { result ≡ false → e.now.seq < 2 ^ 32 }
    ensures early { result ≡ false → e.now.time ≤ e.now.until }
    ensures later { result ≡ false → e.now.until - e.now.time < 2 ^ 32 }
    ensures before { result ≡ false → length e.now.before.now < 256 }
    ensures after { result ≡ false → length e.now.after.now < 256 }
    ensures time { e.now.time < 2 ^ 64 }
    ensures until { e.now.until < 2 ^ 64 }
{
    let (time, until) = (e.time, e.until);
    e.fee != 0
        || e.seq > MOST
        || until < time
        || until - time > MOST
        || e.before.len() > MOST_MESSAGES
        || e.after.len() > MOST_MESSAGES
}

// Whether an edit has more messages than a mark can count.
pub(crate) fn has_long_feed(d: &EditMark) -> bool
    ensures { result ≡ false → length d.now.feed.list < 256 }
{
    d.feed.len() > MOST_MESSAGES
}

// A number in a mark, unless it stands elsewhere.
fn low(is_more: bool, number: u64) -> u32
    requires { is_more ≡ false → number < 2 ^ 32 }
    ensures { result ≡ low is_more number }
{
    if is_more { 0 } else { number as u32 }
}

// A number of messages in a mark, unless it stands elsewhere.
fn count(is_more: bool, messages: usize) -> u8
    requires { is_more ≡ false → messages < 256 }
    ensures { result ≡ low is_more messages }
{
    if is_more { 0 } else { messages as u8 }
}

// The mark of an event that has more than it, or that hasn't.
pub(crate) fn mark_of(is_more: bool, e: &EventParts<'_>) -> Mark
    requires seq { is_more ≡ false → e.now.seq < 2 ^ 32 }
    requires later { is_more ≡ false → e.now.until - e.now.time < 2 ^ 32 }
    requires before { is_more ≡ false → length e.now.before.now < 256 }
    requires after { is_more ≡ false → length e.now.after.now < 256 }
    ensures { result ≡ mark_of is_more (parts_told e.now) }
{
    Mark {
        time: e.time,
        number: e.number,
        seq: low(is_more, e.seq),
        later: low(is_more, e.until.saturating_sub(e.time)),
        from: e.from,
        to: e.to,
        stock: stock_of(e.body),
        before: count(is_more, e.before.len()),
        after: count(is_more, e.after.len()),
        kind: kind_of(e.body),
        put_back: e.put_back,
        is_more,
    }
}

// The mark of an edit that has more messages than it can count, or that hasn't.
pub(crate) fn edit_mark(is_more: bool, d: &EditMark) -> Mark
    requires { is_more ≡ false → length d.now.feed.list < 256 }
    ensures { result ≡ edit_mark is_more (edit_told d.now) }
{
    Mark {
        time: 0,
        number: 0,
        seq: 0,
        later: 0,
        from: 0,
        to: 0,
        stock: 0,
        before: count(is_more, d.feed.len()),
        after: 0,
        kind: Kind::Edit,
        put_back: false,
        is_more,
    }
}

// An edit without its feed.
pub(crate) fn edit_head(d: &EditMark) -> EditHead
    ensures { result ≡ edit_head (edit_told d.now) }
{
    EditHead {
        events: d.events,
        time: d.time,
        branch: d.branch,
        index: d.index,
        letter: d.letter,
    }
}
