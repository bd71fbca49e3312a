//! The fixed fields of each frame in bytes.

ghost use Rattle.std.specs.Prelude.{◌≡◌, ◌<◌, ◌/◌, ◌%◌, ◌^◌, ◌∷◌, ◌++◌, [], length};
ghost use Rattle.std.specs.Int.{cast_unsigned, w64, w128};
ghost use Rattle.market_types.specs.Told.{edit_told};
ghost use Rattle.wire_fields.specs.Numbers.{number_bytes};
ghost use Rattle.wire_fields.specs.Wire.{spelling};
ghost use Rattle.bundle_frames.specs.Wires.{header_wire, branch_wire, head_wire, edit_wire, counts_wire, stock_wire, order_wire, agent_wire, end_wire, position_bytes, letter_of_delivery, letter_of_silence, letter_of_order, letter_of_body, waiting_wire};

use crate::closing::{ClosingAgent, ClosingCounts, ClosingOrder, ClosingStock};
use crate::head::EventHead;
use crate::layouts::{AGENT, BRANCH, COUNTS, EDIT, END, HEADER, ORDER, POSITION, STOCK, WAITING};
use market_types::{Body, EditMark, Message};
use wire_fields::{Value, fields, message};

// The header, for so many agents with the exchange, stocks and branches.
pub(crate) fn header(agents: u16, stocks: u16, branches: u16) -> [u8; 9]
    ensures { result ≡ spelling (header_wire agents stocks branches) }
{
    message(
        b'h',
        &HEADER,
        &[
            Value::Number(1),
            Value::Number(u64::from(agents)),
            Value::Number(u64::from(stocks)),
            Value::Number(u64::from(branches)),
        ],
    )
}

// A branch, before its name.
pub(crate) fn branch_head(branch: u16, parent: u16, stop: u32, name: &[u8]) -> [u8; 10]
    requires { length name.now < 256 }
    ensures { result ≡ spelling (branch_wire branch parent stop name.now) }
{
    message(
        b'b',
        &BRANCH,
        &[
            Value::Number(u64::from(branch)),
            Value::Number(u64::from(parent)),
            Value::Number(u64::from(stop)),
            Value::Byte(name.len() as u8),
        ],
    )
}

fn delivery_letter(put_back: bool) -> u8
    ensures { result ≡ letter_of_delivery put_back }
{
    if put_back { b'P' } else { b'D' }
}

// The letter, the number and the time of an event.
fn event_start(h: &EventHead) -> [u8; 13]
    ensures { result ≡ 101 ∷ (number_bytes 4 h.now.number ++ number_bytes 8 h.now.time) }
{
    let mut part = [0; 13];
    part[0] = b'e';
    part[1..5].copy_from_slice(&h.number.to_be_bytes());
    part[5..13].copy_from_slice(&h.time.to_be_bytes());
    part
}

// Which message an event is of, and between whom.
fn event_way(h: &EventHead) -> [u8; 12]
    ensures { result ≡ number_bytes 8 h.now.seq ++ number_bytes 2 h.now.from ++ number_bytes 2 h.now.to }
{
    let mut part = [0; 12];
    part[0..8].copy_from_slice(&h.seq.to_be_bytes());
    part[8..10].copy_from_slice(&h.from.to_be_bytes());
    part[10..12].copy_from_slice(&h.to.to_be_bytes());
    part
}

// How an event went, and the letter of its body.
fn event_end(h: &EventHead, letter: u8) -> [u8; 18]
    ensures { result ≡ letter_of_delivery h.now.put_back ∷ (number_bytes 8 h.now.until ++ number_bytes 8 (cast_unsigned w64 h.now.fee) ++ (letter ∷ [])) }
{
    let mut part = [0; 18];
    part[0] = delivery_letter(h.put_back);
    part[1..9].copy_from_slice(&h.until.to_be_bytes());
    part[9..17].copy_from_slice(&h.fee.to_be_bytes());
    part[17] = letter;
    part
}

// An event, before its body, of which this letter tells the kind. It is written at the offsets of its layout, since most
// frames are events.
pub(crate) fn event_head(h: &EventHead, letter: u8) -> [u8; 43]
    ensures { result ≡ spelling (head_wire h.now letter) }
{
    let mut head = [0; 43];
    head[0..13].copy_from_slice(&event_start(h));
    head[13..25].copy_from_slice(&event_way(h));
    head[25..43].copy_from_slice(&event_end(h, letter));
    head
}

fn body_letter(body: &Body) -> u8
    ensures { result ≡ letter_of_body body.now }
{
    match body {
        Body::Wake => b'w',
        Body::Order(_) => b'i',
        Body::Answer(_) => b'o',
        Body::Ask(_) => b'a',
        Body::Quote(_) => b'q',
    }
}

// A waiting message, before its body.
pub(crate) fn waiting_head(m: &Message) -> [u8; 22]
    ensures { result ≡ spelling (waiting_wire m.now) }
{
    message(
        b'w',
        &WAITING,
        &[
            Value::Number(m.time),
            Value::Number(m.seq),
            Value::Number(u64::from(m.from)),
            Value::Number(u64::from(m.to)),
            Value::Byte(body_letter(&m.body)),
        ],
    )
}

pub(crate) fn edit_frame(m: &EditMark) -> [u8; 18]
    ensures { result ≡ spelling (edit_wire (edit_told m.now)) }
{
    message(
        b'd',
        &EDIT,
        &[
            Value::Number(u64::from(m.events)),
            Value::Number(m.time),
            Value::Number(u64::from(m.branch)),
            Value::Number(u64::from(m.index)),
            Value::Byte(m.letter),
        ],
    )
}

pub(crate) fn counts_frame(c: &ClosingCounts) -> [u8; 66]
    ensures { result ≡ spelling (counts_wire c.now) }
{
    message(
        b'c',
        &COUNTS,
        &[
            Value::Byte(c.end),
            Value::Number(u64::from(c.events)),
            Value::Number(c.time),
            Value::Number(c.next_seq),
            Value::Number(u64::from(c.waiting)),
            Value::Number(c.dropped),
            Value::Number(c.enters),
            Value::Number(c.cancels),
            Value::Number(c.orders),
            Value::Number(c.matches),
        ],
    )
}

fn high_half(z: i128) -> u64
    ensures { result ≡ cast_unsigned w128 z / 2 ^ 64 }
{
    (z.cast_unsigned() >> 64) as u64
}

fn low_half(z: i128) -> u64
    ensures { result ≡ cast_unsigned w128 z % 2 ^ 64 }
{
    (z.cast_unsigned() % (1 << 64)) as u64
}

pub(crate) fn stock_frame(s: &ClosingStock) -> [u8; 44]
    ensures { result ≡ spelling (stock_wire s.now) }
{
    message(
        b's',
        &STOCK,
        &[
            Value::Number(u64::from(s.stock)),
            Value::Byte(s.state),
            Value::Number(u64::from(s.last)),
            Value::Number(s.matched),
            Value::Number(high_half(s.fees)),
            Value::Number(low_half(s.fees)),
            Value::Number(s.offset.cast_unsigned()),
            Value::Number(u64::from(s.live)),
        ],
    )
}

fn order_letter(shown: bool) -> u8
    ensures { result ≡ letter_of_order shown }
{
    if shown { b'l' } else { b'n' }
}

pub(crate) fn order_frame(o: &ClosingOrder) -> [u8; 44]
    ensures { result ≡ spelling (order_wire o.now) }
{
    message(
        order_letter(o.shown),
        &ORDER,
        &[
            Value::Number(o.reference),
            Value::Number(u64::from(o.agent)),
            Value::Token(o.token),
            Value::Side(o.side),
            Value::Number(u64::from(o.intended)),
            Value::Number(u64::from(o.left)),
            Value::Number(u64::from(o.stock)),
            Value::Number(u64::from(o.price)),
            Value::Number(u64::from(o.tif)),
        ],
    )
}

fn silence_letter(silenced: bool) -> u8
    ensures { result ≡ letter_of_silence silenced }
{
    if silenced { b'Y' } else { b'N' }
}

// An agent of a closing, before its positions.
pub(crate) fn agent_head(a: &ClosingAgent) -> [u8; 70]
    ensures { result ≡ spelling (agent_wire a.now) }
{
    message(
        b'a',
        &AGENT,
        &[
            Value::Number(u64::from(a.agent)),
            Value::Byte(silence_letter(a.silenced)),
            Value::Number(a.time),
            Value::Number(u64::from(a.tokens)),
            Value::Number(a.draws),
            Value::Number(high_half(a.cash)),
            Value::Number(low_half(a.cash)),
            Value::Number(high_half(a.own_cash)),
            Value::Number(low_half(a.own_cash)),
            Value::Number(a.own_position.cast_unsigned()),
            Value::Number(u64::from(a.live)),
            Value::Number(u64::from(a.quotes)),
        ],
    )
}

#[tactic(auto, unfolding(crate::specs::Wires::position_bytes))]
pub(crate) fn position(shares: i64) -> [u8; 8]
    ensures { result ≡ position_bytes shares }
{
    fields(&POSITION, &[Value::Number(shares.cast_unsigned())])
}

pub(crate) fn end(branches: u16) -> [u8; 3]
    ensures { result ≡ spelling (end_wire branches) }
{
    message(b'z', &END, &[Value::Number(u64::from(branches))])
}
