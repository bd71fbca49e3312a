//! The bodies of messages as arrays: orders, the answers to them and quotes, written at the offsets of their fields.
//!
//! What an order or its answer is stands in the codec's table alone: the clause of each function says that its array is the
//! spelling of a wire, whose kinds are that table's. The fields whose bytes come from outside are written last, the last one first.

ghost use Rattle.std.specs.Prelude.{◌≡◌, ◌∷◌, ◌++◌, []};
ghost use Rattle.market_types.specs.declared.message.Body.TheVariants as body;
ghost use Rattle.market_types.specs.declared.order.Inbound.TheVariants as inbound;
ghost use Rattle.market_types.specs.declared.reply.Reply.TheVariants as reply;
ghost use Rattle.wire_fields.specs.Numbers.{number_bytes};
ghost use Rattle.wire_fields.specs.Values.{side_letter};
ghost use Rattle.wire_fields.specs.Wire.{spelling};
ghost use Rattle.ouch_codec.specs.Inbound.{inbound_wire};
ghost use Rattle.ouch_codec.specs.Outbound.{reply_wire};
ghost use Rattle.bundle_frames.specs.Wires.{body_bytes};

use market_types::{Cancel, Enter, Quote, Side, Symbol, Token};
use wire_fields::side_letter;

// How much of which stock an order buys or sells, which it and its acceptance write alike.
fn asked(side: Side, shares: u32, stock: &Symbol) -> [u8; 13]
    ensures { result ≡ (side_letter side ∷ number_bytes 4 shares) ++ stock.now.0 }
{
    let mut part = [0; 13];
    part[0] = side_letter(side);
    part[1..5].copy_from_slice(&shares.to_be_bytes());
    part[5..13].copy_from_slice(&stock.0);
    part
}

// At which price, for how long and for whom, which both write alike after that.
fn terms(price: u32, tif: u32, firm: &[u8; 4]) -> [u8; 12]
    ensures { result ≡ number_bytes 4 price ++ number_bytes 4 tif ++ firm.now }
{
    let mut part = [0; 12];
    part[0..4].copy_from_slice(&price.to_be_bytes());
    part[4..8].copy_from_slice(&tif.to_be_bytes());
    part[8..12].copy_from_slice(firm);
    part
}

// What an order says after its terms.
fn enter_end(m: &Enter) -> [u8; 9]
    ensures { result ≡ m.now.display ∷ m.now.capacity ∷ m.now.sweep ∷ (number_bytes 4 m.now.minimum ++ (m.now.cross ∷ m.now.customer ∷ [])) }
{
    let mut part = [0; 9];
    part[0..3].copy_from_slice(&[m.display, m.capacity, m.sweep]);
    part[3..7].copy_from_slice(&m.minimum.to_be_bytes());
    part[7..9].copy_from_slice(&[m.cross, m.customer]);
    part
}

pub(crate) fn enter(m: &Enter) -> [u8; 49]
    ensures { result ≡ spelling (inbound_wire (inbound.Enter m.now)) }
{
    let mut body = [0; 49];
    body[0] = b'O';
    body[40..49].copy_from_slice(&enter_end(m));
    body[28..40].copy_from_slice(&terms(m.price, m.tif, &m.firm));
    body[15..28].copy_from_slice(&asked(m.side, m.shares, &m.stock));
    body[1..15].copy_from_slice(&m.token.0);
    body
}

pub(crate) fn cancel(m: &Cancel) -> [u8; 19]
    ensures { result ≡ spelling (inbound_wire (inbound.Cancel m.now)) }
{
    let mut body = [0; 19];
    body[0] = b'X';
    body[15..19].copy_from_slice(&m.shares.to_be_bytes());
    body[1..15].copy_from_slice(&m.token.0);
    body
}

pub(crate) fn system(time: u64, code: u8) -> [u8; 10]
    ensures { result ≡ spelling (reply_wire (reply.System time code)) }
{
    let mut body = [0; 10];
    body[0] = b'S';
    body[1..9].copy_from_slice(&time.to_be_bytes());
    body[9] = code;
    body
}

// The letter of an answer, its time and the token of which it tells.
fn answer_start(letter: u8, time: u64, token: &Token) -> [u8; 23]
    ensures { result ≡ (letter ∷ number_bytes 8 time) ++ token.now.0 }
{
    let mut part = [0; 23];
    part[0] = letter;
    part[1..9].copy_from_slice(&time.to_be_bytes());
    part[9..23].copy_from_slice(&token.0);
    part
}

// What an acceptance says after the terms of its order.
fn accepted_end(
    display: u8,
    reference: u64,
    capacity: u8,
    sweep: u8,
    minimum: u32,
    cross: u8,
    state: u8,
    bbo: u8,
) -> [u8; 18]
    ensures { result ≡ (display ∷ number_bytes 8 reference) ++ (capacity ∷ sweep ∷ number_bytes 4 minimum) ++ (cross ∷ state ∷ bbo ∷ []) }
{
    let mut part = [0; 18];
    part[0] = display;
    part[1..9].copy_from_slice(&reference.to_be_bytes());
    part[9..11].copy_from_slice(&[capacity, sweep]);
    part[11..15].copy_from_slice(&minimum.to_be_bytes());
    part[15..18].copy_from_slice(&[cross, state, bbo]);
    part
}

pub(crate) fn accepted(
    time: u64,
    token: &Token,
    side: Side,
    shares: u32,
    stock: &Symbol,
    price: u32,
    tif: u32,
    firm: &[u8; 4],
    display: u8,
    reference: u64,
    capacity: u8,
    sweep: u8,
    minimum: u32,
    cross: u8,
    state: u8,
    bbo: u8,
) -> [u8; 66]
    ensures { result ≡ spelling (reply_wire (reply.Accepted time token.now side shares stock.now price tif firm.now display reference capacity sweep minimum cross state bbo)) }
{
    let mut body = [0; 66];
    body[48..66].copy_from_slice(&accepted_end(
        display, reference, capacity, sweep, minimum, cross, state, bbo,
    ));
    body[36..48].copy_from_slice(&terms(price, tif, firm));
    body[23..36].copy_from_slice(&asked(side, shares, stock));
    body[0..23].copy_from_slice(&answer_start(b'A', time, token));
    body
}

pub(crate) fn canceled(time: u64, token: &Token, decrement: u32, reason: u8) -> [u8; 28]
    ensures { result ≡ spelling (reply_wire (reply.Canceled time token.now decrement reason)) }
{
    let mut body = [0; 28];
    body[0] = b'C';
    body[1..9].copy_from_slice(&time.to_be_bytes());
    body[23..27].copy_from_slice(&decrement.to_be_bytes());
    body[27] = reason;
    body[9..23].copy_from_slice(&token.0);
    body
}

pub(crate) fn executed(
    time: u64,
    token: &Token,
    shares: u32,
    price: u32,
    flag: u8,
    match_number: u64,
) -> [u8; 40]
    ensures { result ≡ spelling (reply_wire (reply.Executed time token.now shares price flag match_number)) }
{
    let mut body = [0; 40];
    body[23..27].copy_from_slice(&shares.to_be_bytes());
    body[27..31].copy_from_slice(&price.to_be_bytes());
    body[31] = flag;
    body[32..40].copy_from_slice(&match_number.to_be_bytes());
    body[0..23].copy_from_slice(&answer_start(b'E', time, token));
    body
}

pub(crate) fn rejected(time: u64, token: &Token, reason: u8) -> [u8; 24]
    ensures { result ≡ spelling (reply_wire (reply.Rejected time token.now reason)) }
{
    let mut body = [0; 24];
    body[0] = b'J';
    body[1..9].copy_from_slice(&time.to_be_bytes());
    body[23] = reason;
    body[9..23].copy_from_slice(&token.0);
    body
}

pub(crate) fn quote(q: &Quote) -> [u8; 31]
    ensures { result ≡ body_bytes (body.Quote q.now) }
{
    let mut body = [0; 31];
    body[0..2].copy_from_slice(&q.stock.to_be_bytes());
    body[2] = q.state;
    body[3..7].copy_from_slice(&q.bid.to_be_bytes());
    body[7..15].copy_from_slice(&q.bid_shares.to_be_bytes());
    body[15..19].copy_from_slice(&q.ask.to_be_bytes());
    body[19..27].copy_from_slice(&q.ask_shares.to_be_bytes());
    body[27..31].copy_from_slice(&q.last.to_be_bytes());
    body
}
