//! Feed messages to bytes.

ghost use Rattle.std.specs.Prelude.{◌≡◌, ◌<◌, ◌≤◌, ◌^◌, ◌∷◌, ◌++◌, length};
ghost use Rattle.wire_fields.specs.Wire.{IsInRange, IsSpelled, spelling};
ghost use Rattle.wire_fields.specs.Numbers.{number_bytes};
ghost use Rattle.wire_fields.specs.Values.{number};
ghost use Rattle.market_types.specs.declared.feed.What.TheVariants as what;
ghost use Rattle.itch_codec.specs.Messages.{feed_wire, what_wire};

use crate::layouts::{
    ADD_TYPE, CANCEL_TYPE, CROSS_TYPE, DELETE_TYPE, DIRECTORY_TYPE, EXECUTED_TYPE, SYSTEM_TYPE,
    TRADE_TYPE, TRADING_TYPE,
};
use market_types::{Feed, Side, Symbol, What};
use wire_fields::{MessageBytes, side_letter};

/// The bytes of a feed message, at most 44, seen as their list.
pub type FeedBytes = MessageBytes<44>;

/// The bytes of a feed message. A field out of its range is written as it stands.
pub fn encode_feed(m: &Feed) -> FeedBytes
    requires { m.now.time < 2 ^ 48 }
    ensures spelling { result ≡ spelling (feed_wire m.now) }
    ensures spelled { IsInRange (feed_wire m.now) → IsSpelled result (feed_wire m.now) }
    ensures size { length result ≤ 44 }
{
    match m.what {
        What::System { code } => system(m, code),
        What::Directory { .. } => directory(m),
        What::Trading {
            stock,
            state,
            reserved,
            reason,
        } => trading(m, stock, state, reserved, reason),
        What::Add {
            reference,
            side,
            shares,
            stock,
            price,
        } => add(m, reference, side, shares, stock, price),
        What::Executed {
            reference,
            shares,
            number,
        } => executed(m, reference, shares, number),
        What::Cancel { reference, shares } => cancel(m, reference, shares),
        What::Delete { reference } => delete(m, reference),
        What::Trade {
            reference,
            side,
            shares,
            stock,
            price,
            number,
        } => trade(m, reference, side, shares, stock, price, number),
        What::Cross {
            shares,
            stock,
            price,
            number,
            kind,
        } => cross(m, shares, stock, price, number, kind),
    }
}

// A message's type, and what each begins with.
fn started(letter: u8, m: &Feed) -> FeedBytes
    ensures bytes { result ≡ letter ∷ number_bytes 2 m.now.locate ++ number_bytes 2 m.now.tracking ++ number_bytes 6 m.now.time }
    ensures size { length result ≡ 11 }
{
    let [_, _, a, b, c, d, e, f] = m.time.to_be_bytes();
    let mut bytes = FeedBytes::begun(letter);
    bytes.push(&m.locate.to_be_bytes());
    bytes.push(&m.tracking.to_be_bytes());
    bytes.push(&[a, b, c, d, e, f]);
    bytes
}

// A System Event.
fn system(m: &Feed, code: u8) -> FeedBytes
    ensures spelling { result ≡ spelling (what_wire (number m.now.locate) (number m.now.tracking) (number m.now.time) (what.System code)) }
    ensures size { length result ≤ 44 }
{
    let mut bytes = started(SYSTEM_TYPE, m);
    bytes.push(&[code]);
    bytes
}

// A Stock Directory.
fn directory(m: &Feed) -> FeedBytes
    requires { (feed_wire m.now).letter ≡ DIRECTORY_TYPE }
    ensures spelling { result ≡ spelling (feed_wire m.now) }
    ensures size { length result ≤ 44 }
{
    let What::Directory {
        stock,
        category,
        financial,
        lot,
        lots_only,
        class,
        sub_type,
        authenticity,
        short_sale,
        ipo,
        tier,
        etp,
        leverage,
        inverse,
    } = m.what
    else {
        unreachable!()
    };
    let mut bytes = started(DIRECTORY_TYPE, m);
    bytes.push(&stock.0);
    bytes.push(&[category]);
    bytes.push(&[financial]);
    bytes.push(&lot.to_be_bytes());
    bytes.push(&[lots_only]);
    bytes.push(&[class]);
    bytes.push(&sub_type);
    bytes.push(&[authenticity]);
    bytes.push(&[short_sale]);
    bytes.push(&[ipo]);
    bytes.push(&[tier]);
    bytes.push(&[etp]);
    bytes.push(&leverage.to_be_bytes());
    bytes.push(&[inverse]);
    bytes
}

// A Stock Trading Action.
fn trading(m: &Feed, stock: Symbol, state: u8, reserved: u8, reason: [u8; 4]) -> FeedBytes
    ensures spelling { result ≡ spelling (what_wire (number m.now.locate) (number m.now.tracking) (number m.now.time) (what.Trading stock state reserved reason)) }
    ensures size { length result ≤ 44 }
{
    let mut bytes = started(TRADING_TYPE, m);
    bytes.push(&stock.0);
    bytes.push(&[state]);
    bytes.push(&[reserved]);
    bytes.push(&reason);
    bytes
}

// An Add Order.
fn add(m: &Feed, reference: u64, side: Side, shares: u32, stock: Symbol, price: u32) -> FeedBytes
    ensures spelling { result ≡ spelling (what_wire (number m.now.locate) (number m.now.tracking) (number m.now.time) (what.Add reference side shares stock price)) }
    ensures size { length result ≤ 44 }
{
    let mut bytes = started(ADD_TYPE, m);
    bytes.push(&reference.to_be_bytes());
    bytes.push(&[side_letter(side)]);
    bytes.push(&shares.to_be_bytes());
    bytes.push(&stock.0);
    bytes.push(&price.to_be_bytes());
    bytes
}

// An Order Executed.
fn executed(m: &Feed, reference: u64, shares: u32, match_number: u64) -> FeedBytes
    ensures spelling { result ≡ spelling (what_wire (number m.now.locate) (number m.now.tracking) (number m.now.time) (what.Executed reference shares match_number)) }
    ensures size { length result ≤ 44 }
{
    let mut bytes = started(EXECUTED_TYPE, m);
    bytes.push(&reference.to_be_bytes());
    bytes.push(&shares.to_be_bytes());
    bytes.push(&match_number.to_be_bytes());
    bytes
}

// An Order Cancel.
fn cancel(m: &Feed, reference: u64, shares: u32) -> FeedBytes
    ensures spelling { result ≡ spelling (what_wire (number m.now.locate) (number m.now.tracking) (number m.now.time) (what.Cancel reference shares)) }
    ensures size { length result ≤ 44 }
{
    let mut bytes = started(CANCEL_TYPE, m);
    bytes.push(&reference.to_be_bytes());
    bytes.push(&shares.to_be_bytes());
    bytes
}

// An Order Delete.
fn delete(m: &Feed, reference: u64) -> FeedBytes
    ensures spelling { result ≡ spelling (what_wire (number m.now.locate) (number m.now.tracking) (number m.now.time) (what.Delete reference)) }
    ensures size { length result ≤ 44 }
{
    let mut bytes = started(DELETE_TYPE, m);
    bytes.push(&reference.to_be_bytes());
    bytes
}

// A Trade Message.
fn trade(
    m: &Feed,
    reference: u64,
    side: Side,
    shares: u32,
    stock: Symbol,
    price: u32,
    match_number: u64,
) -> FeedBytes
    ensures spelling { result ≡ spelling (what_wire (number m.now.locate) (number m.now.tracking) (number m.now.time) (what.Trade reference side shares stock price match_number)) }
    ensures size { length result ≤ 44 }
{
    let mut bytes = started(TRADE_TYPE, m);
    bytes.push(&reference.to_be_bytes());
    bytes.push(&[side_letter(side)]);
    bytes.push(&shares.to_be_bytes());
    bytes.push(&stock.0);
    bytes.push(&price.to_be_bytes());
    bytes.push(&match_number.to_be_bytes());
    bytes
}

// A Cross Trade.
fn cross(m: &Feed, shares: u64, stock: Symbol, price: u32, match_number: u64, kind: u8) -> FeedBytes
    ensures spelling { result ≡ spelling (what_wire (number m.now.locate) (number m.now.tracking) (number m.now.time) (what.Cross shares stock price match_number kind)) }
    ensures size { length result ≤ 44 }
{
    let mut bytes = started(CROSS_TYPE, m);
    bytes.push(&shares.to_be_bytes());
    bytes.push(&stock.0);
    bytes.push(&price.to_be_bytes());
    bytes.push(&match_number.to_be_bytes());
    bytes.push(&[kind]);
    bytes
}
