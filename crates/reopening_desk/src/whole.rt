//! All that is told of a reopening.

ghost use Rattle.std.specs.Prelude.{◌≡◌, ◌<◌, ◌≤◌, ◌^◌, ◌++◌, length, OnOk};
ghost use Rattle.std.specs.List.{flat_map};
ghost use Rattle.market_types.specs.declared.feed.What.{What as WhatTold};
ghost use Rattle.bundle_frames.specs.Frames.{message_frame};
ghost use Rattle.reopening_desk.specs.Frames.{part_frame};
ghost use Rattle.reopening_desk.specs.Reopening.{acting, add_frame, price_frames, reopening_frames, told, trade_frames, traded};

use crate::frames::{put_cross, put_part};
use bundle_frames::{Written, put_end};
use market_types::{Feed, Memory, Symbol, Time, What};
use reopen_cross::{Cross, Interest, Part};

/// A stock that would reopen, and when.
#[derive(Clone, Copy)]
pub struct Reopening {
    /// Nanoseconds past midnight, below 2^48.
    pub time: Time,
    /// Stock locate: the stock's number and one.
    pub locate: u16,
    pub symbol: Symbol,
    /// How many matches there were.
    pub matches: u64,
}

// A message of the feed at the reopening.
fn told(at: &Reopening, what: What) -> Feed
    ensures { result ≡ told at.now what }
{
    Feed {
        locate: at.locate,
        tracking: 0,
        time: at.time,
        what,
    }
}

// Appends a change of the stock's trading state.
fn put_state(out: &mut Vec<u8>, at: &Reopening, state: u8) -> Result<(), Memory>
    requires { at.now.time < 2 ^ 48 }
    ensures { OnOk result (out.new.items ≡ out.old.items ++ message_frame (acting at.now state)) }
{
    let what = What::Trading {
        stock: at.symbol,
        state,
        reserved: b' ',
        reason: *b"    ",
    };
    told(at, what).put(out)
}

// Appends an order's Add Order.
fn put_order(out: &mut Vec<u8>, at: &Reopening, order: &Interest) -> Result<(), Memory>
    requires { at.now.time < 2 ^ 48 }
    ensures { OnOk result (out.new.items ≡ out.old.items ++ add_frame at.now order.now) }
{
    let what = What::Add {
        reference: order.reference,
        side: order.side,
        shares: order.left,
        stock: at.symbol,
        price: order.price,
    };
    told(at, what).put(out)
}

// Appends the Add Order of each order.
fn put_orders(out: &mut Vec<u8>, at: &Reopening, orders: &[Interest]) -> Result<(), Memory>
    requires { at.now.time < 2 ^ 48 }
    ensures { OnOk result (out.new.items ≡ out.old.items ++ flat_map (add_frame at.now) orders.now) }
{
    for order in orders {
        put_order(out, at, order)?;
    }
    Ok(())
}

// Appends what each order trades.
fn put_parts(out: &mut Vec<u8>, parts: &[Part]) -> Result<(), Memory>
    ensures { OnOk result (out.new.items ≡ out.old.items ++ flat_map part_frame parts.now) }
{
    for part in parts {
        put_part(out, part)?;
    }
    Ok(())
}

// Appends the Cross Trade, under the number of the next match.
fn put_trade(out: &mut Vec<u8>, at: &Reopening, cross: &Cross) -> Result<(), Memory>
    requires time { at.now.time < 2 ^ 48 }
    requires matches { at.now.matches < 2 ^ 63 }
    ensures { OnOk result (out.new.items ≡ out.old.items ++ message_frame (traded at.now cross.now)) }
{
    let what = What::Cross {
        shares: cross.shares,
        stock: at.symbol,
        price: cross.price,
        number: at.matches + 1,
        kind: b'H',
    };
    told(at, what).put(out)
}

// Appends the Cross Trade and what each order trades, where there is a cross.
fn put_trades(
    out: &mut Vec<u8>,
    at: &Reopening,
    cross: Option<Cross>,
    parts: &[Part],
) -> Result<(), Memory>
    requires time { at.now.time < 2 ^ 48 }
    requires matches { at.now.matches < 2 ^ 63 }
    ensures { OnOk result (out.new.items ≡ out.old.items ++ trade_frames at.now cross parts.now) }
{
    match cross {
        Some(cross) => {
            put_trade(out, at, &cross)?;
            put_parts(out, parts)
        }
        None => Ok(()),
    }
}

// Appends the price with its certificate, where there is a cross.
fn put_price(out: &mut Vec<u8>, cross: Option<Cross>) -> Result<(), Memory>
    ensures { OnOk result (out.new.items ≡ out.old.items ++ price_frames cross) }
{
    match cross {
        Some(cross) => put_cross(out, &cross),
        None => Ok(()),
    }
}

/// Appends all that is told of a reopening: that quotes alone are taken, each order that joins the book, the cross and what each
/// order trades there, that trading goes on, the price with its certificate, and the end with the number of orders that trade.
/// What stands in `out` after want of memory is left open.
pub fn put_reopening(
    out: &mut Vec<u8>,
    at: &Reopening,
    orders: &[Interest],
    cross: Option<Cross>,
    parts: &[Part],
) -> Result<(), Memory>
    requires time { at.now.time < 2 ^ 48 }
    requires matches { at.now.matches < 2 ^ 63 }
    requires parts { length parts.now ≤ 65535 }
    ensures { OnOk result (out.new.items ≡ out.old.items ++ reopening_frames at.now orders.now cross parts.now) }
{
    put_state(out, at, b'Q')?;
    put_orders(out, at, orders)?;
    put_trades(out, at, cross, parts)?;
    put_state(out, at, b'T')?;
    put_price(out, cross)?;
    put_end(out, parts.len() as u16)
}
