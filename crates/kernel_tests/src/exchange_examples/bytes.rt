//! Orders, replies and feed byte by byte.

ghost use Rattle.std.specs.Prelude.{◌≡◌, length};

use super::{counted, numbered, opened, opened_for, send, sent};
use crate::facts::{equal, holds};
use exchange_agent::{Exchange, Handled};
use itch_codec::encode_feed;
use market_types::{AgentNo, Body, Enter, Inbound, Side};
use ouch_codec::{decode_in, encode_enter, encode_reply};
use std::alloc::Global;
use std::process::Abort;

// An Enter of trader 1: to buy 999,999 shares at 10 dollars.
const ENTER: [u8; 49] =
    *b"OT0001000000001B\0\x0f\x42\x3fABM     \0\x01\x86\xa0\0\x01\x86\x9fABIDYPN\0\0\0\0NN";

// What the exchange answers it at 2000 nanoseconds, and what it feeds.
const ACCEPTED: [u8; 66] =
    *b"A\0\0\0\0\0\0\x07\xd0T0001000000001B\0\x0f\x42\x3fABM     \0\x01\x86\xa0\0\x01\x86\x9fABIDY\0\0\0\0\0\0\0\x01PN\0\0\0\0NL ";

const ADDED: [u8; 36] =
    *b"A\0\x01\0\0\0\0\0\0\x07\xd0\0\0\0\0\0\0\0\x01B\0\x0f\x42\x3fABM     \0\x01\x86\xa0";

// What it answers to one share more, with the next token.
const REJECTED: [u8; 24] = *b"J\0\0\0\0\0\0\x07\xd0T0001000000002O";

// Whether the first reply goes to an agent and has these bytes.
fn is_answered(out: &Handled, agent: AgentNo, bytes: &[u8]) -> bool {
    match out.get(0) {
        Some((to, Body::Answer(reply))) => {
            to == agent && encode_reply(reply).as_slice() == bytes
        }
        _ => false,
    }
}

// Whether a feed message, from 0, has these bytes.
fn is_fed(out: &Handled, i: usize, bytes: &[u8]) -> bool {
    let Some(feed) = out.feed.get(i) else {
        return false;
    };
    if feed.time >= 281_474_976_710_656 {
        return false;
    }
    encode_feed(feed).as_slice() == bytes
}

// The first order is answered and fed by these bytes.
fn is_accepted(rt: &impl Abort, alloc: Global, exchange: &mut Exchange)
    requires { length exchange.old.cash ≡ 3 }
    ensures { length exchange.new.cash ≡ 3 }
{
    let inbound = decode_in(&ENTER).expect(rt, "not an order");
    let out = sent(rt, alloc, exchange, 2000, 1, inbound);
    holds(rt, is_answered(&out, 1, &ACCEPTED));
    holds(rt, is_fed(&out, 0, &ADDED));
    equal(rt, (out.len(), out.feed.len(), out.fee), (1, 1, 0));
    drop(out);
}

#[test]
fn an_order_is_answered_byte_by_byte(rt: HostRuntime) {
    let alloc = rt.alloc();
    let mut exchange = opened(&rt, alloc);
    is_accepted(&rt, alloc, &mut exchange);
    let more = numbered(2, Side::Buy, 1_000_000, 100_000);
    let out = sent(&rt, alloc, &mut exchange, 2000, 1, Inbound::Enter(more));
    drop(exchange);
    holds(&rt, is_answered(&out, 1, &REJECTED));
    equal(&rt, (out.len(), out.feed.len(), out.fee), (1, 0, 0));
    drop(out);
}

#[test]
fn an_order_is_spelled_byte_by_byte(rt: HostRuntime) {
    let first: Enter = numbered(1, Side::Buy, 999_999, 100_000);
    holds(&rt, encode_enter(&first) == ENTER);
}

// The feed messages have these bytes, one after the other.
fn are_fed(rt: &impl Abort, out: &Handled, feed: &[&[u8]]) {
    for (i, bytes) in feed.iter().enumerate() {
        holds(rt, is_fed(out, i, *bytes));
    }
}

// What a sweep of three resting orders feeds at 3000 nanoseconds: three executions, and the rest of the sweep.
const SWEPT: [&[u8]; 4] = [
    b"E\0\x01\0\0\0\0\0\0\x0b\xb8\0\0\0\0\0\0\0\x02\0\0\0\xc8\0\0\0\0\0\0\0\x01",
    b"E\0\x01\0\0\0\0\0\0\x0b\xb8\0\0\0\0\0\0\0\x03\0\0\x01\x2c\0\0\0\0\0\0\0\x02",
    b"E\0\x01\0\0\0\0\0\0\x0b\xb8\0\0\0\0\0\0\0\x01\0\0\0\x64\0\0\0\0\0\0\0\x03",
    b"A\0\x01\0\0\0\0\0\0\x0b\xb8\0\0\0\0\0\0\0\x04B\0\0\0\x64ABM     \0\x01\x87\x04",
];

#[test]
fn a_sweep_is_fed_byte_by_byte(rt: HostRuntime) {
    let alloc = rt.alloc();
    let mut exchange = opened(&rt, alloc);
    let first = Inbound::Enter(numbered(1, Side::Sell, 100, 100_100));
    let second = Inbound::Enter(numbered(2, Side::Sell, 200, 100_000));
    let third = Inbound::Enter(numbered(1, Side::Sell, 300, 100_000));
    let sweep = Inbound::Enter(numbered(1, Side::Buy, 700, 100_100));
    send(&rt, alloc, &mut exchange, 3000, 2, first);
    send(&rt, alloc, &mut exchange, 3000, 2, second);
    send(&rt, alloc, &mut exchange, 3000, 3, third);
    let out = sent(&rt, alloc, &mut exchange, 3000, 1, sweep);
    drop(exchange);
    are_fed(&rt, &out, &SWEPT);
    equal(&rt, (out.len(), out.feed.len(), out.fee), (7, 4, 6000));
    drop(out);
}

// What is fed at 3000 nanoseconds where an order meets a shown order, and then a hidden one of the same price.
const OF_BOTH: [&[u8]; 2] = [
    b"E\0\x01\0\0\0\0\0\0\x0b\xb8\0\0\0\0\0\0\0\x02\0\0\0\x64\0\0\0\0\0\0\0\x01",
    b"P\0\x01\0\0\0\0\0\0\x0b\xb8\0\0\0\0\0\0\0\0B\0\0\0\x32ABM     \0\x01\x86\xa0\0\0\0\0\0\0\0\x02",
];

#[test]
fn a_hidden_order_is_fed_without_its_name(rt: HostRuntime) {
    let alloc = rt.alloc();
    let mut exchange = opened_for(&rt, alloc, true);
    let hidden = Enter {
        display: b'N',
        ..numbered(1, Side::Sell, 100, 100_000)
    };
    let shown = Inbound::Enter(numbered(1, Side::Sell, 100, 100_000));
    let buy = Inbound::Enter(numbered(1, Side::Buy, 150, 100_000));
    let told = counted(&rt, alloc, &mut exchange, 3000, 2, Inbound::Enter(hidden));
    holds(&rt, (told.0 == 1) & (told.1 == 0));
    let told = counted(&rt, alloc, &mut exchange, 3000, 3, shown);
    holds(&rt, (told.0 == 1) & (told.1 == 1));
    let out = sent(&rt, alloc, &mut exchange, 3000, 1, buy);
    drop(exchange);
    are_fed(&rt, &out, &OF_BOTH);
    holds(&rt, (out.len() == 5) & (out.feed.len() == 2));
    drop(out);
}
