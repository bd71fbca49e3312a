//! The exchange when it is full.

ghost use Rattle.std.specs.Prelude.{◌≡◌, ◌≤◌, length};

use super::{ABM, numbered, opened, send, sent};
use crate::facts::{equal, holds};
use exchange_agent::{Exchange, Handled};
use market_types::{AgentNo, Body, Cancel, Enter, Inbound, Reply, Side, Symbol, Token};
use std::alloc::Global;
use std::process::Abort;

// The reason for which the one reply rejects an order; `A` where it accepts it, and `-` where it is no such reply.
fn answer(out: &Handled) -> u8 {
    match out.get(0) {
        Some((_, Body::Answer(Reply::Rejected { reason, .. }))) => *reason,
        Some((_, Body::Answer(Reply::Accepted { .. }))) => b'A',
        _ => b'-',
    }
}

// What comes of an order: its answer, how many replies, and how many feed messages.
fn answered(
    rt: &impl Abort,
    alloc: Global,
    exchange: &mut Exchange,
    from: AgentNo,
    e: Enter,
) -> (u8, usize, usize)
    requires trader { 1 ≤ from }
    requires exists { from ≤ length exchange.old.cash }
    ensures traders { length exchange.new.cash ≡ length exchange.old.cash }
    ensures stocks { length exchange.new.stocks ≡ length exchange.old.stocks }
{
    let out = sent(rt, alloc, exchange, 3000, from, Inbound::Enter(e));
    let told = (answer(&out), out.len(), out.feed.len());
    drop(out);
    told
}

// Trader 1 enters so many orders like one, with the tokens of the numbers from 0 on, and each is answered so.
fn fill(
    rt: &impl Abort,
    alloc: Global,
    exchange: &mut Exchange,
    orders: u32,
    like: Enter,
    expected: u8,
)
    requires traders { length exchange.old.cash ≡ 3 }
    ensures traders { length exchange.new.cash ≡ length exchange.old.cash }
    ensures stocks { length exchange.new.stocks ≡ length exchange.old.stocks }
{
    for n in 0..orders {
        let e = Enter {
            token: super::token(n),
            ..like
        };
        equal(rt, answered(rt, alloc, exchange, 1, e).0, expected);
    }
}

// One order more is rejected, also where it would trade with another, and its token is remembered.
fn has_no_room(rt: &impl Abort, alloc: Global, exchange: &mut Exchange)
    requires traders { length exchange.old.cash ≡ 3 }
    requires stocks { length exchange.old.stocks ≡ 1 }
    ensures traders { length exchange.new.cash ≡ length exchange.old.cash }
    ensures stocks { length exchange.new.stocks ≡ length exchange.old.stocks }
{
    let more = numbered(16_384, Side::Sell, 1, 100_000);
    let told = answered(rt, alloc, exchange, 2, more);
    holds(rt, (told.0 == b'O') & (told.2 == 0));
    equal(rt, exchange.stock(0).live, 16_384);
    let told = answered(rt, alloc, exchange, 2, more);
    equal(rt, (told.1, exchange.counts().enters), (0, 1));
}

// Once one is canceled there is room for one.
fn has_room_for_one(rt: &impl Abort, alloc: Global, exchange: &mut Exchange, token: Token)
    requires traders { length exchange.old.cash ≡ 3 }
    requires stocks { length exchange.old.stocks ≡ 1 }
{
    let cancel = Cancel { token, shares: 0 };
    send(rt, alloc, exchange, 3000, 1, Inbound::Cancel(cancel));
    equal(rt, exchange.stock(0).live, 16_383);
    let next = numbered(16_385, Side::Buy, 1, 100_000);
    holds(rt, answered(rt, alloc, exchange, 2, next).0 == b'A');
    equal(rt, exchange.stock(0).live, 16_384);
    equal(rt, exchange.counts().orders, 16_385);
}

#[test]
fn no_more_orders_rest_than_16384(rt: HostRuntime) {
    let alloc = rt.alloc();
    let mut exchange = opened(&rt, alloc);
    let like = numbered(0, Side::Buy, 1, 100_000);
    fill(&rt, alloc, &mut exchange, 16_384, like, b'A');
    equal(&rt, exchange.stock(0).live, 16_384);
    has_no_room(&rt, alloc, &mut exchange);
    has_room_for_one(&rt, alloc, &mut exchange, like.token);
    drop(exchange);
}

// A new token is rejected and not remembered, so it is rejected again; one that is remembered is ignored.
fn forgets_the_next(rt: &impl Abort, alloc: Global, exchange: &mut Exchange, like: Enter)
    requires { length exchange.old.cash ≡ 3 }
    ensures { length exchange.new.stocks ≡ length exchange.old.stocks }
{
    let next = numbered(131_072, Side::Buy, 1, 100_000);
    let told = answered(rt, alloc, exchange, 1, next);
    holds(rt, (told.0 == b'O') & (told.2 == 0));
    let told = answered(rt, alloc, exchange, 1, next);
    holds(rt, (told.0 == b'O') & (told.2 == 0));
    let told = answered(rt, alloc, exchange, 1, Enter { stock: ABM, ..like });
    equal(rt, (told.1, exchange.counts().enters), (0, 1));
}

#[test]
fn no_more_tokens_are_remembered_than_131072(rt: HostRuntime) {
    let alloc = rt.alloc();
    let mut exchange = opened(&rt, alloc);
    let like = Enter {
        stock: Symbol(*b"XYZ     "),
        ..numbered(0, Side::Buy, 1, 100_000)
    };
    fill(&rt, alloc, &mut exchange, 131_072, like, b'S');
    forgets_the_next(&rt, alloc, &mut exchange, like);
    equal(&rt, exchange.counts().orders, 0);
    equal(&rt, exchange.stock(0).live, 0);
    drop(exchange);
}
