//! One exchange for the tests.

mod bytes;
mod limits;

ghost use Rattle.std.specs.Prelude.{◌≡◌, ◌≤◌, ◌<◌, length};
ghost use Rattle.exchange_agent.specs.Market.{IsAskable};

use crate::facts::holds;
use exchange_agent::{Exchange, Handled, StockRules};
use market_rules::{Band, FeeTable, TickTable};
use market_types::{AgentNo, Body, Enter, Inbound, Side, Symbol, Time, Token};
use std::alloc::Global;
use std::process::Abort;

pub(crate) const ABM: Symbol = Symbol(*b"ABM     ");

// The exchange of one stock with a tick of a cent, fees of -20 and 30 millionths a share, and three traders.
pub(crate) fn opened(rt: &impl Abort, alloc: Global) -> Exchange
    ensures traders { length result.cash ≡ 3 }
    ensures stocks { length result.stocks ≡ 1 }
{
    opened_for(rt, alloc, false)
}

// The same, where hidden orders are taken or not.
pub(crate) fn opened_for(rt: &impl Abort, alloc: Global, hidden: bool) -> Exchange
    ensures traders { length result.cash ≡ 3 }
    ensures stocks { length result.stocks ≡ 1 }
{
    let ticks = TickTable::new(alloc, &[Band { from: 0, tick: 100 }]).expect(rt, "no table");
    let rules = [StockRules {
        symbol: ABM,
        ticks,
        fees: FeeTable { add: -20, take: 30 },
    }];
    Exchange::open(alloc, &rules, &[0, 0, 0], hidden).expect(rt, "no exchange")
}

// A digit of a number: that of a power of ten.
fn digit(n: u32, power: u32) -> u8
    requires { 0 < power }
{
    b'0' + (n / power % 10) as u8
}

// The n-th token of trader 1.
pub(crate) fn token(n: u32) -> Token {
    Token([
        b'T',
        b'0',
        b'0',
        b'0',
        b'1',
        digit(n, 100_000_000),
        digit(n, 10_000_000),
        digit(n, 1_000_000),
        digit(n, 100_000),
        digit(n, 10_000),
        digit(n, 1000),
        digit(n, 100),
        digit(n, 10),
        digit(n, 1),
    ])
}

// An order for the day with that token.
pub(crate) fn numbered(n: u32, side: Side, shares: u32, price: u32) -> Enter {
    Enter {
        token: token(n),
        side,
        shares,
        stock: ABM,
        price,
        tif: 99_999,
        firm: *b"ABID",
        display: b'Y',
        capacity: b'P',
        sweep: b'N',
        minimum: 0,
        cross: b'N',
        customer: b'N',
    }
}

// What comes of a message that is handled at a time.
pub(crate) fn handled(
    rt: &impl Abort,
    alloc: Global,
    exchange: &mut Exchange,
    time: Time,
    from: AgentNo,
    body: &Body,
) -> Handled
    requires trader { 1 ≤ from }
    requires exists { from ≤ length exchange.old.cash }
    requires askable { IsAskable (length exchange.old.stocks) body.now }
    ensures traders { length exchange.new.cash ≡ length exchange.old.cash }
    ensures stocks { length exchange.new.stocks ≡ length exchange.old.stocks }
{
    let counts = exchange.counts();
    assert!(rt; counts.enters < 1_000_000);
    assert!(rt; counts.cancels < 1_000_000);
    let mut out = Handled::new(alloc);
    let answer = exchange.handle(time, from, body, &mut out);
    holds(rt, answer.is_ok());
    out
}

// What comes of an order, or of its cancel.
pub(crate) fn sent(
    rt: &impl Abort,
    alloc: Global,
    exchange: &mut Exchange,
    time: Time,
    from: AgentNo,
    inbound: Inbound,
) -> Handled
    requires trader { 1 ≤ from }
    requires exists { from ≤ length exchange.old.cash }
    ensures traders { length exchange.new.cash ≡ length exchange.old.cash }
    ensures stocks { length exchange.new.stocks ≡ length exchange.old.stocks }
{
    handled(rt, alloc, exchange, time, from, &Body::Order(inbound))
}

// The same, where nothing is asked of what comes of it.
pub(crate) fn send(
    rt: &impl Abort,
    alloc: Global,
    exchange: &mut Exchange,
    time: Time,
    from: AgentNo,
    inbound: Inbound,
)
    requires trader { 1 ≤ from }
    requires exists { from ≤ length exchange.old.cash }
    ensures traders { length exchange.new.cash ≡ length exchange.old.cash }
    ensures stocks { length exchange.new.stocks ≡ length exchange.old.stocks }
{
    drop(sent(rt, alloc, exchange, time, from, inbound));
}

// The same: how many replies and feed messages come of it, and the fee.
pub(crate) fn counted(
    rt: &impl Abort,
    alloc: Global,
    exchange: &mut Exchange,
    time: Time,
    from: AgentNo,
    inbound: Inbound,
) -> (usize, usize, i64)
    requires trader { 1 ≤ from }
    requires exists { from ≤ length exchange.old.cash }
    ensures traders { length exchange.new.cash ≡ length exchange.old.cash }
    ensures stocks { length exchange.new.stocks ≡ length exchange.old.stocks }
{
    let out = sent(rt, alloc, exchange, time, from, inbound);
    let counts = (out.len(), out.feed.len(), out.fee);
    drop(out);
    counts
}
