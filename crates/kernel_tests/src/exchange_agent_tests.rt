//! The exchange on worked examples, each public call once.

ghost use Rattle.std.specs.Prelude.{◌≡◌, ◌≤◌, length};

use crate::exchange_examples::{ABM, counted, handled, numbered, opened, send, sent};
use crate::facts::{equal, holds};
use exchange_agent::{Exchange, Handled};
use market_rules::{Band, Change, FeeTable, TickTable};
use market_types::{
    AgentNo, Body, Cancel, Enter, FeedList, Inbound, Reply, Side, Symbol, Time, Token, What,
};
use std::alloc::Global;
use std::process::Abort;

// An order for the day whose token begins with a letter.
fn order(letter: u8, side: Side, shares: u32, price: u32) -> Enter {
    let token = Token([
        letter, b'0', b'0', b'0', b'1', b'0', b'0', b'0', b'0', b'0', b'0', b'0', b'0', b'1',
    ]);
    let like = numbered(1, side, shares, price);
    Enter { token, ..like }
}

// A reply in short: its receiver, its letter, its shares, its price, its flag or reason, and its number.
fn said(out: &Handled, i: usize) -> Option<(AgentNo, u8, u32, u32, u8, u64)> {
    let (to, body) = out.get(i)?;
    match body {
        Body::Answer(
            Reply::Accepted {
                shares,
                price,
                reference,
                state,
                ..
            },
        ) => { Some((to, b'A', *shares, *price, *state, *reference)) }
        Body::Answer(
            Reply::Executed {
                shares,
                price,
                flag,
                number,
                ..
            },
        ) => { Some((to, b'E', *shares, *price, *flag, *number)) }
        Body::Answer(
            Reply::Canceled {
                decrement,
                reason,
                ..
            },
        ) => Some((to, b'C', *decrement, 0, *reason, 0)),
        Body::Answer(Reply::Rejected { reason, .. }) => Some((to, b'J', 0, 0, *reason, 0)),
        _ => None,
    }
}

// A feed message in short: its letter, its reference, its shares and its price or number.
fn fed(out: &Handled, i: usize) -> Option<(u8, u64, u32, u64)> {
    match out.feed.get(i)?.what {
        What::Add {
            reference,
            shares,
            price,
            ..
        } => Some((b'A', reference, shares, u64::from(price))),
        What::Executed {
            reference,
            shares,
            number,
        } => Some((b'E', reference, shares, number)),
        What::Cancel { reference, shares } => Some((b'X', reference, shares, 0)),
        What::Delete { reference } => Some((b'D', reference, 0, 0)),
        _ => None,
    }
}

// Three sells come to rest, and a buy sweeps them: what is told of the buy.
fn swept(rt: &impl Abort, alloc: Global, exchange: &mut Exchange) -> Handled
    requires traders { length exchange.old.cash ≡ 3 }
    ensures traders { length exchange.new.cash ≡ length exchange.old.cash }
    ensures stocks { length exchange.new.stocks ≡ length exchange.old.stocks }
{
    let first = Inbound::Enter(order(b'A', Side::Sell, 100, 100_100));
    let second = Inbound::Enter(order(b'B', Side::Sell, 200, 100_000));
    let third = Inbound::Enter(order(b'C', Side::Sell, 300, 100_000));
    let sweep = Inbound::Enter(order(b'D', Side::Buy, 700, 100_100));
    send(rt, alloc, exchange, 3000, 2, first);
    send(rt, alloc, exchange, 3000, 2, second);
    send(rt, alloc, exchange, 3000, 3, third);
    sent(rt, alloc, exchange, 3000, 1, sweep)
}

const SWEEP_SAID: [(AgentNo, u8, u32, u32, u8, u64); 7] = [
    (1, b'A', 700, 100_100, b'L', 4),
    (2, b'E', 200, 100_000, b'A', 1),
    (1, b'E', 200, 100_000, b'R', 1),
    (3, b'E', 300, 100_000, b'A', 2),
    (1, b'E', 300, 100_000, b'R', 2),
    (2, b'E', 100, 100_100, b'A', 3),
    (1, b'E', 100, 100_100, b'R', 3),
];

const SWEEP_FED: [(u8, u64, u32, u64); 4] = [
    (b'E', 2, 200, 1),
    (b'E', 3, 300, 2),
    (b'E', 1, 100, 3),
    (b'A', 4, 100, 100_100),
];

// What is told of the sweep.
fn sweep_is_told(rt: &impl Abort, out: &Handled) {
    for (i, reply) in SWEEP_SAID.iter().enumerate() {
        equal(rt, said(out, i), Some(*reply));
    }
    equal(rt, out.len(), 7);
    for (i, feed) in SWEEP_FED.iter().enumerate() {
        equal(rt, fed(out, i), Some(*feed));
    }
    equal(rt, out.fee, 6000);
}

// What the traders have after the sweep.
fn sweep_is_settled(rt: &impl Abort, exchange: &Exchange)
    requires traders { length exchange.now.cash ≡ 3 }
    requires stocks { length exchange.now.stocks ≡ 1 }
{
    equal(rt, exchange.cash(1), -6_001_018_000);
    equal(rt, exchange.cash(2), 3_001_006_000);
    equal(rt, exchange.cash(3), 3_000_006_000);
    equal(rt, exchange.position(1, 0), 600);
    equal(rt, exchange.position(2, 0), -300);
}

// What the stock and the exchange count after the sweep.
fn sweep_is_counted(rt: &impl Abort, exchange: &Exchange)
    requires { length exchange.now.stocks ≡ 1 }
{
    let told = exchange.stock(0);
    equal(
        rt,
        (told.state, told.last, told.matched, told.fees, told.live),
        (b'T', 100_100, 600, 6000, 1),
    );
    let counts = exchange.counts();
    equal(
        rt,
        (counts.orders, counts.matches, counts.enters, counts.cancels),
        (4, 3, 0, 0),
    );
}

#[test]
fn three_sells_are_swept(rt: HostRuntime) {
    let alloc = rt.alloc();
    let mut exchange = opened(&rt, alloc);
    let out = swept(&rt, alloc, &mut exchange);
    sweep_is_told(&rt, &out);
    drop(out);
    sweep_is_settled(&rt, &exchange);
    sweep_is_counted(&rt, &exchange);
    drop(exchange);
}

// An order for the day to sell one share.
const ONE: Enter = Enter {
    token: Token(*b"A0001000000001"),
    side: Side::Sell,
    shares: 1,
    stock: ABM,
    price: 100,
    tif: 99_999,
    firm: *b"ABID",
    display: b'Y',
    capacity: b'P',
    sweep: b'N',
    minimum: 0,
    cross: b'N',
    customer: b'N',
};

// What is refused of it, with the reason.
const REFUSED: [(Enter, u8); 9] = [
    (
        Enter {
            stock: Symbol(*b"XYZ     "),
            ..ONE
        },
        b'S',
    ),
    (
        Enter {
            display: b'N',
            ..ONE
        },
        b'O',
    ),
    (Enter { minimum: 1, ..ONE }, b'O'),
    (Enter { cross: b'O', ..ONE }, b'O'),
    (Enter { tif: 1, ..ONE }, b'O'),
    (Enter { shares: 0, ..ONE }, b'O'),
    (
        Enter {
            shares: 1_000_000,
            ..ONE
        },
        b'O',
    ),
    (Enter { price: 0, ..ONE }, b'X'),
    (Enter { price: 150, ..ONE }, b'X'),
];

// The first reply to an order or a cancel in short.
fn reply(
    rt: &impl Abort,
    alloc: Global,
    exchange: &mut Exchange,
    time: Time,
    from: AgentNo,
    inbound: Inbound,
) -> Option<Said>
    requires trader { 1 ≤ from }
    requires exists { from ≤ length exchange.old.cash }
    ensures traders { length exchange.new.cash ≡ length exchange.old.cash }
    ensures stocks { length exchange.new.stocks ≡ length exchange.old.stocks }
{
    let out = sent(rt, alloc, exchange, time, from, inbound);
    let reply = said(&out, 0);
    drop(out);
    reply
}

// An order is refused for this reason, and nothing else is told.
fn refuses(rt: &impl Abort, alloc: Global, exchange: &mut Exchange, e: Enter, reason: u8)
    requires { length exchange.old.cash ≡ 3 }
    ensures { length exchange.new.cash ≡ 3 }
{
    let out = sent(rt, alloc, exchange, 3000, 1, Inbound::Enter(e));
    equal(rt, said(&out, 0), Some((1, b'J', 0, 0, reason, 0)));
    equal(rt, (out.len(), out.feed.len(), out.fee), (1, 0, 0));
    drop(out);
}

// An order is refused for this reason, and its token is remembered.
fn is_refused(rt: &impl Abort, alloc: Global, e: Enter, reason: u8) {
    let mut exchange = opened(rt, alloc);
    refuses(rt, alloc, &mut exchange, e, reason);
    // the pair is remembered, whatever the other fields
    let like = Inbound::Enter(order(b'A', Side::Buy, 5, 500));
    let again = counted(rt, alloc, &mut exchange, 3000, 1, like);
    holds(rt, again.0 == 0);
    equal(rt, exchange.counts().enters, 1);
    // and another agent's is not
    let other = reply(rt, alloc, &mut exchange, 3000, 2, like);
    equal(rt, other, Some((2, b'A', 5, 500, b'L', 1)));
    drop(exchange);
}

#[test]
fn orders_are_refused_with_their_reasons(rt: HostRuntime) {
    for (e, reason) in REFUSED.iter() {
        is_refused(&rt, rt.alloc(), *e, *reason);
    }
}

#[test]
fn an_immediate_order_does_not_rest(rt: HostRuntime) {
    let alloc = rt.alloc();
    let mut exchange = opened(&rt, alloc);
    let e = Enter {
        tif: 0,
        ..order(b'A', Side::Buy, 100, 100_000)
    };
    let out = sent(&rt, alloc, &mut exchange, 3000, 1, Inbound::Enter(e));
    equal(&rt, said(&out, 0), Some((1, b'A', 100, 100_000, b'L', 1)));
    equal(&rt, said(&out, 1), Some((1, b'C', 100, 0, b'I', 0)));
    equal(&rt, (out.len(), out.feed.len()), (2, 0));
    drop(out);
    equal(&rt, exchange.stock(0).live, 0);
    drop(exchange);
}

// A reply in short.
type Said = (AgentNo, u8, u32, u32, u8, u64);

// Shares that a cancel leaves, its reply, its feed message, and how many orders stay.
const CANCELS: [(u32, Option<Said>, Option<(u8, u64, u32, u64)>, u32); 3] = [
    (
        150,
        Some((2, b'C', 300, 0, b'U', 0)),
        Some((b'D', 1, 0, 0)),
        0,
    ),
    (
        350,
        Some((2, b'C', 150, 0, b'U', 0)),
        Some((b'X', 1, 150, 0)),
        1,
    ),
    (500, None, None, 1),
];

// An order of 500 of which 200 are executed is canceled down to so many shares: the exchange and what is told.
fn canceled(rt: &impl Abort, alloc: Global, shares: u32) -> (Exchange, Handled)
    ensures { length result.0.stocks ≡ 1 }
{
    let mut exchange = opened(rt, alloc);
    let resting = order(b'A', Side::Sell, 500, 100_000);
    let buy = Inbound::Enter(order(b'B', Side::Buy, 200, 100_000));
    send(rt, alloc, &mut exchange, 3000, 2, Inbound::Enter(resting));
    send(rt, alloc, &mut exchange, 3000, 1, buy);
    let cancel = Cancel {
        token: resting.token,
        shares,
    };
    let out = sent(rt, alloc, &mut exchange, 3001, 2, Inbound::Cancel(cancel));
    (exchange, out)
}

#[test]
fn a_cancel_counts_executed_shares(rt: HostRuntime) {
    for (shares, reply, feed, live) in CANCELS.iter() {
        let (exchange, out) = canceled(&rt, rt.alloc(), *shares);
        equal(&rt, said(&out, 0), *reply);
        equal(&rt, fed(&out, 0), *feed);
        drop(out);
        equal(&rt, exchange.stock(0).live, *live);
        equal(&rt, exchange.counts().cancels, u64::from(reply.is_none()));
        drop(exchange);
    }
}

// A change is made.
fn make_change(
    rt: &impl Abort,
    exchange: &mut Exchange,
    time: Time,
    change: &Change,
    feed: &mut FeedList,
)
    requires stocks { length exchange.old.stocks ≡ 1 }
    ensures traders { length exchange.new.cash ≡ length exchange.old.cash }
    ensures stocks { length exchange.new.stocks ≡ length exchange.old.stocks }
{
    let answer = exchange.apply_change(time, 0, change, feed);
    holds(rt, answer.is_ok());
}

// A stock is halted twice: an order is refused, and a cancel is not.
fn is_halted(
    rt: &impl Abort,
    alloc: Global,
    exchange: &mut Exchange,
    feed: &mut FeedList,
    resting: Token,
)
    requires traders { length exchange.old.cash ≡ 3 }
    requires stocks { length exchange.old.stocks ≡ 1 }
    ensures traders { length exchange.new.cash ≡ length exchange.old.cash }
    ensures stocks { length exchange.new.stocks ≡ length exchange.old.stocks }
{
    make_change(rt, exchange, 4500, &Change::Halt, feed);
    make_change(rt, exchange, 4500, &Change::Halt, feed);
    equal(rt, feed.len(), 1);
    let sell = Inbound::Enter(order(b'B', Side::Sell, 10, 100_000));
    let refused = reply(rt, alloc, exchange, 4600, 2, sell);
    equal(rt, refused, Some((2, b'J', 0, 0, b'H', 0)));
    let cancel = Inbound::Cancel(Cancel {
        token: resting,
        shares: 0,
    });
    let canceled = reply(rt, alloc, exchange, 4700, 1, cancel);
    equal(rt, canceled, Some((1, b'C', 10, 0, b'U', 0)));
}

// It trades again, and an order comes to rest.
fn is_resumed(rt: &impl Abort, alloc: Global, exchange: &mut Exchange, feed: &mut FeedList)
    requires traders { length exchange.old.cash ≡ 3 }
    requires stocks { length exchange.old.stocks ≡ 1 }
    ensures traders { length exchange.new.cash ≡ length exchange.old.cash }
    ensures stocks { length exchange.new.stocks ≡ length exchange.old.stocks }
{
    make_change(rt, exchange, 4800, &Change::Resume, feed);
    equal(rt, (feed.len(), exchange.stock(0).state), (2, b'T'));
    let sell = Inbound::Enter(order(b'C', Side::Sell, 10, 100_100));
    let accepted = reply(rt, alloc, exchange, 4999, 2, sell);
    equal(rt, accepted, Some((2, b'A', 10, 100_100, b'L', 2)));
}

// Its ticks are five cents, and an order between two of them is refused.
fn has_new_ticks(rt: &impl Abort, alloc: Global, exchange: &mut Exchange, feed: &mut FeedList)
    requires traders { length exchange.old.cash ≡ 3 }
    requires stocks { length exchange.old.stocks ≡ 1 }
    ensures traders { length exchange.new.cash ≡ length exchange.old.cash }
    ensures stocks { length exchange.new.stocks ≡ length exchange.old.stocks }
{
    let table = TickTable::new(alloc, &[Band { from: 0, tick: 500 }]).expect(rt, "no table");
    let ticks = Change::Tick(table);
    make_change(rt, exchange, 5000, &ticks, feed);
    drop(ticks);
    equal(rt, exchange.ticks(0).tick_at(100_100), 500);
    let sell = Inbound::Enter(order(b'D', Side::Sell, 10, 100_100));
    let refused = reply(rt, alloc, exchange, 5000, 2, sell);
    equal(rt, refused, Some((2, b'J', 0, 0, b'X', 0)));
}

// It has no fees, and an order trades free.
fn has_no_fees(rt: &impl Abort, alloc: Global, exchange: &mut Exchange, feed: &mut FeedList)
    requires traders { length exchange.old.cash ≡ 3 }
    requires stocks { length exchange.old.stocks ≡ 1 }
{
    let fees = Change::Fee(FeeTable { add: 0, take: 0 });
    make_change(rt, exchange, 5100, &fees, feed);
    drop(fees);
    let buy = Inbound::Enter(order(b'E', Side::Buy, 10, 100_500));
    let told = counted(rt, alloc, exchange, 5200, 3, buy);
    equal(rt, (told.2, feed.len()), (0, 2));
}

#[test]
fn rules_change_between_messages(rt: HostRuntime) {
    let alloc = rt.alloc();
    let mut exchange = opened(&rt, alloc);
    let resting = order(b'A', Side::Buy, 10, 100_000);
    send(&rt, alloc, &mut exchange, 4000, 1, Inbound::Enter(resting));
    let mut feed = FeedList::new(alloc);
    is_halted(&rt, alloc, &mut exchange, &mut feed, resting.token);
    is_resumed(&rt, alloc, &mut exchange, &mut feed);
    has_new_ticks(&rt, alloc, &mut exchange, &mut feed);
    has_no_fees(&rt, alloc, &mut exchange, &mut feed);
    drop(feed);
    drop(exchange);
}

// An order of 10 shares at 10 dollars comes from an agent.
fn enter_ten(rt: &impl Abort, alloc: Global, exchange: &mut Exchange, from: AgentNo, side: Side)
    requires trader { 1 ≤ from }
    requires traders { length exchange.old.cash ≡ 3 }
    requires exists { from ≤ 3 }
    ensures traders { length exchange.new.cash ≡ 3 }
    ensures stocks { length exchange.new.stocks ≡ length exchange.old.stocks }
{
    let order = Inbound::Enter(order(b'A', side, 10, 100_000));
    send(rt, alloc, exchange, 3000, from, order);
}

// A quote in short: its receiver, the stock's state, the best bid and its shares, and the best ask.
fn quoted(out: &Handled) -> Option<(AgentNo, u8, u32, u64, u32)> {
    match out.get(0) {
        Some((to, Body::Quote(q))) => Some((to, q.state, q.bid, q.bid_shares, q.ask)),
        _ => None,
    }
}

// How many orders stand of the first stock.
fn standing(rt: &impl Abort, alloc: Global, exchange: &Exchange) -> usize
    requires { length exchange.now.stocks ≡ 1 }
{
    let orders = exchange.orders(alloc, 0).expect(rt, "no orders");
    let count = orders.len();
    drop(orders);
    count
}

#[test]
fn a_copy_goes_its_own_way(rt: HostRuntime) {
    let alloc = rt.alloc();
    let mut exchange = opened(&rt, alloc);
    enter_ten(&rt, alloc, &mut exchange, 1, Side::Buy);
    let mut copy = exchange.copy(alloc).expect(&rt, "no copy");
    enter_ten(&rt, alloc, &mut exchange, 2, Side::Sell);
    equal(&rt, exchange.stock(0).live, 0);
    drop(exchange);
    equal(&rt, standing(&rt, alloc, &copy), 1);
    let out = handled(&rt, alloc, &mut copy, 3001, 3, &Body::Ask(0));
    equal(&rt, quoted(&out), Some((3, b'T', 100_000, 10, 0)));
    drop(out);
    drop(copy);
}
