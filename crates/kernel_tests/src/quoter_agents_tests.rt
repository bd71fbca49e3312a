ghost use Rattle.agent_shell.specs.Parameters.{IsKind};

use crate::facts::{equal, holds};
use crate::tick_tables::cents;
use crate::trader_party_tests::react_and_copy;
use agent_shell::{Kind, Sending, Sends, TraderSetting};
use market_floor::Party;
use market_types::{Body, Inbound, Quote, Side};
use std::alloc::Global;
use std::process::Abort;

// The value of the stock.
const VALUE: u32 = 100_000;

// What agent 1 sends for these messages. It wakes each 500 nanoseconds, and goes on as a copy of itself
// after each message.
fn sends_of(rt: &impl Abort, alloc: Global, kind: Kind, bodies: &[Body]) -> Sends
    requires { IsKind kind }
{
    let ticks = cents(rt, alloc);
    let setting = TraderSetting {
        kind,
        group: 0,
        stock: 0,
        first: 1000,
        every: 500,
        wobble: 0,
        delay: 12,
        cash: 0,
    };
    let mut out = Sends::new(alloc);
    let mut trader = Party::open(alloc, 1, &setting).expect(rt, "out of memory");
    for body in bodies {
        trader = react_and_copy(rt, trader, VALUE, &ticks, body, &mut out);
    }
    drop(trader);
    drop(ticks);
    out
}

fn quote(state: u8, bid: u32, ask: u32, last: u32) -> Body {
    Body::Quote(Quote {
        stock: 0,
        state,
        bid,
        bid_shares: 0,
        ask,
        ask_shares: 0,
        last,
    })
}

// Whether the sending at a place is this order.
fn is_at(out: &Sends, place: usize, side: Side, price: u32, tif: u32) -> bool {
    match out.as_slice().get(place) {
        Some(
            Sending::To {
                body: Body::Order(Inbound::Enter(order)),
                ..
            },
        ) => order.side == side && order.price == price && order.tif == tif,
        _ => false,
    }
}

// Round the value of 100,000: 100,000 - 150 goes down to 99,800, 100,150 goes up to 100,200; the second level is 100
// further out. Sixteen quotes of two levels fill the list with 64 orders, and the next one sends nothing. A wakeup takes
// back all 64, asks, and wakes again.
#[test]
fn a_maker_quotes_until_its_list_is_full(rt: HostRuntime) {
    let mut bodies = [quote(b'T', 0, 0, 0); 18];
    bodies[17] = Body::Wake;
    let kind = Kind::Maker {
        size: 10,
        half: 150,
        step: 100,
        levels: 2,
        pause: 7,
    };
    let out = sends_of(&rt, rt.alloc(), kind, &bodies);
    holds(&rt, is_at(&out, 0, Side::Buy, 99_800, 99_999));
    holds(&rt, is_at(&out, 1, Side::Sell, 100_200, 99_999));
    holds(&rt, is_at(&out, 2, Side::Buy, 99_700, 99_999));
    holds(&rt, is_at(&out, 3, Side::Sell, 100_300, 99_999));
    equal(&rt, out.as_slice().len(), 64 + 64 + 2);
    drop(out);
}

// One middle against two: after 100,000 and 100,200 it buys at the ask, at once or not at all; after 99,800 it sells at
// the bid.
#[test]
fn momentum_follows_its_middles(rt: HostRuntime) {
    let bodies = [
        quote(b'T', 99_900, 100_100, 0),
        quote(b'T', 100_100, 100_300, 0),
        quote(b'T', 99_700, 99_900, 0),
    ];
    let kind = Kind::Momentum {
        size: 10,
        short: 1,
        long: 2,
    };
    let out = sends_of(&rt, rt.alloc(), kind, &bodies);
    holds(&rt, is_at(&out, 0, Side::Buy, 100_300, 0));
    holds(&rt, is_at(&out, 1, Side::Sell, 99_700, 0));
    drop(out);
}
