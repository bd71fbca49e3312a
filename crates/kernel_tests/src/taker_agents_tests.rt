ghost use Rattle.agent_shell.specs.Parameters.{IsKind};

use crate::facts::holds;
use crate::tick_tables::cents;
use crate::trader_party_tests::react_and_copy;
use agent_shell::{Kind, Sending, Sends, TraderSetting};
use market_floor::Party;
use market_types::{Body, Inbound, Quote, Side};
use std::alloc::Global;
use std::process::Abort;

// Under the zero key the words of stream 0 are 0xade0b876, 0x903df1a0, 0xe56a5d40, 0x28bd8653, 0xb819d2bd,
// 0x1aed8da0, 0xccef36a8, 0xc70d778b, 0x7c5941da: a word is tails where it is 0x80000000 or more.
// The value of the stock.
const VALUE: u32 = 100_050;

// What agent 0 sends for these messages. It wakes each 500 nanoseconds and up to 9 more, and goes on as a copy of itself
// after each message.
fn sends_of(rt: &impl Abort, alloc: Global, kind: Kind, bodies: &[Body]) -> Sends
    requires { IsKind kind }
{
    let ticks = cents(rt, alloc);
    let setting = TraderSetting {
        kind,
        group: 0,
        stock: 0,
        first: 1000,
        every: 500,
        wobble: 9,
        delay: 12,
        cash: 1000,
    };
    let mut out = Sends::new(alloc);
    let mut trader = Party::open(alloc, 0, &setting).expect(rt, "out of memory");
    for body in bodies {
        trader = react_and_copy(rt, trader, VALUE, &ticks, body, &mut out);
    }
    drop(trader);
    drop(ticks);
    out
}

fn quote(state: u8, bid: u32, ask: u32) -> Body {
    Body::Quote(Quote {
        stock: 0,
        state,
        bid,
        bid_shares: 10,
        ask,
        ask_shares: 10,
        last: 0,
    })
}

// Whether the sending at a place is this order.
fn is_at(out: &Sends, place: usize, side: Side, shares: u32, price: u32) -> bool {
    match out.as_slice().get(place) {
        Some(
            Sending::To {
                body: Body::Order(Inbound::Enter(order)),
                ..
            },
        ) => order.side == side && order.shares == shares && order.price == price,
        _ => false,
    }
}

// Whether the sending at a place is a wakeup at this time.
fn is_wakeup(out: &Sends, place: usize, time: u64) -> bool {
    match out.as_slice().get(place) {
        Some(Sending::WakeAt(at)) => *at == time,
        _ => false,
    }
}

// Words 0 and 1 are tails and 57 of 100; a halted quote draws nothing; word 2 picks 8 of 0 to 9 for the wakeup, after
// the question; words 3 and 4 are heads and 72 of 100; words 5 and 6 are heads and 81.
#[test]
fn noise_trades_by_the_toss_of_a_coin(rt: HostRuntime) {
    let bodies = [
        quote(b'T', 99_900, 0),
        quote(b'H', 99_900, 0),
        Body::Wake,
        quote(b'T', 0, 100_300),
        quote(b'T', 0, 0),
    ];
    let out = sends_of(&rt, rt.alloc(), Kind::Noise { size: 100 }, &bodies);
    holds(&rt, is_at(&out, 0, Side::Sell, 57, 99_900));
    holds(&rt, is_wakeup(&out, 2, 1508));
    holds(&rt, is_at(&out, 3, Side::Buy, 72, 100_300));
    holds(&rt, is_at(&out, 4, Side::Buy, 81, 100_000));
    drop(out);
}
