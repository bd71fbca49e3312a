//! A party that is silenced and copied.

ghost use Rattle.agent_shell.specs.Parameters.{IsKind};

use crate::facts::{equal, holds};
use crate::tick_tables::cents;
use agent_shell::{Kind, Sends, TraderSetting};
use market_floor::Party;
use market_rules::{TickTable, View};
use market_types::{Body, Quote, Symbol};
use std::alloc::Global;
use std::process::Abort;

const QUOTE: Body = Body::Quote(Quote {
    stock: 0,
    state: b'T',
    bid: 99_900,
    bid_shares: 10,
    ask: 100_100,
    ask_shares: 10,
    last: 0,
});

// Trader 1 of stock 0, which wakes each 500 nanoseconds and computes for 12.
fn opened(rt: &impl Abort, alloc: Global, kind: Kind) -> Party
    requires { IsKind kind }
{
    let setting = TraderSetting {
        kind,
        group: 0,
        stock: 0,
        first: 1000,
        every: 500,
        wobble: 9,
        delay: 12,
        cash: 1000,
    };
    Party::open(alloc, 1, &setting).expect(rt, "out of memory")
}

/// An equal party.
pub fn copied(rt: &impl Abort, party: &Party) -> Party {
    party.copy().expect(rt, "out of memory")
}

/// Takes a message at 1000 where the stock has this value and the counts and the account are small.
pub fn react(
    rt: &impl Abort,
    party: &mut Party,
    value: u32,
    ticks: &TickTable,
    body: &Body,
    out: &mut Sends,
) {
    let told = party.told();
    assert!(rt; told.tokens < 1000 && told.draws < 1000 && told.quotes < 1000);
    let position = told.account.position;
    let cash = told.account.cash;
    assert!(rt; -1_000_000 < position);
    assert!(rt; position < 1_000_000);
    assert!(rt; -1_000_000_000_000 < cash);
    assert!(rt; cash < 1_000_000_000_000);
    let view = View {
        time: 1000,
        key: &[0; 32],
        symbol: Symbol(*b"ABM     "),
        value,
        ticks,
    };
    let answer = party.react(&view, body, out);
    holds(rt, answer.is_ok());
}

/// Takes a message so, and is then a copy of itself.
pub fn react_and_copy(
    rt: &impl Abort,
    mut party: Party,
    value: u32,
    ticks: &TickTable,
    body: &Body,
    out: &mut Sends,
) -> Party {
    react(rt, &mut party, value, ticks, body, out);
    let copy = copied(rt, &party);
    drop(party);
    copy
}

// What a party that takes these messages sends.
fn sends_of(rt: &impl Abort, alloc: Global, party: &mut Party, bodies: &[Body]) -> Sends {
    let ticks = cents(rt, alloc);
    let mut out = Sends::new(alloc);
    for body in bodies {
        react(rt, party, 100_050, &ticks, body, &mut out);
    }
    drop(ticks);
    out
}

#[test]
fn a_watcher_wakes_and_hears(rt: HostRuntime) {
    let alloc = rt.alloc();
    let mut party = opened(&rt, alloc, Kind::Watcher);
    let out = sends_of(&rt, alloc, &mut party, &[Body::Wake, QUOTE]);
    let told = party.told();
    holds(&rt, (told.draws == 1) & (told.quotes == 1));
    holds(&rt, !party.is_silent());
    drop(party);
    equal(&rt, out.as_slice().len(), 2);
    drop(out);
}

// The copy of one that is silenced is silenced too.
#[test]
fn a_silenced_watcher_is_still(rt: HostRuntime) {
    let alloc = rt.alloc();
    let mut party = opened(&rt, alloc, Kind::Watcher);
    party.silence();
    let mut copy = copied(&rt, &party);
    drop(party);
    let out = sends_of(&rt, alloc, &mut copy, &[Body::Wake, QUOTE]);
    let told = copy.told();
    holds(&rt, (told.draws == 0) & (told.quotes == 0));
    holds(&rt, copy.is_silent());
    drop(copy);
    holds(&rt, out.as_slice().is_empty());
    drop(out);
}

// A maker quotes two orders.
#[test]
fn a_maker_quotes(rt: HostRuntime) {
    let alloc = rt.alloc();
    let kind = Kind::Maker {
        size: 10,
        half: 150,
        step: 100,
        levels: 1,
        pause: 7,
    };
    let mut party = opened(&rt, alloc, kind);
    let out = sends_of(&rt, alloc, &mut party, &[QUOTE]);
    let copy = copied(&rt, &party);
    drop(party);
    let told = copy.told();
    drop(copy);
    holds(&rt, (told.live == 2) & (told.tokens == 2));
    equal(&rt, out.as_slice().len(), 2);
    drop(out);
}
