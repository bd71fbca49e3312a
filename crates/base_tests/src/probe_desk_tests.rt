use crate::facts::holds;
use market_types::{Body, EditMark, Entry, FeedList, Quote, Record, Reply, Token, Trace};
use probe_desk::{Fees, Probe, Range, SpreadSum, Volume, restart_all, values, watch};
use std::alloc::Global;
use std::process::Abort;

// A record of these parts.
fn record(alloc: Global, put_back: bool, fee: i64, body: Body) -> Entry {
    Entry::Event(Record {
        number: 1,
        time: 1000,
        seq: 0,
        from: 0,
        to: 1,
        put_back,
        until: 1000,
        fee,
        body,
        before: FeedList::new(alloc),
        after: FeedList::new(alloc),
    })
}

// An Executed reply.
fn executed(shares: u32, price: u32, flag: u8) -> Body {
    Body::Answer(Reply::Executed {
        time: 1000,
        token: Token(*b"T0001000000001"),
        shares,
        price,
        flag,
        number: 1,
    })
}

// A quote with these sides.
fn quoted(bid: u32, ask: u32) -> Body {
    Body::Quote(Quote {
        stock: 0,
        state: b'T',
        bid,
        bid_shares: 1,
        ask,
        ask_shares: 1,
        last: 0,
    })
}

// The mark of an edit after three events.
fn edited(alloc: Global) -> Entry {
    Entry::Edit(EditMark {
        events: 3,
        time: 1000,
        branch: 1,
        index: 0,
        letter: b'h',
        feed: FeedList::new(alloc),
    })
}

// Events of these kinds join a trace.
fn join_events(rt: &impl Abort, alloc: Global, trace: &mut Trace, events: &[(bool, i64, Body)]) {
    for (put_back, fee, body) in events {
        let event = record(alloc, *put_back, *fee, *body);
        trace.push(event).expect(rt, "memory");
    }
}

// The trace of the worked example.
fn small_trace(rt: &impl Abort, alloc: Global) -> Trace {
    let mut trace = Trace::new(alloc);
    let before = [
        (false, 30, executed(50, 100_300, b'R')),
        (false, -5, executed(50, 99_000, b'A')),
        (false, 0, quoted(99_900, 100_100)),
    ];
    join_events(rt, alloc, &mut trace, &before);
    trace.push(edited(alloc)).expect(rt, "memory");
    let after = [
        (false, 0, quoted(0, 100_100)),
        (true, 0, executed(7, 1, b'R')),
        (false, 0, executed(10, 100_000, b'R')),
    ];
    join_events(rt, alloc, &mut trace, &after);
    trace
}

// A probe of each kind.
fn four_probes(rt: &impl Abort, alloc: Global) -> Vec<Box<dyn Probe>> {
    let mut probes: Vec<Box<dyn Probe>> = Vec::new(alloc);
    let volume = Box::new(alloc, Volume::new()).expect(rt, "memory");
    probes.push(volume).expect(rt, "memory");
    let spreads = Box::new(alloc, SpreadSum::new()).expect(rt, "memory");
    probes.push(spreads).expect(rt, "memory");
    let range = Box::new(alloc, Range::new()).expect(rt, "memory");
    probes.push(range).expect(rt, "memory");
    let fees = Box::new(alloc, Fees::new()).expect(rt, "memory");
    probes.push(fees).expect(rt, "memory");
    probes
}

// Whether the probes have these values.
fn have(alloc: Global, probes: &[Box<dyn Probe>], hoped: &[i128]) -> bool {
    match values(alloc, probes) {
        Ok(told) => told.as_slice() == hoped,
        Err(_) => false,
    }
}

#[test]
fn four_probes_watch_a_small_trace(rt: HostRuntime) {
    let alloc = rt.alloc();
    let mut probes = four_probes(&rt, alloc);
    let trace = small_trace(&rt, alloc);
    watch(probes.as_mut_slice(), &trace);
    holds(&rt, have(alloc, probes.as_slice(), &[60, 200, 300, 25]));
    watch(probes.as_mut_slice(), &trace);
    holds(&rt, have(alloc, probes.as_slice(), &[120, 400, 300, 50]));
    restart_all(probes.as_mut_slice());
    holds(&rt, have(alloc, probes.as_slice(), &[0, 0, 0, 0]));
}
