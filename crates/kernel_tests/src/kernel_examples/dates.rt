//! Orders around a dated change.

ghost use Rattle.std.specs.Prelude.{◌≡◌};
ghost use Rattle.market_floor.specs.Opening.{IsOpening};
ghost use Rattle.kernel_core.specs.EditsWorked.{later_ticks};

use super::{branch, five_cents, market, order};
use crate::facts::holds;
use agent_shell::Kind;
use kernel_core::Opening;
use market_rules::{Change, Dated, DatedList};
use market_types::{Body, Entry, Reply, Time, Trace};
use std::alloc::Global;
use std::process::Abort;

// Ticks of five cents from 1500 on.
fn later_ticks(rt: &impl Abort, alloc: Global) -> DatedList
    ensures { result ≡ later_ticks }
{
    let later = Dated {
        time: 1500,
        stock: 0,
        change: Change::Tick(five_cents(rt, alloc)),
    };
    let dates = Vec::from_array(alloc, [later]).expect(rt, "out of memory");
    DatedList::new(dates).expect(rt, "out of memory")
}

// The market of one watcher with these dated ticks.
fn dated_market(rt: &impl Abort, alloc: Global) -> Opening
    ensures { IsOpening result }
{
    let mut o = market(rt, alloc, 2000, 0, &[(Kind::Watcher, 1000)]);
    o.dated = later_ticks(rt, alloc);
    o
}

// What the exchange answers in short: `A`, or the reason of a rejection, and when.
fn answer_of(entry: &Entry) -> Option<(u8, Time)> {
    let Entry::Event(e) = entry else {
        return None;
    };
    match e.body {
        Body::Answer(Reply::Accepted { time, .. }) => Some((b'A', time)),
        Body::Answer(Reply::Rejected { time, reason, .. }) => Some((reason, time)),
        _ => None,
    }
}

// What the exchange answers in a run, in order.
fn answers_of(rt: &impl Abort, alloc: Global, entries: &[Entry]) -> Vec<(u8, Time)> {
    let mut answers = Vec::new(alloc);
    for entry in entries {
        if let Some(answer) = answer_of(entry) {
            holds(rt, answers.push(answer).is_ok());
        }
    }
    answers
}

const ANSWERS: [(u8, Time); 2] = [(b'A', 1499), (b'X', 1500)];

#[test]
fn dated_ticks_hold_from_their_nanosecond_on(rt: HostRuntime) {
    let alloc = rt.alloc();
    let o = dated_market(&rt, alloc);
    let mut trace = Trace::new(alloc);
    let orders = [(0, order(b'A', 499)), (0, order(b'B', 500))];
    drop(branch(&rt, alloc, &o, &orders, 100, &mut trace));
    let answers = answers_of(&rt, alloc, trace.as_slice());
    holds(&rt, answers.as_slice() == ANSWERS.as_slice());
    drop(answers);
    drop(orders);
    drop(trace);
    drop(o);
}
