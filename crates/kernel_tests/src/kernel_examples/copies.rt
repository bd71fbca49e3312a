//! A long run beside its copy.

ghost use Rattle.std.specs.Prelude.{◌≡◌};
ghost use Rattle.agent_shell.specs.Parameters.{IsKind};
ghost use Rattle.market_floor.specs.Opening.{IsOpening};
ghost use Rattle.kernel_core.specs.Step.{Fits};

use super::{branch, latency, market, run, shifted, waiting};
use crate::facts::holds;
use agent_shell::Kind;
use kernel_core::{Kernel, Opening};
use market_rules::Edit;
use market_types::{AgentNo, End, Entry, Record, Time, Trace, TraderTold};
use std::alloc::Global;
use std::process::Abort;

// An event in plain values, but for its body and its feeds.
type EventTold = (u32, Time, u64, AgentNo, AgentNo, bool, Time, i64);

fn told(e: &Record) -> EventTold {
    (
        e.number, e.time, e.seq, e.from, e.to, e.put_back, e.until, e.fee,
    )
}

// Whether two events have the same feeds.
fn feed_alike(a: &Record, b: &Record) -> bool {
    (a.before.as_slice() == b.before.as_slice()) & (a.after.as_slice() == b.after.as_slice())
}

// Whether two entries are the same event.
fn is_same(pair: (&Entry, &Entry)) -> bool {
    match pair {
        (Entry::Event(a), Entry::Event(b)) => {
            (told(a) == told(b)) & (a.body == b.body) & feed_alike(a, b)
        }
        _ => false,
    }
}

// Whether two traces have the same events.
fn are_same(a: &[Entry], b: &[Entry]) -> bool {
    a.len() == b.len() && a.iter().zip(b).all(is_same)
}

// What the traders tell of themselves, in their order.
fn tellings(rt: &impl Abort, alloc: Global, kernel: &Kernel) -> Vec<TraderTold> {
    let mut told = Vec::new(alloc);
    for agent in 1..kernel.agents() {
        holds(rt, told.push(kernel.trader(agent)).is_ok());
    }
    told
}

// Whether the same messages wait, in one order.
fn wait_alike(rt: &impl Abort, alloc: Global, a: &Kernel, b: &Kernel) -> bool {
    let here = waiting(rt, alloc, a);
    let there = waiting(rt, alloc, b);
    let is_same = here.as_slice() == there.as_slice();
    drop(there);
    drop(here);
    is_same
}

// Whether the traders tell the same of themselves.
fn tell_alike(rt: &impl Abort, alloc: Global, a: &Kernel, b: &Kernel) -> bool {
    let here = tellings(rt, alloc, a);
    let there = tellings(rt, alloc, b);
    let is_same = here.as_slice() == there.as_slice();
    drop(there);
    drop(here);
    is_same
}

fn noise() -> Kind
    ensures { IsKind result }
{
    Kind::Noise { size: 100 }
}

fn value() -> Kind
    ensures { IsKind result }
{
    Kind::Value {
        size: 100,
        noise: 500,
        margin: 200,
    }
}

fn momentum() -> Kind
    ensures { IsKind result }
{
    Kind::Momentum {
        size: 100,
        short: 1,
        long: 2,
    }
}

fn maker() -> Kind
    ensures { IsKind result }
{
    Kind::Maker {
        size: 200,
        half: 200,
        step: 100,
        levels: 3,
        pause: 100,
    }
}

// A market of one trader of each kind.
pub(crate) fn crowd(rt: &impl Abort, alloc: Global) -> Opening
    ensures { IsOpening result }
{
    let kinds = [
        (Kind::Watcher, 1000),
        (noise(), 1001),
        (value(), 1002),
        (momentum(), 1003),
        (maker(), 1000),
    ];
    market(rt, alloc, 60_000_000, 2, &kinds)
}

// A state after 500 events, on whose way latencies, a trader and the value were edited.
fn halfway(rt: &impl Abort, alloc: Global, o: &Opening) -> Kernel
    requires { IsOpening o.now }
    ensures { Fits o.now result }
{
    let mut trace = Trace::new(alloc);
    let silence = Edit::Silence { agent: 1 };
    let edits = [(100, latency(7, 9)), (200, silence), (300, shifted(250))];
    let kernel = branch(rt, alloc, o, &edits, 500, &mut trace);
    drop(edits);
    drop(trace);
    kernel
}

// A run to its end: why it ended, its state, and its trace.
#[derive(Drop)]
pub(crate) struct Gone {
    pub(crate) end: Option<End>,
    pub(crate) kernel: Kernel,
    pub(crate) trace: Trace,
}

pub(crate) fn gone_on(rt: &impl Abort, alloc: Global, o: &Opening, mut kernel: Kernel) -> Gone
    requires { Fits o.now kernel }
{
    let mut trace = Trace::new(alloc);
    let end = run(rt, alloc, o, &mut kernel, 100_000, &mut trace);
    Gone { end, kernel, trace }
}

// An equal kernel.
fn copied(rt: &impl Abort, alloc: Global, kernel: &Kernel) -> Kernel
    ensures { result ≡ kernel.now }
{
    kernel.copy(alloc).expect(rt, "out of memory")
}

// Whether two runs ended in one state after the same events.
pub(crate) fn are_alike(rt: &impl Abort, alloc: Global, a: &Gone, b: &Gone) -> bool {
    wait_alike(rt, alloc, &a.kernel, &b.kernel)
        && tell_alike(rt, alloc, &a.kernel, &b.kernel)
        && a.kernel.counts() == b.kernel.counts()
        && are_same(a.trace.as_slice(), b.trace.as_slice())
}

#[test]
fn a_copy_goes_on_as_its_kernel_does(rt: HostRuntime) {
    let alloc = rt.alloc();
    let o = crowd(&rt, alloc);
    let kernel = halfway(&rt, alloc, &o);
    let copy = copied(&rt, alloc, &kernel);
    let a = gone_on(&rt, alloc, &o, kernel);
    let b = gone_on(&rt, alloc, &o, copy);
    holds(&rt, a.end == Some(End::Closed) && a.kernel.events() > 1000);
    holds(&rt, b.end == a.end && are_alike(&rt, alloc, &a, &b));
    drop(b);
    drop(a);
    drop(o);
}
