//! Runs over the code whose events were computed by hand.

pub(crate) mod copies;
mod dates;
mod steps;

ghost use Rattle.market_floor.specs.Reaction.{most_posted};
ghost use Rattle.std.specs.Prelude.{◌≡◌, ◌≤◌, ◌∷◌, [], ℕ, IfOk, max, map, length, All, true};
ghost use Rattle.agent_shell.specs.Parameters.{IsKind};
ghost use Rattle.market_types.specs.Limits.{longest_delay};
ghost use Rattle.market_rules.specs.EditRanges.{is_near_zero};
ghost use Rattle.market_floor.specs.Opening.{IsOpening};
ghost use Rattle.market_floor.specs.OpeningWorked.{market_of, trader};
ghost use Rattle.kernel_core.specs.Open.{opened};
ghost use Rattle.kernel_core.specs.Step.{Fits};
ghost use Rattle.kernel_core.specs.EditsWorked.{IsPlain};

use crate::facts::{equal, holds};
use agent_shell::{Kind, TraderSetting};
use kernel_core::{Kernel, Opening};
use market_floor::opening_worked::{markets_are_openings, opening};
use market_rules::{Band, Edit, FeeTable, Param, TickTable};
use market_types::{End, Enter, Entry, Inbound, Message, Side, Symbol, Time, Token, Trace};
use outside::{Counted, Steps};
use std::alloc::{AllocError, Global};
use std::process::Abort;

// A trader of a kind that first wakes at a time, and then each millisecond.
fn setting(kind: Kind, first: Time) -> TraderSetting
    ensures { result ≡ trader kind first }
{
    TraderSetting {
        kind,
        group: 0,
        stock: 0,
        first,
        every: 1_000_000,
        wobble: 0,
        delay: 0,
        cash: 0,
    }
}

// Traders of these kinds, each with its first wakeup.
fn traders(alloc: Global, kinds: &[(Kind, Time)]) -> Result<Vec<TraderSetting>, AllocError>
    ensures { IfOk result (λ v. v.items ≡ map (λ (k : Kind × ℕ). trader k.0 k.1) kinds.now) }
{
    kinds.iter().map(|k| setting(k.0, k.1)).collect(alloc)
}

// A market of such traders, whose exchange computes for `delay` nanoseconds.
pub(crate) fn market(
    rt: &impl Abort,
    alloc: Global,
    close: Time,
    delay: Time,
    kinds: &[(Kind, Time)],
) -> Opening
    requires low { 1000 ≤ close }
    requires high { close ≤ 65535001000 }
    requires delay { delay ≤ 1000 }
    requires some { 1 ≤ length kinds.now }
    requires few { length kinds.now ≤ 511 }
    requires kinds { All (λ (k : Kind × ℕ). IsKind k.0) kinds.now }
    requires early { All (λ (k : Kind × ℕ). 1000 ≤ k.1) kinds.now }
    requires late { All (λ (k : Kind × ℕ). k.1 ≤ 2000) kinds.now }
    ensures opening { IsOpening result }
    ensures made { result ≡ market_of close 100000 delay (map (λ (k : Kind × ℕ). trader k.0 k.1) kinds.now) }
{
    markets_are_openings();
    let Ok(settings) = traders(alloc, kinds) else {
        panic!(rt; "out of memory");
    };
    let Ok(o) = opening(alloc, close, 100_000, delay, settings) else {
        panic!(rt; "out of memory");
    };
    o
}

// A market of one watcher that wakes at 1000.
pub(crate) fn one_watcher(rt: &impl Abort, alloc: Global, close: Time) -> Opening
    requires low { 1000 ≤ close }
    requires high { close ≤ 65535001000 }
    ensures { IsOpening result }
{
    market(rt, alloc, close, 0, &[(Kind::Watcher, 1000)])
}

// A market of two watchers that wake at 1000.
pub(crate) fn two_watchers(rt: &impl Abort, alloc: Global, close: Time) -> Opening
    requires low { 1000 ≤ close }
    requires high { close ≤ 65535001000 }
    ensures { IsOpening result }
{
    let kinds = [(Kind::Watcher, 1000), (Kind::Watcher, 1000)];
    market(rt, alloc, close, 0, &kinds)
}

// Events until so many of them stand.
pub(crate) fn run(
    rt: &impl Abort,
    alloc: Global,
    o: &Opening,
    kernel: &mut Kernel,
    stop: u32,
    trace: &mut Trace,
) -> Option<End>
    requires { Fits o.now kernel.old }
    ensures fits { Fits o.now kernel.new }
    ensures offsets { kernel.new.floor.offsets ≡ kernel.old.floor.offsets }
    ensures drops { kernel.new.post.dropped ≤ max kernel.old.post.dropped most_posted }
{
    let mut steps: Steps<Counted> = Steps::new();
    let answer = kernel.run_until(alloc, o, stop, trace, &mut steps);
    steps.close();
    answer.expect(rt, "out of memory")
}

// The state before the first event.
pub(crate) fn opened(rt: &impl Abort, alloc: Global, o: &Opening) -> Kernel
    requires { IsOpening o.now }
    ensures opened { result ≡ opened o.now }
    ensures fits { Fits o.now result }
{
    Kernel::open(alloc, o).expect(rt, "out of memory")
}

// A run from the opening on: before each edit events until so many of them stand, and so many at last.
pub(crate) fn branch(
    rt: &impl Abort,
    alloc: Global,
    o: &Opening,
    edits: &[(u32, Edit)],
    last: u32,
    trace: &mut Trace,
) -> Kernel
    requires opening { IsOpening o.now }
    requires few { length edits.now ≤ 16 }
    requires plain { All (λ (e : ℕ × Edit). IsPlain e.1) edits.now }
    ensures { Fits o.now result }
{
    let mut kernel = opened(rt, alloc, o);
    for i in 0..edits.len() {
        run(rt, alloc, o, &mut kernel, edits[i].0, trace);
        let answer = kernel.apply(alloc, o, &edits[i].1, 1, i as u16, trace);
        holds(rt, answer.is_ok());
    }
    run(rt, alloc, o, &mut kernel, last, trace);
    kernel
}

// An order of the first trader that is due so long after the state's time: 100 shares to sell at 10.01 dollars.
fn order(letter: u8, after: Time) -> Edit
    requires { after ≤ 1000 }
    ensures { IsPlain result }
{
    Edit::Inject {
        agent: 1,
        after,
        message: Inbound::Enter(Enter {
            token: Token([
                letter, b'0', b'0', b'0', b'1', b'0', b'0', b'0', b'0', b'0', b'0', b'0', b'0',
                b'1',
            ]),
            side: Side::Sell,
            shares: 100,
            stock: Symbol(*b"ABM     "),
            price: 100_100,
            tif: 99_999,
            firm: *b"ABID",
            display: b'Y',
            capacity: b'P',
            sweep: b'N',
            minimum: 0,
            cross: b'N',
            customer: b'N',
        }),
    }
}

// Other latencies from now on.
fn latency(base: Time, jitter: u32) -> Edit
    requires { base ≤ longest_delay }
    ensures { IsPlain result }
{
    Edit::Latency {
        from: 0,
        to: 0,
        base,
        jitter,
    }
}

// The first trader computes for so long from now on.
fn delayed(value: u64) -> Edit
    requires { value ≤ longest_delay }
    ensures { IsPlain result }
{
    Edit::Agent {
        agent: 1,
        name: Param::Delay,
        value,
    }
}

// The first stock's value is shifted from now on.
fn shifted(offset: i64) -> Edit
    requires { is_near_zero 2000000000 offset ≡ true }
    ensures { IsPlain result }
{
    Edit::Series { stock: 0, offset }
}

// Ticks of five cents.
fn five_cents(rt: &impl Abort, alloc: Global) -> TickTable
    ensures { result ≡ record { from = 0; tick = 500 } ∷ [] }
{
    TickTable::new(alloc, &[Band { from: 0, tick: 500 }]).expect(rt, "out of memory")
}

// Ticks of five cents for the first stock.
fn ticks(rt: &impl Abort, alloc: Global) -> Edit
    ensures { IsPlain result }
{
    let table = five_cents(rt, alloc);
    Edit::Tick { stock: 0, table }
}

// The letter of an edit's mark and its place among the edits; 0 and 0 of an event.
fn mark_of(entry: &Entry) -> (u8, u16) {
    match entry {
        Entry::Event(_) => (0, 0),
        Entry::Edit(mark) => (mark.letter, mark.index),
    }
}

// Edits of one watcher's market: each kind once, before the first event.
fn each_kind(rt: &impl Abort, alloc: Global, o: &Opening, trace: &mut Trace) -> Kernel
    requires { IsOpening o.now }
    ensures { Fits o.now result }
{
    let finer = ticks(rt, alloc);
    let fees = FeeTable { add: 0, take: 0 };
    let (agent, stock) = (1, 0);
    let edits = [
        (0, finer),
        (0, Edit::Fee { stock, fees }),
        (0, Edit::Halt { stock }),
        (0, Edit::Resume { stock }),
        (0, latency(7, 9)),
        (0, delayed(7)),
        (0, Edit::Silence { agent }),
        (0, order(b'A', 100)),
        (0, shifted(-5)),
    ];
    let kernel = branch(rt, alloc, o, &edits, 0, trace);
    drop(edits);
    kernel
}

// Whether the first trader is silenced, the offset of the first stock, and its tick at 10.01 dollars.
fn first_of_all(kernel: &Kernel, o: &Opening) -> (bool, i64, u32)
    requires { Fits o.now kernel.now }
{
    (
        kernel.silenced(1),
        kernel.offset(0),
        kernel.exchange().ticks(0).tick_at(100_100),
    )
}

const MARKS: [(u8, u16); 9] = [
    (b't', 0),
    (b'f', 1),
    (b'h', 2),
    (b'r', 3),
    (b'l', 4),
    (b'p', 5),
    (b's', 6),
    (b'i', 7),
    (b'v', 8),
];

// Whether entries have these marks.
fn have_marks(entries: &[Entry]) -> bool {
    for (entry, hoped) in entries.iter().zip(MARKS.iter()) {
        if mark_of(entry) != *hoped {
            return false;
        }
    }
    entries.len() == MARKS.len()
}

#[test]
fn each_kind_of_edit_is_made(rt: HostRuntime) {
    let alloc = rt.alloc();
    let o = one_watcher(&rt, alloc, 2000);
    let mut trace = Trace::new(alloc);
    let kernel = each_kind(&rt, alloc, &o, &mut trace);
    holds(&rt, have_marks(trace.as_slice()));
    holds(
        &rt,
        first_of_all(&kernel, &o) == (true, -5, 500) && kernel.counts().waiting == 2,
    );
    drop(kernel);
    drop(trace);
    drop(o);
}

// An event's time, its message's number, whether it was put back, and until when its receiver is busy.
fn row(entry: &Entry) -> Option<(Time, u64, bool, Time)> {
    match entry {
        Entry::Event(e) => Some((e.time, e.seq, e.put_back, e.until)),
        Entry::Edit(_) => None,
    }
}

const BUSY: [(Time, u64, bool, Time); 11] = [
    (1000, 0, false, 1000),
    (1000, 1, false, 1000),
    (1003, 2, false, 1003),
    (1005, 3, false, 1008),
    (1005, 5, true, 1008),
    (1008, 5, false, 1011),
    (1008, 7, true, 1011),
    (1011, 7, false, 1014),
    (1013, 9, false, 1013),
    (1016, 10, false, 1016),
    (1019, 11, false, 1019),
];

// Whether entries are these events.
fn are_busy(entries: &[Entry]) -> bool {
    for (entry, hoped) in entries.iter().zip(BUSY.iter()) {
        if row(entry) != Some(*hoped) {
            return false;
        }
    }
    entries.len() == BUSY.len()
}

// A market of three watchers, of which the third wakes later, and of an exchange that computes.
fn busy_market(rt: &impl Abort, alloc: Global) -> Opening
    ensures { IsOpening result }
{
    let watcher = Kind::Watcher;
    let kinds = [(watcher, 1000), (watcher, 1000), (watcher, 1003)];
    market(rt, alloc, 2000, 3, &kinds)
}

#[test]
fn a_busy_exchange_puts_back(rt: HostRuntime) {
    let alloc = rt.alloc();
    let o = busy_market(&rt, alloc);
    let mut trace = Trace::new(alloc);
    let kernel = branch(&rt, alloc, &o, &[], 100, &mut trace);
    holds(&rt, are_busy(trace.as_slice()));
    let counts = kernel.counts();
    holds(
        &rt,
        kernel.end(&o) == Some(End::Closed) && counts.waiting == 3 && counts.next_seq == 12,
    );
    drop(kernel);
    drop(trace);
    drop(o);
}

// The messages that wait, in their order.
pub(crate) fn waiting(rt: &impl Abort, alloc: Global, kernel: &Kernel) -> Vec<Message> {
    kernel.messages(alloc).expect(rt, "out of memory")
}

// When the message of a number is due.
fn time_of(messages: &[Message], seq: u64) -> Option<Time> {
    for m in messages {
        if m.seq == seq {
            return Some(m.time);
        }
    }
    None
}

// When the message of number 1 is due after the first event under this jitter, without another latency.
fn due(rt: &impl Abort, alloc: Global, o: &Opening, jitter: u32) -> Option<Time>
    requires { IsOpening o.now }
{
    let mut trace = Trace::new(alloc);
    let edits = [(0, latency(0, jitter))];
    let kernel = branch(rt, alloc, o, &edits, 1, &mut trace);
    let messages = waiting(rt, alloc, &kernel);
    let time = time_of(messages.as_slice(), 1);
    drop(messages);
    drop(kernel);
    drop(edits);
    drop(trace);
    time
}

// A jitter, and when the message is then due: the word of number 1 under the zero key is 2,419,978,656.
const DUE: [(u32, Time); 3] = [(0, 1000), (9, 1005), (4_294_967_295, 2_419_979_656)];

#[test]
fn a_latency_is_drawn_by_number(rt: HostRuntime) {
    let alloc = rt.alloc();
    let o = one_watcher(&rt, alloc, 2000);
    for (jitter, time) in DUE.iter() {
        equal(&rt, due(&rt, alloc, &o, *jitter), Some(*time));
    }
    drop(o);
}

// Why a run has ended, after how many events, at which time, how many messages wait, the next number, and how many
// messages were dropped.
type Ending = (Option<End>, u32, Time, u32, u64, u64);

// How a run of a market ends in which edits are made.
fn ending(rt: &impl Abort, alloc: Global, o: &Opening, edits: &[(u32, Edit)]) -> Ending
    requires opening { IsOpening o.now }
    requires few { length edits.now ≤ 16 }
    requires plain { All (λ (e : ℕ × Edit). IsPlain e.1) edits.now }
{
    let mut trace = Trace::new(alloc);
    let k = branch(rt, alloc, o, edits, 100_000, &mut trace);
    let told = k.counts();
    let ending = (
        k.end(o),
        k.events(),
        k.time(),
        told.waiting,
        told.next_seq,
        told.dropped,
    );
    drop(k);
    drop(trace);
    ending
}

// An order that is due goes on with a run that was closed.
#[test]
fn a_closed_run_goes_on(rt: HostRuntime) {
    let alloc = rt.alloc();
    let o = two_watchers(&rt, alloc, 2000);
    let edits = [(50, order(b'A', 100))];
    let told = ending(&rt, alloc, &o, &edits);
    holds(&rt, told == (Some(End::Closed), 8, 1115, 2, 10, 0));
    drop(edits);
    drop(o);
}

// An order that is due goes on with a run that was quiet.
#[test]
fn a_quiet_run_goes_on(rt: HostRuntime) {
    let alloc = rt.alloc();
    let o = one_watcher(&rt, alloc, 2000);
    let edits = [(0, Edit::Silence { agent: 1 }), (50, order(b'A', 100))];
    let told = ending(&rt, alloc, &o, &edits);
    holds(&rt, told == (Some(End::Quiet), 3, 1105, 0, 3, 0));
    drop(edits);
    drop(o);
}

const FULL: Ending = (
    Some(End::QueueFull),
    65_535,
    65_534_001_000,
    65_536,
    131_071,
    1,
);

// With each wakeup one message more waits, of a question that is under way for an hour.
#[test]
fn an_order_into_a_full_queue_is_dropped_and_counted(rt: HostRuntime) {
    let alloc = rt.alloc();
    let o = one_watcher(&rt, alloc, 65_535_001_000);
    let edits = [
        (0, latency(3_600_000_000_000, 0)),
        (65_535, order(b'A', 100)),
    ];
    holds(&rt, ending(&rt, alloc, &o, &edits) == FULL);
    drop(edits);
    drop(o);
}
