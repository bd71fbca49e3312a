//! Worked branches over the code.

ghost use Rattle.std.specs.Prelude.{◌≡◌, ◌≤◌, ◌∷◌, [], length, map};
ghost use Rattle.branch_tree.specs.Segments.{segments_in};
ghost use Rattle.kernel_copy.specs.Courses.{AreEdits};
ghost use Rattle.kernel_copy.specs.Kept.{KeepsFrames};
ghost use Rattle.kernel_copy.specs.Outcomes.{outcome_told, outcomes_before};
ghost use Rattle.branch_workers.specs.Example.{AreBranches, small};

use crate::facts::{equal, holds};
use crate::one_worker::simulate;
use crate::small_course::{course_of, fork, latency, market, nothing, root, three_at};
use branch_tree::{Branch, Stop};
use bundle_frames::{Closing, put_end};
use kernel_copy::{Course, Keep, Kept, Outcome, closing_of};
use kernel_core::Kernel;
use market_rules::Edit;
use market_types::{Enter, Inbound, Side, Symbol, Time, Token};
use std::alloc::Global;
use std::process::Abort;
use std::sync::Wait;
use std::thread::Threads;
use trace_bundle::laws::outcomes_are_a_run;
use trace_bundle::{write_branch, write_header};

// One edit.
fn only(rt: &impl Abort, alloc: Global, edit: Edit) -> Vec<Edit>
    ensures { result.items ≡ edit ∷ [] }
{
    let mut edits = Vec::new(alloc);
    edits.push(edit).expect(rt, "memory");
    edits
}

// The first watcher is silenced.
fn silence(rt: &impl Abort, alloc: Global) -> Vec<Edit>
    ensures { AreEdits small result.items }
{
    only(rt, alloc, Edit::Silence { agent: 1 })
}

// A bid of the first watcher, of 999,999 shares at 10 dollars.
fn bid() -> Inbound {
    Inbound::Enter(Enter {
        token: Token(*b"T0001000000001"),
        side: Side::Buy,
        shares: 999_999,
        stock: Symbol(*b"ABM     "),
        price: 100_000,
        tif: 99_999,
        firm: *b"ABID",
        display: b'Y',
        capacity: b'P',
        sweep: b'N',
        minimum: 0,
        cross: b'N',
        customer: b'N',
    })
}

// The bid comes, due 100 nanoseconds later.
fn order(rt: &impl Abort, alloc: Global) -> Vec<Edit>
    ensures { AreEdits small result.items }
{
    let order = Edit::Inject {
        agent: 1,
        after: 100,
        message: bid(),
    };
    only(rt, alloc, order)
}

// The bid comes and the stock halts, or the other way round.
fn order_and_halt(rt: &impl Abort, alloc: Global, halt_first: bool) -> Vec<Edit>
    ensures { AreEdits small result.items }
{
    let order = Edit::Inject {
        agent: 1,
        after: 100,
        message: bid(),
    };
    let halt = Edit::Halt { stock: 0 };
    let (first, second) = if halt_first {
        (halt, order)
    } else {
        (order, halt)
    };
    let mut edits = only(rt, alloc, first);
    edits.push(second).expect(rt, "memory");
    edits
}

// The bundle of a course, from what was kept.
fn bundle(
    rt: &impl Abort,
    alloc: Global,
    course: &Course,
    keep: Keep,
    ran: &Vec<Outcome>,
) -> Vec<u8>
    requires framed { KeepsFrames keep }
    requires ran { map outcome_told ran.now.items ≡ outcomes_before course.now keep (length (segments_in course.now.plan)) }
{
    let _ = keep;
    outcomes_are_a_run();
    let count = course.plan().branches().len();
    let mut out = Vec::new(alloc);
    write_header(course, &mut out).expect(rt, "memory");
    for b in 0..count {
        write_branch(course, ran, b as u16, &mut out).expect(rt, "memory");
    }
    put_end(&mut out, count as u16).expect(rt, "memory");
    out
}

// The trace of a course's last branch, from what was kept.
fn last(rt: &impl Abort, alloc: Global, course: &Course, keep: Keep, ran: &Vec<Outcome>) -> Vec<u8>
    requires framed { KeepsFrames keep }
    requires ran { map outcome_told ran.now.items ≡ outcomes_before course.now keep (length (segments_in course.now.plan)) }
{
    let _ = keep;
    outcomes_are_a_run();
    let count = course.plan().branches().len();
    let mut out = Vec::new(alloc);
    write_branch(course, ran, (count - 1) as u16, &mut out).expect(rt, "memory");
    out
}

// What a course gave: how many events were counted, the outcomes of its segments, its bundle, and its last branch's trace.
#[derive(Drop)]
struct Written {
    ticks: u64,
    outcomes: Vec<Outcome>,
    bundle: Vec<u8>,
    last: Vec<u8>,
}

// Runs the course of these branches, with this kept of the entries.
fn run<R: Abort + Threads + Wait + Sync>(
    rt: &R,
    alloc: Global,
    keep: Keep,
    branches: Vec<Branch>,
) -> Written
    requires framed { KeepsFrames keep }
    requires branches { AreBranches branches.items }
{
    let course = course_of(rt, alloc, branches);
    let simulated = simulate(rt, alloc, &course, keep);
    let bundle = bundle(rt, alloc, &course, keep, &simulated.outcomes);
    let last = last(rt, alloc, &course, keep, &simulated.outcomes);
    drop(course);
    Written {
        ticks: simulated.ticks,
        outcomes: simulated.outcomes,
        bundle,
        last,
    }
}

// The length of some bytes, and a number that a change of any one of them changes.
fn digest(bytes: &[u8]) -> (usize, u64) {
    let mut digest = 0;
    for byte in bytes {
        digest = digest % 4_294_967_291 * 256 + u64::from(*byte);
    }
    (bytes.len(), digest)
}

// How many entries an outcome holds.
fn held(outcome: &Outcome) -> usize {
    match &outcome.kept {
        Kept::Entries(summed) => summed.len(),
        _ => 0,
    }
}

// How many entries an outcome has, and the count of events and the time of its end.
type Finish = (usize, u32, Time);

fn finish(outcome: &Outcome) -> Finish {
    (held(outcome), outcome.events, outcome.closing.counts.time)
}

// What a run gave: how many events were counted, how its segments end, and its bundle's digest.
fn is_told(rt: &impl Abort, run: &Written, ticks: u64, ends: &[Finish], bundle: (usize, u64)) {
    equal(rt, run.ticks, ticks);
    holds(rt, run.outcomes.iter().map(finish).eq(ends.iter().copied()));
    equal(rt, digest(run.bundle.as_slice()), bundle);
}

// Whether an agent is silenced at the end of a segment, its own time, and how many quotes it heard.
fn heard(outcomes: &[Outcome], segment: usize, agent: usize) -> Option<(bool, Time, u32)> {
    let Some(outcome) = outcomes.get(segment) else {
        return None;
    };
    let Some(a) = outcome.closing.agents.as_slice().get(agent) else {
        return None;
    };
    Some((a.silenced, a.time, a.quotes))
}

const OF_THREE: [Finish; 5] = [
    (2, 2, 1000),
    (4, 6, 1010),
    (5, 6, 1055),
    (5, 6, 1012),
    (4, 6, 1010),
];

// They leave the root at event 2, at the time of that event, or right before the time of the next.
#[test]
fn three_branches(rt: HostRuntime) {
    let alloc = rt.alloc();
    for stop in [Stop::At(2), Stop::When(1000), Stop::When(1004)] {
        let run = run(&rt, alloc, Keep::Entries, three_at(&rt, alloc, stop));
        is_told(&rt, &run, 18, &OF_THREE, (3255, 550_129_052_676));
        equal(&rt, digest(run.last.as_slice()), (799, 1_096_420_110_848));
        drop(run);
    }
}

// A branch at the time of two messages.
fn slow_by_time(rt: &impl Abort, alloc: Global) -> Vec<Branch>
    ensures { AreBranches result.items }
{
    let mut branches = root(rt, alloc);
    fork(
        rt,
        &mut branches,
        b"x",
        0,
        Stop::When(1005),
        latency(rt, alloc, 50),
    );
    branches
}

// A branch of a branch at a time.
fn low_by_time(rt: &impl Abort, alloc: Global) -> Vec<Branch>
    ensures { AreBranches result.items }
{
    let mut branches = root(rt, alloc);
    fork(rt, &mut branches, b"x", 0, Stop::When(1004), nothing(alloc));
    fork(rt, &mut branches, b"w", 1, Stop::At(1), nothing(alloc));
    branches
}

const OF_SLOW: [Finish; 3] = [(4, 4, 1005), (2, 6, 1010), (3, 6, 1010)];

const OF_LOW: [Finish; 5] = [
    (2, 2, 1000),
    (4, 6, 1010),
    (0, 2, 1000),
    (4, 6, 1010),
    (4, 6, 1010),
];

// A branch at the time of two messages, which both come before its edit; and one of a branch at a time that leaves at an
// event number below its parent's, so that its parent's first segment has no event.
#[test]
fn branches_by_time(rt: HostRuntime) {
    let alloc = rt.alloc();
    let slow = run(&rt, alloc, Keep::Entries, slow_by_time(&rt, alloc));
    is_told(&rt, &slow, 8, &OF_SLOW, (1637, 356_322_517_250));
    drop(slow);
    let low = run(&rt, alloc, Keep::Entries, low_by_time(&rt, alloc));
    is_told(&rt, &low, 14, &OF_LOW, (2416, 315_712_857_091));
    drop(low);
}

// A branch of a branch where both fork at the last event.
fn at_the_last(rt: &impl Abort, alloc: Global) -> Vec<Branch>
    ensures { AreBranches result.items }
{
    let mut branches = root(rt, alloc);
    fork(rt, &mut branches, b"x", 0, Stop::At(6), nothing(alloc));
    fork(rt, &mut branches, b"y", 1, Stop::At(6), nothing(alloc));
    branches
}

const OF_EMPTY: [Finish; 5] = [
    (6, 6, 1010),
    (0, 6, 1010),
    (0, 6, 1010),
    (0, 6, 1010),
    (0, 6, 1010),
];

// Three of five segments have no event.
#[test]
fn empty_segments(rt: HostRuntime) {
    let alloc = rt.alloc();
    let run = run(&rt, alloc, Keep::Entries, at_the_last(&rt, alloc));
    is_told(&rt, &run, 6, &OF_EMPTY, (2416, 405_230_435_075));
    drop(run);
}

// Branches that leave when the root has closed: with the bid, and with a halt behind it and before it.
fn revived(rt: &impl Abort, alloc: Global) -> Vec<Branch>
    ensures { AreBranches result.items }
{
    let mut branches = root(rt, alloc);
    let late = Stop::At(50);
    fork(rt, &mut branches, b"x", 0, late, order(rt, alloc));
    fork(
        rt,
        &mut branches,
        b"y",
        0,
        late,
        order_and_halt(rt, alloc, false),
    );
    fork(
        rt,
        &mut branches,
        b"z",
        0,
        late,
        order_and_halt(rt, alloc, true),
    );
    branches
}

const OF_REVIVED: [Finish; 5] = [
    (6, 6, 1010),
    (0, 6, 1010),
    (3, 8, 1115),
    (4, 8, 1115),
    (4, 8, 1115),
];

// A bid revives the closed run: it is event 7 at 1110 and accepted at 1115; with a halt, before it or behind it, it is
// rejected there.
#[test]
fn edits_in_both_orders(rt: HostRuntime) {
    let alloc = rt.alloc();
    let run = run(&rt, alloc, Keep::Entries, revived(&rt, alloc));
    is_told(&rt, &run, 12, &OF_REVIVED, (3984, 841_970_850_564));
    drop(run);
}

// A branch in which the first watcher is silenced at event 2.
fn silenced(rt: &impl Abort, alloc: Global) -> Vec<Branch>
    ensures { AreBranches result.items }
{
    let mut branches = root(rt, alloc);
    fork(rt, &mut branches, b"x", 0, Stop::At(2), silence(rt, alloc));
    branches
}

// A watcher that is silenced at event 2 hears its quote at 1010 and doesn't count it. Where the frames of the entries are kept
// and not they themselves, the bundle is the same.
#[test]
fn a_silenced_watcher(rt: HostRuntime) {
    let alloc = rt.alloc();
    let entries = run(&rt, alloc, Keep::Entries, silenced(&rt, alloc));
    equal(&rt, (entries.ticks, entries.outcomes.len()), (10, 3));
    let outcomes = entries.outcomes.as_slice();
    equal(&rt, heard(outcomes, 2, 1), Some((true, 1010, 0)));
    equal(&rt, heard(outcomes, 2, 2), Some((false, 1010, 1)));
    equal(
        &rt,
        digest(entries.bundle.as_slice()),
        (1637, 407_337_604_610),
    );
    let frames = run(&rt, alloc, Keep::Frames, silenced(&rt, alloc));
    equal(&rt, frames.ticks, entries.ticks);
    holds(&rt, frames.bundle.as_slice() == entries.bundle.as_slice());
    drop(frames);
    drop(entries);
}

// The name of a branch of a number below 256: two letters.
fn name(k: u16) -> [u8; 2]
    requires { k ≤ 255 }
{
    [b'a' + (k / 16) as u8, b'a' + (k % 16) as u8]
}

// 255 branches of the root without edits, which fork after 0 to 3 events.
fn wide(rt: &impl Abort, alloc: Global) -> Vec<Branch>
    ensures { AreBranches result.items }
{
    let mut branches = root(rt, alloc);
    for k in 1..256u16 {
        let stop = Stop::At(u32::from(k % 4));
        fork(rt, &mut branches, &name(k), 0, stop, nothing(alloc));
    }
    branches
}

// 60 branches, each of the one before, which make the latency 1 to 60; they fork after 0 to 6 events.
fn deep(rt: &impl Abort, alloc: Global) -> Vec<Branch>
    ensures { AreBranches result.items }
{
    let mut branches = root(rt, alloc);
    for k in 1..61u16 {
        let edits = latency(rt, alloc, u64::from(k));
        let stop = Stop::At(u32::from(k / 10));
        fork(rt, &mut branches, &name(k), k - 1, stop, edits);
    }
    branches
}

// As many branches of one parent as there may be, and a chain whose branches have the edits of all before them.
#[test]
fn wide_and_deep_trees(rt: HostRuntime) {
    let alloc = rt.alloc();
    let wide = run(&rt, alloc, Keep::Entries, wide(&rt, alloc));
    equal(&rt, (wide.ticks, wide.outcomes.len()), (1152, 260));
    equal(
        &rt,
        digest(wide.bundle.as_slice()),
        (204_818, 276_323_116_800),
    );
    drop(wide);
    let deep = run(&rt, alloc, Keep::Entries, deep(&rt, alloc));
    equal(&rt, (deep.ticks, deep.outcomes.len()), (210, 121));
    equal(
        &rt,
        digest(deep.bundle.as_slice()),
        (85_418, 1_091_373_565_245),
    );
    drop(deep);
}

// The closing of the opening's state.
fn first_closing(rt: &impl Abort, alloc: Global) -> Closing {
    let o = market(rt, alloc);
    let kernel = Kernel::open(alloc, &o).expect(rt, "memory");
    let closing = closing_of(alloc, &o, &kernel).expect(rt, "memory");
    drop(kernel);
    drop(o);
    closing
}

#[test]
fn the_closing_of_the_opening(rt: HostRuntime) {
    let closing = first_closing(&rt, rt.alloc());
    let counts = closing.counts;
    equal(
        &rt,
        (counts.end, counts.events, counts.time),
        (b'-', 0, 1000),
    );
    equal(
        &rt,
        (counts.next_seq, counts.waiting, counts.orders),
        (2, 2, 0),
    );
    equal(&rt, closing.stocks.len(), 1);
    equal(&rt, closing.orders.len(), 0);
    equal(&rt, closing.agents.len(), 3);
    for agent in closing.agents.as_slice() {
        equal(
            &rt,
            (agent.silenced, agent.time, agent.positions.len()),
            (false, 1000, 1),
        );
    }
    drop(closing);
}
