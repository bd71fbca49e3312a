//! Runs of a kernel up to a time.

ghost use Rattle.std.specs.Prelude.{◌≤◌, ℕ, length, All};
ghost use Rattle.market_floor.specs.Opening.{IsOpening};
ghost use Rattle.kernel_core.specs.Step.{Fits};
ghost use Rattle.kernel_core.specs.EditsWorked.{IsPlain};

use crate::facts::holds;
use crate::kernel_examples::copies::{Gone, are_alike, crowd, gone_on};
use crate::kernel_examples::{branch, one_watcher, opened, run, two_watchers};
use kernel_core::{Kernel, Opening};
use market_rules::Edit;
use market_types::{End, Time, Trace};
use outside::{Counted, Steps};
use std::alloc::Global;
use std::process::Abort;

// A run up to a time: the answer, and by how much the counter rose.
fn timed(
    rt: &impl Abort,
    alloc: Global,
    o: &Opening,
    kernel: &mut Kernel,
    when: Time,
    most: u32,
    trace: &mut Trace,
) -> (Option<End>, u64)
    requires { Fits o.now kernel.old }
    ensures { Fits o.now kernel.new }
{
    let mut steps: Steps<Counted> = Steps::new();
    let answer = kernel.run_until_time(alloc, o, when, most, trace, &mut steps);
    let ticks = steps.close();
    let end = answer.expect(rt, "out of memory");
    (end, ticks)
}

// What a run up to a time answers, how often it ticked, the state's count of events and time, and whether one more is due.
type Reached = (Option<End>, u64, u32, Time, bool);

// A run up to a time once the edits are made and so many events stand.
fn reached(
    rt: &impl Abort,
    alloc: Global,
    o: &Opening,
    edits: &[(u32, Edit)],
    first: u32,
    when: Time,
    most: u32,
) -> Reached
    requires opening { IsOpening o.now }
    requires few { length edits.now ≤ 16 }
    requires plain { All (λ (e : ℕ × Edit). IsPlain e.1) edits.now }
{
    let mut trace = Trace::new(alloc);
    let mut kernel = branch(rt, alloc, o, edits, first, &mut trace);
    let (end, ticks) = timed(rt, alloc, o, &mut kernel, when, most, &mut trace);
    let due = kernel.due_by(o, when);
    let told = (end, ticks, kernel.events(), kernel.time(), due);
    drop(kernel);
    drop(trace);
    told
}

// After how many events a run goes on, up to when, how many events it may make, and what it reaches.
const STOPS: [(u32, Time, u32, Reached); 11] = [
    (0, 999, 100, (None, 0, 0, 1000, false)),
    (0, 1000, 0, (None, 0, 0, 1000, true)),
    (0, 1000, 1, (None, 1, 1, 1000, true)),
    (0, 1000, 100, (None, 2, 2, 1000, false)),
    (0, 1004, 100, (None, 2, 2, 1000, false)),
    (0, 1005, 3, (None, 3, 3, 1005, true)),
    (2, 1000, 100, (None, 0, 2, 1000, false)),
    (3, 1005, 2, (None, 0, 3, 1005, true)),
    (0, 1005, 100, (Some(End::Closed), 4, 4, 1005, false)),
    (0, 5000, 100, (Some(End::Closed), 4, 4, 1005, false)),
    (4, 5000, 0, (Some(End::Closed), 0, 4, 1005, false)),
];

// Two watchers wake at 1000 and ask, and the market closes at 1005, when their questions are due.
#[test]
fn a_run_stops_at_a_time(rt: HostRuntime) {
    let alloc = rt.alloc();
    let o = two_watchers(&rt, alloc, 1005);
    for (first, when, most, hoped) in STOPS.iter() {
        let told = reached(&rt, alloc, &o, &[], *first, *when, *most);
        holds(&rt, told == *hoped);
    }
    drop(o);
}

// A silenced watcher asks for nothing when it wakes, so that no message waits.
#[test]
fn a_run_up_to_a_time_tells_that_it_is_quiet(rt: HostRuntime) {
    let alloc = rt.alloc();
    let o = one_watcher(&rt, alloc, 2000);
    let silence = [(0, Edit::Silence { agent: 1 })];
    let told = reached(&rt, alloc, &o, &silence, 0, 5000, 100);
    holds(&rt, told == (Some(End::Quiet), 1, 1, 1000, false));
    drop(silence);
    drop(o);
}

// A run that stops at a time and then goes on to its end.
fn stopped(rt: &impl Abort, alloc: Global, o: &Opening, when: Time) -> Gone
    requires { IsOpening o.now }
{
    let mut kernel = opened(rt, alloc, o);
    let mut trace = Trace::new(alloc);
    timed(rt, alloc, o, &mut kernel, when, 100_000, &mut trace);
    let end = run(rt, alloc, o, &mut kernel, 100_000, &mut trace);
    Gone { end, kernel, trace }
}

// Times at which such a run stops.
const BREAKS: [Time; 6] = [0, 1000, 1_001_000, 30_000_000, 60_000_000, 90_000_000];

#[test]
fn a_run_that_stops_at_a_time_goes_on_as_if_it_had_not(rt: HostRuntime) {
    let alloc = rt.alloc();
    let o = crowd(&rt, alloc);
    let whole = gone_on(&rt, alloc, &o, opened(&rt, alloc, &o));
    let events = whole.kernel.events();
    holds(&rt, whole.end == Some(End::Closed) && events > 1000);
    for when in BREAKS.iter() {
        let parts = stopped(&rt, alloc, &o, *when);
        holds(
            &rt,
            parts.end == whole.end && are_alike(&rt, alloc, &parts, &whole),
        );
        drop(parts);
    }
    drop(whole);
    drop(o);
}
