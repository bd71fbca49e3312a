//! From a state that a closed shelf holds on to another of its branch.

ghost use Rattle.std.specs.Prelude.{◌≡◌, ◌<◌, ◌≤◌, ◌+◌, ◌-◌, ◌^◌, None, Some, IfOk, IfSome, length};
ghost use Rattle.branch_tree.specs.Segments.{segments_in, segment_at};
ghost use Rattle.kernel_core.specs.Step.{Fits};
ghost use Rattle.kernel_copy.specs.Segmentwise.{segment_end};
ghost use Rattle.rewind_desk.specs.Nearest.{IsBeginning, IsHeld, events_of};
ghost use Rattle.rewind_desk.specs.Reach.{IsAt, IsOn, RunsOn, has_more};

use crate::chain::{beginning_of, next_on_chain};
use crate::near::Near;
use branch_tree::Stop;
use checkpoint_shelf::ClosedShelf;
use kernel_copy::laws::courses_stay_in_range;
use kernel_copy::{Checkpoint, Course, Kept, Ran, go_on};
use kernel_core::Kernel;
use market_floor::Opening;
use market_types::{Memory, Trace};
use outside::{Ledger, Steps};
use std::alloc::Global;

// Where a run to so many events of a segment's branch came.
#[derive(Drop)]
pub(crate) struct Arrival {
    // The kernel there.
    pub(crate) kernel: Kernel,
    // Whether the segment has more events than so many. If not, the kernel is at the segment's end.
    pub(crate) has_more: bool,
}

/// Whether a kernel has one more event before a stop.
pub fn has_more(o: &Opening, stop: Stop, kernel: &Kernel) -> bool
    ensures { result ≡ has_more o.now stop kernel.now }
{
    match stop {
        Stop::At(events) => match kernel.end(o) {
            Some(_) => false,
            None => kernel.events() < events,
        },
        Stop::When(time) => kernel.due_by(o, time),
    }
}

// Lets a kernel from which a segment's run goes on run until so many events stand or the segment ends.
fn arrive<L: Ledger>(
    alloc: Global,
    course: &Course,
    segment: u32,
    event: u32,
    kernel: Kernel,
    steps: &mut Steps<L>,
) -> Result<Arrival, Memory>
    requires segment { segment < length (segments_in course.now.plan) }
    requires fits { Fits course.now.opening kernel }
    requires on { RunsOn course.now segment kernel }
    requires early { kernel.events ≤ event }
    requires within { event ≤ course.now.opening.limit }
    requires count { steps.old + (event - kernel.events) < 2 ^ 64 }
    ensures at { IfOk result (λ a. IsAt course.now segment event a.kernel a.has_more) }
    ensures ticks { IfOk result (λ a. steps.new + kernel.events ≡ steps.old + a.kernel.events) }
    ensures least { steps.old ≤ steps.new }
    ensures most { steps.new + kernel.events ≤ steps.old + event }
{
    let o = course.opening();
    let stop = course.segment(segment).stop;
    let mut ran = Ran {
        kept: Kept::Nothing,
        kernel,
    };
    let Ok(_) = ran.run_to(alloc, o, stop, event, steps) else {
        drop(ran);
        return Err(Memory);
    };
    let more = has_more(o, stop, &ran.kernel);
    drop(ran.kept);
    Ok(Arrival {
        kernel: ran.kernel,
        has_more: more,
    })
}

// A kernel in a state that the shelf holds, from which the run of its segment goes on.
fn resumed(
    alloc: Global,
    course: &Course,
    shelf: &ClosedShelf<Checkpoint>,
    near: Near,
) -> Result<Kernel, Memory>
    requires shelf { shelf.now.course ≡ course.now }
    requires near { IsHeld shelf.now near.events near }
    ensures segment { near.key.segment < length (segments_in course.now.plan) }
    ensures fits { IfOk result (λ k. Fits course.now.opening k) }
    ensures on { IfOk result (λ k. RunsOn course.now near.key.segment k) }
    ensures events { IfOk result (λ k. k.events ≡ near.events) }
{
    courses_stay_in_range();
    course.know_course();
    let Some(kept) = shelf.get(near.key) else {
        unreachable!()
    };
    kept.resume(alloc)
}

// The state after so many events of a segment, or its end, from a state that the shelf holds of it.
fn from_near<L: Ledger>(
    alloc: Global,
    course: &Course,
    shelf: &ClosedShelf<Checkpoint>,
    near: Near,
    event: u32,
    steps: &mut Steps<L>,
) -> Result<Arrival, Memory>
    requires shelf { shelf.now.course ≡ course.now }
    requires near { IsHeld shelf.now event near }
    requires within { event ≤ course.now.opening.limit }
    requires count { steps.old + (event - near.events) < 2 ^ 64 }
    ensures at { IfOk result (λ a. IsAt course.now near.key.segment event a.kernel a.has_more) }
    ensures ticks { IfOk result (λ a. steps.new + near.events ≡ steps.old + a.kernel.events) }
    ensures least { steps.old ≤ steps.new }
    ensures most { steps.new + near.events ≤ steps.old + event }
{
    let Ok(kernel) = resumed(alloc, course, shelf, near) else {
        return Err(Memory);
    };
    arrive(alloc, course, near.key.segment, event, kernel, steps)
}

// The state after so many events of a segment that goes on from no other, or its end, from the opening.
fn from_opening<L: Ledger>(
    alloc: Global,
    course: &Course,
    segment: u32,
    event: u32,
    steps: &mut Steps<L>,
) -> Result<Arrival, Memory>
    requires segment { segment < length (segments_in course.now.plan) }
    requires first { (segment_at course.now.plan segment).parent ≡ None }
    requires within { event ≤ course.now.opening.limit }
    requires count { steps.old + event < 2 ^ 64 }
    ensures at { IfOk result (λ a. IsAt course.now segment event a.kernel a.has_more) }
    ensures ticks { IfOk result (λ a. steps.new ≡ steps.old + a.kernel.events) }
    ensures least { steps.old ≤ steps.new }
    ensures most { steps.new ≤ steps.old + event }
{
    let Ok(kernel) = Kernel::open(alloc, course.opening()) else {
        return Err(Memory);
    };
    arrive(alloc, course, segment, event, kernel, steps)
}

// The state after so many events of a segment, or its end, from its parent's end, with its branch's edits made where it is the
// branch's first.
fn from_parent<L: Ledger>(
    alloc: Global,
    course: &Course,
    parent: u32,
    segment: u32,
    event: u32,
    mut kernel: Kernel,
    steps: &mut Steps<L>,
) -> Result<Arrival, Memory>
    requires segment { segment < length (segments_in course.now.plan) }
    requires parent { (segment_at course.now.plan segment).parent ≡ Some parent }
    requires end { kernel ≡ (segment_end course.now.opening course.now.plan (segment_at course.now.plan parent)).state }
    requires from { kernel.events ≤ event }
    requires within { event ≤ course.now.opening.limit }
    requires count { steps.old + (event - kernel.events) < 2 ^ 64 }
    ensures at { IfOk result (λ a. IsAt course.now segment event a.kernel a.has_more) }
    ensures ticks { IfOk result (λ a. steps.new + kernel.events ≡ steps.old + a.kernel.events) }
    ensures least { steps.old ≤ steps.new }
    ensures most { steps.new + kernel.events ≤ steps.old + event }
{
    let branch = course.segment(segment).branch;
    let mut trace = Trace::new(alloc);
    let Ok(()) = go_on(alloc, course, branch, parent, &mut kernel, &mut trace) else {
        drop(kernel);
        drop(trace);
        return Err(Memory);
    };
    drop(trace);
    arrive(alloc, course, segment, event, kernel, steps)
}

// The state after so many events of a segment, or its end, from what was reached of its parent for as many: it goes on in the
// segment where that is the parent's end.
fn onward<L: Ledger>(
    alloc: Global,
    course: &Course,
    parent: u32,
    segment: u32,
    event: u32,
    before: Arrival,
    steps: &mut Steps<L>,
) -> Result<Arrival, Memory>
    requires segment { segment < length (segments_in course.now.plan) }
    requires parent { (segment_at course.now.plan segment).parent ≡ Some parent }
    requires at { IsAt course.now parent event before.kernel before.has_more }
    requires within { event ≤ course.now.opening.limit }
    requires count { steps.old + (event - before.kernel.events) < 2 ^ 64 }
    ensures at { IfOk result (λ a. IsAt course.now segment event a.kernel a.has_more) }
    ensures ticks { IfOk result (λ a. steps.new + before.kernel.events ≡ steps.old + a.kernel.events) }
    ensures least { steps.old ≤ steps.new }
    ensures most { steps.new + before.kernel.events ≤ steps.old + event }
{
    course.know_course();
    if before.has_more {
        return Ok(before);
    }
    from_parent(alloc, course, parent, segment, event, before.kernel, steps)
}

// The state after so many events of the segment at which a chain is begun, or its end: from the state that the shelf holds of it,
// or else from the opening.
fn begun<L: Ledger>(
    alloc: Global,
    course: &Course,
    shelf: &ClosedShelf<Checkpoint>,
    near: Option<Near>,
    segment: u32,
    event: u32,
    steps: &mut Steps<L>,
) -> Result<Arrival, Memory>
    requires shelf { shelf.now.course ≡ course.now }
    requires segment { segment < length (segments_in course.now.plan) }
    requires within { event ≤ course.now.opening.limit }
    requires held { IfSome near (IsHeld shelf.now event) }
    requires begins { IsBeginning course.now.plan near segment }
    requires count { steps.old + (event - events_of near) < 2 ^ 64 }
    ensures at { IfOk result (λ a. IsAt course.now segment event a.kernel a.has_more) }
    ensures ticks { IfOk result (λ a. steps.new + events_of near ≡ steps.old + a.kernel.events) }
    ensures least { steps.old ≤ steps.new }
    ensures most { steps.new + events_of near ≤ steps.old + event }
{
    match near {
        Some(own) => from_near(alloc, course, shelf, own, event, steps),
        None => from_opening(alloc, course, segment, event, steps),
    }
}

// The state after so many events of a segment, or its end where that has no more, from the nearest state that the shelf holds
// of its chain, or else from the opening. It goes along the chain by a loop, so that a long one takes no more stack.
pub(crate) fn reach<L: Ledger>(
    alloc: Global,
    course: &Course,
    shelf: &ClosedShelf<Checkpoint>,
    near: Option<Near>,
    segment: u32,
    event: u32,
    steps: &mut Steps<L>,
) -> Result<Arrival, Memory>
    requires shelf { shelf.now.course ≡ course.now }
    requires segment { segment < length (segments_in course.now.plan) }
    requires within { event ≤ course.now.opening.limit }
    requires held { IfSome near (IsHeld shelf.now event) }
    requires chain { IfSome near (λ n. IsOn course.now.plan segment n.key.segment) }
    requires count { steps.old + (event - events_of near) < 2 ^ 64 }
    ensures at { IfOk result (λ a. IsAt course.now segment event a.kernel a.has_more) }
    ensures ticks { IfOk result (λ a. steps.new + events_of near ≡ steps.old + a.kernel.events) }
    ensures least { steps.old ≤ steps.new }
    ensures most { steps.new + events_of near ≤ steps.old + event }
{
    let mut at = beginning_of(course, near, segment);
    let Ok(mut arrival) = begun(alloc, course, shelf, near, at, event, steps) else {
        return Err(Memory);
    };
    while at != segment {
        let next = next_on_chain(course, at, segment);
        let Ok(further) = onward(alloc, course, at, next, event, arrival, steps) else {
            return Err(Memory);
        };
        arrival = further;
        at = next;
    }
    Ok(arrival)
}
