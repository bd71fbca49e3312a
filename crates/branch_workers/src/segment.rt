//! One segment by one worker.

ghost use Rattle.std.specs.Prelude.{◌≡◌, ℕ, ◌+◌, ◌<◌, ◌≤◌, ◌^◌, [], true, All, Some, IfOk, OnOk, OnErr, IsSome, length};
ghost use Rattle.branch_tree.specs.Segments.{segments_in, segment_at, last_of};
ghost use Rattle.kernel_core.specs.Step.{Fits};
ghost use Rattle.market_types.specs.Timely.{IsTimely};
ghost use Rattle.shelf_core.specs.Made.{Stays};
ghost use Rattle.shelf_core.specs.Plan.{place_of, is_in, is_sole};
ghost use Rattle.shelf_core.specs.Views.{times};
ghost use Rattle.kernel_copy.specs.Outcomes.{outcome_told, outcome_of};
ghost use Rattle.kernel_copy.specs.Ran.{ran_told, ran_as};
ghost use Rattle.kernel_copy.specs.Segmentwise.{segment_end, own_count};
ghost use Rattle.branch_workers.specs.Layout.{end_key, key_at};
ghost use Rattle.branch_workers.specs.Workers.{own_of};
ghost use Rattle.branch_workers.specs.Runs.{IsPassed, IsShelfOf, HasStates, Remains, run_at_end, run_at_start};

use crate::found::wait_for;
use crate::grid::{continue_to, pass_grid};
use crate::shift::Shift;
use checkpoint_shelf::{Begun, Key, Shelf, ShelfSeat};
use kernel_copy::{
    Checkpoint, Course, Kept, Outcome, Ran, go_on, kept_end, number_of_end, outcome_at,
};
use kernel_core::Kernel;
use market_types::{Memory, Trace};
use outside::{Gate, Ledger, Steps};
use std::sync::{Arc, Wait};

// A kernel as it is at the end of a segment that isn't its branch's last.
fn end_of<R: Wait, G>(
    rt: &R,
    shift: &Shift<'_, G>,
    seat: &mut ShelfSeat<Checkpoint>,
    segment: u32,
) -> Result<Kernel, Memory>
    requires seat { seat.old.shelf ≡ Some shift.now.shelf.now }
    requires shelf { IsShelfOf shift.now.course.now.value shift.now.stride shift.now.shelf.now }
    requires segment { segment < length (segments_in shift.now.course.now.value.plan) }
    requires unfinished { segment < last_of shift.now.course.now.value.plan.branches (segment_at shift.now.course.now.value.plan segment).branch }
    ensures same { seat.new.shelf ≡ seat.old.shelf }
    ensures stays { Stays seat.old.view seat.new.view }
    ensures turns { seat.new.view.turns ≡ seat.old.view.turns }
    ensures state { IfOk result (λ k. k ≡ (segment_end shift.now.course.now.value.opening shift.now.course.now.value.plan (segment_at shift.now.course.now.value.plan segment)).state) }
    ensures found { OnOk result (is_in (end_key shift.now.course.now.value.plan segment) seat.new.view.found ≡ true) }
{
    let stop = shift.course.segment(segment).stop;
    let event = number_of_end(stop);
    let Ok(end) = wait_for(rt, shift.shelf, seat, Key { segment, event }) else {
        return Err(Memory);
    };
    let kernel = end.resume(shift.alloc);
    drop(end);
    kernel
}

// The kernel at the start of a segment, which is the opening's or that of its parent's end, once the branch's edits were made where
// the segment is its branch's first. They are entered.
fn kernel_at_start<R: Wait, G>(
    rt: &R,
    shift: &Shift<'_, G>,
    seat: &mut ShelfSeat<Checkpoint>,
    segment: u32,
    trace: &mut Trace,
) -> Result<Kernel, Memory>
    requires seat { seat.old.shelf ≡ Some shift.now.shelf.now }
    requires shelf { IsShelfOf shift.now.course.now.value shift.now.stride shift.now.shelf.now }
    requires segment { segment < length (segments_in shift.now.course.now.value.plan) }
    requires empty { trace.old.list ≡ [] }
    ensures same { seat.new.shelf ≡ seat.old.shelf }
    ensures stays { Stays seat.old.view seat.new.view }
    ensures turns { seat.new.view.turns ≡ seat.old.view.turns }
    ensures state { IfOk result (λ k. record { state = k; entries = trace.new.list } ≡ run_at_start shift.now.course.now.value segment) }
    ensures timely { All IsTimely trace.new.list }
    ensures fits { IfOk result (λ k. Fits shift.now.course.now.value.opening k) }
    ensures found { OnOk result ((q : ℕ) → (segment_at shift.now.course.now.value.plan segment).parent ≡ Some q → is_in (end_key shift.now.course.now.value.plan q) seat.new.view.found ≡ true) }
{
    let course: &Course = shift.course;
    let g = course.segment(segment);
    match g.parent {
        None => Kernel::open(shift.alloc, course.opening()),
        Some(parent) => {
            let Ok(mut kernel) = end_of(rt, shift, seat, parent) else {
                return Err(Memory);
            };
            let Ok(()) = go_on(shift.alloc, course, g.branch, parent, &mut kernel, trace) else {
                drop(kernel);
                return Err(Memory);
            };
            Ok(kernel)
        }
    }
}

// Makes a segment's own events, of whose entries it keeps what is to be kept, and puts copies of the states at the numbers of
// its grid on the shelf.
fn advance<R: Wait, G, L: Ledger>(
    rt: &R,
    shift: &Shift<'_, G>,
    seat: &mut ShelfSeat<Checkpoint>,
    segment: u32,
    steps: &mut Steps<L>,
) -> Result<Ran, Memory>
    requires seat { seat.old.shelf ≡ Some shift.now.shelf.now }
    requires shelf { IsShelfOf shift.now.course.now.value shift.now.stride shift.now.shelf.now }
    requires segment { segment < length (segments_in shift.now.course.now.value.plan) }
    requires claim { 0 < times segment seat.old.view.claims }
    requires turns { seat.old.view.turns ≡ [] }
    requires count { steps.old ≤ 2 ^ 63 }
    ensures same { seat.new.shelf ≡ seat.old.shelf }
    ensures stays { Stays seat.old.view seat.new.view }
    ensures turns { seat.new.view.turns ≡ [] }
    ensures ran { IfOk result (λ x. ran_told x ≡ ran_as shift.now.keep (run_at_end shift.now.course.now.value segment)) }
    ensures fits { IfOk result (λ x. Fits shift.now.course.now.value.opening x.kernel) }
    ensures found { OnOk result ((q : ℕ) → (segment_at shift.now.course.now.value.plan segment).parent ≡ Some q → is_in (end_key shift.now.course.now.value.plan q) seat.new.view.found ≡ true) }
    ensures grid { OnOk result ((e : ℕ) → is_in (key_at segment e) shift.now.shelf.now.plan.grid ≡ true → is_sole shift.now.shelf.now.plan (key_at segment e) ≡ true → IsPassed shift.now.course.now.value segment e → is_in (key_at segment e) seat.new.view.known ≡ true) }
    ensures rose { OnOk result (steps.new ≡ steps.old + own_of shift.now.course.now.value segment) }
    ensures most { steps.new ≤ steps.old + own_of shift.now.course.now.value segment }
    ensures least { steps.old ≤ steps.new }
{
    shift.course.know_course();
    let most = shift.course.opening().limit;
    let mut entries = Trace::new(shift.alloc);
    let Ok(kernel) = kernel_at_start(rt, shift, seat, segment, &mut entries) else {
        drop(entries);
        return Err(Memory);
    };
    let Ok(kept) = Kept::of(shift.alloc, shift.keep, entries) else {
        drop(kernel);
        return Err(Memory);
    };
    let mut ran = Ran { kept, kernel };
    let Ok(()) = pass_grid(shift, seat, segment, &mut ran, steps) else {
        drop(ran);
        return Err(Memory);
    };
    let Ok(()) = continue_to(shift, segment, most, &mut ran, steps) else {
        drop(ran);
        return Err(Memory);
    };
    Ok(ran)
}

// Puts a checkpoint on the shelf, where it isn't there yet.
fn shelve(shelf: &Shelf<Checkpoint>, seat: &mut ShelfSeat<Checkpoint>, end: Arc<Checkpoint>)
    requires seat { seat.old.shelf ≡ Some shelf.now }
    requires course { end.value.course ≡ shelf.now.course }
    requires claim { 0 < times end.value.key.segment seat.old.view.claims }
    requires turns { seat.old.view.turns ≡ [] }
    requires place { IsSome (place_of shelf.now.plan end.value.key) }
    requires sole { is_sole shelf.now.plan end.value.key ≡ true }
    ensures same { seat.new.shelf ≡ seat.old.shelf }
    ensures stays { Stays seat.old.view seat.new.view }
    ensures turns { seat.new.view.turns ≡ [] }
    ensures known { is_in end.value.key seat.new.view.known ≡ true }
{
    let key = end.key();
    match shelf.begin(seat, key) {
        Begun::Turn(turn) => shelf.publish(seat, turn, end),
        Begun::Taken(_) => drop(end),
    }
}

// Puts a segment's end on the shelf, unless the segment is its branch's last.
fn shelve_end<G>(
    shift: &Shift<'_, G>,
    seat: &mut ShelfSeat<Checkpoint>,
    segment: u32,
    kernel: &Kernel,
) -> Result<(), Memory>
    requires seat { seat.old.shelf ≡ Some shift.now.shelf.now }
    requires shelf { IsShelfOf shift.now.course.now.value shift.now.stride shift.now.shelf.now }
    requires segment { segment < length (segments_in shift.now.course.now.value.plan) }
    requires claim { 0 < times segment seat.old.view.claims }
    requires turns { seat.old.view.turns ≡ [] }
    requires state { kernel.now ≡ (segment_end shift.now.course.now.value.opening shift.now.course.now.value.plan (segment_at shift.now.course.now.value.plan segment)).state }
    ensures same { seat.new.shelf ≡ seat.old.shelf }
    ensures stays { Stays seat.old.view seat.new.view }
    ensures turns { seat.new.view.turns ≡ [] }
    ensures known { OnOk result (segment < last_of shift.now.course.now.value.plan.branches (segment_at shift.now.course.now.value.plan segment).branch → is_in (end_key shift.now.course.now.value.plan segment) seat.new.view.known ≡ true) }
{
    let Some(end) = kept_end(shift.alloc, shift.course, segment, kernel)? else {
        return Ok(());
    };
    shelve(shift.shelf, seat, end);
    Ok(())
}

/// Runs a segment that the seat claimed, from the end of its parent that the shelf keeps or is to keep, puts its end on
/// the shelf where others go on from it, and counts it: the outcome is the segment's own, with what is to be kept of its
/// entries, and the counter rises by the segment's own events. On its way it puts copies of the states at the multiples of
/// the stride between the segment's start and its stop on the shelf, where they have places that may be written: of those
/// that the run passes, also where start or stop is a time.
///
/// The gate is passed before the first step. It may wait.
///
/// # Errors
/// Want of memory alone. The counter then rose by at most the segment's own events, and the seat's count is as it was.
pub fn run_segment<R: Wait, G: Gate, L: Ledger>(
    rt: &R,
    shift: &Shift<'_, G>,
    seat: &mut ShelfSeat<Checkpoint>,
    worker: u32,
    segment: u32,
    steps: &mut Steps<L>,
) -> Result<Outcome, Memory>
    requires seat { seat.old.shelf ≡ Some shift.now.shelf.now }
    requires shelf { IsShelfOf shift.now.course.now.value shift.now.stride shift.now.shelf.now }
    requires segment { segment < length (segments_in shift.now.course.now.value.plan) }
    requires claim { 0 < times segment seat.old.view.claims }
    requires more { seat.old.view.counts < length seat.old.view.claims }
    requires turns { seat.old.view.turns ≡ [] }
    requires count { steps.old + own_count shift.now.course.now.value.opening shift.now.course.now.value.plan (segment_at shift.now.course.now.value.plan segment) < 2 ^ 64 }
    ensures same { seat.new.shelf ≡ seat.old.shelf }

    // What the segment's run tells, and how many steps it took.
    ensures outcome { IfOk result (λ x. outcome_told x ≡ outcome_of shift.now.course.now.value shift.now.keep segment) }
    ensures rose { OnOk result (steps.new ≡ steps.old + own_count shift.now.course.now.value.opening shift.now.course.now.value.plan (segment_at shift.now.course.now.value.plan segment)) }
    ensures most { steps.new ≤ steps.old + own_count shift.now.course.now.value.opening shift.now.course.now.value.plan (segment_at shift.now.course.now.value.plan segment) }
    ensures least { steps.old ≤ steps.new }

    // The ends from which and to which it ran, the states on its way, and one claim more that is counted.
    ensures states { OnOk result (HasStates shift.now.course.now.value shift.now.shelf.now.plan segment seat.new.view) }
    ensures counted { OnOk result (seat.new.view.counts ≡ seat.old.view.counts + 1) }
    ensures uncounted { OnErr result (seat.new.view.counts ≡ seat.old.view.counts) }

    // What stays, after want of memory too.
    ensures remains { Remains seat.old.view seat.new.view }
    ensures turns { seat.new.view.turns ≡ [] }
{
    shift.course.know_course();
    shift.gate.pass(worker, segment);
    let mut own = steps.split();
    let made = advance(rt, shift, seat, segment, &mut own);
    steps.join(own);
    let Ok(ran) = made else {
        return Err(Memory);
    };
    let Ok(()) = shelve_end(shift, seat, segment, &ran.kernel) else {
        drop(ran);
        return Err(Memory);
    };
    let Ok(outcome) = outcome_at(shift.alloc, shift.course.opening(), segment, ran) else {
        return Err(Memory);
    };
    shift.shelf.count(seat);
    Ok(outcome)
}
