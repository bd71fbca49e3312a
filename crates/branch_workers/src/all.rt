//! All segments of a course by workers.

ghost use Rattle.std.specs.Prelude.{◌≡◌, ℕ, ◌+◌, ◌<◌, ◌≤◌, ◌^◌, All, true, false, IfOk, OnOk, length, map, sum_by, slice_index_or};
ghost use Rattle.branch_tree.specs.Segments.{segments_in};
ghost use Rattle.checkpoint_shelf.specs.Seats.{NewFrom};
ghost use Rattle.kernel_copy.specs.Outcomes.{outcome_told, outcomes_before};
ghost use Rattle.kernel_copy.specs.Segmentwise.{distinct};
ghost use Rattle.branch_workers.specs.Layout.{layout};
ghost use Rattle.branch_workers.specs.Runs.{IsShelfOf};
ghost use Rattle.branch_workers.specs.Workers.{IsAtWork, HasEnded, HasFinished, IsHandedBack, RanOnce, own_of};

use crate::gather::{Back, gather};
use crate::layout::open_shelf;
use crate::order::{empty_slots, in_order, place_all};
use crate::shift::Shift;
use crate::staff::{first_lanes, staff};
use crate::worker::{Worker, run_worker};
use branch_deques::Room;
use checkpoint_shelf::{ClosedShelf, Shelf, ShelfSeat};
use kernel_copy::{Checkpoint, Course, Keep, Outcome};
use market_types::Memory;
use outside::{Gate, Ledger, Steps};
use std::alloc::Global;
use std::marker::Brand;
use std::sync::{Arc, Wait};
use std::thread;
use std::thread::Threads;

/// How workers go through a course.
#[derive(Clone, Copy)]
pub struct Setup {
    /// The states at its multiples are kept on the way of each segment. At least 1.
    pub stride: u32,
    /// How many places the shelf has for these states, at most 128.
    pub places: u32,
    /// What is to be kept of the entries of each segment.
    pub keep: Keep,
    /// How many workers, 1 to 64.
    pub workers: u32,
}

/// What workers did of a course.
#[derive(Drop)]
pub struct Worked {
    /// The outcomes in order of segment.
    pub outcomes: Vec<Outcome>,
    /// The shelf, on which the end of each segment stands from which others go on, and states of the grid.
    pub shelf: ClosedShelf<Checkpoint>,
}

// Lets each worker work, in a thread of its own where one can be made.
fn run_all<R: Threads + Wait + Sync, G: Gate + Sync, L: Ledger + Send, B: Room + Send>(
    rt: &R,
    shift: &Shift<'_, G>,
    workers: &mut [Worker<L, B>],
)
    requires shelf { IsShelfOf shift.now.course.now.value shift.now.stride shift.now.shelf.now }
    requires room { B.room ≡ length (segments_in shift.now.course.now.value.plan) }
    requires some { 0 < length workers.old }
    requires work { All (λ w. IsAtWork shift.now.course.now.value shift.now.keep shift.now.shelf.now w.number w.seat w.steps w.outcomes.items w.lane.own.view.pushed) workers.old }
    requires finished { All (λ w. w.finished ≡ false) workers.old }
    ensures numbers { (i : ℕ) (d : _) → i < length workers.old → (slice_index_or workers.new i d).number ≡ (slice_index_or workers.old i d).number }
    ensures ended { All (λ w. HasEnded shift.now.course.now.value shift.now.shelf.now w.number w.seat w.steps) workers.new }
    ensures finished { All (λ w. w.finished ≡ true → HasFinished shift.now.course.now.value shift.now.keep shift.now.shelf.now.plan w.seat.view w.outcomes.items) workers.new }
    ensures counted { All (λ w. w.finished ≡ true → w.steps ≡ sum_by (own_of shift.now.course.now.value) w.seat.view.claims) workers.new }
{
    let count = workers.len();
    thread::for_each_mut(
        rt,
        workers,
        count,
        &|_, worker| run_worker(rt, shift, worker),
    );
}

// Lets a worker for each of these seats work, in lanes that have room for all segments: what they hand back, and how many steps
// they counted.
fn run_seated<R: Threads + Wait + Sync, G: Gate + Sync, L: Ledger + Send, B: Room + Send>(
    rt: &R,
    shift: &Shift<'_, G>,
    seats: Vec<ShelfSeat<Checkpoint>>,
    count: u32,
) -> Result<(Back, Steps<L>), Memory>
    requires shelf { IsShelfOf shift.now.course.now.value shift.now.stride shift.now.shelf.now }
    requires room { count ≡ B.room }
    requires count { count ≡ length (segments_in shift.now.course.now.value.plan) }
    requires some { (0 < length seats.items) × (length seats.items ≤ 64) }
    requires all { length seats.items ≡ shift.now.shelf.now.seats }
    requires new { NewFrom shift.now.shelf.now 0 seats.items }
    ensures { IfOk result (λ r. IsHandedBack shift.now.course.now.value shift.now.keep shift.now.shelf.now r.0.seats.items (map (λ v. v.items) r.0.outcomes.items) r.0.finished r.1) }
{
    shift.course.know_course();
    let workers = seats.len() as u32;
    let Ok(lanes) = first_lanes::<B>(shift.alloc, shift.course, workers, count) else {
        drop(seats);
        return Err(Memory);
    };
    let Ok(mut back) = Back::new(shift.alloc, workers) else {
        drop(lanes);
        drop(seats);
        return Err(Memory);
    };
    let Ok(mut workers) = staff::<L, B>(shift.alloc, seats, lanes) else {
        drop(back);
        return Err(Memory);
    };
    run_all(rt, shift, workers.as_mut_slice());
    let steps = gather(&mut back, workers);
    Ok((back, steps))
}

/// Runs each segment of a course once, by as many workers as the setup says, each in a thread of its own where one can be made: the
/// outcomes in order of segment, and the counter rises by the events of all segments.
///
/// Each segment was claimed once, by one of the workers, and run by it from the end of its parent that the shelf keeps; none
/// is left. The shelf has the end of each segment from which others go on. It may wait.
///
/// The shelf has as many places more as the setup says, for the states at the multiples of the stride between the start and the
/// stop of each segment, which have the places in turn. In place of a start that is a time stands 0 there, and in place of
/// such a stop the limit of events. The state at each number that its segment passed stands there, if its place is no
/// other's: so it is of all where there are as many places as multiples.
///
/// Each outcome has what is to be kept of its segment's entries. With `Keep::Entries` a worker packs each event into columns and
/// adds it to their sums; with `Keep::Frames` it turns each into bytes as it is made; both are held until the outcomes are let
/// go. With `Keep::Tallied` it counts those bytes and lets them go, and with `Keep::Nothing` no entry is held at all.
///
/// # Errors
/// Want of memory alone. The counter then rose by no more.
pub fn work<R: Threads + Wait + Sync, G: Gate + Sync, L: Ledger + Send>(
    rt: &R,
    alloc: Global,
    course: &Arc<Course>,
    setup: Setup,
    gate: &G,
    steps: &mut Steps<L>,
) -> Result<Worked, Memory>
    requires stride { 0 < setup.stride }
    requires places { setup.places ≤ 128 }
    requires workers { (0 < setup.workers) × (setup.workers ≤ 64) }
    requires steps { steps.old + distinct course.now.value.opening course.now.value.plan < 2 ^ 64 }
    ensures outcomes { IfOk result (λ w. map outcome_told w.outcomes.items ≡ outcomes_before course.now.value setup.keep (length (segments_in course.now.value.plan))) }
    ensures rose { OnOk result (steps.new ≡ steps.old + distinct course.now.value.opening course.now.value.plan) }
    ensures most { steps.new ≤ steps.old + distinct course.now.value.opening course.now.value.plan }
    ensures least { steps.old ≤ steps.new }

    // The shelf is the course's; each segment is Taken by one of the workers and stands once among their claims, and nothing
    // else stands there; and each end from which others go on stands on the shelf, and each state of the grid that was passed
    // and has its place alone.
    ensures shelf { IfOk result (λ w. (w.shelf.plan ≡ layout course.now.value.plan setup.stride setup.places) × (w.shelf.course ≡ course.now.value)) }
    ensures once { IfOk result (λ w. RanOnce course.now.value (layout course.now.value.plan setup.stride setup.places) setup.workers w.shelf.system) }
{
    let count = course.plan().segments().len() as u32;
    let Ok((shelf, seats)) = open_shelf(alloc, course, setup.stride, setup.places, setup.workers)
    else {
        return Err(Memory);
    };
    let Ok(mut slots) = empty_slots(alloc, count) else {
        drop(seats);
        drop(shelf);
        return Err(Memory);
    };
    let shift = Shift {
        alloc,
        course,
        shelf: &shelf,
        stride: setup.stride,
        keep: setup.keep,
        gate,
    };
    let Ok((back, counted)) = run_seated::<R, G, L, Brand>(rt, &shift, seats, count) else {
        drop(slots);
        drop(shelf);
        return Err(Memory);
    };
    let Back {
        seats,
        outcomes,
        finished,
    } = back;
    let shelf = shelf.close(seats);
    steps.join(counted);
    if !finished {
        drop(shelf);
        drop(outcomes);
        drop(slots);
        return Err(Memory);
    }
    place_all(&mut slots, outcomes);
    let Ok(outcomes) = in_order(alloc, slots) else {
        drop(shelf);
        return Err(Memory);
    };
    Ok(Worked { outcomes, shelf })
}
