//! A worker, which takes segments from lanes until all are done.

ghost use Rattle.std.specs.Prelude.{◌≡◌, ◌⊎◌, ℕ, ◌+◌, ◌<◌, ◌≤◌, ◌^◌, ◌++◌, ◌∷◌, [], All, Some, true, false, IfSome, IsTrue, IsFalse, MatchOption, length, sum_by};
ghost use Rattle.branch_tree.specs.Segments.{segments_in, children_of};
ghost use Rattle.shelf_core.specs.After.{having_stopped};
ghost use Rattle.branch_deques.specs.Lanes.{Took};
ghost use Rattle.branch_deques.specs.Told.{Stole};
ghost use Rattle.branch_workers.specs.Runs.{IsShelfOf};
ghost use Rattle.branch_workers.specs.Workers.{IsAtWork, HasEnded, HasFinished, own_of};

use crate::order::add;
use crate::rest::rest;
use crate::segment::run_segment;
use crate::shift::Shift;
use branch_deques::{Lane, Room};
use checkpoint_shelf::{Shelf, ShelfSeat};
use kernel_copy::{Checkpoint, Course, Outcome};
use outside::{Gate, Ledger, Steps};
use std::sync::Wait;

// What one worker has.
pub(crate) struct Worker<L: Ledger, B: Room> {
    pub(crate) number: u32,
    pub(crate) seat: ShelfSeat<Checkpoint>,
    pub(crate) lane: Lane<B>,
    pub(crate) steps: Steps<L>,
    // The outcomes of the segments that the seat claimed, in the order of its claims.
    pub(crate) outcomes: Vec<Outcome>,
    // Whether it ended since all segments are done.
    pub(crate) finished: bool,
}

// Pushes segments on a lane, in order.
fn push_all<B: Room>(lane: &mut Lane<B>, segments: &[u32])
    requires few { length lane.old.own.view.pushed + length segments.now ≤ B.room }
    requires below { All (λ s. s < B.room) segments.now }
    ensures { lane.new.own.view.pushed ≡ lane.old.own.view.pushed ++ segments.now }
{
    for segment in segments.iter() {
        lane.push(*segment);
    }
}

// The next segment of the own lane, or else of another's: one that is the answer was taken, and nothing else was.
fn next_segment<R: Wait, B: Room>(rt: &R, lane: &mut Lane<B>) -> Option<u32>
    ensures below { IfSome result (λ segment. segment < B.room) }
    ensures pushed { lane.new.own.view.pushed ≡ lane.old.own.view.pushed }
    ensures taken { MatchOption result
        ((lane.new.own.view ≡ lane.old.own.view) × (lane.new.others ≡ lane.old.others))
        (λ segment.
        (Took B.room (segment ∷ []) lane.old.own.view lane.new.own.view × (lane.new.others ≡ lane.old.others))
        ⊎ ((lane.new.own.view ≡ lane.old.own.view) × Stole B.room segment lane.old.others lane.new.others)) }
{
    if let Some(segment) = lane.pop() {
        return Some(segment);
    }
    lane.steal_round(rt)
}

// Pushes the segments that go on from a segment.
fn push_children<B: Room>(course: &Course, lane: &mut Lane<B>, segment: u32)
    requires segment { segment < length (segments_in course.now.plan) }
    requires few { length lane.old.own.view.pushed + length (children_of course.now.plan segment) ≤ B.room }
    requires below { All (λ s. s < B.room) (children_of course.now.plan segment) }
    ensures { lane.new.own.view.pushed ≡ lane.old.own.view.pushed ++ children_of course.now.plan segment }
{
    push_all(lane, course.plan().children_of(segment));
}

// Tells the other workers to stop.
fn stop_others(shelf: &Shelf<Checkpoint>, seat: &mut ShelfSeat<Checkpoint>)
    requires { seat.old.shelf ≡ Some shelf.now }
    ensures same { seat.new.shelf ≡ seat.old.shelf }
    ensures stopped { seat.new.view ≡ having_stopped seat.old.view }
{
    shelf.stop(seat);
}

// Runs a segment that no seat has claimed, and pushes those that go on from it. The answer says whether there was memory; if
// not, the others are told to stop.
fn try_segment<R: Wait, G: Gate, L: Ledger, B: Room>(
    rt: &R,
    shift: &Shift<'_, G>,
    worker: &mut Worker<L, B>,
    segment: u32,
) -> bool
    requires shelf { IsShelfOf shift.now.course.now.value shift.now.stride shift.now.shelf.now }
    requires room { B.room ≡ length (segments_in shift.now.course.now.value.plan) }
    requires segment { segment < B.room }
    requires work { IsAtWork shift.now.course.now.value shift.now.keep shift.now.shelf.now worker.old.number worker.old.seat worker.old.steps worker.old.outcomes.items worker.old.lane.own.view.pushed }
    ensures number { worker.new.number ≡ worker.old.number }
    ensures finished { worker.new.finished ≡ worker.old.finished }
    ensures work { IsTrue result → IsAtWork shift.now.course.now.value shift.now.keep shift.now.shelf.now worker.new.number worker.new.seat worker.new.steps worker.new.outcomes.items worker.new.lane.own.view.pushed }
    ensures ended { IsFalse result → HasEnded shift.now.course.now.value shift.now.shelf.now worker.new.number worker.new.seat worker.new.steps }
    ensures stopped { IsFalse result → worker.new.seat.view.stopped ≡ true }
{
    if !shift.shelf.claim(&mut worker.seat, segment) {
        return true;
    }
    let number = worker.number;
    let Ok(outcome) = run_segment(
        rt,
        shift,
        &mut worker.seat,
        number,
        segment,
        &mut worker.steps,
    ) else {
        stop_others(shift.shelf, &mut worker.seat);
        return false;
    };
    let Ok(_) = add(&mut worker.outcomes, outcome) else {
        stop_others(shift.shelf, &mut worker.seat);
        return false;
    };
    push_children(shift.course, &mut worker.lane, segment);
    true
}

// Whether a worker that found no segment ends: since it is told to stop, or since all are done, which it notes. A stop that its
// seat has seen ends it, and so does the number of all segments done.
fn ends<G, L: Ledger, B: Room>(shift: &Shift<'_, G>, worker: &mut Worker<L, B>) -> bool
    requires work { IsAtWork shift.now.course.now.value shift.now.keep shift.now.shelf.now worker.old.number worker.old.seat worker.old.steps worker.old.outcomes.items worker.old.lane.own.view.pushed }
    requires finished { worker.old.finished ≡ false }
    ensures number { worker.new.number ≡ worker.old.number }
    ensures work { IsAtWork shift.now.course.now.value shift.now.keep shift.now.shelf.now worker.new.number worker.new.seat worker.new.steps worker.new.outcomes.items worker.new.lane.own.view.pushed }
    ensures done { worker.new.finished ≡ true → length (segments_in shift.now.course.now.value.plan) ≤ worker.new.seat.view.done_seen }
    ensures goes_on { IsFalse result → worker.new.finished ≡ false }
    ensures stopped { IsTrue result → worker.new.finished ≡ false → worker.new.seat.view.stopped ≡ true }
    ensures seen { worker.new.seat.view.stopped ≡ true → IsTrue result }
    ensures over { worker.new.seat.view.done_seen ≡ length (segments_in shift.now.course.now.value.plan) → IsTrue result }
{
    let count = shift.course.plan().segments().len();
    let progress = shift.shelf.progress(&mut worker.seat);
    if progress.stopped {
        return true;
    }
    let are_all_done = progress.done as usize == count;
    worker.finished = are_all_done;
    are_all_done
}

// What a worker does: it runs the segments of its lane and of the others', until all are done or it is told to stop.
pub(crate) fn run_worker<R: Wait, G: Gate, L: Ledger, B: Room>(
    rt: &R,
    shift: &Shift<'_, G>,
    worker: &mut Worker<L, B>,
)
    requires shelf { IsShelfOf shift.now.course.now.value shift.now.stride shift.now.shelf.now }
    requires room { B.room ≡ length (segments_in shift.now.course.now.value.plan) }
    requires work { IsAtWork shift.now.course.now.value shift.now.keep shift.now.shelf.now worker.old.number worker.old.seat worker.old.steps worker.old.outcomes.items worker.old.lane.own.view.pushed }
    requires finished { worker.old.finished ≡ false }
    ensures number { worker.new.number ≡ worker.old.number }
    ensures ended { HasEnded shift.now.course.now.value shift.now.shelf.now worker.new.number worker.new.seat worker.new.steps }
    ensures finished { worker.new.finished ≡ true → HasFinished shift.now.course.now.value shift.now.keep shift.now.shelf.now.plan worker.new.seat.view worker.new.outcomes.items }
    ensures counted { worker.new.finished ≡ true → worker.new.steps ≡ sum_by (own_of shift.now.course.now.value) worker.new.seat.view.claims }
    ensures stopped { worker.new.finished ≡ false → worker.new.seat.view.stopped ≡ true }
{
    for _ in rt.forever() {
        match next_segment(rt, &mut worker.lane) {
            Some(segment) => {
                if !try_segment(rt, shift, worker, segment) {
                    return;
                }
            }
            None => {
                if ends(shift, worker) {
                    return;
                }
                rest(rt);
            }
        }
    }
}
