//! States at the numbers of a segment's grid.

ghost use Rattle.std.specs.Prelude.{◌≡◌, ℕ, ◌+◌, ◌∷◌, ◌<◌, ◌≤◌, ◌^◌, [], true, false, Some, IfOk, OnOk, IsSome, length};
ghost use Rattle.branch_tree.specs.Segments.{segments_in, segment_at};
ghost use Rattle.shelf_core.specs.Made.{Stays};
ghost use Rattle.shelf_core.specs.Plan.{place_of, is_in, is_sole};
ghost use Rattle.shelf_core.specs.Views.{times};
ghost use Rattle.kernel_copy.specs.Courses.{IsKeyOf, state_at};
ghost use Rattle.kernel_copy.specs.Ran.{ran_told, ran_as};
ghost use Rattle.kernel_copy.specs.Segmentwise.{from_count};
ghost use Rattle.kernel_copy.specs.UntilStop.{until_part};
ghost use Rattle.branch_workers.specs.Layout.{key_at};
ghost use Rattle.branch_workers.specs.Runs.{IsPassed, IsShelfOf, IsUnderway, run_at_end, run_at_start};

use crate::layout::{start_number, stop_number};
use crate::shift::Shift;
use checkpoint_shelf::{Begun, Key, ShelfSeat, Turn};
use kernel_copy::{Checkpoint, Ran};
use kernel_core::Kernel;
use market_types::Memory;
use outside::{Ledger, Steps};

// Gives the place of a turn a copy of the kernel. Where there is no memory for it, the turn is given back.
fn fill<G>(
    shift: &Shift<'_, G>,
    seat: &mut ShelfSeat<Checkpoint>,
    turn: Turn,
    key: Key,
    kernel: &Kernel,
) -> Result<(), Memory>
    requires seat { seat.old.shelf ≡ Some shift.now.shelf.now }
    requires course { shift.now.shelf.now.course ≡ shift.now.course.now.value }
    requires turn { turn ≡ key }
    requires turns { (place : ℕ) × (seat.old.view.turns ≡ (place, key) ∷ []) }
    requires key { IsKeyOf shift.now.course.now.value key }
    requires state { kernel.now ≡ state_at shift.now.course.now.value key }
    ensures same { seat.new.shelf ≡ seat.old.shelf }
    ensures stays { Stays seat.old.view seat.new.view }
    ensures turns { seat.new.view.turns ≡ [] }
    ensures known { OnOk result (is_sole shift.now.shelf.now.plan key ≡ true → is_in key seat.new.view.known ≡ true) }
{
    match Checkpoint::keep(shift.alloc, shift.course, key, kernel) {
        Ok(copy) => {
            shift.shelf.publish(seat, turn, copy);
            Ok(())
        }
        Err(refused) => {
            shift.shelf.abandon(seat, turn);
            Err(refused)
        }
    }
}

// Puts a copy of a kernel that stands at a number of the grid on the shelf, where its place may be written.
fn shelve_copy<G>(
    shift: &Shift<'_, G>,
    seat: &mut ShelfSeat<Checkpoint>,
    key: Key,
    kernel: &Kernel,
) -> Result<(), Memory>
    requires seat { seat.old.shelf ≡ Some shift.now.shelf.now }
    requires course { shift.now.shelf.now.course ≡ shift.now.course.now.value }
    requires claim { 0 < times key.segment seat.old.view.claims }
    requires turns { seat.old.view.turns ≡ [] }
    requires place { IsSome (place_of shift.now.shelf.now.plan key) }
    requires key { IsKeyOf shift.now.course.now.value key }
    requires state { kernel.now ≡ state_at shift.now.course.now.value key }
    requires events { kernel.now.events ≡ key.event }
    ensures same { seat.new.shelf ≡ seat.old.shelf }
    ensures stays { Stays seat.old.view seat.new.view }
    ensures turns { seat.new.view.turns ≡ [] }
    ensures known { OnOk result (is_sole shift.now.shelf.now.plan key ≡ true → is_in key seat.new.view.known ≡ true) }
{
    match shift.shelf.begin(seat, key) {
        Begun::Taken(_) => Ok(()),
        Begun::Turn(turn) => fill(shift, seat, turn, key, kernel),
    }
}

// Lets a run of a segment go on to the segment's stop, and to no more than so many events.
pub(crate) fn continue_to<G, L: Ledger>(
    shift: &Shift<'_, G>,
    segment: u32,
    most: u32,
    ran: &mut Ran,
    steps: &mut Steps<L>,
) -> Result<(), Memory>
    requires segment { segment < length (segments_in shift.now.course.now.value.plan) }
    requires most { most ≤ shift.now.course.now.value.opening.limit }
    requires underway { IsUnderway shift.now.course.now.value shift.now.keep segment most (ran_told ran.old) }
    requires count { steps.old + shift.now.course.now.value.opening.limit < 2 ^ 64 }
    ensures ran { OnOk result (ran_told ran.new ≡ ran_as shift.now.keep (until_part shift.now.course.now.value.opening (segment_at shift.now.course.now.value.plan segment).stop most (run_at_start shift.now.course.now.value segment))) }
    ensures underway { OnOk result (IsUnderway shift.now.course.now.value shift.now.keep segment most (ran_told ran.new)) }
    ensures few { ran.new.kernel.events ≤ (run_at_end shift.now.course.now.value segment).state.events }
    ensures ticks { steps.new + ran.old.kernel.events ≡ steps.old + ran.new.kernel.events }
    ensures grows { ran.old.kernel.events ≤ ran.new.kernel.events }
{
    let stop = shift.course.segment(segment).stop;
    ran.run_to(shift.alloc, shift.course.opening(), stop, most, steps)
}

// Lets a run of a segment that began with fewer events go on to an event number that has a place on the shelf, and puts a
// copy of the state there, unless the run reached its stop or the state ended before: then the answer is false, and the run
// passes no later number either. Where the number has no place the run stays where it is.
fn pass<G, L: Ledger>(
    shift: &Shift<'_, G>,
    seat: &mut ShelfSeat<Checkpoint>,
    key: Key,
    ran: &mut Ran,
    steps: &mut Steps<L>,
) -> Result<bool, Memory>
    requires seat { seat.old.shelf ≡ Some shift.now.shelf.now }
    requires course { shift.now.shelf.now.course ≡ shift.now.course.now.value }
    requires claim { 0 < times key.segment seat.old.view.claims }
    requires turns { seat.old.view.turns ≡ [] }
    requires segment { key.segment < length (segments_in shift.now.course.now.value.plan) }
    requires begins { from_count shift.now.course.now.value.opening shift.now.course.now.value.plan (segment_at shift.now.course.now.value.plan key.segment) < key.event }
    requires within { key.event ≤ shift.now.course.now.value.opening.limit }
    requires underway { IsUnderway shift.now.course.now.value shift.now.keep key.segment key.event (ran_told ran.old) }
    requires count { steps.old + shift.now.course.now.value.opening.limit < 2 ^ 64 }
    ensures same { seat.new.shelf ≡ seat.old.shelf }
    ensures stays { Stays seat.old.view seat.new.view }
    ensures turns { seat.new.view.turns ≡ [] }
    ensures underway { OnOk result (IsUnderway shift.now.course.now.value shift.now.keep key.segment key.event (ran_told ran.new)) }
    ensures few { ran.new.kernel.events ≤ (run_at_end shift.now.course.now.value key.segment).state.events }
    ensures ticks { steps.new + ran.old.kernel.events ≡ steps.old + ran.new.kernel.events }
    ensures grows { ran.old.kernel.events ≤ ran.new.kernel.events }
    ensures known { OnOk result (is_sole shift.now.shelf.now.plan key ≡ true → IsPassed shift.now.course.now.value key.segment key.event → is_in key seat.new.view.known ≡ true) }
    ensures ended { IfOk result (λ on. on ≡ false → IsPassed shift.now.course.now.value key.segment key.event → ⊥) }
{
    if shift.shelf.place_of(key).is_none() {
        return Ok(true);
    }
    shift.course.know_course();
    let Ok(()) = continue_to(shift, key.segment, key.event, ran, steps) else {
        return Err(Memory);
    };
    if ran.kernel.events() != key.event {
        return Ok(false);
    }
    let Ok(()) = shelve_copy(shift, seat, key, &ran.kernel) else {
        return Err(Memory);
    };
    Ok(true)
}

// Lets a run of a segment that is at its beginning go on over the numbers of its grid that are above its events, and puts
// copies of the states there on the shelf.
pub(crate) fn pass_grid<G, L: Ledger>(
    shift: &Shift<'_, G>,
    seat: &mut ShelfSeat<Checkpoint>,
    segment: u32,
    ran: &mut Ran,
    steps: &mut Steps<L>,
) -> Result<(), Memory>
    requires seat { seat.old.shelf ≡ Some shift.now.shelf.now }
    requires shelf { IsShelfOf shift.now.course.now.value shift.now.stride shift.now.shelf.now }
    requires segment { segment < length (segments_in shift.now.course.now.value.plan) }
    requires claim { 0 < times segment seat.old.view.claims }
    requires turns { seat.old.view.turns ≡ [] }
    requires begins { ran.old.kernel.events ≡ from_count shift.now.course.now.value.opening shift.now.course.now.value.plan (segment_at shift.now.course.now.value.plan segment) }
    requires underway { IsUnderway shift.now.course.now.value shift.now.keep segment 0 (ran_told ran.old) }
    requires count { steps.old ≤ 2 ^ 63 }
    ensures same { seat.new.shelf ≡ seat.old.shelf }
    ensures stays { Stays seat.old.view seat.new.view }
    ensures turns { seat.new.view.turns ≡ [] }
    ensures underway { OnOk result (IsUnderway shift.now.course.now.value shift.now.keep segment shift.now.course.now.value.opening.limit (ran_told ran.new)) }
    ensures few { ran.new.kernel.events ≤ (run_at_end shift.now.course.now.value segment).state.events }
    ensures ticks { steps.new + ran.old.kernel.events ≡ steps.old + ran.new.kernel.events }
    ensures grows { ran.old.kernel.events ≤ ran.new.kernel.events }
    ensures known { OnOk result ((e : ℕ) → is_in (key_at segment e) shift.now.shelf.now.plan.grid ≡ true → is_sole shift.now.shelf.now.plan (key_at segment e) ≡ true → IsPassed shift.now.course.now.value segment e → is_in (key_at segment e) seat.new.view.known ≡ true) }
{
    let g = shift.course.segment(segment);
    let limit = shift.course.opening().limit;
    let start = start_number(g.start);
    let from = ran.kernel.events();
    let after = start.max(from);
    let first = after / shift.stride + 1;
    let stop = stop_number(limit, g.stop);
    let past = stop.div_ceil(shift.stride);
    for factor in first..past {
        let event = factor * shift.stride;
        let Ok(on) = pass(shift, seat, Key { segment, event }, ran, steps) else {
            return Err(Memory);
        };
        if !on {
            return Ok(());
        }
    }
    Ok(())
}
