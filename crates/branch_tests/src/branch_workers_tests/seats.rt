//! Two seats: one that never had the state from which its segment goes on, and one that meets the other's turn.

ghost use Rattle.std.specs.Prelude.{◌≡◌, ◌<◌, [], true, Some, IfSome, IsSome, length};
ghost use Rattle.branch_tree.specs.Segments.{segments_in};
ghost use Rattle.shelf_core.specs.Made.{Stays};
ghost use Rattle.shelf_core.specs.Plan.{place_of};
ghost use Rattle.shelf_core.specs.Views.{has_turn, times};
ghost use Rattle.checkpoint_shelf.specs.Seats.{NewFrom};
ghost use Rattle.branch_workers.specs.Runs.{IsShelfOf};

use super::{begins_with_an_edit, entries_of};
use crate::facts::equal;
use crate::small_course::three_branches as course;
use branch_tree::Stop;
use branch_workers::{Shift, open_shelf, run_segment};
use checkpoint_shelf::{Begun, Found, Key, PlaceWord, Shelf, ShelfSeat, Turn};
use kernel_copy::laws::segments_have_few_events;
use kernel_copy::{Checkpoint, Course, Keep, Outcome};
use outside::{Counted, OpenGate, Steps};
use std::alloc::Global;
use std::process::Abort;
use std::sync::{Arc, Wait};

// The two seats of a new shelf, in order of number.
fn two_new(
    shelf: &Shelf<Checkpoint>,
    mut seats: Vec<ShelfSeat<Checkpoint>>,
) -> Option<(ShelfSeat<Checkpoint>, ShelfSeat<Checkpoint>)>
    requires new { NewFrom shelf.now 0 seats.items }
    requires two { length seats.items ≡ 2 }
    ensures zero { IfSome result (λ both. (both.0.shelf ≡ Some shelf.now) × (both.0.view.counts ≡ length both.0.view.claims) × (both.0.view.turns ≡ [])) }
    ensures one { IfSome result (λ both. (both.1.shelf ≡ Some shelf.now) × (both.1.view.counts ≡ length both.1.view.claims) × (both.1.view.turns ≡ [])) }
{
    let _ = shelf;
    let Some(one) = seats.pop() else { return None };
    let Some(zero) = seats.pop() else { return None };
    Some((zero, one))
}

// A seat claims a segment and runs it, with a grid of stride 5: what came of it, and how many steps it counted.
fn claim_and_run<R: Wait>(
    rt: &R,
    alloc: Global,
    course: &Arc<Course>,
    shelf: &Shelf<Checkpoint>,
    seat: &mut ShelfSeat<Checkpoint>,
    segment: u32,
) -> (Option<Outcome>, u64)
    requires seat { seat.old.shelf ≡ Some shelf.now }
    requires shelf { IsShelfOf course.now.value 5 shelf.now }
    requires segment { segment < length (segments_in course.now.value.plan) }
    requires counts { seat.old.view.counts ≡ length seat.old.view.claims }
    requires turns { seat.old.view.turns ≡ [] }
    ensures same { seat.new.shelf ≡ seat.old.shelf }
{
    if !shelf.claim(seat, segment) {
        return (None, 0);
    }
    segments_have_few_events(course);
    let mut steps: Steps<Counted> = Steps::new();
    let shift = Shift {
        alloc,
        course,
        shelf,
        stride: 5,
        keep: Keep::Entries,
        gate: &OpenGate,
    };
    let ran = run_segment(rt, &shift, seat, 0, segment, &mut steps);
    let outcome = ran.ok();
    (outcome, steps.close())
}

// What two seats made of segments 0 and 2 of a course.
#[derive(Drop)]
struct Told {
    first: Option<Outcome>,
    first_ticks: u64,
    child: Option<Outcome>,
    child_ticks: u64,
}

// One seat runs a course's first segment, and another, which ran nothing before, the segment 2.
fn two_seats<R: Abort + Wait>(rt: &R, alloc: Global, course: &Arc<Course>) -> Told {
    let (shelf, seats) = open_shelf(alloc, course, 5, 1, 2).expect(rt, "memory");
    if course.plan().segments().len() < 3 {
        panic!(rt; "too few segments");
    }
    let (mut zero, mut one) = two_new(&shelf, seats).expect(rt, "two seats");
    let (first, first_ticks) = claim_and_run(rt, alloc, course, &shelf, &mut zero, 0);
    let (child, child_ticks) = claim_and_run(rt, alloc, course, &shelf, &mut one, 2);
    drop(zero);
    drop(one);
    drop(shelf);
    Told {
        first,
        first_ticks,
        child,
        child_ticks,
    }
}

// How many entries an outcome has, of which the first is an edit.
fn edited_entries(rt: &impl Abort, alloc: Global, outcome: &Outcome) -> Option<usize> {
    let entries = entries_of(outcome)?;
    if begins_with_an_edit(rt, alloc, entries) {
        Some(entries.len())
    } else {
        None
    }
}

#[test]
fn a_child_by_a_seat_without_the_parents_state(rt: HostRuntime) {
    let alloc = rt.alloc();
    let course = course(&rt, alloc, Stop::At(2));
    let told = two_seats(&rt, alloc, &course);
    let first = told.first.expect(&rt, "the first outcome");
    let child = told.child.expect(&rt, "the child's outcome");
    equal(&rt, (first.events, told.first_ticks), (2, 2));
    equal(&rt, (child.events, told.child_ticks), (6, 4));
    equal(&rt, edited_entries(&rt, alloc, &child), Some(5));
    drop(first);
    drop(child);
    drop(course);
}

// The word at which `begin` of a key gave a seat no turn; a turn is spent with no value.
fn refusal(
    shelf: &Shelf<Checkpoint>,
    seat: &mut ShelfSeat<Checkpoint>,
    key: Key,
) -> Option<PlaceWord>
    requires seat { seat.old.shelf ≡ Some shelf.now }
    requires claim { 0 < times key.segment seat.old.view.claims }
    requires place { IsSome (place_of shelf.now.plan key) }
    requires turns { seat.old.view.turns ≡ [] }
    ensures same { seat.new.shelf ≡ seat.old.shelf }
    ensures stays { Stays seat.old.view seat.new.view }
    ensures turns { seat.new.view.turns ≡ [] }
{
    match shelf.begin(seat, key) {
        Begun::Taken(word) => Some(word),
        Begun::Turn(turn) => {
            shelf.abandon(seat, turn);
            None
        }
    }
}

// A seat claims the segment of a key and takes the turn to write the key's place.
fn claim_and_begin(
    shelf: &Shelf<Checkpoint>,
    seat: &mut ShelfSeat<Checkpoint>,
    key: Key,
) -> Option<Turn>
    requires seat { seat.old.shelf ≡ Some shelf.now }
    requires segment { key.segment < shelf.now.plan.segments }
    requires place { IsSome (place_of shelf.now.plan key) }
    ensures same { seat.new.shelf ≡ seat.old.shelf }
    ensures turn { IfSome result (λ turn. has_turn turn seat.new.view.turns ≡ true) }
{
    if !shelf.claim(seat, key.segment) {
        return None;
    }
    match shelf.begin(seat, key) {
        Begun::Taken(_) => None,
        Begun::Turn(turn) => Some(turn),
    }
}

// What a seat made of the segment of a key, whose place another seat had the turn to write.
#[derive(Drop)]
struct Met {
    // The word at which it got no turn.
    word: Option<PlaceWord>,
    outcome: Option<Outcome>,
    ticks: u64,
}

// A seat claims the segment of a key, begins the key, and then runs the segment, with a grid of stride 5.
fn claim_meet_and_run<R: Wait>(
    rt: &R,
    alloc: Global,
    course: &Arc<Course>,
    shelf: &Shelf<Checkpoint>,
    seat: &mut ShelfSeat<Checkpoint>,
    key: Key,
) -> Option<Met>
    requires seat { seat.old.shelf ≡ Some shelf.now }
    requires shelf { IsShelfOf course.now.value 5 shelf.now }
    requires segment { key.segment < length (segments_in course.now.value.plan) }
    requires place { IsSome (place_of shelf.now.plan key) }
    requires counts { seat.old.view.counts ≡ length seat.old.view.claims }
    requires turns { seat.old.view.turns ≡ [] }
    ensures same { seat.new.shelf ≡ seat.old.shelf }
{
    if !shelf.claim(seat, key.segment) {
        return None;
    }
    let word = refusal(shelf, seat, key);
    segments_have_few_events(course);
    let mut steps: Steps<Counted> = Steps::new();
    let shift = Shift {
        alloc,
        course,
        shelf,
        stride: 5,
        keep: Keep::Entries,
        gate: &OpenGate,
    };
    let ran = run_segment(rt, &shift, seat, 1, key.segment, &mut steps);
    let outcome = ran.ok();
    Some(Met {
        word,
        outcome,
        ticks: steps.close(),
    })
}

// The word of a key's place, where the key's value isn't there.
fn word_without_value(
    shelf: &Shelf<Checkpoint>,
    seat: &mut ShelfSeat<Checkpoint>,
    key: Key,
) -> Option<PlaceWord>
    requires seat { seat.old.shelf ≡ Some shelf.now }
    requires place { IsSome (place_of shelf.now.plan key) }
    ensures same { seat.new.shelf ≡ seat.old.shelf }
{
    match shelf.find(seat, key) {
        Ok(Found::NotYet(word)) => Some(word),
        _ => None,
    }
}

// Two keys share the one place of a course's grid. One seat, which ran the course's first segment, has the turn to write the
// place for the first key while another begins the second key and runs its segment. Behind it stands the place's word once
// the turn was spent with no value.
fn beside_a_turn<R: Abort + Wait>(
    rt: &R,
    alloc: Global,
    course: &Arc<Course>,
    first: Key,
    second: Key,
) -> (Met, Option<PlaceWord>) {
    let (shelf, seats) = open_shelf(alloc, course, 5, 1, 2).expect(rt, "memory");
    let segments = course.plan().segments().len();
    if segments <= first.segment as usize || segments <= second.segment as usize {
        panic!(rt; "too few segments");
    }
    if shelf.place_of(first).is_none() || shelf.place_of(second).is_none() {
        panic!(rt; "no place");
    }
    let (mut zero, mut one) = two_new(&shelf, seats).expect(rt, "two seats");
    let _ = claim_and_run(rt, alloc, course, &shelf, &mut zero, 0);
    let turn = claim_and_begin(&shelf, &mut zero, first).expect(rt, "a turn");
    let met = claim_meet_and_run(rt, alloc, course, &shelf, &mut one, second);
    shelf.abandon(&mut zero, turn);
    let after = word_without_value(&shelf, &mut one, second);
    drop(zero);
    drop(one);
    drop(shelf);
    (met.expect(rt, "a claim"), after)
}

// What the seat tells that found the place taken.
fn is_met(rt: &impl Abort, alloc: Global, met: &Met) {
    equal(rt, met.word, Some(PlaceWord::Writing(0)));
    let outcome = met.outcome.as_ref().expect(rt, "memory");
    equal(rt, (outcome.segment, outcome.events, met.ticks), (2, 6, 4));
    equal(rt, edited_entries(rt, alloc, outcome), Some(5));
}

// A seat finds the place of its own key taken: its run goes on without a copy there, and tells what it tells.
#[test]
fn a_run_beside_anothers_turn(rt: HostRuntime) {
    let alloc = rt.alloc();
    let course = course(&rt, alloc, Stop::At(2));
    let first = Key {
        segment: 1,
        event: 5,
    };
    let second = Key {
        segment: 2,
        event: 5,
    };
    let (met, after) = beside_a_turn(&rt, alloc, &course, first, second);
    is_met(&rt, alloc, &met);
    equal(&rt, after, Some(PlaceWord::Free));
    drop(met);
    drop(course);
}
