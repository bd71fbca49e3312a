//! Two threads at one shelf.

ghost use Rattle.std.specs.Prelude.{◌≡◌, ◌<◌, IfOk, IfSome, Some, length, []};
ghost use Rattle.shelf_core.specs.Views.{times};
ghost use Rattle.checkpoint_shelf.specs.Plans.{PlanFits};

use super::Item;
use super::closing::closed;
use super::seats::{claimed, fill, opened, value_of};
use crate::facts::{equal, holds};
use checkpoint_shelf::{ClosedShelf, Found, Key, Progress, Shelf, ShelfPlan, ShelfSeat, Shelved};
use plain_lists::{Memory, Sequence, copied};
use std::alloc::Global;
use std::process::Abort;
use std::sync::Wait;
use std::sync::atomic::{AtomicU64, Ordering};
use std::thread;
use std::thread::Threads;

// The key of a segment, if it has one: two segments are forked at event 2, and each eighth has a grid key at event 50.
fn key_in(segment: u32) -> Option<Key>
    ensures { IfSome result (λ k. k.segment ≡ segment) }
{
    if segment == 5 || segment == 37 {
        return Some(Key { segment, event: 2 });
    }
    if segment % 8 == 0 {
        return Some(Key { segment, event: 50 });
    }
    None
}

const FORKS: [Key; 2] = [
    Key {
        segment: 5,
        event: 2,
    },
    Key {
        segment: 37,
        event: 2,
    },
];

const GRID: [Key; 8] = [
    Key {
        segment: 0,
        event: 50,
    },
    Key {
        segment: 8,
        event: 50,
    },
    Key {
        segment: 16,
        event: 50,
    },
    Key {
        segment: 24,
        event: 50,
    },
    Key {
        segment: 32,
        event: 50,
    },
    Key {
        segment: 40,
        event: 50,
    },
    Key {
        segment: 48,
        event: 50,
    },
    Key {
        segment: 56,
        event: 50,
    },
];

// Sixty-four segments with two forks, and with eight grid keys on three places.
fn shared_plan(alloc: Global) -> Result<ShelfPlan, Memory>
    ensures fits { IfOk result (λ plan. PlanFits plan) }
    ensures segments { IfOk result (λ plan. plan.segments ≡ 64) }
{
    let (forks, grid) = (copied(alloc, &FORKS)?, copied(alloc, &GRID)?);
    Ok(ShelfPlan {
        segments: 64,
        forks: Sequence::new(forks),
        grid: Sequence::new(grid),
        places: 3,
    })
}

// Gives the place of a segment's key its value, if it has one: it abandons one turn, and tries again until it gets another.
// Whether a value was given.
fn give<R: Wait + Abort>(
    rt: &R,
    alloc: Global,
    shelf: &Shelf<Item>,
    seat: &mut ShelfSeat<Item>,
    segment: u32,
) -> bool
    requires seat { seat.old.shelf ≡ Some shelf.now }
    requires course { shelf.now.course ≡ 7 }
    requires claim { 0 < times segment seat.old.view.claims }
    ensures same { seat.new.shelf ≡ seat.old.shelf }
    ensures numbers { seat.new.view.numbers ≡ seat.old.view.numbers }
    ensures claims { seat.new.view.claims ≡ seat.old.view.claims }
    ensures counts { seat.new.view.counts ≡ seat.old.view.counts }
    ensures turns { seat.new.view.turns ≡ seat.old.view.turns }
{
    let Some(k) = key_in(segment) else {
        return false;
    };
    if shelf.place_of(k).is_none() {
        return false;
    }
    fill(shelf, seat, k, None);
    for _ in rt.forever() {
        let value = value_of(alloc, k, true).expect(rt, "memory");
        if fill(shelf, seat, k, value) {
            return true;
        }
    }
    unreachable!()
}

// Whether what is found of a key, if it is there, is its value.
fn is_right(shelf: &Shelf<Item>, seat: &mut ShelfSeat<Item>, k: Key) -> bool
    requires seat { seat.old.shelf ≡ Some shelf.now }
    ensures same { seat.new.shelf ≡ seat.old.shelf }
    ensures numbers { seat.new.view.numbers ≡ seat.old.view.numbers }
    ensures turns { seat.new.view.turns ≡ seat.old.view.turns }
    ensures claims { seat.new.view.claims ≡ seat.old.view.claims }
    ensures counts { seat.new.view.counts ≡ seat.old.view.counts }
{
    if shelf.place_of(k).is_none() {
        return false;
    }
    match shelf.find(seat, k) {
        Ok(Found::Here(value)) => value.key == k && value.course == 7,
        Ok(Found::NotYet(_)) => true,
        Err(_) => false,
    }
}

// The same of each key.
fn are_right(shelf: &Shelf<Item>, seat: &mut ShelfSeat<Item>) -> bool
    requires seat { seat.old.shelf ≡ Some shelf.now }
    ensures same { seat.new.shelf ≡ seat.old.shelf }
    ensures numbers { seat.new.view.numbers ≡ seat.old.view.numbers }
    ensures turns { seat.new.view.turns ≡ seat.old.view.turns }
    ensures claims { seat.new.view.claims ≡ seat.old.view.claims }
    ensures counts { seat.new.view.counts ≡ seat.old.view.counts }
{
    let mut right = true;
    for segment in 0..64 {
        if let Some(k) = key_in(segment) {
            right &= is_right(shelf, seat, k);
        }
    }
    right
}

// What a thread did: its segments as bits, how many they are, how many values it gave, and whether each value that it
// found was right.
#[derive(Clone, Copy)]
struct Did {
    segments: u64,
    mine: u32,
    given: u32,
    right: bool,
}

// Counts so many segments.
fn count_all(shelf: &Shelf<Item>, seat: &mut ShelfSeat<Item>, mine: u32)
    requires seat { seat.old.shelf ≡ Some shelf.now }
    requires claims { mine ≡ length seat.old.view.claims }
    requires counts { seat.old.view.counts ≡ 0 }
    ensures same { seat.new.shelf ≡ seat.old.shelf }
    ensures numbers { seat.new.view.numbers ≡ seat.old.view.numbers }
    ensures turns { seat.new.view.turns ≡ seat.old.view.turns }
{
    for _ in 0..mine {
        shelf.count(seat);
    }
}

// Waits a while until so many came here.
fn meet(came: &AtomicU64, all: u64) {
    came.fetch_add(1, Ordering::SeqCst);
    for _ in 0..1_000_000 {
        if came.load(Ordering::SeqCst) >= all {
            return;
        }
    }
}

// Runs each segment that it can claim beside another thread, and counts them beside it; at each segment that has a key it
// looks at all keys.
fn work<R: Wait + Abort>(
    rt: &R,
    alloc: Global,
    shelf: &Shelf<Item>,
    mut seat: ShelfSeat<Item>,
    came: &AtomicU64,
) -> (ShelfSeat<Item>, Did)
    requires seat { seat.shelf ≡ Some shelf.now }
    requires course { shelf.now.course ≡ 7 }
    requires segments { shelf.now.plan.segments ≡ 64 }
    requires claims { seat.view.claims ≡ [] }
    requires counts { seat.view.counts ≡ 0 }
    ensures same { result.0.shelf ≡ seat.shelf }
    ensures numbers { result.0.view.numbers ≡ seat.view.numbers }
    ensures turns { result.0.view.turns ≡ seat.view.turns }
{
    meet(came, 2);
    let (mut segments, mut mine, mut given, mut right) = (0, 0, 0, true);
    for segment in 0..64u32 {
        if claimed(shelf, &mut seat, segment) {
            segments |= 1 << segment;
            mine += 1;
            if give(rt, alloc, shelf, &mut seat, segment) {
                given += 1;
            }
        }
        if key_in(segment).is_some() {
            right &= are_right(shelf, &mut seat);
        }
    }
    meet(came, 4);
    count_all(shelf, &mut seat, mine);
    let did = Did {
        segments,
        mine,
        given,
        right,
    };
    (seat, did)
}

// What two threads and the closed shelf tell.
#[derive(Clone, Copy)]
struct Told {
    first: Did,
    second: Did,
    progress: Progress,
    // The segments whose key's value is there, as bits.
    there: u64,
}

// Whether the value of a key is there.
fn has_value(closed: &ClosedShelf<Item>, k: Key) -> bool {
    match closed.get(k) {
        Some(value) => value.key() == k,
        None => false,
    }
}

// The segments whose key's value is there, as bits.
fn values_of(closed: &ClosedShelf<Item>) -> u64 {
    let mut there = 0;
    for segment in 0..64u32 {
        if let Some(k) = key_in(segment) {
            there |= u64::from(has_value(closed, k)) << segment;
        }
    }
    there
}

// Two threads run all segments of a new shelf.
fn run_all<R: Threads + Wait + Abort + Sync>(rt: &R, alloc: Global) -> Told {
    let plan = shared_plan(alloc).expect(rt, "memory");
    let (shelf, zero, one) = opened(rt, alloc, plan);
    let came = AtomicU64::new(0);
    let (shared, came) = (&shelf, &came);
    let (first, second) = thread::join(
        rt,
        move || work(rt, alloc, shared, zero, came),
        move || work(rt, alloc, shared, one, came),
    );
    let (mut zero, first) = first;
    let (one, second) = second;
    let progress = shelf.progress(&mut zero);
    let closed = closed(rt, alloc, shelf, zero, one);
    let there = values_of(&closed);
    drop(closed);
    Told {
        first,
        second,
        progress,
        there,
    }
}

const ALL: Progress = Progress {
    done: 64,
    stopped: false,
};

// Each segment ran once, and of each place one value is there.
fn assert_whole(rt: &impl Abort, told: &Told) {
    let (first, second, there) = (told.first, told.second, told.there);
    equal(rt, first.segments ^ second.segments, u64::MAX);
    equal(rt, first.given.wrapping_add(second.given), 10);
    holds(rt, first.right && second.right);
    equal(rt, told.progress, ALL);
    // each fork has its value, and each place of the grid that of one of its keys
    equal(rt, there & (1 << 5 | 1 << 37), 1 << 5 | 1 << 37);
    equal(rt, (there & (1 | 1 << 24 | 1 << 48)).count_ones(), 1);
    equal(rt, (there & (1 << 8 | 1 << 32 | 1 << 56)).count_ones(), 1);
    equal(rt, (there & (1 << 16 | 1 << 40)).count_ones(), 1);
}

#[test]
fn two_threads_share_a_shelf(rt: HostRuntime) {
    for _ in 0..200 {
        assert_whole(&rt, &run_all(&rt, rt.alloc()));
    }
}
