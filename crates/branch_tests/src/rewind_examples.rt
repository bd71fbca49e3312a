//! Rewinds over the shelf that workers of a small course give back.

ghost use Rattle.std.specs.Prelude.{◌≡◌, ◌<◌, ◌≤◌};
ghost use Rattle.rewind_desk.specs.AfterWork.{IsAfterWork};

use crate::facts::equal;
use crate::small_course::two_branches as course;
use branch_tree::Stop;
use branch_workers::{Setup, work};
use checkpoint_shelf::ClosedShelf;
use kernel_copy::Keep;
use kernel_copy::laws::segments_have_few_events;
use outside::{Counted, OpenGate, Steps};
use rewind_desk::{Checkpoint, Course, Key, RewindError, nearest, rewind};
use std::alloc::Global;
use std::process::Abort;
use std::sync::{Arc, Wait};
use std::thread::Threads;

// The shelf that three workers of a course give back, with so many places for the grid of stride 5.
pub(crate) fn left<R: Abort + Threads + Wait + Sync>(
    rt: &R,
    alloc: Global,
    course: &Arc<Course>,
    places: u32,
) -> ClosedShelf<Checkpoint>
    requires places { places ≤ 128 }
    ensures { IsAfterWork course.now.value 5 places 3 result }
{
    left_by(rt, alloc, course, places, 3)
}

// The shelf that so many workers give back.
fn left_by<R: Abort + Threads + Wait + Sync>(
    rt: &R,
    alloc: Global,
    course: &Arc<Course>,
    places: u32,
    workers: u32,
) -> ClosedShelf<Checkpoint>
    requires places { places ≤ 128 }
    requires workers { (0 < workers) × (workers ≤ 64) }
    ensures { IsAfterWork course.now.value 5 places workers result }
{
    segments_have_few_events(course);
    let mut steps: Steps<Counted> = Steps::new();
    let setup = Setup {
        stride: 5,
        places,
        keep: Keep::Nothing,
        workers,
    };
    let worked = work(rt, alloc, course, setup, &OpenGate, &mut steps);
    let _ = steps.close();
    let worked = worked.expect(rt, "memory");
    drop(worked.outcomes);
    worked.shelf
}

// What a rewind came to: the events of the state, and of the one from which it was reached; or why it is refused. And
// how many events were counted.
fn came(
    alloc: Global,
    course: &Arc<Course>,
    shelf: &ClosedShelf<Checkpoint>,
    branch: u16,
    event: u32,
) -> (Result<(u32, u32), RewindError>, u64)
    requires { shelf.now.course ≡ course.now.value }
{
    let mut steps: Steps<Counted> = Steps::new();
    let came = match rewind(alloc, course, shelf, branch, event, &mut steps) {
        Ok(rewound) => {
            let told = (rewound.kernel.events(), rewound.from);
            drop(rewound);
            Ok(told)
        }
        Err(refused) => Err(refused),
    };
    (came, steps.close())
}

// The key of the nearest state of branch 2.
fn near(course: &Arc<Course>, shelf: &ClosedShelf<Checkpoint>, event: u32) -> Option<Key>
    requires { shelf.now.course ≡ course.now.value }
{
    if course.plan().branches().len() <= 2 {
        return None;
    }
    nearest(course, shelf, 2, event)
}

// The key of an event number in a segment.
fn key(segment: u32, event: u32) -> Option<Key> {
    Some(Key { segment, event })
}

// A rewind's branch and event, what it comes to, and how many events it counts.
type Row = (u16, u32, Result<(u32, u32), RewindError>, u64);

// Asks for each row's rewind.
fn are_rewound(
    rt: &impl Abort,
    alloc: Global,
    course: &Arc<Course>,
    shelf: &ClosedShelf<Checkpoint>,
    rows: &[Row],
)
    requires { shelf.now.course ≡ course.now.value }
{
    for (branch, event, told, ticks) in rows.iter() {
        equal(
            rt,
            came(alloc, course, shelf, *branch, *event),
            (*told, *ticks),
        );
    }
}

// Asks for each row's rewind of a course whose branches leave at this stop, with a place for each state of the grid.
fn rewound<R: Abort + Threads + Wait + Sync>(rt: &R, alloc: Global, stop: Stop, rows: &[Row]) {
    let course = course(rt, alloc, stop);
    let shelf = left(rt, alloc, &course, 128);
    are_rewound(rt, alloc, &course, &shelf, rows);
    drop(shelf);
    drop(course);
}

const EARLY: [Row; 6] = [
    (0, 1, Ok((1, 0)), 1),
    (0, 6, Ok((6, 5)), 1),
    (1, 4, Ok((4, 2)), 2),
    (2, 5, Ok((5, 5)), 0),
    (99, 0, Err(RewindError::NoBranch), 0),
    (2, 7, Err(RewindError::NoEvent(6)), 1),
];

const LATE: [Row; 5] = [
    (1, 3, Ok((3, 0)), 3),
    (1, 4, Ok((4, 4)), 0),
    (1, 5, Ok((5, 5)), 0),
    (2, 6, Ok((6, 5)), 1),
    (2, 7, Err(RewindError::NoEvent(6)), 1),
];

// A rewind goes on from the state of the grid at event 5, or from the fork's before that, which has two events, or four where
// the branches leave at 1005. A branch that isn't there counts no event, and an event past the last counts those to the last.
#[test]
fn rewinds_of_a_small_course(rt: HostRuntime) {
    let alloc = rt.alloc();
    rewound(&rt, alloc, Stop::At(2), &EARLY);
    rewound(&rt, alloc, Stop::When(1004), &EARLY);
    rewound(&rt, alloc, Stop::When(1005), &LATE);
}

const SHARED: [Row; 3] = [
    (0, 6, Ok((6, 2)), 4),
    (1, 6, Ok((6, 2)), 4),
    (2, 6, Ok((6, 5)), 1),
];

// Three segments pass event 5, and the grid has one place for its states. One worker runs y's segment last, so that the place
// holds y's state in the end: a rewind of y to event 6 counts one event, and those of the others go on from the fork.
#[test]
fn a_place_of_the_grid_that_keys_share(rt: HostRuntime) {
    let alloc = rt.alloc();
    let course = course(&rt, alloc, Stop::At(2));
    let shelf = left_by(&rt, alloc, &course, 1, 1);
    are_rewound(&rt, alloc, &course, &shelf, &SHARED);
    drop(shelf);
    drop(course);
}

// The fork's state has two events, and this number in its key. Without places for the grid it is the nearest from its event on,
// and with them the one at the greatest multiple of the stride.
fn nearest_at<R: Abort + Threads + Wait + Sync>(rt: &R, alloc: Global, stop: Stop, number: u32) {
    let course = course(rt, alloc, stop);
    let forks = left(rt, alloc, &course, 0);
    let all = left(rt, alloc, &course, 128);
    let fork = key(0, number);
    for (event, without, with) in [
        (1, None, None),
        (2, fork, fork),
        (4, fork, fork),
        (5, fork, key(3, 5)),
        (6, fork, key(3, 5)),
    ] {
        equal(rt, near(&course, &forks, event), without);
        equal(rt, near(&course, &all, event), with);
    }
    drop(all);
    drop(forks);
    drop(course);
}

#[test]
fn nearest_states_of_a_branch(rt: HostRuntime) {
    let alloc = rt.alloc();
    nearest_at(&rt, alloc, Stop::At(2), 2);
    nearest_at(&rt, alloc, Stop::When(1004), 16_777_215);
}
