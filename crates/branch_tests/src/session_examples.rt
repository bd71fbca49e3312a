//! A session over the shelf that workers of a small course give back.

ghost use Rattle.std.specs.Prelude.{◌≡◌};
ghost use Rattle.branch_workers.specs.Example.{small};

use crate::facts::{equal, holds};
use crate::rewind_examples::left;
use crate::small_course::{latency, two_branches};
use branch_tree::{Branch, Name, Stop};
use checkpoint_shelf::ClosedShelf;
use kernel_copy::{Checkpoint, Course};
use market_types::{Sequence, Time, Trace};
use outside::{Counted, Steps};
use session_desk::{Session, SessionError, forks_by_number};
use std::alloc::Global;
use std::process::Abort;
use std::sync::Arc;

// A session over a course, whose branches leave at event numbers.
fn begun(rt: &impl Abort, alloc: Global, course: &Arc<Course>) -> Session
    ensures { result.course ≡ course.now.value }
{
    if !forks_by_number(course.plan()) {
        panic!(rt; "a branch leaves at a time");
    }
    Session::open(alloc, course).expect(rt, "memory")
}

// Whether a branch of this name leaves the root at event 2 and makes the latency 50.
fn fork(rt: &impl Abort, alloc: Global, session: &mut Session, name: u8) -> bool
    requires { session.old.course.opening ≡ small }
    ensures { session.new.course ≡ session.old.course }
{
    let branch = Branch {
        name: Name::new(&[name]).expect(rt, "a name"),
        parent: 0,
        stop: Stop::At(2),
        edits: Sequence::new(latency(rt, alloc, 50)),
    };
    session.fork(branch).is_ok()
}

// Whether a branch makes the latency 7.
fn edit(rt: &impl Abort, alloc: Global, session: &mut Session, branch: u16) -> bool
    requires { session.old.course.opening ≡ small }
    ensures { session.new.course ≡ session.old.course }
{
    session.edit(branch, latency(rt, alloc, 7)).is_ok()
}

// The time of a branch's state after so many events, or why there is none; and how many events were counted.
fn came(
    session: &Session,
    shelf: &ClosedShelf<Checkpoint>,
    branch: u16,
    event: u32,
) -> (Result<Time, SessionError>, u64)
    requires { shelf.now.course ≡ session.now.course }
{
    let _ = session.tree();
    let mut steps: Steps<Counted> = Steps::new();
    let came = match session.state(shelf, branch, event, &mut steps) {
        Ok(kernel) => {
            let time = kernel.time();
            drop(kernel);
            Ok(time)
        }
        Err(refused) => Err(refused),
    };
    (came, steps.close())
}

// How many entries a branch's run has over the tree, and how many events were counted.
fn recorded(alloc: Global, session: &Session, branch: u16) -> (Result<usize, SessionError>, u64) {
    let _ = session.tree();
    let mut steps: Steps<Counted> = Steps::new();
    let mut trace = Trace::new(alloc);
    let recorded = match session.records(branch, &mut trace, &mut steps) {
        Ok(()) => Ok(trace.len()),
        Err(refused) => Err(refused),
    };
    (recorded, steps.close())
}

// The number of the last event of a branch's run, and how many events were counted.
fn last(
    session: &Session,
    shelf: &ClosedShelf<Checkpoint>,
    branch: u16,
) -> (Result<u32, SessionError>, u64)
    requires { shelf.now.course ≡ session.now.course }
{
    let _ = session.tree();
    let mut steps: Steps<Counted> = Steps::new();
    let last = match session.full(shelf, branch, &mut steps) {
        Ok(kernel) => {
            let events = kernel.events();
            drop(kernel);
            Ok(events)
        }
        Err(refused) => Err(refused),
    };
    (last, steps.close())
}

// A fork at event 2 with the first branch's latency stands at event 5 when that branch did. The first branch with the second's
// latency stands there when the second does. Both go on from the root's state at the fork, and the second from its own.
#[test]
fn a_session_over_a_small_course(rt: HostRuntime) {
    let alloc = rt.alloc();
    let course = two_branches(&rt, alloc, Stop::At(2));
    let shelf = left(&rt, alloc, &course, 128);
    let mut session = begun(&rt, alloc, &course);
    holds(&rt, fork(&rt, alloc, &mut session, b'v'));
    equal(&rt, came(&session, &shelf, 3, 5), (Ok(1055), 3));
    holds(&rt, edit(&rt, alloc, &mut session, 1));
    equal(&rt, came(&session, &shelf, 1, 5), (Ok(1012), 3));
    assert!(rt; session.undo().is_ok());
    equal(&rt, came(&session, &shelf, 2, 4), (Ok(1005), 2));
    equal(
        &rt,
        came(&session, &shelf, 3, 4),
        (Err(SessionError::NoBranch), 0),
    );
    equal(
        &rt,
        came(&session, &shelf, 1, 7),
        (Err(SessionError::NoEvent(6)), 4),
    );
    equal(&rt, last(&session, &shelf, 1), (Ok(6), 4));
    equal(&rt, recorded(alloc, &session, 1), (Ok(7), 6));
    drop(session);
    drop(shelf);
    drop(course);
}
