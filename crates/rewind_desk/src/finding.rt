//! The nearest state that a closed shelf holds at or before an event of a branch.

ghost use Rattle.std.specs.Prelude.{◌≡◌, ◌<◌, ◌∷◌, [], true, IfSome, is_some, length};
ghost use Rattle.std.specs.List.{list_any};
ghost use Rattle.branch_tree.specs.Segments.{segments_in, last_of};
ghost use Rattle.kernel_copy.specs.Courses.{IsKeyOf};
ghost use Rattle.rewind_desk.specs.Best.{best, count_at, is_held_near, is_on, keys_in};
ghost use Rattle.rewind_desk.specs.Nearest.{IsNearest};

use crate::near::{Near, nearer};
use checkpoint_shelf::ClosedShelf;
use kernel_copy::{Checkpoint, Course};
use shelf_core::Key;
use std::sync::Arc;

// Whether a segment is on the chain that ends with another.
fn is_on_chain(course: &Course, last: u32, segment: u32) -> bool
    requires { last < length (segments_in course.now.plan) }
    ensures { result ≡ is_on course.now.plan last segment }
{
    course.know_course();
    let mut at = last;
    while at != segment {
        let Some(parent) = course.segment(at).parent else {
            return false;
        };
        at = parent;
    }
    true
}

// A state that the shelf holds, with the number of its events.
fn counted(kept: &Checkpoint) -> Near
    ensures key { result.key ≡ kept.now.key }
    ensures events { result.events ≡ count_at kept.now.course kept.now.key }
    ensures of { IsKeyOf kept.now.course result.key }
{
    Near {
        key: kept.key(),
        events: kept.events(),
    }
}

// The state that the shelf holds under a key, where it has at most so many events and its segment is on the chain that ends
// with this one.
fn near_at(
    course: &Course,
    shelf: &ClosedShelf<Checkpoint>,
    last: u32,
    event: u32,
    key: Key,
) -> Option<Near>
    requires last { last < length (segments_in course.now.plan) }
    requires shelf { shelf.now.course ≡ course.now }
    ensures { IsNearest shelf.now last event (key ∷ []) result }
{
    let Some(kept) = shelf.get(key) else {
        return None;
    };
    let near = counted(kept);
    if near.events > event {
        return None;
    }
    if !is_on_chain(course, last, key.segment) {
        return None;
    }
    Some(near)
}

// The nearest state under some keys.
fn nearest_among(
    course: &Course,
    shelf: &ClosedShelf<Checkpoint>,
    last: u32,
    event: u32,
    keys: &[Key],
) -> Option<Near>
    requires last { last < length (segments_in course.now.plan) }
    requires shelf { shelf.now.course ≡ course.now }
    ensures { IsNearest shelf.now last event keys.now result }
{
    let mut found = None;
    for key in keys {
        let near = near_at(course, shelf, last, event, *key);
        let next = nearer(found, near);
        found = next;
    }
    found
}

// The nearest state of the chain that ends with this segment.
pub(crate) fn nearest_to(
    course: &Course,
    shelf: &ClosedShelf<Checkpoint>,
    last: u32,
    event: u32,
) -> Option<Near>
    requires last { last < length (segments_in course.now.plan) }
    requires shelf { shelf.now.course ≡ course.now }
    ensures { IsNearest shelf.now last event (keys_in shelf.now.plan) result }
{
    let plan = shelf.plan();
    let fork = nearest_among(course, shelf, last, event, plan.forks.as_slice());
    let between = nearest_among(course, shelf, last, event, plan.grid.as_slice());
    nearer(fork, between)
}

/// The key of the state with the most events, not more than this number, that the closed shelf holds of a branch: under a key
/// of a segment of the branch's chain. `None` exactly where it holds none. Takes no memory.
pub fn nearest(
    course: &Arc<Course>,
    shelf: &ClosedShelf<Checkpoint>,
    branch: u16,
    event: u32,
) -> Option<Key>
    requires branch { branch < length course.now.value.plan.branches }
    requires shelf { shelf.now.course ≡ course.now.value }
    ensures exists { is_some result ≡ list_any (is_held_near shelf.now (last_of course.now.value.plan.branches branch) event) (keys_in shelf.now.plan) }
    ensures held { IfSome result (λ k. is_held_near shelf.now (last_of course.now.value.plan.branches branch) event k ≡ true) }
    ensures most { IfSome result (λ k. count_at course.now.value k ≡ best shelf.now branch event) }
    ensures of { IfSome result (λ k. IsKeyOf course.now.value k) }
{
    match nearest_to(course, shelf, course.last_segment(branch), event) {
        None => None,
        Some(near) => Some(near.key),
    }
}
