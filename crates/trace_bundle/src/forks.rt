//! Where branches leave their parents.

ghost use Rattle.std.specs.Prelude.{◌≡◌, ◌<◌, ℕ, Some, length};
ghost use Rattle.branch_tree.specs.Segments.{count_before, origin_of, segments_in};
ghost use Rattle.kernel_copy.specs.Segmentwise.{parent_end};
ghost use Rattle.trace_bundle.specs.Bundle.{stop_written as stop_of};
ghost use Rattle.trace_bundle.specs.Ran.{IsRunOf};

use crate::RunOutcomes;
use branch_tree::Stop;
use kernel_copy::Course;

// The first segment of a branch.
fn first_segment(course: &Course, branch: u16) -> u32
    requires { branch < length course.now.plan.branches }
    ensures value { result ≡ count_before course.now.plan.branches branch }
    ensures exists { result < length (segments_in course.now.plan) }
{
    let numbers = course.plan().segments_of(branch);
    numbers[0]
}

// The segment from whose end a branch goes on; none for the root.
fn origin(course: &Course, branch: u16) -> Option<u32>
    requires { branch < length course.now.plan.branches }
    ensures value { result ≡ origin_of course.now.plan.branches branch }
    ensures exists { (q : ℕ) → result ≡ Some q → q < length (segments_in course.now.plan) }
{
    let first = first_segment(course, branch);
    course.segment(first).parent
}

// How many events the state has in which a branch leaves its parent.
fn events_before<W: RunOutcomes>(course: &Course, ran: &W, branch: u16) -> u32
    requires branch { branch < length course.now.plan.branches }
    requires ran { IsRunOf course.now (W.count ran.now) (W.kept_of ran.now) (W.closing_of ran.now) }
    ensures { result ≡ (parent_end course.now.opening course.now.plan (origin_of course.now.plan.branches branch)).state.events }
{
    match origin(course, branch) {
        None => 0,
        Some(segment) => ran.closing(segment).counts.events,
    }
}

/// The stop of a branch as a bundle and a table tell it: the event number at which it leaves its parent; where it leaves at a
/// time, the number of events by which that time was reached.
pub fn stop_written<W: RunOutcomes>(course: &Course, ran: &W, branch: u16) -> u32
    requires branch { branch < length course.now.plan.branches }
    requires ran { IsRunOf course.now (W.count ran.now) (W.kept_of ran.now) (W.closing_of ran.now) }
    ensures { result ≡ stop_of course.now branch }
{
    match course.plan().branches()[usize::from(branch)].stop {
        Stop::At(events) => events,
        Stop::When(_) => events_before(course, ran, branch),
    }
}
