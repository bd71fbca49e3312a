//! The chain of segments that ends with one. Each walk along it is a loop: a long chain takes no more stack than a short one.

ghost use Rattle.std.specs.Prelude.{◌≡◌, ◌≢◌, ◌<◌, ◌≤◌, None, Some, IfSome, length};
ghost use Rattle.branch_tree.specs.Segments.{segments_in, segment_at};
ghost use Rattle.rewind_desk.specs.Nearest.{IsBeginning};
ghost use Rattle.rewind_desk.specs.Reach.{IsOn};

use crate::near::Near;
use kernel_copy::Course;

// The first segment of the chain that ends with this one.
fn first_on_chain(course: &Course, last: u32) -> u32
    requires { last < length (segments_in course.now.plan) }
    ensures exists { result < length (segments_in course.now.plan) }
    ensures first { (segment_at course.now.plan result).parent ≡ None }
    ensures on { IsOn course.now.plan last result }
    ensures early { result ≤ last }
{
    course.know_course();
    let mut at = last;
    while let Some(parent) = course.segment(at).parent {
        at = parent;
    }
    at
}

// The segment at which a run along the chain that ends with this one begins: that of a state of the chain, or the first.
pub(crate) fn beginning_of(course: &Course, near: Option<Near>, last: u32) -> u32
    requires last { last < length (segments_in course.now.plan) }
    requires chain { IfSome near (λ n. IsOn course.now.plan last n.key.segment) }
    ensures exists { result < length (segments_in course.now.plan) }
    ensures begins { IsBeginning course.now.plan near result }
    ensures on { IsOn course.now.plan last result }
    ensures early { result ≤ last }
{
    course.know_course();
    match near {
        Some(near) => near.key.segment,
        None => first_on_chain(course, last),
    }
}

// The segment that goes on from another of the chain that ends with this one.
pub(crate) fn next_on_chain(course: &Course, from: u32, last: u32) -> u32
    requires last { last < length (segments_in course.now.plan) }
    requires on { IsOn course.now.plan last from }
    requires further { from ≢ last }
    ensures exists { result < length (segments_in course.now.plan) }
    ensures parent { (segment_at course.now.plan result).parent ≡ Some from }
    ensures on { IsOn course.now.plan last result }
    ensures later { from < result }
    ensures early { result ≤ last }
{
    course.know_course();
    let mut at = last;
    while let Some(parent) = course.segment(at).parent {
        if parent == from {
            return at;
        }
        at = parent;
    }
    unreachable!()
}
