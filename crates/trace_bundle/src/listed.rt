//! Runs that hold the entries themselves.

ghost use Rattle.std.specs.Prelude.{◌≡◌, ◌<◌, length};
ghost use Rattle.branch_tree.specs.Segments.{segments_in, segment_at};
ghost use Rattle.kernel_copy.specs.Segmentwise.{segment_entries};
ghost use Rattle.trace_bundle.specs.Ran.{IsListedRunOf};

use crate::ran::RunOutcomes;
use kernel_copy::{Course, Kept};
use packed_entries::Packed;
use probe_desk::Summed;

/// A segment's own entries with their sums, of a run that holds them themselves.
pub fn summed_of_segment<'a, W: RunOutcomes>(
    course: &Course,
    ran: &'a W,
    segment: u32,
) -> &'a Summed
    requires segment { segment < length (segments_in course.now.plan) }
    requires ran { IsListedRunOf course.now (W.count ran.now) (W.kept_of ran.now) (W.closing_of ran.now) }
    ensures { result.now.list ≡ segment_entries course.now.opening course.now.plan (segment_at course.now.plan segment) }
{
    let _ = course;
    match ran.kept(segment) {
        Kept::Entries(summed) => summed,
        Kept::Frames(_) | Kept::Tallied(_) | Kept::Nothing => unreachable!(),
    }
}

/// A segment's own entries, of a run that holds them themselves.
pub fn trace_of_segment<'a, W: RunOutcomes>(course: &Course, ran: &'a W, segment: u32) -> &'a Packed
    requires segment { segment < length (segments_in course.now.plan) }
    requires ran { IsListedRunOf course.now (W.count ran.now) (W.kept_of ran.now) (W.closing_of ran.now) }
    ensures { result.now.list ≡ segment_entries course.now.opening course.now.plan (segment_at course.now.plan segment) }
{
    summed_of_segment(course, ran, segment).packed()
}
