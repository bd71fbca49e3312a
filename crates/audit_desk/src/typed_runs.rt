//! A run that holds the entries themselves fits the fields of a bundle.

ghost use Rattle.std.specs.Prelude.{◌<◌, ℕ, OnOk, length};
ghost use Rattle.branch_tree.specs.Segments.{segments_in};
ghost use Rattle.trace_bundle.specs.Ran.{IsListedRunOf};
ghost use Rattle.market_laws.specs.Texts.{AreMessagesSpelled};
ghost use Rattle.audit_desk.specs.Ranges.{IsInRange};
ghost use Rattle.audit_desk.specs.Typed.{IsTypedSegment};

use crate::readable::branches_have_names;
use crate::typed_closing::closing_fits;
use crate::typed_entries::entries_fit;
use kernel_copy::Course;
use kernel_copy::closing_laws::agents_have_all_positions;
use kernel_copy::laws::courses_stay_in_range;
use market_laws::fields::{edits_are_marked, feeds_stay_in_range, texts_stay_in_range};
use market_types::Memory;
use std::alloc::Global;
use trace_bundle::{RunOutcomes, trace_of_segment};

// The entries and the closing of each segment.
fn segments_fit<W: RunOutcomes>(alloc: Global, course: &Course, ran: &W) -> Result<(), Memory>
    requires { IsListedRunOf course.now (W.count ran.now) (W.kept_of ran.now) (W.closing_of ran.now) }
    ensures { OnOk result ((s : ℕ) → s < length (segments_in course.now.plan) → IsTypedSegment course.now s) }
{
    let count = course.plan().segments().len() as u32;
    for segment in 0..count {
        entries_fit(alloc, trace_of_segment(course, ran, segment))?;
        closing_fits(ran.closing(segment));
    }
    Ok(())
}

/// What a run holds has its fields in their ranges where the orders have that edits inject: numbers and names are so by their
/// types, and all other texts are the market's.
pub(crate) fn runs_fit<W: RunOutcomes>(
    alloc: Global,
    course: &Course,
    ran: &W,
) -> Result<(), Memory>
    requires { IsListedRunOf course.now (W.count ran.now) (W.kept_of ran.now) (W.closing_of ran.now) }
    ensures { OnOk result (AreMessagesSpelled course.now → IsInRange course.now) }
{
    courses_stay_in_range();
    agents_have_all_positions();
    feeds_stay_in_range();
    edits_are_marked();
    texts_stay_in_range();
    branches_have_names(course);
    course.know_course();
    segments_fit(alloc, course, ran)
}
