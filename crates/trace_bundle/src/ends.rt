//! How the full runs of branches end.

ghost use Rattle.std.specs.Prelude.{◌≡◌, ◌<◌, ◌^◌, All, length};
ghost use Rattle.bundle_frames.specs.Frames.{HasFewPositions};
ghost use Rattle.kernel_copy.specs.Closing.{closing_at};
ghost use Rattle.kernel_copy.specs.Full.{full_run};
ghost use Rattle.trace_bundle.specs.Ran.{IsRunOf};
ghost use Rattle.trace_bundle.specs.Report.{events_before};

use crate::ran::RunOutcomes;
use bundle_frames::Closing;
use kernel_copy::Course;
use kernel_copy::closing_laws::agents_have_all_positions;
use kernel_copy::laws::courses_stay_in_range;

/// The closing of a branch's full run. It and its time fit their frames.
pub fn closing_of_branch<'a, W: RunOutcomes>(
    course: &Course,
    ran: &'a W,
    branch: u16,
) -> &'a Closing
    requires branch { branch < length course.now.plan.branches }
    requires ran { IsRunOf course.now (W.count ran.now) (W.kept_of ran.now) (W.closing_of ran.now) }
    ensures value { result.now ≡ closing_at course.now.opening (full_run course.now.opening course.now.plan branch).state }
    ensures few { All HasFewPositions result.now.agents }
    ensures early { result.now.counts.time < 2 ^ 48 }
{
    courses_stay_in_range();
    agents_have_all_positions();
    course.know_course();
    ran.closing(course.last_segment(branch))
}

/// How many events a branch's full run has, which is the number of its last event.
pub fn events_of_branch<W: RunOutcomes>(course: &Course, ran: &W, branch: u16) -> u32
    requires branch { branch < length course.now.plan.branches }
    requires ran { IsRunOf course.now (W.count ran.now) (W.kept_of ran.now) (W.closing_of ran.now) }
    ensures { result ≡ (full_run course.now.opening course.now.plan branch).state.events }
{
    closing_of_branch(course, ran, branch).counts.events
}

/// How many events the full runs of all branches have.
pub(crate) fn events_of_all<W: RunOutcomes>(course: &Course, ran: &W) -> u64
    requires { IsRunOf course.now (W.count ran.now) (W.kept_of ran.now) (W.closing_of ran.now) }
    ensures { result ≡ events_before course.now (length course.now.plan.branches) }
{
    let count = course.plan().branches().len() as u16;
    let mut events = 0;
    for branch in 0..count {
        events += u64::from(events_of_branch(course, ran, branch));
    }
    events
}
