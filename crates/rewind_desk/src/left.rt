//! Which states workers leave, and how near the nearest of them is.

ghost use Rattle.std.specs.Prelude.{◌≡◌, ◌≤◌, ℕ, Bool};
ghost use Rattle.shelf_core.specs.declared.plan.Key.{Key};
ghost use Rattle.shelf_core.specs.declared.plan.ShelfPlan.{ShelfPlan};
ghost use Rattle.checkpoint_shelf.specs.Told.{ClosedTold};
ghost use Rattle.kernel_copy.specs.Courses.{CourseTold, IsCourse};
ghost use Rattle.branch_workers.specs.Layout.{layout};
ghost use Rattle.rewind_desk.specs.AfterWork.{IsAfterWork};
ghost use Rattle.rewind_desk.specs.Best.{best, is_held};
ghost use Rattle.rewind_desk.specs.Left.{AreLeft, IsAmple, is_possible, nearest_of};
ghost use Rattle.rewind_desk.specs.Sure.{sure};

use crate::after_work::rewinds_after_work;
use crate::finding::nearest_to;
use checkpoint_shelf::ClosedShelf;
use kernel_copy::{Checkpoint, Course};
use std::sync::Arc;

/// What holds of the states on a closed shelf that workers of its course left: they are all that are sure to be left, each is one
/// that its segment has, and no two have one place. Each state is looked at once; nothing is changed. A proof has these
/// facts behind a call.
pub fn know_left(course: &Arc<Course>, shelf: &ClosedShelf<Checkpoint>)
    requires shelf { shelf.now.course ≡ course.now.value }
    ensures { (stride places workers : ℕ) → IsAfterWork course.now.value stride places workers shelf.now → AreLeft course.now.value (layout course.now.value.plan stride places) (is_held shelf.now) }
{
    rewinds_after_work();
    course.know_course();
    let last = course.last_segment(0);
    let _ = nearest_to(course, shelf, last, 0);
}

/// The nearest state that was left is no farther than the nearest that is sure to be left, and no nearer than the nearest that may
/// be. On a closed shelf it is the nearest that the shelf holds.
pub fn left_states_lie_between()
    ensures least { (c : CourseTold) (plan : ShelfPlan) (held : Key → Bool) (b e : ℕ) → AreLeft c plan held → sure c plan b e ≤ nearest_of c plan held b e }
    ensures most { (c : CourseTold) (plan : ShelfPlan) (held : Key → Bool) (b e : ℕ) → AreLeft c plan held → nearest_of c plan held b e ≤ nearest_of c plan (is_possible c plan) b e }
    ensures held { (shelf : ClosedTold CourseTold) (b e : ℕ) → nearest_of shelf.course shelf.plan (is_held shelf) b e ≡ best shelf b e }
{}

/// Where no grid key has a place, and where there are as many places as grid keys and none lies past the end of its segment's run,
/// it is one number, whatever the workers did: that of the nearest state that is sure to be left, and of the nearest that may be.
pub fn left_states_are_one_number()
    ensures sure { (c : CourseTold) (stride places : ℕ) (held : Key → Bool) (b e : ℕ) → IsCourse c → IsAmple c stride places → AreLeft c (layout c.plan stride places) held
        → nearest_of c (layout c.plan stride places) held b e ≡ sure c (layout c.plan stride places) b e }
    ensures possible { (c : CourseTold) (stride places b e : ℕ) → IsCourse c → IsAmple c stride places
        → nearest_of c (layout c.plan stride places) (is_possible c (layout c.plan stride places)) b e ≡ sure c (layout c.plan stride places) b e }
{}
