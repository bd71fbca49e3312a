//! How near the states are that workers leave.

ghost use Rattle.std.specs.Prelude.{◌≡◌, ◌<◌, ◌≤◌, ◌+◌, ℕ, length};
ghost use Rattle.branch_tree.specs.Plan.{Plan};
ghost use Rattle.checkpoint_shelf.specs.Told.{ClosedTold};
ghost use Rattle.kernel_copy.specs.Courses.{CourseTold, IsCourse};
ghost use Rattle.branch_workers.specs.Layout.{grid_keys, layout};
ghost use Rattle.rewind_desk.specs.Best.{best};
ghost use Rattle.rewind_desk.specs.Rewinds.{last_event};
ghost use Rattle.rewind_desk.specs.Sure.{HoldsSure, IsLaidFor, AreAllSole, IsWholeAtForks};
ghost use Rattle.rewind_desk.specs.AfterWork.{IsAfterWork};

use crate::laws::rewinds_stay_within_the_stride;

/// What workers give back meets what the bound on rewinds asks for: their shelf is laid out for the plan and the stride, it
/// holds each state that they surely leave, and where there are as many places as grid keys each key has its own.
///
/// So a rewind over it makes at most as many events as the stride says, for each event of a branch on whose path no
/// state was ended before the stop at which the next branch forks. On the root's path none forks.
pub fn rewinds_after_work()
    ensures laid { (p : Plan) (stride places : ℕ) → IsLaidFor p stride (layout p stride places) }
    ensures held { (c : CourseTold) (stride places workers : ℕ) (shelf : ClosedTold CourseTold) → IsAfterWork c stride places workers shelf → HoldsSure shelf }
    ensures sole { (c : CourseTold) (stride places workers : ℕ) (shelf : ClosedTold CourseTold) → IsAfterWork c stride places workers shelf → length (grid_keys c.plan stride) ≤ places → AreAllSole shelf.plan }
    ensures root { (c : CourseTold) → IsCourse c → IsWholeAtForks c 0 }
    ensures near { (c : CourseTold) (stride places workers : ℕ) (shelf : ClosedTold CourseTold) (b e : ℕ) → IsCourse c → 0 < stride → IsAfterWork c stride places workers shelf → length (grid_keys c.plan stride) ≤ places → IsWholeAtForks c b → b < length c.plan.branches → e ≤ last_event c b → e ≤ best shelf b e + stride }
{
    rewinds_stay_within_the_stride();
}
