//! What the nearest state is, and how near it surely is.

ghost use Rattle.std.specs.Prelude.{◌≡◌, ◌<◌, ◌≤◌, ◌+◌, ◌⊎◌, ℕ, true, Some, length};
ghost use Rattle.branch_tree.specs.Segments.{last_of};
ghost use Rattle.shelf_core.specs.declared.plan.Key.{Key};
ghost use Rattle.shelf_core.specs.declared.plan.ShelfPlan.{ShelfPlan};
ghost use Rattle.checkpoint_shelf.specs.Told.{ClosedTold};
ghost use Rattle.kernel_copy.specs.Courses.{CourseTold, IsCourse};
ghost use Rattle.rewind_desk.specs.Best.{best, count_at, is_held_near};
ghost use Rattle.rewind_desk.specs.Rewinds.{last_event};
ghost use Rattle.rewind_desk.specs.Sure.{sure, HoldsSure, IsLaidFor, AreAllSole, IsWholeAtForks};

/// The nearest state's events are the most of all states that the shelf holds under any key of the branch's chain, up to the
/// event number: no state is missed for its key, and where there is one it is one of them.
pub fn best_is_the_most()
    ensures most { (shelf : ClosedTold CourseTold) (b e : ℕ) (k : Key) → shelf.system.plan ≡ Some shelf.plan → is_held_near shelf (last_of shelf.course.plan.branches b) e k ≡ true → count_at shelf.course k ≤ best shelf b e }
    ensures one { (shelf : ClosedTold CourseTold) (b e : ℕ) → (best shelf b e ≡ 0) ⊎ ((k : Key) × (is_held_near shelf (last_of shelf.course.plan.branches b) e k ≡ true) × (count_at shelf.course k ≡ best shelf b e)) }
    ensures within { (shelf : ClosedTold CourseTold) (b e : ℕ) → best shelf b e ≤ e }
{}

/// What the workers surely leave is at most the nearest state of a shelf that holds it.
pub fn sure_states_are_held()
    ensures { (shelf : ClosedTold CourseTold) (b e : ℕ) → HoldsSure shelf → sure shelf.course shelf.plan b e ≤ best shelf b e }
{}

/// Where each grid key has a place of its own, and no state on the branch's path was ended before the stop at which the next
/// branch forks, an event is at most the stride past what the workers surely leave.
pub fn sure_states_are_near()
    ensures { (c : CourseTold) (plan : ShelfPlan) (b e stride : ℕ) → IsCourse c → b < length c.plan.branches → e ≤ last_event c b → 0 < stride → IsLaidFor c.plan stride plan → AreAllSole plan → IsWholeAtForks c b → e ≤ sure c plan b e + stride }
{}

/// So a rewind over a shelf that holds what the workers surely leave makes at most as many events as the stride says.
pub fn rewinds_stay_within_the_stride()
    ensures { (shelf : ClosedTold CourseTold) (b e stride : ℕ) → IsCourse shelf.course → b < length shelf.course.plan.branches → e ≤ last_event shelf.course b → 0 < stride → HoldsSure shelf → IsLaidFor shelf.course.plan stride shelf.plan → AreAllSole shelf.plan → IsWholeAtForks shelf.course b → e ≤ best shelf b e + stride }
{}
