//! Where a session takes kept states from, and what acts come to one after another.

ghost use Rattle.std.specs.Prelude.{◌≡◌, ◌<◌, ◌++◌, ◌∷◌, [], ℕ, List, true, length};
ghost use Rattle.branch_tree.specs.Paths.{path_of};
ghost use Rattle.kernel_copy.specs.Full.{full};
ghost use Rattle.session_desk.specs.Session.{SessionTold, IsSession, full_in, is_own};
ghost use Rattle.session_desk.specs.TreeActs.{Act, acted, after_acts};
ghost use Rattle.session_desk.specs.Anchors.{anchor_of};

/// A branch's anchor is still the study's own, and so is each branch before it: it has the path and the runs that it has in the
/// study, whose states the shelf holds. So no state of a branch that an act forked or edited is ever taken from the shelf.
pub fn anchors_are_the_studys()
    ensures own { (s : SessionTold) (b : ℕ) → IsSession s → b < length s.branches → is_own s (anchor_of s b) ≡ true }
    ensures there { (s : SessionTold) (b : ℕ) → IsSession s → b < length s.branches → anchor_of s b < length s.course.plan.branches }
    ensures path { (s : SessionTold) (b : ℕ) → IsSession s → b < length s.branches → path_of s.course.plan.branches (anchor_of s b) ≡ path_of s.branches (anchor_of s b) }
    ensures runs { (s : SessionTold) (b e : ℕ) → IsSession s → b < length s.branches → full s.course.opening s.course.plan (anchor_of s b) e ≡ full_in s (anchor_of s b) e }
{}

/// One act more changes the session that the acts before it left.
pub fn acts_follow_one_another()
    ensures { (s : SessionTold) (acts : List Act) (act : Act) → after_acts s (acts ++ act ∷ []) ≡ acted (after_acts s acts) act }
{}
