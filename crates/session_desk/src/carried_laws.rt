//! What the nearest kept states and a script's acts give.

ghost use Rattle.std.specs.Prelude.{◌≡◌, ◌≤◌, ℕ, false, List, All};
ghost use Rattle.std.specs.List.{list_any};
ghost use Rattle.branch_tree.specs.declared.branch.Branch.{Branch as BranchTold};
ghost use Rattle.branch_tree.specs.Stops.{is_time};
ghost use Rattle.session_desk.specs.Session.{SessionTold};
ghost use Rattle.session_desk.specs.declared.act.Act.{Act as ActTold};
ghost use Rattle.session_desk.specs.Counted.{Kept, all_reached};

/// Where each nearest kept state has as many events or more, acts leave no more to run.
pub fn nearer_states_leave_less()
    ensures { (less more : Kept) (s : SessionTold) (acts : List ActTold) → ((b e : ℕ) → less b e ≤ more b e) → all_reached more s acts ≤ all_reached less s acts }
{}

/// Branches of which none forks by time fork by event number.
pub fn branches_fork_by_number()
    ensures { (branches : List BranchTold) → list_any (λ (b : BranchTold). is_time b.stop) branches ≡ false → All (λ (b : BranchTold). is_time b.stop ≡ false) branches }
{}
