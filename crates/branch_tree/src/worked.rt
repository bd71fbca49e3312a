//! What the definitions give on known trees.

ghost use Rattle.std.specs.Prelude.{◌≡◌, ◌∷◌, [], None, Some};
ghost use Rattle.branch_tree.specs.Worked.{nested, crossed, same_names, mixed, timed, segment};
ghost use Rattle.branch_tree.specs.declared.stop.Stop.TheVariants.{At, When};
ghost use Rattle.branch_tree.specs.Paths.{path_of};
ghost use Rattle.branch_tree.specs.Plan.{Plan};
ghost use Rattle.branch_tree.specs.Segments.{segments_in, numbers_of, children_of};
ghost use Rattle.branch_tree.specs.Tree.{plan_refusal};

use crate::error::PlanError;

/// A branch at 6 and a branch of it at 6: the root is cut at 6, and so is the first branch, whose first part is empty.
pub fn nested_segments()
    ensures accepted { plan_refusal nested 100 ≡ None }
    ensures segments { segments_in (record { branches = nested; limit = 100 }) ≡ segment 0 (At 0) (At 6) None ∷ segment 0 (At 6) (At 100) (Some 0) ∷ segment 1 (At 6) (At 6) (Some 0) ∷ segment 1 (At 6) (At 100) (Some 2) ∷ segment 2 (At 6) (At 100) (Some 2) ∷ [] }
    ensures numbers { numbers_of (record { branches = nested; limit = 100 }) 1 ≡ 2 ∷ 3 ∷ [] }
    ensures children { children_of (record { branches = nested; limit = 100 }) 0 ≡ 1 ∷ 2 ∷ [] }
    ensures path { path_of nested 2 ≡ 0 ∷ 1 ∷ 2 ∷ [] }
{}

/// A branch at a time, and one of it at event number 1, which is no less than any stop of its kind before it: the root is cut
/// at the time, and its last segment runs to the limit.
pub fn timed_segments()
    ensures accepted { plan_refusal timed 100 ≡ None }
    ensures segments { segments_in (record { branches = timed; limit = 100 }) ≡ segment 0 (At 0) (When 1005) None ∷ segment 0 (When 1005) (At 100) (Some 0) ∷ segment 1 (When 1005) (At 1) (Some 0) ∷ segment 1 (At 1) (At 100) (Some 2) ∷ segment 2 (At 1) (At 100) (Some 2) ∷ [] }
{}

/// Refused trees: the first reason, and of it the least index.
pub fn refused_trees()
    ensures late { plan_refusal crossed 100 ≡ Some (PlanError.ParentNotBefore 1) }
    ensures above { plan_refusal nested 5 ≡ Some (PlanError.StopOutOfRange 1) }
    ensures twice { plan_refusal same_names 100 ≡ Some (PlanError.NameTwice 2) }
    ensures mixed { plan_refusal mixed 100 ≡ Some (PlanError.StopsMixed 2) }
    ensures work { plan_refusal nested 2000000 ≡ Some (PlanError.TooMuchWork 3 2000000) }
{}
