//! What known marks come to.

ghost use Rattle.std.specs.Prelude.{◌≡◌, ◌∷◌, [], codes, None, Some};
ghost use Rattle.branch_tree.specs.Worked.{nested};
ghost use Rattle.rewind_desk.specs.Targets.{aimed_at, branch_of, past_of};

use crate::aimed::Aimed;

/// Marks in a tree of the branches `r`, `x` and `y`. A name that begins with another's is not that name.
pub fn marks_in_a_tree()
    ensures named { branch_of nested (codes "y") ≡ Some 2 }
    ensures prefix { branch_of nested (codes "xy") ≡ None }
    ensures at { aimed_at nested (record { word = codes "r:0"; branch = codes "r"; event = 0 } ∷ record { word = codes "y:07"; branch = codes "y"; event = 7 } ∷ [])
        ≡ Aimed.At (record { branch = 0; event = 0 } ∷ record { branch = 2; event = 7 } ∷ []) }
    ensures none { aimed_at nested (record { word = codes "x:9"; branch = codes "x"; event = 9 } ∷ record { word = codes "w:1"; branch = codes "w"; event = 1 } ∷ record { word = codes "v:1"; branch = codes "v"; event = 1 } ∷ [])
        ≡ Aimed.NoBranch 1 }
{}

/// Targets in branches with 6, 6 and 4 events. The last event is there; the next one is past.
pub fn targets_that_are_past()
    ensures none { past_of (6 ∷ 6 ∷ 4 ∷ []) (record { branch = 0; event = 6 } ∷ record { branch = 2; event = 0 } ∷ []) ≡ None }
    ensures first { past_of (6 ∷ 6 ∷ 4 ∷ []) (record { branch = 1; event = 2 } ∷ record { branch = 2; event = 5 } ∷ record { branch = 0; event = 7 } ∷ [])
        ≡ Some (record { index = 1; last = 4 }) }
{}
