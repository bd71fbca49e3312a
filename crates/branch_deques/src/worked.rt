//! What the definitions say of small examples. The functions do nothing: each of their clauses is proved by computation.

ghost use Rattle.std.specs.Prelude.{◌≡◌, ◌+◌, [], ◌∷◌};
ghost use Rattle.branch_deques.specs.Lanes.{times, total};
ghost use Rattle.branch_deques.specs.Example.{two_passes};

/// Of the segments 0, 1 and 2 that were pushed, 0 and 1 were taken, so the lane that holds 2 balances.
pub fn one_is_left()
    ensures pushed { total (λ v. times 1 v.pushed) two_passes ≡ 1 }
    ensures taken { total (λ v. times 1 v.taken) two_passes ≡ 1 }
    ensures left { total (λ v. times 2 v.taken) two_passes + times 2 (2 ∷ []) ≡ total (λ v. times 2 v.pushed) two_passes }
    ensures gone { total (λ v. times 0 v.taken) two_passes + times 0 (2 ∷ []) ≡ total (λ v. times 0 v.pushed) two_passes }
{}
