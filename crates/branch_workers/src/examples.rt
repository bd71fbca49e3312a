//! What the definitions say of a small plan. The functions do nothing: each of their clauses is proved by computation.

ghost use Rattle.std.specs.Prelude.{◌≡◌, [], ◌∷◌, Some, None, true, false};
ghost use Rattle.shelf_core.specs.Plan.{place_of, is_sole};
ghost use Rattle.branch_workers.specs.Example.{forked_at_time, forked_once};
ghost use Rattle.branch_workers.specs.Layout.{end_key, fork_keys, grid_keys, key_at, layout};
ghost use Rattle.branch_workers.specs.Claims.{pushes};

/// A root that one branch leaves at event 2 has two segments, and the branch has a third: others go on from the end of the first
/// alone, so the shelf has a place for that.
pub fn one_fork()
    ensures keys { fork_keys forked_once ≡ record { segment = 0; event = 2 } ∷ [] }
    ensures last { end_key forked_once 2 ≡ record { segment = 2; event = 100 } }
    ensures segments { (layout forked_once 40 1).segments ≡ 3 }
{}

/// The grid has the multiples of its stride strictly between a segment's start and its stop: of 0 to 2 none, of 2 to 100
/// twice 40 and 80 at a stride of 40, and 50 alone at a stride of 50.
pub fn grids_of_strides()
    ensures forty { grid_keys forked_once 40 ≡ key_at 1 40 ∷ key_at 1 80 ∷ key_at 2 40 ∷ key_at 2 80 ∷ [] }
    ensures fifty { grid_keys forked_once 50 ≡ key_at 1 50 ∷ key_at 2 50 ∷ [] }
    ensures hundred { grid_keys forked_once 100 ≡ [] }
{}

/// Where a branch leaves at a time, the key of the end there has the greatest number that a key can have, and the grids on both
/// sides of the time have all multiples of the stride: only the run tells which numbers it passes before the time.
pub fn one_fork_at_a_time()
    ensures keys { fork_keys forked_at_time ≡ record { segment = 0; event = 16777215 } ∷ [] }
    ensures last { end_key forked_at_time 2 ≡ record { segment = 2; event = 100 } }
    ensures forty { grid_keys forked_at_time 40 ≡ key_at 0 40 ∷ key_at 0 80 ∷ key_at 1 40 ∷ key_at 1 80 ∷ key_at 2 40 ∷ key_at 2 80 ∷ [] }
{}

/// Four keys of the grid have three places in turn, so that the first and the last share theirs; with as many places as
/// keys each has its own.
pub fn places_in_turn()
    ensures first { place_of (layout forked_once 40 3) (key_at 1 40) ≡ Some 1 }
    ensures last { place_of (layout forked_once 40 3) (key_at 2 80) ≡ Some 1 }
    ensures shared { is_sole (layout forked_once 40 3) (key_at 1 40) ≡ false }
    ensures own { is_sole (layout forked_once 40 3) (key_at 2 40) ≡ true }
    ensures each { is_sole (layout forked_once 40 4) (key_at 2 80) ≡ true }
    ensures none { place_of (layout forked_once 40 0) (key_at 1 40) ≡ None }
{}

/// A segment stands on a worker's lane as often as the worker claimed its parent, and the root's first at most once.
pub fn lanes_of_claims()
    ensures first { pushes None [] ≡ 1 }
    ensures child { pushes (Some 0) (3 ∷ 0 ∷ []) ≡ 1 }
    ensures other { pushes (Some 1) (3 ∷ 0 ∷ []) ≡ 0 }
{}
