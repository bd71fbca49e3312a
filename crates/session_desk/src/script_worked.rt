//! What the definitions say of a few acts over a small tree. The functions do nothing: each of their clauses is proved by
//! computation.

ghost use Rattle.std.specs.Prelude.{◌≡◌, ◌∷◌, [], None, Some, codes, negsuc, pos};
ghost use Rattle.session_desk.specs.declared.act.Act.TheVariants as act;
ghost use Rattle.session_desk.specs.Acting.{number_in, after_all};
ghost use Rattle.session_desk.specs.Answered.{session_bytes, value_frame};
ghost use Rattle.session_desk.specs.Counted.{all_reached};
ghost use Rattle.session_desk.specs.Refused.{act_refused};
ghost use Rattle.session_desk.specs.ScriptWorked.{early_session, small_session, fork_at, no_edits};

/// A branch is there until an act undoes it, and from the act on that forks it.
pub fn branches_come_and_go()
    ensures there { act_refused small_session (act.Values (codes "y") ∷ act.Undo ∷ act.Rewind (codes "x") 6 ∷ []) ≡ None }
    ensures undone { act_refused small_session (act.Undo ∷ act.Values (codes "y") ∷ []) ≡ Some 1 }
    ensures forked { act_refused small_session (fork_at (codes "v") (codes "r") 2 ∷ act.Rewind (codes "v") 4 ∷ []) ≡ None }
    ensures unforked { act_refused small_session (act.Close (codes "v") ∷ fork_at (codes "v") (codes "r") 2 ∷ []) ≡ Some 0 }
    ensures number { number_in (after_all small_session (act.Undo ∷ fork_at (codes "v") (codes "x") 6 ∷ [])) (codes "v") ≡ 2 }
{}

/// The root is neither undone nor edited, and the plan refuses a fork of no branch, before its parent's stop, past the limit of
/// events, or under the name of another branch.
pub fn the_tree_refuses()
    ensures undo { act_refused small_session (act.Undo ∷ act.Undo ∷ act.Undo ∷ []) ≡ Some 2 }
    ensures edit { act_refused small_session (no_edits (codes "x") ∷ no_edits (codes "r") ∷ []) ≡ Some 1 }
    ensures parent { act_refused small_session (fork_at (codes "v") (codes "w") 2 ∷ []) ≡ Some 0 }
    ensures early { act_refused small_session (fork_at (codes "v") (codes "x") 5 ∷ []) ≡ Some 0 }
    ensures late { act_refused small_session (fork_at (codes "v") (codes "x") 101 ∷ []) ≡ Some 0 }
    ensures twice { act_refused small_session (act.Undo ∷ fork_at (codes "y") (codes "r") 2 ∷ fork_at (codes "y") (codes "r") 3 ∷ []) ≡ Some 2 }
{}

/// A probe's value in its frame; and acts that ask for nothing are answered by their number alone.
pub fn frames_of_answers()
    ensures positive { value_frame (pos 258) ≡ (0 ∷ 17 ∷ 118 ∷ 0 ∷ 0 ∷ 0 ∷ 0 ∷ 0 ∷ 0 ∷ 0 ∷ 0 ∷ 0 ∷ 0 ∷ 0 ∷ 0 ∷ 0 ∷ 0 ∷ 1 ∷ 2 ∷ []) }
    ensures negative { value_frame (negsuc 1) ≡ (0 ∷ 17 ∷ 118 ∷ 255 ∷ 255 ∷ 255 ∷ 255 ∷ 255 ∷ 255 ∷ 255 ∷ 255 ∷ 255 ∷ 255 ∷ 255 ∷ 255 ∷ 255 ∷ 255 ∷ 255 ∷ 254 ∷ []) }
    ensures changes { session_bytes [] small_session (act.Undo ∷ no_edits (codes "x") ∷ []) ≡ (0 ∷ 3 ∷ 122 ∷ 0 ∷ 2 ∷ []) }
{}

/// What is left to run where each state is kept: nothing of a branch that is the study's own, with all before it on its path. Of one
/// that an act forked, or that has an edited branch on its path, the events behind the stop of the first such branch; and where
/// no state is kept, all.
pub fn steps_to_answers()
    ensures own { all_reached (λ b e. e) early_session (act.Rewind (codes "y") 3 ∷ []) ≡ 0 }
    ensures edited { all_reached (λ b e. e) early_session (no_edits (codes "y") ∷ act.Rewind (codes "y") 3 ∷ []) ≡ 1 }
    ensures before { all_reached (λ b e. e) early_session (no_edits (codes "x") ∷ act.Rewind (codes "y") 3 ∷ act.Rewind (codes "y") 1 ∷ []) ≡ 2 }
    ensures forked { all_reached (λ b e. e) early_session (act.Undo ∷ fork_at (codes "y") (codes "x") 2 ∷ act.Rewind (codes "y") 3 ∷ []) ≡ 1 }
    ensures opening { all_reached (λ b e. 0) early_session (act.Rewind (codes "y") 3 ∷ no_edits (codes "x") ∷ act.Rewind (codes "y") 2 ∷ []) ≡ 5 }
{}
