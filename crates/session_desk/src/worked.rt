//! What the definitions say of a small tree. The functions do nothing: each of their clauses is proved by computation.

ghost use Rattle.std.specs.Prelude.{◌≡◌, ◌∷◌, [], true, false, None, Some};
ghost use Rattle.branch_tree.specs.declared.branch.Branch.{Branch};
ghost use Rattle.branch_tree.specs.Worked.{nested};
ghost use Rattle.kernel_copy.specs.Courses.{CourseTold};
ghost use Rattle.session_desk.specs.Session.{is_own};
ghost use Rattle.session_desk.specs.TreeActs.{fork, undo, edit, after_acts};
ghost use Rattle.session_desk.specs.Anchors.{anchor_of, follower_of, shared_count};
ghost use Rattle.session_desk.specs.Worked.{nested_session};

/// A branch of a branch that is still the study's own, with all before it, is its own anchor and shares all its events. Once the
/// branch before it was edited the root is its anchor, and they share the events up to that branch's stop.
pub fn the_anchor_of_a_branch_of_a_branch()
    ensures own { (c : CourseTold) → anchor_of (nested_session c (true ∷ true ∷ true ∷ [])) 2 ≡ 2 }
    ensures alone { (c : CourseTold) → follower_of (nested_session c (true ∷ true ∷ true ∷ [])) 2 ≡ None }
    ensures all { (c : CourseTold) → shared_count (nested_session c (true ∷ true ∷ true ∷ [])) 2 9 ≡ 9 }
    ensures edited { (c : CourseTold) → anchor_of (nested_session c (true ∷ false ∷ true ∷ [])) 2 ≡ 0 }
    ensures follower { (c : CourseTold) → follower_of (nested_session c (true ∷ false ∷ true ∷ [])) 2 ≡ Some 1 }
    ensures late { (c : CourseTold) → shared_count (nested_session c (true ∷ false ∷ true ∷ [])) 2 9 ≡ 6 }
    ensures early { (c : CourseTold) → shared_count (nested_session c (true ∷ false ∷ true ∷ [])) 2 4 ≡ 4 }
{}

/// A branch that was edited is the study's own no more, even with the edits that it had; nor is one that was forked, even in the
/// place of a branch of the study's that was undone.
pub fn branches_that_acts_made_their_own()
    ensures edited { (c : CourseTold) → (after_acts (nested_session c (true ∷ true ∷ true ∷ [])) (edit 1 [] ∷ [])).own ≡ true ∷ false ∷ true ∷ [] }
    ensures undone { (c : CourseTold) (b : Branch) → (after_acts (nested_session c (true ∷ true ∷ true ∷ [])) (fork b ∷ undo ∷ [])).branches ≡ nested }
    ensures forked { (c : CourseTold) (b : Branch) → is_own (after_acts (nested_session c (true ∷ true ∷ true ∷ [])) (undo ∷ fork b ∷ [])) 2 ≡ false }
{}
