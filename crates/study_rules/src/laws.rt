//! What the version of a study says of its branches, and what its edits may speak of.

ghost use Rattle.std.specs.Prelude.{◌≡◌, ℕ, false, List, Option, None, Ok, All};
ghost use Rattle.toml.specs.Data.{Members};
ghost use Rattle.branch_tree.specs.declared.branch.Branch.{Branch};
ghost use Rattle.branch_tree.specs.Stops.{is_time};
ghost use Rattle.study_rules.specs.BranchRules.{has_times, branch_keys_broken};
ghost use Rattle.study_rules.specs.Branches.{branches_of};
ghost use Rattle.study_rules.specs.Scope.{scope_of, scope_of_opening};
ghost use Rattle.study_rules.specs.Accepted.{StudyTold, study_of};

/// In a study of another version than 2 whose branches have their keys, none leaves its parent at a time.
pub fn first_version_has_no_times()
    ensures { (t : Members) → has_times t ≡ false → branch_keys_broken t ≡ None → All (λ (b : Branch). is_time b.stop ≡ false) (branches_of t) }
{}

/// What edits may speak of is the same by the entries of an accepted study and by what its runs start from.
pub fn both_scopes_agree()
    ensures { (t : Members) (series : Option (List ℕ)) (s : StudyTold) → study_of t series ≡ Ok s → scope_of_opening s.course.opening ≡ scope_of t }
{}
