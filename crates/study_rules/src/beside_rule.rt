//! A rule of a branch beside those before it.

ghost use Rattle.std.specs.Prelude.{◌≡◌, ◌≤◌, ℕ, not, Bool, List, map, take, length, position};
ghost use Rattle.std.specs.List.{enumerate_from};
ghost use Rattle.toml.specs.Data.{Data};
ghost use Rattle.toml.specs.View.{view};
ghost use Rattle.study_rules.specs.BranchRules.{first_failing_beside as failing_beside};

use study_file::Value;

/// A rule that each branch is to keep beside those before it.
pub trait BesideRule {
    /// Beside which branches a branch keeps it.
    ghost kept_by: { Self → List Data → Data → Bool };

    /// Whether a branch keeps it beside the first so many.
    fn is_kept(&self, branches: &[Value], count: usize, branch: &Value) -> bool
        ensures { result ≡ kept_by self.now (map view (take count branches.now)) (view branch.now) };
}

// The place of the first branch that doesn't keep the rule beside those before it.
fn place_beside<R: BesideRule>(rule: &R, branches: &[Value]) -> Option<usize>
    ensures { result ≡ position (λ (p : ℕ × _). not (R.kept_by rule.now (map view (take p.0 branches.now)) (view p.1))) (enumerate_from 0 branches.now) }
{
    branches
        .iter()
        .enumerate()
        .position(|(at, branch)| !rule.is_kept(branches, at, branch))
}

/// The place of the first of at most 255 branches that doesn't keep the rule beside those before it.
pub fn first_beside<R: BesideRule>(rule: &R, branches: &[Value]) -> Option<u32>
    requires few { length branches.now ≤ 255 }
    ensures { result ≡ failing_beside (R.kept_by rule.now) (map view branches.now) }
{
    match place_beside(rule, branches) {
        Some(at) => {
            let place = at as u32;
            Some(place)
        }
        None => None,
    }
}
