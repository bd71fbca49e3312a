//! Branches that leave their parents at event numbers.

ghost use Rattle.std.specs.Prelude.{◌≡◌, true, false, All};
ghost use Rattle.branch_tree.specs.Stops.{is_time};

use branch_tree::BranchPlan;

/// Whether all branches of a plan leave their parents at event numbers, as a session asks for.
pub fn forks_by_number(plan: &BranchPlan) -> bool
    ensures numbers { result ≡ true → All (λ b. is_time b.stop ≡ false) plan.now.branches }
    ensures times { result ≡ false → ¬ (All (λ b. is_time b.stop ≡ false) plan.now.branches) }
{
    let branches = plan.branches();
    for branch in branches {
        if branch.stop.is_time() {
            return false;
        }
    }
    true
}
