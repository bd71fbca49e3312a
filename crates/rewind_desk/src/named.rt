//! Branches by their names.

ghost use Rattle.std.specs.Prelude.{◌≡◌, ◌<◌, length, IfSome};
ghost use Rattle.rewind_desk.specs.Targets.{has_name, branch_of};

use branch_tree::{Branch, BranchPlan};

fn has_name(branch: &Branch, name: &[u8]) -> bool
    ensures { result ≡ has_name name.now branch.now }
{
    branch.name.as_slice() == name
}

/// The place of the first of these branches that has a name, byte for byte.
pub fn place_named(branches: &[Branch], name: &[u8]) -> Option<usize>
    ensures first { result ≡ branch_of branches.now name.now }
    ensures within { IfSome result (λ i. i < length branches.now) }
{
    branches.iter().position(|branch| has_name(branch, name))
}

/// The number of the branch of this name. `None` exactly where no branch of the plan has it, byte for byte.
pub fn branch_named(plan: &BranchPlan, name: &[u8]) -> Option<u16>
    ensures named { result ≡ branch_of plan.now.branches name.now }
    ensures exists { IfSome result (λ b. b < length plan.now.branches) }
{
    let place = place_named(plan.branches(), name)?;
    Some(place as u16)
}
