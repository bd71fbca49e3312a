//! Lists of branches.

ghost use Rattle.std.specs.Prelude.{◌≡◌, ◌++◌, ◌∷◌, [], false, true, IfOk, OnOk, OnErr, length, replicate};
ghost use Rattle.branch_tree.specs.Tree.{IsRooted, plan_refusal};

use branch_tree::{Branch, PlanError, plan};
use market_types::Memory;
use std::alloc::Global;

// Equal branches.
pub(crate) fn copies(alloc: Global, branches: &[Branch]) -> Result<Vec<Branch>, Memory>
    ensures { IfOk result (λ v. v.items ≡ branches.now) }
{
    let mut copied = Vec::new(alloc);
    for branch in branches {
        let Ok(copy) = branch.copy(alloc) else {
            drop(copied);
            return Err(Memory);
        };
        let Ok(()) = copied.push(copy) else {
            drop(copied);
            return Err(Memory);
        };
    }
    Ok(copied)
}

// So many branches, all the study's own.
pub(crate) fn all_own(alloc: Global, count: usize) -> Result<Vec<bool>, Memory>
    ensures { IfOk result (λ v. v.items ≡ replicate count true) }
{
    let own = vec![in alloc; true; count]?;
    Ok(own)
}

// Branches with one more behind them.
fn with_one_more(alloc: Global, branches: &[Branch], branch: &Branch) -> Result<Vec<Branch>, Memory>
    ensures { IfOk result (λ v. v.items ≡ branches.now ++ branch.now ∷ []) }
{
    let Ok(mut more) = copies(alloc, branches) else {
        return Err(Memory);
    };
    let Ok(copy) = branch.copy(alloc) else {
        drop(more);
        return Err(Memory);
    };
    let Ok(()) = more.push(copy) else {
        drop(more);
        return Err(Memory);
    };
    Ok(more)
}

// Why these branches with one more behind them are no tree, as their plan says.
pub(crate) fn refusal_with(
    alloc: Global,
    branches: &[Branch],
    branch: &Branch,
    limit: u32,
) -> Result<Option<PlanError>, Memory>
    requires { IsRooted branches.now }
    ensures { IfOk result (λ r. r ≡ plan_refusal (branches.now ++ branch.now ∷ []) limit) }
{
    let Ok(more) = with_one_more(alloc, branches, branch) else {
        return Err(Memory);
    };
    match plan(alloc, more, limit) {
        Ok(plan) => {
            drop(plan);
            Ok(None)
        }
        Err(PlanError::Memory) => Err(Memory),
        Err(refusal) => Ok(Some(refusal)),
    }
}

// A branch joins the others, and it is none of the study's.
pub(crate) fn push_both(
    branches: &mut Vec<Branch>,
    own: &mut Vec<bool>,
    branch: Branch,
) -> Result<(), Memory>
    ensures branches { OnOk result (branches.new.items ≡ branches.old.items ++ branch ∷ []) }
    ensures own { OnOk result (own.new.items ≡ own.old.items ++ false ∷ []) }
    ensures branches_refused { OnErr result (branches.new.items ≡ branches.old.items) }
    ensures own_refused { OnErr result (own.new.items ≡ own.old.items) }
{
    if own.push(false).is_err() {
        return Err(Memory);
    }
    match branches.push(branch) {
        Ok(()) => Ok(()),
        Err(_) => {
            let _ = own.pop();
            Err(Memory)
        }
    }
}
