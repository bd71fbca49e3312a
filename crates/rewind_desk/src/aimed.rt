//! The targets of marks.

ghost use Rattle.std.specs.Prelude.{◌≡◌, IfOk, option_map};
ghost use Rattle.rewind_desk.specs.Targets.{aimed_at, target_of};

use crate::named::branch_named;
use crate::target::Target;
use branch_tree::BranchPlan;
use command_words::Mark;
use plain_lists::{Memory, Sequence};
use std::alloc::Global;

/// What the marks of a rewind come to.
#[derive(Drop)]
pub enum Aimed {
    /// The target of each mark, in order.
    At(Sequence<Target>),
    /// No branch has the name in the mark of this index, the first of which that is so.
    NoBranch(usize),
}

// The target of a mark, where a branch has its name.
fn target(plan: &BranchPlan, mark: &Mark<'_>) -> Option<Target>
    ensures { result ≡ target_of plan.now.branches mark.now }
{
    let branch = branch_named(plan, mark.branch.as_str().as_bytes())?;
    Some(Target {
        branch,
        event: mark.event,
    })
}

/// The targets of marks, or the first mark whose branch the plan hasn't.
///
/// # Errors
/// Want of memory alone.
pub fn aim(alloc: Global, plan: &BranchPlan, marks: &[Mark<'_>]) -> Result<Aimed, Memory>
    ensures { IfOk result (λ aimed. aimed ≡ aimed_at plan.now.branches marks.now) }
{
    let mut targets = Vec::new(alloc);
    for (i, mark) in marks.iter().enumerate() {
        let Some(target) = target(plan, mark) else {
            return Ok(Aimed::NoBranch(i));
        };
        targets.push(target)?;
    }
    Ok(Aimed::At(Sequence::new(targets)))
}
