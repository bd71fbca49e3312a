//! Branches of a study.

ghost use Rattle.std.specs.Prelude.{◌≡◌, IfOk};

use crate::name::Name;
use crate::stop::Stop;
use market_rules::Edit;
use market_types::{Memory, Sequence};
use std::alloc::Global;

/// A run that leaves another at an event number or at a time and goes on with edits.
#[derive(Drop)]
pub struct Branch {
    /// Its name.
    pub name: Name,
    /// The number of the branch that it leaves; 0 for the root itself.
    pub parent: u16,
    /// Where it leaves.
    pub stop: Stop,
    /// What it changes there, in order.
    pub edits: Sequence<Edit>,
}

impl Branch {
    /// An equal branch.
    pub fn copy(&self, alloc: Global) -> Result<Branch, Memory>
        ensures { IfOk result (λ b. b ≡ self.now) }
    {
        let edits = copy_edits(alloc, self.edits.as_slice())?;
        Ok(Branch {
            name: self.name.copy(),
            parent: self.parent,
            stop: self.stop,
            edits: Sequence::new(edits),
        })
    }
}

/// Equal edits in the same order.
pub fn copy_edits(alloc: Global, edits: &[Edit]) -> Result<Vec<Edit>, Memory>
    ensures { IfOk result (λ v. v.items ≡ edits.now) }
{
    let mut copies = Vec::new(alloc);
    for edit in edits {
        let copy = edit.copy(alloc)?;
        copies.push(copy)?;
    }
    Ok(copies)
}
