//! Branches of a session's tree by their names.

ghost use Rattle.std.specs.Prelude.{◌≡◌, ◌<◌, length, IfSome};
ghost use Rattle.rewind_desk.specs.Targets.{has_name, branch_of};
ghost use Rattle.session_desk.specs.Session.{IsSession};

use crate::Session;
use branch_tree::{Branch, Name};

fn has_name(branch: &Branch, name: &Name) -> bool
    ensures { result ≡ has_name name.now branch.now }
{
    branch.name.as_slice() == name.as_slice()
}

// The place of the first branch of a name.
fn place_named(branches: &[Branch], name: &Name) -> Option<usize>
    ensures first { result ≡ branch_of branches.now name.now }
    ensures within { IfSome result (λ i. i < length branches.now) }
{
    branches.iter().position(|branch| has_name(branch, name))
}

/// The number of the branch of this name in the tree as it stands.
pub fn branch_named(session: &Session, name: &Name) -> Option<u16>
    ensures named { result ≡ branch_of session.now.branches name.now }
    ensures exists { IfSome result (λ b. b < length session.now.branches) }
    ensures session { IsSession session.now }
{
    let place = place_named(session.tree(), name)?;
    Some(place as u16)
}
