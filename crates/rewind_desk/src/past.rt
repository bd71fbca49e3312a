//! Targets that are past their branch's last event.

ghost use Rattle.std.specs.Prelude.{◌≡◌, ◌<◌, All, length};
ghost use Rattle.rewind_desk.specs.Targets.{past_of};

use crate::target::Target;

/// A target that is past its branch's last event.
#[derive(Clone, Copy, PartialEq, Eq, Debug)]
pub struct Past {
    /// The target's index.
    pub index: usize,
    /// The number of the branch's last event.
    pub last: u32,
}

/// The first target whose event is past its branch's last, where these are the numbers of the branches' last events. `None`
/// exactly where no target is: the last event itself is not past.
pub fn first_past(lasts: &[u32], targets: &[Target]) -> Option<Past>
    requires { All (λ t. t.branch < length lasts.now) targets.now }
    ensures { result ≡ past_of lasts.now targets.now }
{
    for (index, target) in targets.iter().enumerate() {
        let last = lasts[usize::from(target.branch)];
        if target.event > last {
            return Some(Past { index, last });
        }
    }
    None
}
