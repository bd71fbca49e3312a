//! The frames that begin and end a bundle and begin a branch.

ghost use Rattle.std.specs.Prelude.{◌≡◌, ◌<◌, ◌++◌, length, OnOk, OnErr};
ghost use Rattle.bundle_frames.specs.Frames.{branch_frame, header_frame, end_frame};

use crate::frames;
use itch_codec::{frame, frame_of_two};
use market_types::Memory;

/// Appends the header of a bundle, for so many agents with the exchange, stocks and branches.
#[tactic(auto, unfolding(crate::specs::Frames::header_frame))]
pub fn put_header(out: &mut Vec<u8>, agents: u16, stocks: u16, branches: u16) -> Result<(), Memory>
    ensures appended { OnOk result (out.new.items ≡ out.old.items ++ header_frame agents stocks branches) }
    ensures refused { OnErr result (out.new.items ≡ out.old.items) }
{
    frame(&frames::header(agents, stocks, branches), out)
}

/// Appends the frame of a branch of this name: its number, its parent's, 65,535 for the root, and its stop.
#[tactic(auto, unfolding(crate::specs::Frames::branch_frame))]
pub fn put_branch(
    out: &mut Vec<u8>,
    branch: u16,
    parent: u16,
    stop: u32,
    name: &[u8],
) -> Result<(), Memory>
    requires { length name.now < 256 }
    ensures appended { OnOk result (out.new.items ≡ out.old.items ++ branch_frame branch parent stop name.now) }
    ensures refused { OnErr result (out.new.items ≡ out.old.items) }
{
    frame_of_two(&frames::branch_head(branch, parent, stop, name), name, out)
}

/// Appends the end of a bundle, after so many branches.
#[tactic(auto, unfolding(crate::specs::Frames::end_frame))]
pub fn put_end(out: &mut Vec<u8>, branches: u16) -> Result<(), Memory>
    ensures appended { OnOk result (out.new.items ≡ out.old.items ++ end_frame branches) }
    ensures refused { OnErr result (out.new.items ≡ out.old.items) }
{
    frame(&frames::end(branches), out)
}
