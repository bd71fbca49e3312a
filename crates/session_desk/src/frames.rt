//! The frames of answers.

ghost use Rattle.std.specs.Prelude.{◌≡◌, ◌<◌, ◌++◌, ◌∷◌, OnOk, OnErr, length};
ghost use Rattle.std.specs.Int.{cast_unsigned, w128};
ghost use Rattle.std.specs.List.{flat_map};
ghost use Rattle.wire_fields.specs.Numbers.{number_bytes};
ghost use Rattle.bundle_frames.specs.Frames.{branch_frame};
ghost use Rattle.branch_tree.specs.Plan.{branch_at};
ghost use Rattle.trace_bundle.specs.Bundle.{head_of, parent_written};
ghost use Rattle.session_desk.specs.Session.{standing};
ghost use Rattle.session_desk.specs.Answered.{value_frame};

use crate::Session;
use branch_tree::Stop;
use bundle_frames::put_branch;
use itch_codec::frame;
use plain_lists::Memory;

/// Appends the frame of a branch of the tree with this event number as its stop. The root's parent is written as 65,535.
pub fn put_head(out: &mut Vec<u8>, session: &Session, branch: u16, stop: u32) -> Result<(), Memory>
    requires { branch < length session.now.branches }
    ensures { OnOk result (out.new.items ≡ out.old.items ++ branch_frame branch (parent_written (standing session.now) branch) stop (branch_at session.now.branches branch).name) }
{
    let b = &session.tree()[usize::from(branch)];
    let _ = b.name.len();
    let parent = if branch == 0 { u16::MAX } else { b.parent };
    put_branch(out, branch, parent, stop, b.name.as_slice())
}

/// Appends the frame of a branch of the tree with its own stop.
pub fn put_own_head(out: &mut Vec<u8>, session: &Session, branch: u16) -> Result<(), Memory>
    requires { branch < length session.now.branches }
    ensures { OnOk result (out.new.items ≡ out.old.items ++ head_of (standing session.now) branch) }
{
    match session.tree()[usize::from(branch)].stop {
        Stop::At(events) => put_head(out, session, branch, events),
        Stop::When(_) => unreachable!(),
    }
}

// A probe's value behind its letter.
fn value_bytes(value: &i128) -> [u8; 17]
    ensures { result ≡ (118 ∷ number_bytes 16 (cast_unsigned w128 value.now)) }
{
    let mut bytes = [0; 17];
    bytes[0] = b'v';
    bytes[1..17].copy_from_slice(&value.cast_unsigned().to_be_bytes());
    bytes
}

/// Appends the frame of a probe's value.
#[tactic(auto, unfolding(crate::specs::Answered::value_frame))]
pub fn put_value(out: &mut Vec<u8>, value: &i128) -> Result<(), Memory>
    ensures appended { OnOk result (out.new.items ≡ out.old.items ++ value_frame value.now) }
    ensures refused { OnErr result (out.new.items ≡ out.old.items) }
{
    frame(&value_bytes(value), out)
}

/// Appends the frame of each of these values in order.
pub fn put_values(out: &mut Vec<u8>, values: &[i128]) -> Result<(), Memory>
    ensures { OnOk result (out.new.items ≡ out.old.items ++ flat_map value_frame values.now) }
{
    for value in values {
        put_value(out, value)?;
    }
    Ok(())
}
