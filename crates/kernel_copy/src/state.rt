//! The frames of a kernel's state.

ghost use Rattle.std.specs.Prelude.{◌≡◌, ◌++◌, All, IfOk, OnOk};
ghost use Rattle.bundle_frames.specs.Frames.{HasFewPositions, closing_frames, waiting_frames};
ghost use Rattle.kernel_core.specs.Step.{Fits};
ghost use Rattle.kernel_copy.specs.States.{state_frames_of};

use crate::closing_of;
use bundle_frames::{Closing, Written, put_all};
use kernel_core::Kernel;
use market_floor::Opening;
use market_types::{Memory, Message};
use std::alloc::Global;

// Appends the frames of a closing, and then one for each message.
fn put_state(out: &mut Vec<u8>, closing: &Closing, messages: &[Message]) -> Result<(), Memory>
    requires { All HasFewPositions closing.now.agents }
    ensures { OnOk result (out.new.items ≡ (out.old.items ++ closing_frames closing.now) ++ waiting_frames messages.now) }
{
    closing.put(out)?;
    put_all(out, messages)
}

/// The frames of a state: those of its closing, and then one for each message that waits, in order of time and, at one time,
/// of number.
///
/// # Errors
/// Want of memory alone.
pub fn state_frames(alloc: Global, o: &Opening, kernel: &Kernel) -> Result<Vec<u8>, Memory>
    requires { Fits o.now kernel.now }
    ensures { IfOk result (λ v. v.items ≡ state_frames_of o.now kernel.now) }
{
    let closing = closing_of(alloc, o, kernel)?;
    let Ok(messages) = kernel.messages(alloc) else {
        drop(closing);
        return Err(Memory);
    };
    let mut out = Vec::new(alloc);
    let put = put_state(&mut out, &closing, messages.as_slice());
    drop(closing);
    drop(messages);
    let Ok(()) = put else {
        drop(out);
        return Err(Memory);
    };
    Ok(out)
}
