//! The frame that bytes begin with.

ghost use Rattle.std.specs.Prelude.{◌≡◌, ◌<◌, ℕ, List, IfOk, Ok, Err, IfErr, length};
ghost use Rattle.bundle_reader.specs.declared.frame.Frame.{Frame as FrameOf};
ghost use Rattle.bundle_reader.specs.Frames.{Begins};
ghost use Rattle.bundle_reader.specs.Next.{Fails, Follows};

use crate::frame::Frame;
use crate::payload::read_payload;
use itch_codec::unframe;
use market_types::Memory;
use std::alloc::Global;

/// Why bytes begin with no frame.
#[derive(Clone, Copy, PartialEq, Eq, Debug)]
pub enum FrameError {
    /// There are fewer bytes than a length, or than the length says.
    Cut,
    /// What stands behind the length is no frame.
    Bad,
    /// Want of memory.
    Memory,
}

impl From<Memory> for FrameError {
    ghost use Rattle.bundle_reader.specs.declared.next.FrameError.TheVariants as error;

    ghost from_gives = { λ _ e. e ≡ error.Memory };

    fn from(_refused: Memory) -> FrameError {
        FrameError::Memory
    }
}

/// The frame that these bytes begin with, and what follows it, in a bundle of so many stocks, where that is known.
///
/// # Errors
/// `Cut` exactly where a frame is cut, `Bad` exactly where what stands behind the length is no frame, `Memory`.
pub fn next_frame(
    alloc: Global,
    stocks: Option<u16>,
    bytes: &[u8],
) -> Result<(Frame, &[u8]), FrameError>
    ensures frame { IfOk result (λ p. Begins stocks bytes.now p.0 p.1.now) }
    ensures failed { IfErr result (Fails stocks bytes.now) }
    ensures only { (f : FrameOf) (rest : List ℕ) → Begins stocks bytes.now f rest → Follows f rest result }
    ensures shorter { IfOk result (λ p. length p.1.now < length bytes.now) }
{
    let Ok((payload, rest)) = unframe(bytes) else {
        return Err(FrameError::Cut);
    };
    match read_payload(alloc, stocks, payload)? {
        Some(frame) => Ok((frame, rest)),
        None => Err(FrameError::Bad),
    }
}
