//! One frame without its length.

ghost use Rattle.std.specs.Prelude.{◌≡◌, IfSome, IfOk, Some, None, if◌then◌else◌};
ghost use Rattle.bundle_reader.specs.Heads.{IsLed};
ghost use Rattle.bundle_reader.specs.declared.frame.Frame.{Frame as FrameOf};
ghost use Rattle.bundle_reader.specs.Frames.{IsFrame};
ghost use Rattle.bundle_reader.specs.Parts.{IsOf, is_none};

use crate::frame::Frame;
use crate::{Head, parts, read_head};
use itch_codec::decode_feed;
use market_types::Memory;
use std::alloc::Global;

/// The frame whose bytes behind the length these are, in a bundle of so many stocks, where that is known. `None` exactly
/// where they are no frame: another letter, another length or a field out of its range.
///
/// # Errors
/// Want of memory alone.
pub fn read_payload(
    alloc: Global,
    stocks: Option<u16>,
    payload: &[u8],
) -> Result<Option<Frame>, Memory>
    ensures frame { IfOk result (λ o. IfSome o (IsFrame stocks payload.now)) }
    ensures only { (f : FrameOf) → IsFrame stocks payload.now f → IfOk result (λ o. o ≡ Some f) }
{
    if let Ok(message) = decode_feed(payload) {
        return Ok(Some(Frame::Message(message)));
    }
    match read_head(payload) {
        None => Ok(None),
        Some((head, rest)) => headed(alloc, stocks, &head, rest, payload),
    }
}

// The frame of a head and of what follows it.
fn headed(
    alloc: Global,
    stocks: Option<u16>,
    head: &Head,
    rest: &[u8],
    payload: &[u8],
) -> Result<Option<Frame>, Memory>
    requires { IsLed payload.now head.now rest.now }
    ensures frame { IfOk result (λ o. IfSome o (IsOf stocks head.now rest.now)) }
    ensures only { (f : FrameOf) → IsOf stocks head.now rest.now f → IfOk result (λ o. o ≡ Some f) }
{
    Ok(match head {
        Head::Header(h) => parts::header(h, rest),
        Head::Branch(h) => parts::branch(h, rest),
        Head::Event(h) => parts::event(h, rest, &payload[42..]),
        Head::Edit(h) => alone(Frame::Edit(*h), rest),
        Head::Counts(h) => alone(Frame::Counts(*h), rest),
        Head::Stock(h) => parts::stock(h, rest),
        Head::Order(h) => alone(Frame::Order(*h), rest),
        Head::Agent(h) => return parts::agent(alloc, stocks, h, rest),
        Head::Waiting(h) => parts::waiting(h, rest, &payload[21..]),
        Head::End(branches) => alone(Frame::End(*branches), rest),
    })
}

// A frame that nothing follows.
fn alone(frame: Frame, rest: &[u8]) -> Option<Frame>
    ensures { result ≡ (if is_none rest.now then Some frame else None) }
{
    if rest.is_empty() { Some(frame) } else { None }
}
