//! Bundles and why bytes are none.

ghost use Rattle.std.specs.Prelude.{◌≡◌, ◌<◌, ℕ, List, length, IfOk, IfErr};
ghost use Rattle.bundle_reader.specs.declared.frame.Frame.{Frame as FrameOf};
ghost use Rattle.bundle_reader.specs.Frames.{Begins};
ghost use Rattle.bundle_reader.specs.Told.{BundleTold, bundle_told, reading_told};
ghost use Rattle.bundle_reader.specs.Order.{stocks_known};
ghost use Rattle.bundle_reader.specs.Bundle.{IsBundle, bundle_bytes};
ghost use Rattle.bundle_reader.specs.Reads.{Gives, More, Only, Stops};

use crate::reading::{Misplaced, Reading};
use crate::{FrameError, next_frame};
use branch_tree::Name;
use bundle_frames::Closing;
use market_types::{Feed, FeedList, Sequence, Trace};
use std::alloc::Global;

/// A branch as a bundle tells it.
#[derive(Drop)]
pub struct Told {
    pub name: Name,
    /// The parent's number; 65,535 for the root.
    pub parent: u16,
    /// Events before its stop.
    pub stop: u32,
    /// The feed of the opening.
    pub opening: FeedList,
    pub entries: Trace,
    /// The system event after the entries.
    pub ended: Feed,
    pub closing: Closing,
}

/// What a bundle tells.
#[derive(Drop)]
pub struct Bundle {
    /// Agents with the exchange.
    pub agents: u16,
    pub stocks: u16,
    /// The branches in order of number, from 0.
    pub branches: Sequence<Told>,
}

/// Why bytes are no bundle: the first reason in the order of the bytes. An offset is that of a frame's length.
#[derive(Clone, Copy, PartialEq, Eq, Debug)]
pub enum BundleError {
    /// A frame is cut: so many bytes are left from its length on.
    Cut(usize),
    /// What stands at this offset is no frame.
    BadFrame(usize),
    /// The frame at this offset may not stand there, or bytes follow the last frame.
    BadOrder(usize),
    /// Want of memory.
    Memory,
}

/// The bundle that these bytes are, in one pass. What is written of a bundle is read back as it was, with one exception: the
/// trading action (`H`) that stands first before an event is read as that of the edit with the letter `h` or `r` that it
/// follows at once, where it has the edit's time and the edit has none.
///
/// # Errors
/// `Cut`, `BadFrame` and `BadOrder`, the first that applies in the order of the bytes, and `Memory`.
pub fn read_bundle(alloc: Global, bytes: &[u8]) -> Result<Bundle, BundleError>
    ensures told { IfOk result (λ b. bytes.now ≡ bundle_bytes (bundle_told b)) }
    ensures bundle { IfOk result (λ b. IsBundle (bundle_told b)) }
    ensures stopped { IfErr result (Stops bytes.now) }
    ensures only { (b : BundleTold) → IsBundle b → bytes.now ≡ bundle_bytes b → Gives b result }
{
    let mut reading = Reading::Start;
    let mut rest = bytes;
    while !reading.is_whole() {
        let offset = bytes.len() - rest.len();
        let (next, after) = read_more(alloc, reading, rest, offset)?;
        reading = next;
        rest = after;
    }
    if !rest.is_empty() {
        drop(reading);
        return Err(BundleError::BadOrder(bytes.len() - rest.len()));
    }
    match reading.bundle() {
        Some(bundle) => Ok(bundle),
        None => Err(BundleError::BadOrder(bytes.len())),
    }
}

// Reads one frame more, which begins at this offset.
fn read_more(
    alloc: Global,
    reading: Reading,
    rest: &[u8],
    offset: usize,
) -> Result<(Reading, &[u8]), BundleError>
    ensures more { More (reading_told reading) rest.now offset result }
    ensures only { (f : FrameOf) (after : List ℕ) → Begins (stocks_known (reading_told reading)) rest.now f after → Only (reading_told reading) f after result }
    ensures shorter { IfOk result (λ p. length p.1.now < length rest.now) }
{
    let (frame, after) = match next_frame(alloc, reading.stocks(), rest) {
        Ok(read) => read,
        Err(FrameError::Cut) => {
            drop(reading);
            return Err(BundleError::Cut(rest.len()));
        }
        Err(FrameError::Bad) => {
            drop(reading);
            return Err(BundleError::BadFrame(offset));
        }
        Err(FrameError::Memory) => {
            drop(reading);
            return Err(BundleError::Memory);
        }
    };
    match reading.take(alloc, frame) {
        Ok(next) => Ok((next, after)),
        Err(Misplaced::Order) => Err(BundleError::BadOrder(offset)),
        Err(Misplaced::Memory) => Err(BundleError::Memory),
    }
}
