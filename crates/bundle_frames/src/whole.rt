//! Whole frames as arrays, their two bytes of length included: those that a run writes most.
//!
//! The fields are written at the offsets of their layout, so that a frame costs a few moves and one copy. What a layout is
//! stands in its table of kinds alone: the clause of each function says that its array is the spelling of a wire, whose
//! kinds are that table's.

ghost use Rattle.std.specs.Prelude.{◌≡◌, ◌<◌, ◌^◌, ◌+◌, ◌++◌, ◌∷◌, OnOk, OnErr};
ghost use Rattle.market_types.specs.declared.feed.What.TheVariants as what;
ghost use Rattle.wire_fields.specs.Numbers.{number_bytes};
ghost use Rattle.wire_fields.specs.Values.{number};
ghost use Rattle.wire_fields.specs.Wire.{spelling};
ghost use Rattle.itch_codec.specs.Frames.{framed};
ghost use Rattle.itch_codec.specs.Messages.{what_wire};
ghost use Rattle.bundle_frames.specs.Wires.{head_wire};

use crate::frames::event_head;
use crate::head::EventHead;
use market_types::{Feed, Memory, Side, Symbol};
use wire_fields::side_letter;

// Appends a whole frame. With a length that the compiler knows, it costs a few moves and no call.
pub(crate) fn put_whole<const N: usize>(out: &mut Vec<u8>, frame: &[u8; N]) -> Result<(), Memory>
    ensures appended { OnOk result (out.new.items ≡ out.old.items ++ frame.now) }
    ensures refused { OnErr result (out.new.items ≡ out.old.items) }
{
    out.extend_from_slice(frame)?;
    Ok(())
}

// An event with a body of these bytes, of which this letter tells the kind.
pub(crate) fn event<const B: usize, const N: usize>(
    h: &EventHead,
    letter: u8,
    body: &[u8; B],
) -> [u8; N]
    requires short { B < 65493 }
    requires size { N ≡ 45 + B }
    ensures { result ≡ framed (spelling (head_wire h.now letter) ++ body.now) }
{
    let mut frame = [0; N];
    let bytes = &mut frame[..];
    bytes[0..2].copy_from_slice(&((43 + B) as u16).to_be_bytes());
    bytes[2..45].copy_from_slice(&event_head(h, letter));
    bytes[45..N].copy_from_slice(body);
    frame
}

// The length of a message of the feed, its letter, and what each message begins with.
fn feed_start(m: &Feed, size: u16, letter: u8) -> [u8; 13]
    ensures { result ≡ number_bytes 2 size ++ (letter ∷ number_bytes 2 m.now.locate ++ number_bytes 2 m.now.tracking ++ number_bytes 6 m.now.time) }
{
    let mut start = [0; 13];
    start[0..2].copy_from_slice(&size.to_be_bytes());
    start[2] = letter;
    start[3..5].copy_from_slice(&m.locate.to_be_bytes());
    start[5..7].copy_from_slice(&m.tracking.to_be_bytes());
    start[7..13].copy_from_slice(&m.time.to_be_bytes()[2..8]);
    start
}

pub(crate) fn added(
    m: &Feed,
    reference: u64,
    side: Side,
    shares: u32,
    stock: &Symbol,
    price: u32,
) -> [u8; 38]
    ensures { result ≡ framed (spelling (what_wire (number m.now.locate) (number m.now.tracking) (number m.now.time) (what.Add reference side shares stock.now price))) }
{
    let mut frame = [0; 38];
    frame[0..13].copy_from_slice(&feed_start(m, 36, b'A'));
    frame[13..21].copy_from_slice(&reference.to_be_bytes());
    frame[21] = side_letter(side);
    frame[22..26].copy_from_slice(&shares.to_be_bytes());
    frame[34..38].copy_from_slice(&price.to_be_bytes());
    frame[26..34].copy_from_slice(&stock.0);
    frame
}

pub(crate) fn executed(m: &Feed, reference: u64, shares: u32, match_number: u64) -> [u8; 33]
    ensures { result ≡ framed (spelling (what_wire (number m.now.locate) (number m.now.tracking) (number m.now.time) (what.Executed reference shares match_number))) }
{
    let mut frame = [0; 33];
    frame[0..13].copy_from_slice(&feed_start(m, 31, b'E'));
    frame[13..21].copy_from_slice(&reference.to_be_bytes());
    frame[21..25].copy_from_slice(&shares.to_be_bytes());
    frame[25..33].copy_from_slice(&match_number.to_be_bytes());
    frame
}

pub(crate) fn canceled(m: &Feed, reference: u64, shares: u32) -> [u8; 25]
    ensures { result ≡ framed (spelling (what_wire (number m.now.locate) (number m.now.tracking) (number m.now.time) (what.Cancel reference shares))) }
{
    let mut frame = [0; 25];
    frame[0..13].copy_from_slice(&feed_start(m, 23, b'X'));
    frame[13..21].copy_from_slice(&reference.to_be_bytes());
    frame[21..25].copy_from_slice(&shares.to_be_bytes());
    frame
}

pub(crate) fn deleted(m: &Feed, reference: u64) -> [u8; 21]
    ensures { result ≡ framed (spelling (what_wire (number m.now.locate) (number m.now.tracking) (number m.now.time) (what.Delete reference))) }
{
    let mut frame = [0; 21];
    frame[0..13].copy_from_slice(&feed_start(m, 19, b'D'));
    frame[13..21].copy_from_slice(&reference.to_be_bytes());
    frame
}
