//! The frames that only a reopening has.

ghost use Rattle.std.specs.Prelude.{◌≡◌, ◌++◌, OnOk, OnErr};
ghost use Rattle.wire_fields.specs.Wire.{spelling};
ghost use Rattle.reopening_desk.specs.Frames.{cross_frame, part_frame};
ghost use Rattle.reopening_desk.specs.Wires.{cross_wire, part_wire};

use crate::layouts::{CROSS, PART};
use itch_codec::frame;
use market_types::Memory;
use reopen_cross::{Cross, Part};
use wire_fields::{Value, message};

// What an order trades.
fn part_bytes(part: &Part) -> [u8; 14]
    ensures { result ≡ spelling (part_wire part.now) }
{
    message(
        b'f',
        &PART,
        &[
            Value::Side(part.side),
            Value::Number(part.reference),
            Value::Number(u64::from(part.shares)),
        ],
    )
}

// A crossing price with its certificate.
fn cross_bytes(cross: &Cross) -> [u8; 49]
    ensures { result ≡ spelling (cross_wire cross.now) }
{
    message(
        b'k',
        &CROSS,
        &[
            Value::Number(u64::from(cross.price)),
            Value::Number(cross.shares),
            Value::Number(cross.buys),
            Value::Number(cross.sells),
            Value::Number(u64::from(cross.cut)),
            Value::Number(cross.below),
            Value::Number(cross.above),
        ],
    )
}

/// Appends the frame of what an order trades.
#[tactic(auto, unfolding(crate::specs::Frames::part_frame))]
pub fn put_part(out: &mut Vec<u8>, part: &Part) -> Result<(), Memory>
    ensures appended { OnOk result (out.new.items ≡ out.old.items ++ part_frame part.now) }
    ensures refused { OnErr result (out.new.items ≡ out.old.items) }
{
    frame(&part_bytes(part), out)
}

/// Appends the frame of a crossing price with its certificate.
#[tactic(auto, unfolding(crate::specs::Frames::cross_frame))]
pub fn put_cross(out: &mut Vec<u8>, cross: &Cross) -> Result<(), Memory>
    ensures appended { OnOk result (out.new.items ≡ out.old.items ++ cross_frame cross.now) }
    ensures refused { OnErr result (out.new.items ≡ out.old.items) }
{
    frame(&cross_bytes(cross), out)
}
