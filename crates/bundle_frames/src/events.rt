//! Events written straight from what they tell, where it stands.

ghost use Rattle.std.specs.Prelude.{◌≡◌, ◌<◌, ◌+◌, ◌++◌, [], OnOk, OnErr};
ghost use Rattle.market_types.specs.declared.message.Body.TheVariants as message;
ghost use Rattle.market_types.specs.Timely.{AreTimely};
ghost use Rattle.wire_fields.specs.Wire.{spelling};
ghost use Rattle.itch_codec.specs.Frames.{framed};
ghost use Rattle.bundle_frames.specs.Frames.{event_frame, event_frames};
ghost use Rattle.bundle_frames.specs.Heads.{headed};
ghost use Rattle.bundle_frames.specs.Wires.{head_wire};

use crate::bodies::{accepted, cancel, canceled, enter, executed, quote, rejected, system};
use crate::head::EventHead;
use crate::whole::{event, put_whole};
use crate::written::put_all;
use market_types::{Body, Feed, Inbound, Memory, Reply};

// Appends an event with a body of these bytes, of which this letter tells the kind.
fn put_event<const B: usize, const N: usize>(
    out: &mut Vec<u8>,
    h: &EventHead,
    letter: u8,
    body: &[u8; B],
) -> Result<(), Memory>
    requires short { B < 65493 }
    requires size { N ≡ 45 + B }
    ensures appended { OnOk result (out.new.items ≡ out.old.items ++ framed (spelling (head_wire h.now letter) ++ body.now)) }
    ensures refused { OnErr result (out.new.items ≡ out.old.items) }
{
    put_whole(out, &event::<B, N>(h, letter, body))
}

// Appends an event that brings a reply of the exchange.
fn put_answer(out: &mut Vec<u8>, h: &EventHead, reply: &Reply) -> Result<(), Memory>
    ensures appended { OnOk result (out.new.items ≡ out.old.items ++ event_frame (headed h.now (message.Answer reply.now) [] [])) }
    ensures refused { OnErr result (out.new.items ≡ out.old.items) }
{
    match reply {
        Reply::System { time, code } => put_event::<10, 55>(out, h, b'o', &system(*time, *code)),
        Reply::Accepted {
            time,
            token,
            side,
            shares,
            stock,
            price,
            tif,
            firm,
            display,
            reference,
            capacity,
            sweep,
            minimum,
            cross,
            state,
            bbo,
        } => {
            let body = accepted(
                *time, token, *side, *shares, stock, *price, *tif, firm, *display, *reference,
                *capacity, *sweep, *minimum, *cross, *state, *bbo,
            );
            put_event::<66, 111>(out, h, b'o', &body)
        }
        Reply::Canceled {
            time,
            token,
            decrement,
            reason,
        } => put_event::<28, 73>(out, h, b'o', &canceled(*time, token, *decrement, *reason)),
        Reply::Executed {
            time,
            token,
            shares,
            price,
            flag,
            number,
        } => {
            let body = executed(*time, token, *shares, *price, *flag, *number);
            put_event::<40, 85>(out, h, b'o', &body)
        }
        Reply::Rejected {
            time,
            token,
            reason,
        } => put_event::<24, 69>(out, h, b'o', &rejected(*time, token, *reason)),
    }
}

/// Appends an event without its feed: its head, and the body of its message.
pub fn put_parts(out: &mut Vec<u8>, head: &EventHead, body: &Body) -> Result<(), Memory>
    ensures appended { OnOk result (out.new.items ≡ out.old.items ++ event_frame (headed head.now body.now [] [])) }
    ensures refused { OnErr result (out.new.items ≡ out.old.items) }
{
    match body {
        Body::Wake => put_event::<0, 45>(out, head, b'w', &[]),
        Body::Order(Inbound::Enter(m)) => put_event::<49, 94>(out, head, b'i', &enter(m)),
        Body::Order(Inbound::Cancel(m)) => put_event::<19, 64>(out, head, b'i', &cancel(m)),
        Body::Answer(reply) => put_answer(out, head, reply),
        Body::Ask(stock) => put_event::<2, 47>(out, head, b'a', &stock.to_be_bytes()),
        Body::Quote(q) => put_event::<31, 76>(out, head, b'q', &quote(q)),
    }
}

/// Appends an event with its feed: the feed of the dated changes that came with it, its head and the body of its message, and
/// its own feed. What stands in `out` after want of memory is left open.
pub fn put_parts_with_feed(
    out: &mut Vec<u8>,
    head: &EventHead,
    body: &Body,
    before: &[Feed],
    after: &[Feed],
) -> Result<(), Memory>
    requires before { AreTimely before.now }
    requires after { AreTimely after.now }
    ensures { OnOk result (out.new.items ≡ out.old.items ++ event_frames (headed head.now body.now before.now after.now)) }
{
    put_all(out, before)?;
    put_parts(out, head, body)?;
    put_all(out, after)
}
