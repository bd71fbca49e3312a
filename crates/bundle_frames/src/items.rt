//! The frames of what happens and of a closing.

use crate::closing::{Closing, ClosingAgent, ClosingCounts, ClosingOrder, ClosingStock};
use crate::events::put_parts_with_feed;
use crate::head::EventHead;
use crate::whole::put_whole;
use crate::written::{Written, put_all};
use crate::{frames, whole};
use itch_codec::{encode_feed, frame, frame_of_two};
use market_types::{EditMark, Entry, Feed, Memory, Record, What};

impl Written for Feed {
    ghost use Rattle.std.specs.Prelude.{◌<◌, ◌^◌};
    ghost use Rattle.bundle_frames.specs.Frames.{message_frame};

    ghost bytes = { message_frame };

    ghost fits = { λ m. m.time < 2 ^ 48 };

    #[tactic(auto, unfolding(crate::specs::Frames::message_frame))]
    fn put(&self, out: &mut Vec<u8>) -> Result<(), Memory> {
        match &self.what {
            What::Add {
                reference,
                side,
                shares,
                stock,
                price,
            } => put_whole(
                out,
                &whole::added(self, *reference, *side, *shares, stock, *price),
            ),
            What::Executed {
                reference,
                shares,
                number,
            } => put_whole(out, &whole::executed(self, *reference, *shares, *number)),
            What::Cancel { reference, shares } => put_whole(
                out,
                &whole::canceled(self, *reference, *shares),
            ),
            What::Delete { reference } => put_whole(out, &whole::deleted(self, *reference)),
            _ => frame(encode_feed(self).as_slice(), out),
        }
    }
}

impl Written for Record {
    ghost use Rattle.market_types.specs.Timely.{AreTimely};
    ghost use Rattle.market_types.specs.Told.{event_told};
    ghost use Rattle.bundle_frames.specs.Frames.{event_frames};

    ghost bytes = { λ e. event_frames (event_told e) };

    ghost fits = { λ e. AreTimely e.before.list × AreTimely e.after.list };

    fn put(&self, out: &mut Vec<u8>) -> Result<(), Memory> {
        let head = EventHead {
            number: self.number,
            time: self.time,
            seq: self.seq,
            from: self.from,
            to: self.to,
            put_back: self.put_back,
            until: self.until,
            fee: self.fee,
        };
        put_parts_with_feed(
            out,
            &head,
            &self.body,
            self.before.as_slice(),
            self.after.as_slice(),
        )
    }
}

impl Written for EditMark {
    ghost use Rattle.market_types.specs.Timely.{AreTimely};
    ghost use Rattle.market_types.specs.Told.{edit_told};
    ghost use Rattle.bundle_frames.specs.Frames.{edit_frames};

    ghost bytes = { λ m. edit_frames (edit_told m) };

    ghost fits = { λ m. AreTimely m.feed.list };

    #[tactic(auto, unfolding(crate::specs::Frames::edit_frame))]
    fn put(&self, out: &mut Vec<u8>) -> Result<(), Memory> {
        frame(&frames::edit_frame(self), out)?;
        put_all(out, self.feed.as_slice())
    }
}

impl Written for Entry {
    ghost use Rattle.market_types.specs.Timely.{IsTimely};
    ghost use Rattle.market_types.specs.Told.{entry_told};
    ghost use Rattle.bundle_frames.specs.Frames.{entry_frames};

    ghost bytes = { λ e. entry_frames (entry_told e) };

    ghost fits = { λ e. IsTimely (entry_told e) };

    fn put(&self, out: &mut Vec<u8>) -> Result<(), Memory> {
        match self {
            Entry::Event(event) => event.put(out),
            Entry::Edit(mark) => mark.put(out),
        }
    }
}

impl Written for ClosingCounts {
    ghost use Rattle.bundle_frames.specs.Frames.{counts_frame};

    ghost bytes = { counts_frame };

    ghost fits = { λ c. Unit {0} };

    #[tactic(auto, unfolding(crate::specs::Frames::counts_frame))]
    fn put(&self, out: &mut Vec<u8>) -> Result<(), Memory> {
        frame(&frames::counts_frame(self), out)
    }
}

impl Written for ClosingStock {
    ghost use Rattle.bundle_frames.specs.Frames.{stock_frame};

    ghost bytes = { stock_frame };

    ghost fits = { λ s. Unit {0} };

    #[tactic(auto, unfolding(crate::specs::Frames::stock_frame))]
    fn put(&self, out: &mut Vec<u8>) -> Result<(), Memory> {
        frame(&frames::stock_frame(self), out)
    }
}

impl Written for ClosingOrder {
    ghost use Rattle.bundle_frames.specs.Frames.{order_frame};

    ghost bytes = { order_frame };

    ghost fits = { λ o. Unit {0} };

    #[tactic(auto, unfolding(crate::specs::Frames::order_frame))]
    fn put(&self, out: &mut Vec<u8>) -> Result<(), Memory> {
        frame(&frames::order_frame(self), out)
    }
}

// A position in shares.
impl Written for i64 {
    ghost use Rattle.bundle_frames.specs.Wires.{position_bytes};

    ghost bytes = { position_bytes };

    ghost fits = { λ p. Unit {0} };

    fn put(&self, out: &mut Vec<u8>) -> Result<(), Memory> {
        out.extend_from_slice(&frames::position(*self))?;
        Ok(())
    }
}

impl Written for ClosingAgent {
    ghost use Rattle.bundle_frames.specs.Frames.{agent_frame, HasFewPositions};

    ghost bytes = { agent_frame };

    ghost fits = { HasFewPositions };

    fn put(&self, out: &mut Vec<u8>) -> Result<(), Memory> {
        let mut positions = Vec::new(*out.allocator());
        put_all(&mut positions, self.positions.as_slice())?;
        frame_of_two(&frames::agent_head(self), &positions, out)
    }
}

impl Written for Closing {
    ghost use Rattle.std.specs.Prelude.{All};
    ghost use Rattle.bundle_frames.specs.Frames.{closing_frames, HasFewPositions};

    ghost bytes = { closing_frames };

    ghost fits = { λ c. All HasFewPositions c.agents };

    fn put(&self, out: &mut Vec<u8>) -> Result<(), Memory> {
        self.counts.put(out)?;
        put_all(out, self.stocks.as_slice())?;
        put_all(out, self.orders.as_slice())?;
        put_all(out, self.agents.as_slice())
    }
}
