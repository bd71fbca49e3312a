//! A keeper of a run's events that writes their frames.

ghost use Rattle.std.specs.Prelude.{◌≡◌};

use bundle_frames::{EventHead, put_parts_with_feed};
use kernel_core::{EventSeen, Keeper};
use market_types::{FeedList, Memory};
use std::alloc::Global;

// About as many bytes as an event's frames have.
const EVENT_SIZE: u32 = 100;

// For so many events room is made at once.
const EVENTS_AHEAD: u32 = 65_536;

// The bytes of the frames of entries, one after another.
#[derive(Drop)]
pub(crate) struct FrameBytes {
    pub(crate) bytes: Vec<u8>,
}

impl FrameBytes {
    // Makes room for the frames of so many events that may come, unless there is so much already. That is a hint: without it the
    // bytes grow as they come.
    pub(crate) fn expect(&mut self, events: u32)
        ensures { self.new.bytes.items ≡ self.old.bytes.items }
    {
        let size = (EVENT_SIZE * events.min(EVENTS_AHEAD)) as usize;
        if self.bytes.capacity() < size {
            let _ = self.bytes.reserve(size);
        }
    }
}

impl Keeper for FrameBytes {
    ghost use Rattle.std.specs.Prelude.{ℕ, List};
    ghost use Rattle.kernel_copy.specs.Kept.{with_event_frames};

    ghost Told = { List ℕ };

    ghost told = { λ f. f.bytes.items };

    ghost with = { with_event_frames };

    ghost ready = { λ f. Unit {0} };

    ghost is_sure = { ⊥ };

    fn room(&mut self) -> Result<(), Memory> {
        Ok(())
    }

    fn event(
        &mut self,
        alloc: Global,
        seen: &EventSeen,
        before: &mut FeedList,
        after: &mut FeedList,
    ) -> Result<(), Memory> {
        let _ = alloc;
        let head = EventHead {
            number: seen.number,
            time: seen.time,
            seq: seen.seq,
            from: seen.from,
            to: seen.to,
            put_back: seen.put_back,
            until: seen.until,
            fee: seen.fee,
        };
        put_parts_with_feed(
            &mut self.bytes,
            &head,
            seen.body,
            before.as_slice(),
            after.as_slice(),
        )
    }
}
