//! A keeper of a run's events that tallies their frames.

ghost use Rattle.std.specs.Prelude.{◌≡◌, ◌*◌, ◌^◌, ◌≤◌, IfOk};
ghost use Rattle.kernel_copy.specs.Tallies.{tally_of};

use crate::tally::{Tally, total};
use bundle_frames::{EventHead, put_parts_with_feed};
use kernel_core::{EventSeen, Keeper};
use market_types::{FeedList, Memory};
use std::alloc::Global;
use std::marker::Model;

// So many bytes are counted and let go before an event is taken, if as many wait.
const WAITING: usize = 65_536;

// No more bytes are counted.
const MOST_COUNTED: u128 = 0x1_0000_0000_0000_0000;

/// How many bytes frames have, and their sum, where the frames come one after another: bytes are counted and let go as soon as
/// 64 KiB of them wait for it.
#[derive(Drop)]
pub struct Tallied {
    // The tally of the bytes that were let go.
    counted: Tally,
    waiting: Vec<u8>,
}

impl Model for Tallied {
    ghost use Rattle.kernel_copy.specs.Tallies.{IsCounted, tally_with};
    ghost use Rattle.kernel_copy.specs.declared.tally.Tally.{Tally};

    ghost Value = { Tally };

    ghost view = { λ t. tally_with t.counted t.waiting.items };

    ghost invariant = { λ t. IsCounted t.counted };
}

impl Tallied {
    /// The tally of these bytes.
    pub(crate) fn of(bytes: Vec<u8>) -> Tallied
        ensures { result ≡ tally_of bytes.items }
    {
        Tallied {
            counted: Tally::new(),
            waiting: bytes,
        }
    }

    /// The tally of all bytes.
    ///
    /// # Errors
    /// `Memory` where there are more than 2^64 bytes, which no memory holds.
    pub fn tally(&self) -> Result<Tally, Memory>
        ensures value { IfOk result (λ t. t ≡ self.now) }
        ensures few { IfOk result (λ t. t.count ≤ 2 ^ 64) }
        ensures small { IfOk result (λ t. t.total ≤ 255 * t.count) }
    {
        let count = self.counted.count + self.waiting.len() as u128;
        if count > MOST_COUNTED {
            return Err(Memory);
        }
        Ok(Tally {
            count,
            total: self.counted.total + total(&self.waiting),
        })
    }

    // Counts the bytes that wait, and lets them go.
    fn count_waiting(&mut self) -> Result<(), Memory>
        ensures { self.new ≡ self.old }
    {
        self.counted = self.tally()?;
        self.waiting.clear();
        Ok(())
    }
}

impl Keeper for Tallied {
    ghost use Rattle.kernel_copy.specs.Kept.{with_event_tally};
    ghost use Rattle.kernel_copy.specs.declared.tally.Tally.{Tally};

    ghost Told = { Tally };

    ghost told = { λ t. t };

    ghost with = { with_event_tally };

    ghost ready = { λ t. Unit {0} };

    ghost is_sure = { ⊥ };

    fn room(&mut self) -> Result<(), Memory> {
        if self.waiting.len() < WAITING {
            return Ok(());
        }
        self.count_waiting()
    }

    fn event(
        &mut self,
        alloc: Global,
        seen: &EventSeen,
        before: &mut FeedList,
        after: &mut FeedList,
    ) -> Result<(), Memory> {
        let _ = alloc;
        let head = EventHead {
            number: seen.number,
            time: seen.time,
            seq: seen.seq,
            from: seen.from,
            to: seen.to,
            put_back: seen.put_back,
            until: seen.until,
            fee: seen.fee,
        };
        put_parts_with_feed(
            &mut self.waiting,
            &head,
            seen.body,
            before.as_slice(),
            after.as_slice(),
        )
    }
}
