//! A keeper of a run's events that packs them and adds each to the sums of a table's columns.

ghost use Rattle.std.specs.Prelude.{◌≡◌};

use kernel_core::{EventSeen, Keeper};
use market_types::{FeedList, Memory};
use packed_entries::EventParts;
use probe_desk::Summed;
use std::alloc::Global;

// Entries to which events are appended as they are made.
#[derive(Drop)]
pub(crate) struct SummedEvents {
    pub(crate) summed: Summed,
}

impl Keeper for SummedEvents {
    ghost use Rattle.std.specs.Prelude.{List};
    ghost use Rattle.market_types.specs.Told.{EntryTold};
    ghost use Rattle.kernel_core.specs.Seen.{listed};

    ghost Told = { List EntryTold };

    ghost told = { λ p. p.summed.list };

    ghost with = { listed };

    ghost ready = { λ p. Unit {0} };

    ghost is_sure = { ⊥ };

    fn room(&mut self) -> Result<(), Memory> {
        Ok(())
    }

    fn event(
        &mut self,
        alloc: Global,
        seen: &EventSeen,
        before: &mut FeedList,
        after: &mut FeedList,
    ) -> Result<(), Memory> {
        let _ = alloc;
        self.summed.push_event(&EventParts {
            number: seen.number,
            time: seen.time,
            seq: seen.seq,
            from: seen.from,
            to: seen.to,
            put_back: seen.put_back,
            until: seen.until,
            fee: seen.fee,
            body: seen.body,
            before: before.as_slice(),
            after: after.as_slice(),
        })
    }
}
