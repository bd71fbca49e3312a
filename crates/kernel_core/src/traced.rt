//! The trace takes each event as an entry.

use crate::keeper::{EventSeen, Keeper};
use market_types::{Entry, FeedList, Memory, Record, Trace};
use std::alloc::Global;
use std::mem::replace;

impl Keeper for Trace {
    ghost use Rattle.std.specs.Prelude.{◌<◌, List};
    ghost use Rattle.market_types.specs.Told.{EntryTold};
    ghost use Rattle.kernel_core.specs.Seen.{listed};

    ghost Told = { List EntryTold };

    ghost told = { λ t. t.list };

    ghost with = { listed };

    ghost ready = { λ t. 0 < t.spare };

    ghost is_sure = { Unit {0} };

    fn room(&mut self) -> Result<(), Memory> {
        self.reserve(1)
    }

    fn event(
        &mut self,
        alloc: Global,
        seen: &EventSeen,
        before: &mut FeedList,
        after: &mut FeedList,
    ) -> Result<(), Memory> {
        let before = replace(before, FeedList::new(alloc));
        let after = replace(after, FeedList::new(alloc));
        self.put(Entry::Event(Record {
            number: seen.number,
            time: seen.time,
            seq: seen.seq,
            from: seen.from,
            to: seen.to,
            put_back: seen.put_back,
            until: seen.until,
            fee: seen.fee,
            body: *seen.body,
            before,
            after,
        }));
        Ok(())
    }
}
