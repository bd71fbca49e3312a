//! Where what is read is put.

use market_types::{Body, EditMark, FeedList, Record};
use std::alloc::Global;

/// A record to read events into. It takes no memory yet.
pub fn blank_event(alloc: Global) -> Record {
    Record {
        number: 0,
        time: 0,
        seq: 0,
        from: 0,
        to: 0,
        put_back: false,
        until: 0,
        fee: 0,
        body: Body::Wake,
        before: FeedList::new(alloc),
        after: FeedList::new(alloc),
    }
}

/// A mark to read edits into. It takes no memory yet.
pub fn blank_edit(alloc: Global) -> EditMark {
    EditMark {
        events: 0,
        time: 0,
        branch: 0,
        index: 0,
        letter: 0,
        feed: FeedList::new(alloc),
    }
}
