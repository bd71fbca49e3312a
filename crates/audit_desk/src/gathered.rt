//! The feed of a branch, in the order of the file.

ghost use Rattle.std.specs.Prelude.{◌≡◌, ◌++◌, IfOk, OnOk, map};
ghost use Rattle.market_types.specs.Told.{entry_told};
ghost use Rattle.bundle_reader.specs.Told.{branch_told};
ghost use Rattle.feed_rebuild.specs.Feeds.{entries_feed, entry_feed};
ghost use Rattle.audit_desk.specs.Audited.{branch_feed};

use bundle_reader::Told;
use market_types::{Entry, FeedList, Memory};
use std::alloc::Global;

// Appends an entry's part of the feed.
fn append_entry(feed: &mut FeedList, entry: &Entry) -> Result<(), Memory>
    ensures { OnOk result (feed.new.list ≡ feed.old.list ++ entry_feed (entry_told entry.now)) }
{
    match entry {
        Entry::Event(record) => {
            feed.append_copy(&record.before)?;
            feed.append_copy(&record.after)
        }
        Entry::Edit(mark) => feed.append_copy(&mark.feed),
    }
}

// Appends the parts of all entries, one after another.
fn append_entries(feed: &mut FeedList, entries: &[Entry]) -> Result<(), Memory>
    ensures { OnOk result (feed.new.list ≡ feed.old.list ++ entries_feed (map entry_told entries.now)) }
{
    for entry in entries {
        append_entry(feed, entry)?;
    }
    Ok(())
}

/// A branch's feed: that of its opening, that of its entries, and the message that ends it.
pub fn gather(alloc: Global, branch: &Told) -> Result<FeedList, Memory>
    ensures { IfOk result (λ feed. feed.list ≡ branch_feed (branch_told branch.now)) }
{
    let mut feed = branch.opening.copy(alloc)?;
    append_entries(&mut feed, branch.entries.as_slice())?;
    feed.push(branch.ended)?;
    Ok(feed)
}
