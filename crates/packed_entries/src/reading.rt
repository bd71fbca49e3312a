//! What a mark says of the columns.

ghost use Rattle.std.specs.Prelude.{◌≡◌, ◌<◌, ◌+◌, ◌^◌, OnOk};
ghost use Rattle.packed_entries.specs.Entries.{extra_in, extras_in};
ghost use Rattle.packed_entries.specs.Kinds.{is_edit};

use crate::mark::{Extra, Kind, Mark};
use market_types::{Feed, FeedList, Memory};

pub(crate) fn is_edit(kind: Kind) -> bool
    ensures { result ≡ is_edit kind }
{
    matches!(kind, Kind::Edit)
}

pub(crate) fn extras_in(is_more: bool) -> usize
    ensures { result ≡ extras_in is_more }
{
    if is_more { 1 } else { 0 }
}

// The numbers of a mark's entry, from the mark or from the first item here.
pub(crate) fn extra_in(mark: &Mark, extras: &[Extra]) -> Extra
    requires { mark.now.time + mark.now.later < 2 ^ 64 }
    ensures { result ≡ extra_in mark.now extras.now }
{
    if mark.is_more {
        if let Some(extra) = extras.first() {
            return *extra;
        }
    }
    Extra {
        seq: u64::from(mark.seq),
        until: mark.time + u64::from(mark.later),
        fee: 0,
        before: usize::from(mark.before),
        after: usize::from(mark.after),
    }
}

// Makes a list one of these messages, in the memory that it has.
pub(crate) fn fill(list: &mut FeedList, feed: &[Feed]) -> Result<(), Memory>
    ensures { OnOk result (list.new.list ≡ feed.now) }
{
    list.clear();
    for message in feed {
        list.push(*message)?;
    }
    Ok(())
}
