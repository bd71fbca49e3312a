//! Where two traces part.

ghost use Rattle.std.specs.Prelude.{◌≡◌, map, option_map};
ghost use Rattle.market_types.specs.Told.{event_told, entry_told};
ghost use Rattle.study_report.specs.Difference.{events_in, IsNumbered, first_apart, first_difference_of, parted};

use crate::same::same_event;
use market_types::{Entry, Record, Trace};

// The first record of entries, and the entries that follow it.
fn next_event(entries: &[Entry]) -> Option<(&Record, &[Entry])>
    ensures { option_map (λ p. (event_told p.0.now, events_in (map entry_told p.1.now))) result ≡ parted (events_in (map entry_told entries.now)) }
{
    for i in 0..entries.len() {
        if let Entry::Event(event) = &entries[i] {
            return Some((event, &entries[i + 1..]));
        }
    }
    None
}

// The number of the first record that differs from the one at its place among others or stands in one list alone; 0 where there
// is none.
fn first_apart(a: &[Entry], b: &[Entry]) -> u32
    ensures { result ≡ first_apart (events_in (map entry_told a.now)) (events_in (map entry_told b.now)) }
{
    let mut own = a;
    let mut others = b;
    'records: loop {
        match (next_event(own), next_event(others)) {
            (None, None) => return 0,
            (None, Some((other, _))) => return other.number,
            (Some((event, _)), None) => return event.number,
            (Some((event, rest)), Some((other, later))) => {
                if same_event(event, other) {
                    own = rest;
                    others = later;
                } else {
                    return event.number;
                }
            }
        }
    }
}

/// The least event number whose records differ or stand in one trace alone; 0 where there is none. Edits aren't
/// compared. It takes no memory.
pub fn first_difference(a: &Trace, b: &Trace) -> u32
    requires numbered { IsNumbered a.now.list }
    requires others { IsNumbered b.now.list }
    ensures { result ≡ first_difference_of a.now.list b.now.list }
{
    first_apart(a.as_slice(), b.as_slice())
}
