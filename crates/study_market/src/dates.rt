//! The rule of the dates of changes.

ghost use Rattle.std.specs.Prelude.{◌≡◌, ◌≤◌, ◌+◌, map, length};
ghost use Rattle.toml.specs.View.{view};
ghost use Rattle.study_market.specs.ChangeRules.{time_in as time_of, first_before as before_in};

use market_types::Time;
use study_file::{Value, is_within, number_at};

// The time of a change.
fn time_in(change: &Value) -> i64
    ensures { result ≡ time_of (view change.now) }
{
    match change.as_table() {
        Some(change) => number_at(change, "time"),
        None => 0,
    }
}

/// The place of the first change that is before the earliest time, after the close, or before the one before it, where the first
/// of these changes stands at a place. Times are in nanoseconds past midnight.
pub fn first_before(earliest: Time, close: Time, place: u32, changes: &[Value]) -> Option<u32>
    requires few { place + length changes.now ≤ 1024 }
    ensures { result ≡ before_in earliest close place (map time_of (map view changes.now)) }
{
    match changes.split_first() {
        Some((change, rest)) => {
            let time = time_in(change);
            if is_within(earliest, close, time) {
                first_before(time.unsigned_abs(), close, place + 1, rest)
            } else {
                Some(place)
            }
        }
        None => None,
    }
}
