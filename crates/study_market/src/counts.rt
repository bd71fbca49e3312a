//! The rule of how many traders there are.

ghost use Rattle.std.specs.Prelude.{◌≡◌, ◌==◌, ◌≤◌, ◌<◌, ◌+◌, map, length, Some, IfSome, if◌then◌else◌};
ghost use Rattle.toml.specs.View.{view};
ghost use Rattle.study_market.specs.AgentRules.{count_in as count_found_in, left_after as left_after_of, first_too_many as too_many_in};

use study_file::{Value, is_within, member};

// The count of an entry: 1 where it is left out, none where it is no number.
fn count_in(entry: &Value) -> Option<i64>
    ensures { result ≡ count_found_in (view entry.now) }
{
    match entry.as_table() {
        Some(agent) => match member(agent, "count") {
            Some(count) => count.as_integer(),
            None => Some(1),
        },
        None => None,
    }
}

// How many of so many traders are left after an entry, where its count is from 1 to so many.
fn left_after(left: u32, entry: &Value) -> Option<u32>
    ensures left { result ≡ left_after_of left (view entry.now) }
    ensures less { IfSome result (λ rest. rest < left) }
{
    match count_in(entry) {
        Some(count) => {
            if is_within(1, u64::from(left), count) {
                Some(left - count.unsigned_abs() as u32)
            } else {
                None
            }
        }
        None => None,
    }
}

// The place of the first entry whose count isn't from 1 to what is left of all.
fn first_too_many(left: u32, place: u32, entries: &[Value]) -> Option<u32>
    requires few { left + place ≤ 511 }
    ensures { result ≡ too_many_in left place (map view entries.now) }
{
    match entries.split_first() {
        Some((entry, rest)) => match left_after(left, entry) {
            Some(left) => first_too_many(left, place + 1, rest),
            None => Some(place),
        },
        None => None,
    }
}

/// The first entry at which there are more than 511 traders or whose count is none; the first place where there is no entry.
pub fn counts_broken(entries: &[Value]) -> Option<u32>
    ensures { result ≡ (if length (map view entries.now) == 0 then Some 0 else too_many_in 511 0 (map view entries.now)) }
{
    if entries.is_empty() {
        return Some(0);
    }
    first_too_many(511, 0, entries)
}
