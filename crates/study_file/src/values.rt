//! What the tables of a study say.

ghost use Rattle.std.specs.Prelude.{◌≡◌, pos, map, codes};
ghost use Rattle.std.specs.Str.{bytes_eq};
ghost use Rattle.toml.specs.View.{table_view, view};
ghost use Rattle.study_file.specs.Values.{number_in as number_of, list_in as items_in, number_or as whole_or, number_at as whole_at, string_at as string_of, list_at as items_at, is_between as between, has_between as between_at, broken_unless as place_unless};

use crate::look::{array_at, integer_at, text_at};
use toml::{Table, Value};

/// The number at a key, and the default where there is none.
pub fn number_or(table: &Table, key: &str, default: i64) -> i64
    ensures { result ≡ whole_or default key.now (table_view table.now) }
{
    match integer_at(table, key) {
        Some(number) => number,
        None => default,
    }
}

/// The number at a key, and 0 where there is none.
pub fn number_at(table: &Table, key: &str) -> i64
    ensures { result ≡ whole_at key.now (table_view table.now) }
{
    number_or(table, key, 0)
}

/// The text at a key, and the empty one where there is none.
pub fn string_at<'a>(table: &'a Table, key: &str) -> &'a str
    ensures { result.now ≡ string_of key.now (table_view table.now) }
{
    match text_at(table, key) {
        Some(text) => text,
        None => "",
    }
}

/// The items of the array at a key, and none where there is no array.
pub fn list_at<'a>(table: &'a Table, key: &str) -> &'a [Value]
    ensures { map view result.now ≡ items_at key.now (table_view table.now) }
{
    match array_at(table, key) {
        Some(array) => array.as_slice(),
        None => &[],
    }
}

/// The number of a value, and 0 where it is none.
pub fn number_in(value: &Value) -> i64
    ensures { result ≡ number_of (view value.now) }
{
    match value.as_integer() {
        Some(number) => number,
        None => 0,
    }
}

/// The items of a value, and none where it is no array.
pub fn list_in(value: &Value) -> &[Value]
    ensures { map view result.now ≡ items_in (view value.now) }
{
    match value.as_array() {
        Some(array) => array.as_slice(),
        None => &[],
    }
}

/// Whether a number is from the low to the high one.
pub fn is_between(low: i64, high: i64, number: i64) -> bool
    ensures { result ≡ between low high number }
{
    low <= number && number <= high
}

/// Whether a number is from 0 to the high one.
pub fn is_at_most(high: u64, number: i64) -> bool
    ensures { result ≡ between (pos 0) (pos high) number }
{
    0 <= number && number as u64 <= high
}

/// Whether the number at a key is from the low to the high one.
pub fn has_between(table: &Table, key: &str, low: i64, high: i64) -> bool
    ensures { result ≡ between_at low high key.now (table_view table.now) }
{
    is_between(low, high, number_at(table, key))
}

/// The place, where the rule is broken there.
pub fn broken_unless(holds: bool, place: u32) -> Option<u32>
    ensures { result ≡ place_unless holds place }
{
    if holds { None } else { Some(place) }
}

/// Whether a number is from the low to the high one, neither of which is negative.
pub fn is_within(low: u64, high: u64, number: i64) -> bool
    ensures { result ≡ between (pos low) (pos high) number }
{
    is_at_most(high, number) && low <= number as u64
}

/// Whether the kind of a table, the text at its key `kind`, is this.
pub fn is_kind(table: &Table, word: &str) -> bool
    ensures { result ≡ bytes_eq (string_of (codes "kind") (table_view table.now)) word.now }
{
    string_at(table, "kind") == word
}

/// Whether a study is of version 2.
pub fn is_second_version(table: &Table) -> bool
    ensures { result ≡ between_at (pos 2) (pos 2) (codes "version") (table_view table.now) }
{
    has_between(table, "version", 2, 2)
}
