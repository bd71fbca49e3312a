//! The rules of the top table, of the exchange and of the latencies.

ghost use Rattle.std.specs.Prelude.{◌≡◌, ◌&&◌, ◌==◌, map, length, [], None};
ghost use Rattle.std.specs.List.{list_all};
ghost use Rattle.toml.specs.View.{table_view, view};
ghost use Rattle.study_file.specs.Keys.{has_keys as keys_in};
ghost use Rattle.study_market.specs.Forms.{exchange_keys, latency_keys};
ghost use Rattle.study_file.specs.Values.{list_in as items_in};
ghost use Rattle.study_market.specs.MarketRules.{top_keys_broken as rule_1, version_broken as rule_2, is_key as key_text, key_broken as rule_3, day_broken as rule_4, limits_broken as rule_5, exchange_of, latency_of, parts_broken as rule_6, bases as bases_of, jitters as jitters_of, is_square as square, squares_broken as rule_7, cells_broken as rule_8, is_group as group_of, size_of, is_exchange as exchange_in, exchange_broken as rule_9, span_of};

use crate::cells::cell_outside;
use crate::forms::{EXCHANGE_KEYS, LATENCY_KEYS, TOP_KEYS};
use study_file::{
    Table, Value, broken_key, broken_unless, has_between, has_keys, is_between, is_hex, list_at,
    list_in, number_at, number_or, string_at, table_at,
};

/// The least place at which a study hasn't its top keys with their types and no other: the key's number, or 99.
pub fn top_keys_broken(table: &Table) -> Option<u32>
    ensures { result ≡ rule_1 (table_view table.now) }
{
    broken_key(table, "", &TOP_KEYS)
}

/// Whether the version is neither 1 nor 2.
pub fn version_broken(table: &Table) -> Option<u32>
    ensures { result ≡ rule_2 (table_view table.now) }
{
    broken_unless(has_between(table, "version", 1, 2), 0)
}

// Whether a text has 64 digits of lower-case hexadecimal.
fn is_key(text: &str) -> bool
    ensures { result ≡ key_text text.now }
{
    text.len() == 64 && is_hex(text)
}

/// Whether the key of the draws hasn't 64 digits of lower-case hexadecimal.
pub fn key_broken(table: &Table) -> Option<u32>
    ensures { result ≡ rule_3 (table_view table.now) }
{
    broken_unless(is_key(string_at(table, "key")), 0)
}

/// Whether the market doesn't open and then close within one day.
pub fn day_broken(table: &Table) -> Option<u32>
    ensures { result ≡ rule_4 (table_view table.now) }
{
    let opens = number_at(table, "open");
    let closes = number_at(table, "close");
    broken_unless(
        0 <= opens && opens <= closes && closes <= 86_399_999_999_999,
        0,
    )
}

/// Which of the most events, place 0, and the stride, place 1, is out of its range.
pub fn limits_broken(table: &Table) -> Option<u32>
    ensures { result ≡ rule_5 (table_view table.now) }
{
    if !has_between(table, "events", 1, 1_000_000) {
        return Some(0);
    }
    broken_unless(
        is_between(100, 1_000_000, number_or(table, "stride", 10_000)),
        1,
    )
}

fn has_exchange_keys(table: &Table) -> bool
    ensures { result ≡ keys_in [] exchange_keys (exchange_of (table_view table.now)) }
{
    match table_at(table, "exchange") {
        Some(exchange) => has_keys(exchange, "", &EXCHANGE_KEYS),
        None => false,
    }
}

fn has_latency_keys(table: &Table) -> bool
    ensures { result ≡ keys_in [] latency_keys (latency_of (table_view table.now)) }
{
    match table_at(table, "latency") {
        Some(latency) => has_keys(latency, "", &LATENCY_KEYS),
        None => false,
    }
}

/// Which of the exchange, place 0, and the latencies, place 1, hasn't its keys with their types and no other.
pub fn parts_broken(table: &Table) -> Option<u32>
    ensures { result ≡ rule_6 (table_view table.now) }
{
    if !has_exchange_keys(table) {
        return Some(0);
    }
    broken_unless(has_latency_keys(table), 1)
}

/// The rows of the base latencies.
pub fn bases(table: &Table) -> &[Value]
    ensures { map view result.now ≡ bases_of (table_view table.now) }
{
    match table_at(table, "latency") {
        Some(latency) => list_at(latency, "base"),
        None => &[],
    }
}

/// The rows of the jitters.
pub fn jitters(table: &Table) -> &[Value]
    ensures { map view result.now ≡ jitters_of (table_view table.now) }
{
    match table_at(table, "latency") {
        Some(latency) => list_at(latency, "jitter"),
        None => &[],
    }
}

fn row_length(row: &Value) -> usize
    ensures { result ≡ length (items_in (view row.now)) }
{
    list_in(row).len()
}

fn each_has_length(size: usize, rows: &[Value]) -> bool
    ensures { result ≡ list_all (λ v. length (items_in (view v)) == size) rows.now }
{
    rows.iter().all(|row| row_length(row) == size)
}

fn are_square(size: usize, rows: &[Value]) -> bool
    ensures { result ≡ (length rows.now == size && list_all (λ v. length (items_in (view v)) == size) rows.now) }
{
    rows.len() == size && each_has_length(size, rows)
}

// Whether there are so many rows, each of so many numbers.
fn is_square(size: usize, rows: &[Value]) -> bool
    ensures { result ≡ square size (map view rows.now) }
{
    are_square(size, rows)
}

// How many groups of agents the latencies are for.
fn group_count(table: &Table) -> usize
    ensures { result ≡ size_of (table_view table.now) }
{
    bases(table).len()
}

/// Whether the rows of the latencies aren't square with one size from 1 to 32.
pub fn squares_broken(table: &Table) -> Option<u32>
    ensures { result ≡ rule_7 (table_view table.now) }
{
    let size = group_count(table);
    broken_unless(
        1 <= size && size <= 32 && is_square(size, bases(table)) && is_square(size, jitters(table)),
        0,
    )
}

/// Whether the group that a table names is one of so many.
pub fn is_group(size: u32, table: &Table) -> bool
    ensures { result ≡ group_of size (table_view table.now) }
{
    let group = number_at(table, "group");
    0 <= group && group < i64::from(size)
}

/// How many groups there are, where the latencies are square.
pub fn group_number(table: &Table) -> u32
    requires { rule_7 (table_view table.now) ≡ None }
    ensures { result ≡ size_of (table_view table.now) }
{
    group_count(table) as u32
}

/// The least place at which a base latency or a jitter is out of its range.
pub fn cells_broken(table: &Table) -> Option<u32>
    requires { rule_7 (table_view table.now) ≡ None }
    ensures { result ≡ rule_8 (table_view table.now) }
{
    match cell_outside(3_600_000_000_000, 0, bases(table)) {
        Some(place) => Some(place),
        None => cell_outside(4_294_967_295, 1024, jitters(table)),
    }
}

fn is_exchange(size: u32, table: &Table) -> bool
    ensures { result ≡ exchange_in size (exchange_of (table_view table.now)) }
{
    match table_at(table, "exchange") {
        Some(exchange) => is_group(size, exchange)
            && has_between(exchange, "delay", 0, 3_600_000_000_000),
        None => 0 < size,
    }
}

/// Whether the exchange's group is none of the latencies' or its delay is out of its range.
pub fn exchange_broken(table: &Table) -> Option<u32>
    requires { rule_7 (table_view table.now) ≡ None }
    ensures { result ≡ rule_9 (table_view table.now) }
{
    broken_unless(is_exchange(group_number(table), table), 0)
}

/// How many nanoseconds the market is open.
pub fn span(table: &Table) -> u64
    ensures { result ≡ span_of (table_view table.now) }
{
    number_at(table, "close")
        .unsigned_abs()
        .saturating_sub(number_at(table, "open").unsigned_abs())
}
