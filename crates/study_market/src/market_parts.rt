//! What the top table says of the market.

ghost use Rattle.std.specs.Prelude.{◌≡◌, ◌<◌, None, true, length, codes};
ghost use Rattle.std.specs.List.{list_all};
ghost use Rattle.toml.specs.View.{table_view};
ghost use Rattle.study_file.specs.Keys.{is_hex_digit};
ghost use Rattle.study_market.specs.MarketRules.{start_of, close_of, exchange_of, key_broken as rule_3, limits_broken as rule_5, squares_broken as rule_7, exchange_broken as rule_9};
ghost use Rattle.study_market.specs.Entries.{natural_at as natural_of};
ghost use Rattle.study_market.specs.Market.{hex_value as hex_value_of, hex_bytes, key_of};
ghost use Rattle.study_market.specs.Opening.{limit_of, stride_of, takes_hidden_orders};

use crate::entries::natural_at;
use market_types::Time;
use study_file::{Table, number_or, string_at, table_at};

/// When the market opens, in nanoseconds past midnight.
pub fn start(table: &Table) -> Time
    ensures { result ≡ start_of (table_view table.now) }
{
    natural_at(table, "open")
}

/// When the market closes, in nanoseconds past midnight.
pub fn close(table: &Table) -> Time
    ensures { result ≡ close_of (table_view table.now) }
{
    natural_at(table, "close")
}

/// The most events of a run.
pub fn limit(table: &Table) -> u32
    requires { rule_5 (table_view table.now) ≡ None }
    ensures { result ≡ limit_of (table_view table.now) }
{
    natural_at(table, "events") as u32
}

/// Whether hidden orders are taken: in a study of version 2.
pub fn takes_hidden_orders(table: &Table) -> bool
    ensures { result ≡ takes_hidden_orders (table_view table.now) }
{
    natural_at(table, "version") == 2
}

/// Each how many events a run keeps a copy of itself, of a study whose limits are in their ranges.
pub fn stride(table: &Table) -> u32
    requires { rule_5 (table_view table.now) ≡ None }
    ensures { result ≡ stride_of (table_view table.now) }
{
    number_or(table, "stride", 10_000).unsigned_abs() as u32
}

// The value of a digit of lower-case hexadecimal.
fn hex_value(digit: u8) -> u8
    requires { is_hex_digit digit ≡ true }
    ensures value { result ≡ hex_value_of digit }
    ensures small { result < 16 }
{
    if matches!(digit, b'0'..=b'9') {
        digit - b'0'
    } else {
        digit - b'a' + 10
    }
}

// The 32 bytes that 64 such digits say.
fn key_bytes(text: &[u8]) -> [u8; 32]
    requires length { length text.now ≡ 64 }
    requires digits { list_all is_hex_digit text.now ≡ true }
    ensures { result ≡ hex_bytes text.now }
{
    let mut key = [0; 32];
    for i in 0..32 {
        key[i] = hex_value(text[2 * i]) * 16 + hex_value(text[2 * i + 1]);
    }
    key
}

/// The key of the draws.
pub fn key(table: &Table) -> [u8; 32]
    requires { rule_3 (table_view table.now) ≡ None }
    ensures { result ≡ key_of (table_view table.now) }
{
    key_bytes(string_at(table, "key").as_bytes())
}

/// The number at a key of the exchange, which isn't negative; 0 where there is none.
pub fn exchange_natural(table: &Table, key: &str) -> u64
    ensures { result ≡ natural_of key.now (exchange_of (table_view table.now)) }
{
    match table_at(table, "exchange") {
        Some(exchange) => natural_at(exchange, key),
        None => 0,
    }
}

/// The exchange's latency group, of a study whose latencies are square and whose exchange keeps its rule.
pub fn exchange_group(table: &Table) -> u8
    requires square { rule_7 (table_view table.now) ≡ None }
    requires exchange { rule_9 (table_view table.now) ≡ None }
    ensures { result ≡ natural_of (codes "group") (exchange_of (table_view table.now)) }
{
    exchange_natural(table, "group") as u8
}
