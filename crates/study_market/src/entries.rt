//! What entries say as plain numbers.

ghost use Rattle.std.specs.Prelude.{◌≡◌, ◌≤◌, ◌<◌, pos, map, length, position, is_some, IfSome};
ghost use Rattle.std.specs.Str.{bytes_eq};
ghost use Rattle.toml.specs.View.{table_view, view};
ghost use Rattle.study_file.specs.Tables.{is_named};
ghost use Rattle.study_file.specs.Values.{has_between};
ghost use Rattle.study_market.specs.StockRules.{symbol_in};
ghost use Rattle.study_market.specs.Entries.{natural_at as natural_of, place_of};

use crate::stock::stock_symbol;
use market_types::StockNo;
use study_file::{Table, Value, is_within, number_at};

/// The number at a key, which isn't negative; 0 where there is none.
pub fn natural_at(table: &Table, key: &str) -> u64
    ensures { result ≡ natural_of key.now (table_view table.now) }
{
    number_at(table, key).unsigned_abs()
}

/// The number at a key, where it is from the low to the high one.
pub fn natural_between(table: &Table, key: &str, low: u64, high: u64) -> Option<u64>
    ensures kept { is_some result ≡ has_between (pos low) (pos high) key.now (table_view table.now) }
    ensures said { IfSome result (λ number. number ≡ natural_of key.now (table_view table.now)) }
    ensures high { IfSome result (λ number. number ≤ high) }
{
    let number = number_at(table, key);
    if is_within(low, high, number) {
        Some(number.unsigned_abs())
    } else {
        None
    }
}

// The place of the stock of a symbol, in the list of the entries.
fn position_of(stocks: &[Value], symbol: &str) -> Option<usize>
    ensures { result ≡ position (λ v. bytes_eq (symbol_in (view v)) symbol.now) stocks.now }
{
    stocks
        .iter()
        .position(|stock| stock_symbol(stock) == symbol)
}

/// The number of the stock of a symbol, of at most 16 stocks.
pub fn stock_named(stocks: &[Value], symbol: &str) -> Option<StockNo>
    requires { length stocks.now ≤ 16 }
    ensures kept { is_some result ≡ is_named (map symbol_in (map view stocks.now)) symbol.now }
    ensures said { IfSome result (λ at. at ≡ place_of (map symbol_in (map view stocks.now)) symbol.now) }
{
    match position_of(stocks, symbol) {
        Some(at) => Some(at as StockNo),
        None => None,
    }
}
