//! The rules of the stocks.

ghost use Rattle.std.specs.Prelude.{◌≡◌, ◌≤◌, ◌/◌, ◌&&◌, nat_le, int_le, pos, unsigned_abs, ℕ, map, take, length, position, None};
ghost use Rattle.std.specs.List.{list_any, enumerate_from};
ghost use Rattle.std.specs.Str.{bytes_eq};
ghost use Rattle.toml.specs.View.{table_view, view};
ghost use Rattle.study_file.specs.Keys.{has_form as form_in};
ghost use Rattle.study_market.specs.Forms.{stock_form};
ghost use Rattle.study_market.specs.StockRules.{stocks as stocks_of, symbol_in, has_pace as pace_in, stock_count_broken as rule_10, repeat_broken as rule_13, goes_by as by_word, has_prices as prices_in, is_by_rows as by_rows, has_rows as rows_in, series_broken as rule_18};

use crate::forms::STOCK_KEYS;
use study_file::{
    Table, Value, broken_unless, has_between, has_form, list_at, number_at, string_at, text_at,
};

/// The entries of the stocks.
pub fn stocks(table: &Table) -> &[Value]
    ensures { map view result.now ≡ stocks_of (table_view table.now) }
{
    list_at(table, "stock")
}

// How many stocks there are.
fn stock_count(table: &Table) -> usize
    ensures { result ≡ length (stocks_of (table_view table.now)) }
{
    stocks(table).len()
}

/// Whether there aren't 1 to 16 stocks.
pub fn stock_count_broken(table: &Table) -> Option<u32>
    ensures { result ≡ rule_10 (table_view table.now) }
{
    let count = stock_count(table);
    broken_unless(1 <= count && count <= 16, 0)
}

/// The entries of the stocks, of which there are 1 to 16.
pub fn few_stocks(table: &Table) -> &[Value]
    requires { rule_10 (table_view table.now) ≡ None }
    ensures stocks { map view result.now ≡ stocks_of (table_view table.now) }
    ensures few { length result.now ≤ 16 }
{
    stocks(table)
}

/// Whether a stock has its keys with their types and no other.
pub fn has_stock_keys(stock: &Table) -> bool
    ensures { result ≡ form_in stock_form (table_view stock.now) }
{
    has_form(stock, "series", &["rule", "rows"], &STOCK_KEYS)
}

/// The symbol of an entry.
pub fn stock_symbol(value: &Value) -> &str
    ensures { result.now ≡ symbol_in (view value.now) }
{
    match value.as_table() {
        Some(stock) => string_at(stock, "symbol"),
        None => "",
    }
}

// Whether one of the first so many stocks has this symbol.
fn is_among_first(stocks: &[Value], count: usize, symbol: &str) -> bool
    ensures { result ≡ list_any (λ v. bytes_eq (symbol_in (view v)) symbol.now) (take count stocks.now) }
{
    stocks
        .iter()
        .take(count)
        .any(|stock| stock_symbol(stock) == symbol)
}

// The first stock whose symbol one before it has.
fn repeated_place(stocks: &[Value]) -> Option<usize>
    ensures { result ≡ position (λ (p : ℕ × _). list_any (λ v. bytes_eq (symbol_in (view v)) (symbol_in (view p.1))) (take p.0 stocks.now)) (enumerate_from 0 stocks.now) }
{
    stocks.iter().enumerate().position(|(at, stock)| is_among_first(
        stocks,
        at,
        stock_symbol(stock),
    ))
}

/// The first stock whose symbol one before it has.
pub fn repeat_broken(table: &Table) -> Option<u32>
    requires { rule_10 (table_view table.now) ≡ None }
    ensures { result ≡ rule_13 (table_view table.now) }
{
    match repeated_place(few_stocks(table)) {
        Some(at) => Some(at as u32),
        None => None,
    }
}

/// Whether the values of a stock go by this.
pub fn goes_by(stock: &Table, word: &str) -> bool
    ensures { result ≡ by_word word.now (table_view stock.now) }
{
    string_at(stock, "series") == word
}

/// Whether start and mean of a stock by the rule are prices.
pub fn has_prices(stock: &Table) -> bool
    ensures { result ≡ prices_in (table_view stock.now) }
{
    !goes_by(stock, "rule")
        || (has_between(stock, "start", 1, 1_999_999_900)
            && has_between(stock, "mean", 1, 1_999_999_900))
}

// Whether a number of nanoseconds is at least 1 and goes at most 65,535 times into the span.
fn is_step(span: u64, every: i64) -> bool
    ensures { result ≡ (int_le (pos 1) every && nat_le (span / unsigned_abs every) 65535) }
{
    every >= 1 && span / every.unsigned_abs() <= 65_535
}

/// Whether pull, shock and step of a stock by the rule are in their ranges, where the market is open for `span` nanoseconds.
pub fn has_pace(span: u64, stock: &Table) -> bool
    ensures { result ≡ pace_in span (table_view stock.now) }
{
    !goes_by(stock, "rule")
        || (has_between(stock, "pull", 0, 1_000_000)
            && has_between(stock, "shock", 0, 1_000_000_000)
            && is_step(span, number_at(stock, "every")))
}

/// Whether the values of an entry go by rows.
pub fn is_by_rows(value: &Value) -> bool
    ensures { result ≡ by_rows (view value.now) }
{
    match value.as_table() {
        Some(stock) => goes_by(stock, "rows"),
        None => false,
    }
}

// Whether the values of some entry go by rows.
fn any_by_rows(values: &[Value]) -> bool
    ensures { result ≡ list_any (λ v. by_rows (view v)) values.now }
{
    values.iter().any(|value| is_by_rows(value))
}

// Whether the values of some stock go by rows.
fn has_rows(table: &Table) -> bool
    ensures { result ≡ rows_in (table_view table.now) }
{
    any_by_rows(stocks(table))
}

/// Whether a series is named where no stock goes by rows, or not named where one does.
pub fn series_broken(table: &Table) -> Option<u32>
    ensures { result ≡ rule_18 (table_view table.now) }
{
    let named = text_at(table, "series").is_some();
    if has_rows(table) {
        broken_unless(named, 0)
    } else {
        broken_unless(!named, 0)
    }
}
