//! The fundamental values of the stocks.

ghost use Rattle.std.specs.Prelude.{◌≡◌, ◌≤◌, ℕ, map, length, None, true, false, IfOk, codes};
ghost use Rattle.std.specs.List.{enumerate_from};
ghost use Rattle.toml.specs.Data.{as_table};
ghost use Rattle.toml.specs.View.{table_view, view};
ghost use Rattle.fundamental_series.specs.Made.{by_rule};
ghost use Rattle.fundamental_series.specs.Ranges.{AreRows, IsInRange};
ghost use Rattle.study_file.specs.Keys.{passes};
ghost use Rattle.study_file.specs.Values.{first_failing};
ghost use Rattle.study_market.specs.MarketRules.{span_of, key_broken as rule_3};
ghost use Rattle.study_market.specs.StockRules.{stocks as stocks_of, has_prices, has_pace, goes_by as by_word, stock_count_broken as rule_10, prices_broken as rule_16, pace_broken as rule_17};
ghost use Rattle.study_market.specs.Rows.{rows_of};
ghost use Rattle.study_market.specs.Entries.{entry_of, natural_at as natural_of};
ghost use Rattle.study_market.specs.Market.{key_of};
ghost use Rattle.study_market.specs.Stocks.{rule_made_of, series_rule_of, series_in, series_of, HaveRows};

use crate::entries::natural_at;
use crate::market_parts::{close, key, start};
use crate::stock::{few_stocks, goes_by};
use crate::tables::SeriesTables;
use fundamental_series::{Series, SeriesRule, series_by_rule, series_from_rows};
use market_types::{Memory, Sequence, StockNo};
use std::alloc::Global;
use study_file::{Table, Value};

// The number at a key, which is one of 32 bits.
fn small_at(table: &Table, key: &str) -> u32
    requires { natural_of key.now (table_view table.now) ≤ 4294967295 }
    ensures { result ≡ natural_of key.now (table_view table.now) }
{
    natural_at(table, key) as u32
}

// The rule of a stock's values.
fn series_rule(stock: &Table) -> SeriesRule
    requires { IsInRange (series_rule_of (table_view stock.now)) }
    ensures { result ≡ series_rule_of (table_view stock.now) }
{
    SeriesRule {
        start: small_at(stock, "start"),
        mean: small_at(stock, "mean"),
        pull: small_at(stock, "pull"),
        shock: small_at(stock, "shock"),
        every: natural_at(stock, "every"),
    }
}

// The values of a stock by its rule.
fn made_by_rule(
    alloc: Global,
    table: &Table,
    key: &[u8; 32],
    number: StockNo,
    stock: &Table,
) -> Result<Series, Memory>
    requires key { key.now ≡ key_of (table_view table.now) }
    requires by { by_word (codes "rule") (table_view stock.now) ≡ true }
    requires prices { has_prices (table_view stock.now) ≡ true }
    requires pace { has_pace (span_of (table_view table.now)) (table_view stock.now) ≡ true }
    ensures { IfOk result (λ s. s ≡ by_rule (rule_made_of (table_view table.now) number (table_view stock.now))) }
{
    let rule = series_rule(stock);
    series_by_rule(alloc, key, number, &rule, start(table), close(table))
}

// The values of a stock by its rule or by its rows.
fn stock_series(
    alloc: Global,
    table: &Table,
    key: &[u8; 32],
    tables: &SeriesTables,
    number: StockNo,
    stock: &Table,
) -> Result<Series, Memory>
    requires key { key.now ≡ key_of (table_view table.now) }
    requires prices { has_prices (table_view stock.now) ≡ true }
    requires pace { has_pace (span_of (table_view table.now)) (table_view stock.now) ≡ true }
    requires rows { by_word (codes "rule") (table_view stock.now) ≡ false → AreRows (rows_of tables.now number) }
    ensures { IfOk result (λ s. s ≡ series_in (table_view table.now) tables.now number (table_view stock.now)) }
{
    if goes_by(stock, "rule") {
        made_by_rule(alloc, table, key, number, stock)
    } else {
        series_from_rows(alloc, tables.rows(usize::from(number)))
    }
}

// The values of an entry's stock.
fn entry_series(
    alloc: Global,
    table: &Table,
    key: &[u8; 32],
    tables: &SeriesTables,
    number: StockNo,
    entry: &Value,
) -> Result<Series, Memory>
    requires key { key.now ≡ key_of (table_view table.now) }
    requires prices { passes has_prices (as_table (view entry.now)) ≡ true }
    requires pace { passes (has_pace (span_of (table_view table.now))) (as_table (view entry.now)) ≡ true }
    requires rows { by_word (codes "rule") (entry_of (view entry.now)) ≡ false → AreRows (rows_of tables.now number) }
    ensures { IfOk result (λ s. s ≡ series_in (table_view table.now) tables.now number (entry_of (view entry.now))) }
{
    match entry.as_table() {
        Some(stock) => stock_series(alloc, table, key, tables, number, stock),
        None => series_from_rows(alloc, tables.rows(usize::from(number))),
    }
}

// The values of each of at most 16 stocks, in order.
fn series_list(
    alloc: Global,
    table: &Table,
    key: &[u8; 32],
    tables: &SeriesTables,
    values: &[Value],
) -> Result<Vec<Series>, Memory>
    requires few { length values.now ≤ 16 }
    requires key { key.now ≡ key_of (table_view table.now) }
    requires prices { first_failing has_prices (map view values.now) ≡ None }
    requires pace { first_failing (has_pace (span_of (table_view table.now))) (map view values.now) ≡ None }
    requires rows { HaveRows (map view values.now) tables.now }
    ensures { IfOk result (λ v. v.items ≡ map (λ (p : ℕ × _). series_in (table_view table.now) tables.now p.0 (entry_of p.1)) (enumerate_from 0 (map view values.now))) }
{
    let mut list = Vec::new(alloc);
    for number in 0..values.len() {
        let series = entry_series(
            alloc,
            table,
            key,
            tables,
            number as StockNo,
            &values[number],
        )?;
        list.push(series)?;
    }
    Ok(list)
}

/// The fundamental values of each stock of a study, whose stocks keep their rules and have these rows.
pub fn all_series(
    alloc: Global,
    table: &Table,
    tables: &SeriesTables,
) -> Result<Sequence<Series>, Memory>
    requires key { rule_3 (table_view table.now) ≡ None }
    requires few { rule_10 (table_view table.now) ≡ None }
    requires prices { rule_16 (table_view table.now) ≡ None }
    requires pace { rule_17 (table_view table.now) ≡ None }
    requires rows { HaveRows (stocks_of (table_view table.now)) tables.now }
    ensures { IfOk result (λ s. s ≡ series_of (table_view table.now) tables.now) }
{
    let key = key(table);
    let list = series_list(alloc, table, &key, tables, few_stocks(table))?;
    Ok(Sequence::new(list))
}
