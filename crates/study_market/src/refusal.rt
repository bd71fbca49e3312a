//! Reading a study as far as its agents: what a run of it starts from, or its first broken rule.

ghost use Rattle.std.specs.Prelude.{◌≡◌, None, Some, option_map, IfOk, IfErr, Ok};
ghost use Rattle.toml.specs.View.{table_view};
ghost use Rattle.market_floor.specs.Opening.{IsOpening};
ghost use Rattle.study_market.specs.declared.early_refusal.Refusal.{Refusal};
ghost use Rattle.study_market.specs.StockRules.{stock_count_broken as rule_10};
ghost use Rattle.study_market.specs.FirstOfMarket.{tables_of, late_refusal as late_rule, series_refusal, first_broken};
ghost use Rattle.study_market.specs.Judged.{IsRead};

use crate::change_parts::read_changes;
use crate::early_refusal::{ReadError, Refusal, broken, keep, keep_market_rules};
use crate::file::{SeriesError, read_series};
use crate::late::late_stock;
use crate::market_parts::start;
use crate::parts::opening;
use crate::stock::{few_stocks, stocks};
use crate::stock_parts::read_stocks;
use crate::tables::SeriesTables;
use crate::traders::read_traders;
use market_floor::Opening;
use market_types::Memory;
use std::alloc::Global;
use study_file::Table;

// The rows of each stock.
fn read_rows(alloc: Global, table: &Table, series: Option<&[u8]>) -> Result<SeriesTables, ReadError>
    ensures rows { IfOk result (λ tables. tables_of (table_view table.now) (option_map (λ text. text.now) series.entry) ≡ Ok tables) }
    ensures refused { IfErr result (λ e. (r : Refusal) → e ≡ ReadError.Refused r → series_refusal (table_view table.now) (option_map (λ text. text.now) series.entry) ≡ Some r) }
{
    let Some(text) = series else {
        return Ok(SeriesTables::empty(alloc, stocks(table).len())?);
    };
    match read_series(alloc, stocks(table), text) {
        Ok(tables) => Ok(tables),
        Err(SeriesError::Refused(place)) => Err(ReadError::Refused(Refusal { rule: 19, place })),
        Err(SeriesError::Memory) => Err(ReadError::Memory),
    }
}

// The first stock by rows that has no row at the start.
fn late_refusal(table: &Table, tables: &SeriesTables) -> Option<Refusal>
    requires { rule_10 (table_view table.now) ≡ None }
    ensures { result ≡ late_rule (table_view table.now) tables.now }
{
    broken(20, late_stock(start(table), few_stocks(table), tables))
}

/// What a run of a study starts from, by the study's table and the text of its series file, where it names one. The rules of
/// branches are not asked for.
///
/// # Errors
/// The first broken rule up to those of the agents; or want of memory.
pub fn read_opening(
    alloc: Global,
    table: &Table,
    series: Option<&[u8]>,
) -> Result<Opening, ReadError>
    ensures read { IfOk result (λ opening. IsRead (table_view table.now) (option_map (λ text. text.now) series.entry) opening) }
    ensures fits { IfOk result (λ opening. IsOpening opening) }
    ensures refused { IfErr result (λ e. (r : Refusal) → e ≡ ReadError.Refused r → first_broken (table_view table.now) (option_map (λ text. text.now) series.entry) ≡ Some r) }
{
    keep_market_rules(table)?;
    let stocks = read_stocks(alloc, table)?;
    let rows = read_rows(alloc, table, series)?;
    keep(late_refusal(table, &rows))?;
    let dated = read_changes(alloc, table)?;
    let traders = read_traders(alloc, table)?;
    Ok(opening(alloc, table, &rows, stocks, dated, traders)?)
}
