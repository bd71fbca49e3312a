//! What a run starts from.

ghost use Rattle.std.specs.Prelude.{◌≡◌, None, IfOk, codes};
ghost use Rattle.toml.specs.View.{table_view};
ghost use Rattle.study_market.specs.Stocks.{series_of, stock_rules_of};
ghost use Rattle.study_market.specs.Market.{key_of, latencies_of};
ghost use Rattle.study_market.specs.MarketRules.{start_of, close_of, exchange_of, key_broken as rule_3, limits_broken as rule_5, squares_broken as rule_7, exchange_broken as rule_9};
ghost use Rattle.study_market.specs.Entries.{natural_at as natural_of};
ghost use Rattle.study_market.specs.Changes.{changes_of};
ghost use Rattle.study_market.specs.Traders.{traders_of};
ghost use Rattle.study_market.specs.Opening.{opening_of, limit_of, takes_hidden_orders, IsAccepted};

use crate::latencies::latencies;
use crate::market_parts::{
    close, exchange_group, exchange_natural, key, limit, start, takes_hidden_orders,
};
use crate::series::all_series;
use crate::tables::SeriesTables;
use agent_shell::TraderSetting;
use exchange_agent::StockRules;
use fundamental_series::Series;
use latency_model::Groups;
use market_floor::Opening;
use market_rules::DatedList;
use market_types::{Memory, Sequence};
use std::alloc::Global;
use study_file::Table;

// The latencies between the groups of an accepted study, and the values of its stocks.
fn groups_and_series(
    alloc: Global,
    table: &Table,
    rows: &SeriesTables,
) -> Result<(Groups, Sequence<Series>), Memory>
    requires { IsAccepted (table_view table.now) rows.now }
    ensures groups { IfOk result (λ r. r.0 ≡ latencies_of (table_view table.now)) }
    ensures series { IfOk result (λ r. r.1 ≡ series_of (table_view table.now) rows.now) }
{
    let groups = latencies(alloc, table)?;
    let series = all_series(alloc, table, rows)?;
    Ok((groups, series))
}

// The opening of an accepted study, of these parts.
fn assembled(
    table: &Table,
    groups: Groups,
    stocks: Vec<StockRules>,
    series: Sequence<Series>,
    dated: DatedList,
    traders: Vec<TraderSetting>,
) -> Opening
    requires limits { rule_5 (table_view table.now) ≡ None }
    requires key { rule_3 (table_view table.now) ≡ None }
    requires square { rule_7 (table_view table.now) ≡ None }
    requires exchange { rule_9 (table_view table.now) ≡ None }
    ensures { result ≡ record { start = start_of (table_view table.now); close = close_of (table_view table.now); limit = limit_of (table_view table.now); key = key_of (table_view table.now); groups = groups; exchange_group = natural_of (codes "group") (exchange_of (table_view table.now)); exchange_delay = natural_of (codes "delay") (exchange_of (table_view table.now)); stocks = stocks.items; series = series; dated = dated; hidden = takes_hidden_orders (table_view table.now); traders = traders.items } }
{
    Opening {
        start: start(table),
        close: close(table),
        limit: limit(table),
        key: key(table),
        groups,
        exchange_group: exchange_group(table),
        exchange_delay: exchange_natural(table, "delay"),
        stocks: Sequence::new(stocks),
        series,
        dated,
        hidden: takes_hidden_orders(table),
        traders: Sequence::new(traders),
    }
}

/// What a run of an accepted study starts from, by its tables, the rows of its series file and what was read of it.
pub fn opening(
    alloc: Global,
    table: &Table,
    rows: &SeriesTables,
    stocks: Vec<StockRules>,
    dated: DatedList,
    traders: Vec<TraderSetting>,
) -> Result<Opening, Memory>
    requires accepted { IsAccepted (table_view table.now) rows.now }
    requires stocks { stocks.items ≡ stock_rules_of (table_view table.now) }
    requires dated { dated ≡ changes_of (table_view table.now) }
    requires traders { traders.items ≡ traders_of (table_view table.now) }
    ensures { IfOk result (λ o. o ≡ opening_of (table_view table.now) rows.now) }
{
    let (groups, series) = groups_and_series(alloc, table, rows)?;
    Ok(assembled(table, groups, stocks, series, dated, traders))
}
