//! What the definitions give on worked examples, and their opening in code.

ghost use Rattle.std.specs.Prelude.{◌≡◌, ◌∷◌, [], ◌≤◌, ℕ, List, All, IfOk, length, pos};
ghost use Rattle.market_types.specs.Limits.{longest_delay, most_events, most_traders};
ghost use Rattle.market_floor.specs.Groups.{group_of};
ghost use Rattle.market_floor.specs.Opening.{IsOpening, IsTraderOf, cash_of};
ghost use Rattle.market_floor.specs.OpeningWorked.{abm, market, market_of, ten_dollars, watcher};

use crate::opening::Opening;
use agent_shell::TraderSetting;
use draw_streams::worked::ZERO_KEY;
use exchange_agent::StockRules;
use fundamental_series::{Series, SeriesRule, series_by_rule};
use latency_model::Groups;
use market_rules::{Band, DatedList, FeeTable, TickTable};
use market_types::{Memory, Sequence, Symbol, Time};
use std::alloc::Global;

/// The market of the examples is in the ranges wherever its close, its limit, its delay and its traders are.
pub fn markets_are_openings()
    ensures { (close limit delay : ℕ) (traders : List TraderSetting) →
        1000 ≤ close → close ≤ 65535001000 → delay ≤ longest_delay → 1 ≤ limit → limit ≤ most_events →
        1 ≤ length traders → length traders ≤ most_traders → All (λ s. IsTraderOf (market_of close limit delay traders) s) traders →
        IsOpening (market_of close limit delay traders) }
{}

/// All agents of a market of two watchers are in one group, and its traders begin without cash.
pub fn two_watchers()
    ensures exchange { group_of (market 2000 0 (watcher 1000 ∷ watcher 1003 ∷ [])) 0 ≡ 0 }
    ensures trader { group_of (market 2000 0 (record (watcher 1000) { group = 4 } ∷ record (watcher 1003) { group = 7 } ∷ [])) 2 ≡ 7 }
    ensures cash { cash_of (market 2000 0 (watcher 1000 ∷ watcher 1003 ∷ [])) ≡ pos 0 ∷ pos 0 ∷ [] }
{}

/// The stock of the examples: ticks of a cent, a rebate of 20 and a fee of 30 millionths a share.
pub fn stock(alloc: Global) -> Result<StockRules, Memory>
    ensures { IfOk result (λ r. r ≡ abm) }
{
    let Ok(ticks) = TickTable::new(alloc, &[Band { from: 0, tick: 100 }]) else {
        return Err(Memory);
    };
    Ok(StockRules {
        symbol: Symbol(*b"ABM     "),
        ticks,
        fees: FeeTable { add: -20, take: 30 },
    })
}

/// A value that stays at 10 dollars from 1000 nanoseconds past midnight on.
pub fn series(alloc: Global, close: Time) -> Result<Series, Memory>
    requires { close ≤ 65535001000 }
    ensures { IfOk result (λ s. s ≡ ten_dollars close) }
{
    let rule = SeriesRule {
        start: 100_000,
        mean: 100_000,
        pull: 0,
        shock: 0,
        every: 1_000_000,
    };
    series_by_rule(alloc, &ZERO_KEY, 0, &rule, 1000, close)
}

// Latencies of one group whose messages are under way for 5 nanoseconds.
fn latencies(alloc: Global) -> Result<Groups, Memory>
    ensures { IfOk result (λ g. g ≡ record { base = (5 ∷ []) ∷ []; jitter = (0 ∷ []) ∷ [] }) }
{
    let base = vec![in alloc; 5; 1]?;
    let jitter = vec![in alloc; 0; 1]?;
    Groups::new(alloc, &[base], &[jitter])
}

/// One stock that opens at 1000 nanoseconds past midnight under the zero key, with one latency of 5 nanoseconds, at most
/// `limit` events, and an exchange that computes for `delay` nanoseconds.
pub fn opening(
    alloc: Global,
    close: Time,
    limit: u32,
    delay: Time,
    traders: Vec<TraderSetting>,
) -> Result<Opening, Memory>
    requires { close ≤ 65535001000 }
    ensures { IfOk result (λ o. o ≡ market_of close limit delay traders.items) }
{
    let mut stocks = Vec::new(alloc);
    stocks.push(stock(alloc)?)?;
    let mut values = Vec::new(alloc);
    values.push(series(alloc, close)?)?;
    let Ok(dated) = DatedList::new(Vec::new(alloc)) else {
        return Err(Memory);
    };
    Ok(Opening {
        start: 1000,
        close,
        limit,
        key: ZERO_KEY,
        groups: latencies(alloc)?,
        exchange_group: 0,
        exchange_delay: delay,
        stocks: Sequence::new(stocks),
        series: Sequence::new(values),
        dated,
        hidden: false,
        traders: Sequence::new(traders),
    })
}
