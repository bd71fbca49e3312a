//! The traders.

ghost use Rattle.std.specs.Prelude.{◌≡◌, ◌<◌, ◌≤◌, ◌++◌, ℕ, [], map, length, None, Some, true, IfOk, IfErr, OnOk};
ghost use Rattle.std.specs.List.{range_with_len};
ghost use Rattle.toml.specs.View.{table_view, view};
ghost use Rattle.study_market.specs.declared.early_refusal.Refusal.{Refusal};
ghost use Rattle.study_market.specs.MarketRules.{squares_broken as rule_7};
ghost use Rattle.study_market.specs.StockRules.{symbol_in, stock_count_broken as rule_10};
ghost use Rattle.study_market.specs.AgentRules.{count_of, first_wakeup_at, has_timing as timing_in};
ghost use Rattle.study_market.specs.EntryTests.{failed_test, agent_tests};
ghost use Rattle.study_market.specs.FirstBroken.{first_of_rules};
ghost use Rattle.study_market.specs.FirstOfMarket.{agent_rules};
ghost use Rattle.study_market.specs.Traders.{trader_of, traders_in, traders_of};

use crate::agents::{count_in, has_agent_keys, has_timing};
use crate::counts::counts_broken;
use crate::early_refusal::{ReadError, unbroken};
use crate::entries::{natural_at, stock_named};
use crate::kind::read_kind;
use crate::market_parts::start;
use crate::market_table::group_number;
use crate::reading::{EntryReading, read_entries};
use crate::stock::few_stocks;
use agent_shell::{Kind, TraderSetting};
use market_types::{Memory, StockNo, Time};
use std::alloc::{AllocError, Global};
use study_file::{Table, Value, list_at, number_at, string_at};

// When the trader of a number, from 0, wakes first.
fn first_wakeup(agent: &Table, number: u64) -> Time
    requires number { number < count_of (table_view agent.now) }
    requires timing { timing_in 32 0 (table_view agent.now) ≡ true }
    ensures { result ≡ first_wakeup_at number (table_view agent.now) }
{
    natural_at(agent, "first") + number * natural_at(agent, "spread")
}

// The trader of a number, from 0, that an entry says, of this kind and for this stock.
fn trader(agent: &Table, kind: Kind, stock: StockNo, number: u64) -> TraderSetting
    requires number { number < count_of (table_view agent.now) }
    requires timing { timing_in 32 0 (table_view agent.now) ≡ true }
    ensures { result ≡ record (trader_of [] (table_view agent.now) number) { kind = kind; stock = stock } }
{
    TraderSetting {
        kind,
        group: natural_at(agent, "group") as u8,
        stock,
        first: first_wakeup(agent, number),
        every: natural_at(agent, "every"),
        wobble: natural_at(agent, "wobble") as u32,
        delay: natural_at(agent, "delay"),
        cash: number_at(agent, "cash"),
    }
}

// Puts as many traders as an entry counts behind those before them.
fn push_traders(
    agent: &Table,
    kind: Kind,
    stock: StockNo,
    traders: &mut Vec<TraderSetting>,
) -> Result<(), AllocError>
    requires timing { timing_in 32 0 (table_view agent.now) ≡ true }
    ensures { OnOk result (traders.new.items ≡ traders.old.items ++ map (λ (n : ℕ). record (trader_of [] (table_view agent.now) n) { kind = kind; stock = stock }) (range_with_len 0 (count_of (table_view agent.now)))) }
{
    let count = count_in(agent);
    for number in 0..count {
        traders.push(trader(agent, kind, stock, number))?;
    }
    Ok(())
}

// Agents beside these stocks, so many latency groups and a market that opens at a time.
#[derive(Drop)]
struct AgentReading<'a> {
    stocks: &'a [Value],
    groups: u32,
    start: Time,
    ghost few: { length stocks.now ≤ 16 },
    ghost square: { groups ≤ 32 },
}

// Puts the traders that an agent makes behind those before them, or tells the number of the first rule that it breaks.
fn read_agent(
    reading: &AgentReading<'_>,
    agent: &Table,
    traders: &mut Vec<TraderSetting>,
) -> Result<Option<u32>, Memory>
    ensures broken { IfOk result (λ rule. rule ≡ failed_test (agent_tests reading.now.groups reading.now.start (map symbol_in (map view reading.now.stocks.now))) (Some (table_view agent.now))) }
    ensures said { IfOk result (λ rule. rule ≡ None → traders.new.items ≡ traders.old.items ++ traders_in (map symbol_in (map view reading.now.stocks.now)) (table_view agent.now)) }
{
    if !has_agent_keys(agent) {
        return Ok(Some(26));
    }
    if !has_timing(reading.groups, reading.start, agent) {
        return Ok(Some(27));
    }
    let Some(stock) = stock_named(reading.stocks, string_at(agent, "stock")) else {
        return Ok(Some(28));
    };
    let Some(kind) = read_kind(agent) else {
        return Ok(Some(29));
    };
    push_traders(agent, kind, stock, traders)?;
    Ok(None)
}

impl<'a> EntryReading for AgentReading<'a> {
    type Item = TraderSetting;

    ghost use Rattle.std.specs.Prelude.{map, refl};
    ghost use Rattle.toml.specs.View.{view};
    ghost use Rattle.study_market.specs.StockRules.{symbol_in};
    ghost use Rattle.study_market.specs.EntryTests.{agent_tests};
    ghost use Rattle.study_market.specs.Entries.{entry_of};
    ghost use Rattle.study_market.specs.Traders.{traders_in};

    ghost tests = { λ reading. agent_tests reading.groups reading.start (map symbol_in (map view reading.stocks.now)) };

    ghost items_of = { λ reading d. traders_in (map symbol_in (map view reading.stocks.now)) (entry_of d) };

    fn read(
        &self,
        _alloc: Global,
        entry: &Value,
        list: &mut Vec<TraderSetting>,
    ) -> Result<Option<u32>, Memory> {
        match entry.as_table() {
            Some(agent) => read_agent(self, agent, list),
            None => Ok(Some(26)),
        }
    }

    ghost rising = { λ _. refl };
}

/// The traders of a study of 1 to 16 stocks whose latencies are square.
///
/// # Errors
/// The first broken rule of the agents; or want of memory.
#[tactic(auto, using(crate::proofs::EntryOrder::after_kept, crate::proofs::EntryOrder::at_broken))]
pub fn read_traders(alloc: Global, table: &Table) -> Result<Vec<TraderSetting>, ReadError>
    requires square { rule_7 (table_view table.now) ≡ None }
    requires stocks { rule_10 (table_view table.now) ≡ None }
    ensures kept { IfOk result (λ _. first_of_rules agent_rules (table_view table.now) ≡ None) }
    ensures said { IfOk result (λ traders. traders.items ≡ traders_of (table_view table.now)) }
    ensures refused { IfErr result (λ e. (r : Refusal) → e ≡ ReadError.Refused r → first_of_rules agent_rules (table_view table.now) ≡ Some r) }
{
    let entries = list_at(table, "agent");
    unbroken(25, counts_broken(entries))?;
    let reading = AgentReading {
        stocks: few_stocks(table),
        groups: group_number(table),
        start: start(table),
    };
    read_entries(alloc, &reading, entries)
}
