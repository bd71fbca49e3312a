//! The opening.

ghost use Rattle.std.specs.Prelude.{◌≡◌, ◌≤◌, length};
ghost use Rattle.market_floor.specs.Groups.{group_of};

use agent_shell::TraderSetting;
use exchange_agent::StockRules;
use fundamental_series::Series;
use latency_model::Groups;
use market_rules::DatedList;
use market_types::{AgentNo, Sequence, Time};

/// What a run starts from. Agent 0 is the exchange; the traders follow from agent 1 on.
#[derive(Drop)]
pub struct Opening {
    /// The opening of the market, in nanoseconds past midnight.
    pub start: Time,
    /// The close of the market, in nanoseconds past midnight.
    pub close: Time,
    /// The most events of a run.
    pub limit: u32,
    /// The key of the random draws.
    pub key: [u8; 32],
    /// The latencies between groups of agents, as they stand at the opening.
    pub groups: Groups,
    /// The exchange's latency group.
    pub exchange_group: u8,
    /// The exchange's computation delay in nanoseconds.
    pub exchange_delay: Time,
    /// The stocks with the rules that they open with.
    pub stocks: Sequence<StockRules>,
    /// The fundamental value of each stock, in the order of the stocks.
    pub series: Sequence<Series>,
    /// Changes of the stocks' rules in order of their dates.
    pub dated: DatedList,
    /// Whether the exchange takes hidden orders: those with display `N`.
    pub hidden: bool,
    /// The traders' parameters at the opening.
    pub traders: Sequence<TraderSetting>,
}

/// The latency group of an agent.
pub fn group_number(o: &Opening, agent: AgentNo) -> u8
    requires { agent ≤ length o.now.traders }
    ensures { result ≡ group_of o.now agent }
{
    if agent == 0 {
        return o.exchange_group;
    }
    o.traders.as_slice()[usize::from(agent) - 1].group
}
