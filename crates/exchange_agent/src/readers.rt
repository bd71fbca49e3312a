//! What an exchange tells of its state.

ghost use Rattle.std.specs.Prelude.{◌≡◌, ◌<◌, ◌≤◌, ◌-◌, pos, IfOk, length, slice_index_or};
ghost use Rattle.exchange_agent.specs.Open.{told_of};
ghost use Rattle.exchange_agent.specs.State.{stock_at};

use crate::exchange::Exchange;
use crate::told::{Counts, StockTold};
use market_rules::TickTable;
use market_types::{AgentNo, Memory, Money, StockNo};
use price_time_book::Resting;
use std::alloc::Global;

impl Exchange {
    /// The tick table in force for a stock.
    pub fn ticks(&self, stock: StockNo) -> &TickTable
        requires { stock < length self.now.stocks }
        ensures { result.now ≡ (stock_at self.now stock).bands }
    {
        &self.stocks[usize::from(stock)].ticks
    }

    /// A stock's state in short.
    pub fn stock(&self, stock: StockNo) -> StockTold
        requires { stock < length self.now.stocks }
        ensures { result ≡ told_of (stock_at self.now stock) }
    {
        self.stocks[usize::from(stock)].told()
    }

    /// A stock's orders in order of arrival.
    pub fn orders(&self, alloc: Global, stock: StockNo) -> Result<Vec<Resting>, Memory>
        requires { stock < length self.now.stocks }
        ensures { IfOk result (λ v. v.items ≡ (stock_at self.now stock).book) }
    {
        self.stocks[usize::from(stock)].book.orders(alloc)
    }

    /// The counts.
    pub fn counts(&self) -> Counts
        ensures { result ≡ self.now.counts }
    {
        self.counts
    }

    /// A trader's settled cash, in millionths of a dollar.
    pub fn cash(&self, agent: AgentNo) -> Money
        requires trader { 1 ≤ agent }
        requires exists { agent ≤ length self.now.cash }
        ensures { result ≡ slice_index_or self.now.cash (agent - 1) (pos 0) }
    {
        self.cash[usize::from(agent) - 1]
    }

    /// A trader's settled position in a stock, in shares.
    pub fn position(&self, agent: AgentNo, stock: StockNo) -> i64
        requires trader { 1 ≤ agent }
        requires exists { agent ≤ length self.now.cash }
        requires stock { stock < length self.now.stocks }
        ensures { result ≡ slice_index_or (stock_at self.now stock).tally.positions (agent - 1) (pos 0) }
    {
        self.stocks[usize::from(stock)].positions[usize::from(agent) - 1]
    }
}
