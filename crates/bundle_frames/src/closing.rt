//! The books, accounts and counters of a state.

use market_types::{AgentNo, Money, Sequence, Side, StockNo, Time, Token};

/// The counters of a state.
#[derive(Clone, Copy, PartialEq, Eq)]
pub struct ClosingCounts {
    /// `Q` no message waits, `C` the market is closed, `L` all events stand, `F` the queue was full, `-` not ended. A letter and
    /// no type of ends, since a reader of bundles takes any byte there.
    pub end: u8,
    /// Events that stand.
    pub events: u32,
    /// Nanoseconds past midnight.
    pub time: Time,
    /// The number of the next message that joins.
    pub next_seq: u64,
    /// Messages that wait.
    pub waiting: u32,
    /// Messages that were dropped.
    pub dropped: u64,
    /// Enters that were ignored.
    pub enters: u64,
    /// Cancels that were ignored.
    pub cancels: u64,
    /// Orders that the exchange accepted.
    pub orders: u64,
    /// Matches that it made.
    pub matches: u64,
}

/// A stock of a state.
#[derive(Clone, Copy)]
pub struct ClosingStock {
    pub stock: StockNo,
    /// `T` trading, `H` halted.
    pub state: u8,
    /// The price of the last match with four implied decimals; 0 before the first.
    pub last: u32,
    /// Matched shares.
    pub matched: u64,
    /// Fees taken, in millionths of a dollar.
    pub fees: i128,
    /// The offset that edits added to the value series.
    pub offset: i64,
    /// Live orders.
    pub live: u32,
}

/// A live order of a state.
#[derive(Clone, Copy)]
pub struct ClosingOrder {
    pub reference: u64,
    pub agent: AgentNo,
    pub token: Token,
    pub side: Side,
    /// Intended shares.
    pub intended: u32,
    /// Open shares.
    pub left: u32,
    pub stock: StockNo,
    /// Dollars with four implied decimals.
    pub price: u32,
    /// Time in force.
    pub tif: u32,
    /// Whether the order is shown, and not hidden.
    pub shown: bool,
}

/// An agent of a state.
#[derive(Drop)]
pub struct ClosingAgent {
    pub agent: AgentNo,
    pub silenced: bool,
    /// Its own time in nanoseconds past midnight.
    pub time: Time,
    /// Order tokens given.
    pub tokens: u32,
    /// Random draws made.
    pub draws: u64,
    /// Settled cash in millionths of a dollar.
    pub cash: Money,
    /// Its own account's cash in millionths of a dollar.
    pub own_cash: Money,
    /// Its own account's position in shares.
    pub own_position: i64,
    /// Orders in its own list.
    pub live: u16,
    /// Quotes heard.
    pub quotes: u32,
    /// Its settled position in each stock, in shares.
    pub positions: Sequence<i64>,
}

/// A closing: the counters, each stock, each live order by stock and then by arrival, and each agent.
#[derive(Drop)]
pub struct Closing {
    pub counts: ClosingCounts,
    pub stocks: Sequence<ClosingStock>,
    pub orders: Sequence<ClosingOrder>,
    pub agents: Sequence<ClosingAgent>,
}
