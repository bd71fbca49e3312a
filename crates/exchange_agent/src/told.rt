//! What an exchange is opened with, and what it tells.

use market_rules::{FeeTable, TickTable};
use market_types::Symbol;

/// A stock's symbol and the rules that it opens with.
#[derive(Drop)]
pub struct StockRules {
    pub symbol: Symbol,
    pub ticks: TickTable,
    pub fees: FeeTable,
}

/// A stock's state.
#[derive(Clone, Copy)]
pub struct StockTold {
    /// `T` is trading, `H` is halted.
    pub state: u8,
    /// The price of the last match with four implied decimals; 0 before the first.
    pub last: u32,
    /// Shares matched.
    pub matched: u64,
    /// Fees taken, in millionths of a dollar.
    pub fees: i128,
    /// Orders that rest.
    pub live: u32,
}

/// The exchange's counts.
#[derive(Clone, Copy)]
pub struct Counts {
    /// Orders accepted; the last one's reference.
    pub orders: u64,
    /// Matches; the last one's number.
    pub matches: u64,
    /// Enters that were ignored.
    pub enters: u64,
    /// Cancels that were ignored.
    pub cancels: u64,
}
