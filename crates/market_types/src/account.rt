//! What a trader tells of itself.

use crate::Money;

/// A trader's own account, by the replies that it heard.
#[derive(Clone, Copy, PartialEq, Eq)]
pub struct Account {
    /// Shares; negative where more were sold than bought.
    pub position: i64,
    /// Millionths of a dollar.
    pub cash: Money,
}

/// The counters and the account of a trader.
#[derive(Clone, Copy, PartialEq, Eq)]
pub struct TraderTold {
    /// Order tokens given.
    pub tokens: u32,
    /// Random draws made.
    pub draws: u64,
    pub account: Account,
    /// Open orders in its own list.
    pub live: u16,
    /// Quotes heard.
    pub quotes: u32,
}
