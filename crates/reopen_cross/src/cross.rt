//! Interest in a stock, and where it crosses.

use market_types::Side;

/// An order that wants to trade at a reopening.
#[derive(Clone, Copy, PartialEq, Eq, Debug)]
pub struct Interest {
    /// Its reference: references rise along a list.
    pub reference: u64,
    /// Whether it buys or sells.
    pub side: Side,
    /// The limit, in dollars with four implied decimals.
    pub price: u32,
    /// Open shares.
    pub left: u32,
    /// Whether it is displayed.
    pub shown: bool,
}

/// A crossing price with its certificate.
#[derive(Clone, Copy, PartialEq, Eq, Debug)]
pub struct Cross {
    /// Dollars with four implied decimals.
    pub price: u32,
    /// The shares that trade there.
    pub shares: u64,
    /// The shares to buy at that price or above.
    pub buys: u64,
    /// The shares to sell at that price or below.
    pub sells: u64,
    /// The greatest price up to which no more shares are to be sold than trade.
    pub cut: u32,
    /// The shares to sell up to it.
    pub below: u64,
    /// The shares to buy beyond it.
    pub above: u64,
}

/// What an order trades.
#[derive(Clone, Copy, PartialEq, Eq)]
pub struct Part {
    /// Whether it buys or sells.
    pub side: Side,
    /// The reference of the order.
    pub reference: u64,
    /// The shares that it trades.
    pub shares: u32,
}
