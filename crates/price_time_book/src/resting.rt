//! What rests in a book, and what a match gives. Prices have four implied decimals.

use market_types::{AgentNo, Side, Token};

/// An order that rests.
#[derive(Clone, Copy, PartialEq, Eq, Debug)]
pub struct Resting {
    /// The order reference number, which the exchange gave.
    pub reference: u64,
    pub agent: AgentNo,
    pub token: Token,
    pub side: Side,
    /// Dollars with four implied decimals.
    pub price: u32,
    /// The intended size in shares, executed ones included.
    pub intended: u32,
    /// The open shares.
    pub left: u32,
    /// Time in force, as the order gave it.
    pub tif: u32,
    /// Whether it is displayed; an order that is not is hidden.
    pub shown: bool,
}

/// A resting order and the shares that an incoming order took of it.
#[derive(Clone, Copy)]
pub struct Fill {
    /// The resting order as it was before.
    pub resting: Resting,
    /// Shares.
    pub shares: u32,
}

/// The best price of the shown orders of a side and their open shares at it.
#[derive(Clone, Copy)]
pub struct Best {
    /// Dollars with four implied decimals.
    pub price: u32,
    /// Shares.
    pub shares: u64,
}
