//! Messages between the agents and the exchange.

use crate::order::Inbound;
use crate::reply::Reply;
use crate::{AgentNo, StockNo, Time};

/// The market in one stock as the exchange tells it.
#[derive(Clone, Copy, PartialEq, Eq)]
pub struct Quote {
    pub stock: StockNo,
    /// `T` is trading, `H` is halted.
    pub state: u8,
    /// The best buy price with four implied decimals; 0 where no buy order rests.
    pub bid: u32,
    /// The open shares at that price.
    pub bid_shares: u64,
    /// The best sell price with four implied decimals; 0 where no sell order rests.
    pub ask: u32,
    /// The open shares at that price.
    pub ask_shares: u64,
    /// The price of the last match with four implied decimals; 0 before the first.
    pub last: u32,
}

/// What a message says.
#[derive(Clone, Copy, PartialEq, Eq)]
pub enum Body {
    /// The wakeup that a trader asked for.
    Wake,
    /// An order or its cancel, to the exchange.
    Order(Inbound),
    /// A reply of the exchange.
    Answer(Reply),
    /// A question for the market in a stock, to the exchange.
    Ask(StockNo),
    /// The answer to that question.
    Quote(Quote),
}

/// A message that waits or is delivered.
#[derive(Clone, Copy, PartialEq, Eq)]
pub struct Message {
    /// When it is due, in nanoseconds past midnight.
    pub time: Time,
    /// Its place in the order in which messages joined the queue, from 0.
    pub seq: u64,
    pub from: AgentNo,
    pub to: AgentNo,
    pub body: Body,
}
