//! What a trader sees when it decides.

use crate::ticks::TickTable;
use market_types::{Symbol, Time};

/// What a trader sees besides the messages that it is sent.
#[derive(Clone, Copy)]
pub struct View<'a> {
    /// Nanoseconds past midnight.
    pub time: Time,
    /// The study's key, from which draws come.
    pub key: &'a [u8; 32],
    /// The symbol of the trader's stock.
    pub symbol: Symbol,
    /// The value of the trader's stock, with four implied decimals.
    pub value: u32,
    /// The tick table in force for the trader's stock.
    pub ticks: &'a TickTable,
}
