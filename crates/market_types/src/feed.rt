//! Messages of the public feed, with the fields of Nasdaq TotalView-ITCH 5.0.

use crate::Time;
use crate::order::{Side, Symbol};

/// One feed message.
#[derive(Clone, Copy, PartialEq, Eq)]
pub struct Feed {
    /// Stock locate: the stock's number and one; 0 for a system event.
    pub locate: u16,
    /// Tracking number.
    pub tracking: u16,
    /// Timestamp in nanoseconds past midnight, below 2^48.
    pub time: Time,
    pub what: What,
}

/// What a feed message says. Prices have four implied decimals; one-byte fields are letters.
#[derive(Clone, Copy, PartialEq, Eq)]
pub enum What {
    /// System Event: `O` starts the messages, `C` ends them.
    System {
        code: u8,
    },
    /// Stock Directory.
    Directory {
        stock: Symbol,
        category: u8,
        financial: u8,
        lot: u32,
        lots_only: u8,
        class: u8,
        sub_type: [u8; 2],
        authenticity: u8,
        short_sale: u8,
        ipo: u8,
        tier: u8,
        etp: u8,
        leverage: u32,
        inverse: u8,
    },
    /// Stock Trading Action: the trading state `H`, `P`, `Q` or `T`.
    Trading {
        stock: Symbol,
        state: u8,
        reserved: u8,
        reason: [u8; 4],
    },
    /// Add Order without MPID attribution.
    Add {
        reference: u64,
        side: Side,
        shares: u32,
        stock: Symbol,
        price: u32,
    },
    /// Order Executed, with the match number.
    Executed {
        reference: u64,
        shares: u32,
        number: u64,
    },
    /// Order Cancel: so many shares fewer.
    Cancel {
        reference: u64,
        shares: u32,
    },
    /// Order Delete.
    Delete {
        reference: u64,
    },
    /// Trade Message (non-cross).
    Trade {
        reference: u64,
        side: Side,
        shares: u32,
        stock: Symbol,
        price: u32,
        number: u64,
    },
    /// Cross Trade.
    Cross {
        shares: u64,
        stock: Symbol,
        price: u32,
        number: u64,
        kind: u8,
    },
}
