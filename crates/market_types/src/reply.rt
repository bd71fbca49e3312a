//! Replies of the exchange, with the fields of Nasdaq OUCH 4.2.

use crate::Time;
use crate::order::{Side, Symbol, Token};

/// What the exchange answers to a trader. Times are nanoseconds past midnight, prices have four implied decimals.
#[derive(Clone, Copy, PartialEq, Eq)]
pub enum Reply {
    /// System Event.
    System {
        time: Time,
        code: u8,
    },
    /// Order Accepted, with the fields of the order as it was entered.
    Accepted {
        time: Time,
        token: Token,
        side: Side,
        shares: u32,
        stock: Symbol,
        price: u32,
        tif: u32,
        firm: [u8; 4],
        display: u8,
        reference: u64,
        capacity: u8,
        sweep: u8,
        minimum: u32,
        cross: u8,
        /// Order state: `L` is live, `D` is dead.
        state: u8,
        /// BBO weight indicator.
        bbo: u8,
    },
    /// Order Canceled: so many shares fewer, with a reason letter.
    Canceled {
        time: Time,
        token: Token,
        decrement: u32,
        reason: u8,
    },
    /// Executed Order: `flag` is the liquidity letter, `A` added or `R` removed; `number` is the match number.
    Executed {
        time: Time,
        token: Token,
        shares: u32,
        price: u32,
        flag: u8,
        number: u64,
    },
    /// Rejected Order, with a reason letter.
    Rejected {
        time: Time,
        token: Token,
        reason: u8,
    },
}
