//! The order that a decision calls for.

ghost use Rattle.std.specs.Prelude.{◌≡◌};
ghost use Rattle.agent_shell.specs.Ordered.{sent_price};

use market_types::{HIGHEST_PRICE, Side, Time};

/// An order that is to be sent where its price is one.
#[derive(Clone, Copy)]
pub struct Wish {
    pub side: Side,
    pub shares: u32,
    /// With four implied decimals.
    pub price: i64,
    /// Time in force.
    pub tif: u32,
    /// Nanoseconds from the end of the trader's computation to the order's leaving.
    pub extra: Time,
}

// The price at which an order is sent.
pub(crate) fn sent_price(price: i64) -> Option<u32>
    ensures { result ≡ sent_price price }
{
    if 1 <= price && price <= i64::from(HIGHEST_PRICE) {
        Some(price as u32)
    } else {
        None
    }
}
