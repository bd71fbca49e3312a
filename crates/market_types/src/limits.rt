//! The limits that more than one crate speaks of.

use crate::Time;

/// The greatest price, with four implied decimals: 199,999.99 dollars.
pub const HIGHEST_PRICE: u32 = 1_999_999_900;

/// The longest delay, latency or pause in nanoseconds: an hour.
pub const LONGEST_DELAY: Time = 3_600_000_000_000;

/// The last nanosecond of a day.
pub const LAST_TIME: Time = 86_399_999_999_999;

/// How many traders there can be, beside the exchange.
pub const MOST_TRADERS: usize = 511;

/// How many stocks there can be.
pub const MOST_STOCKS: usize = 16;

/// How many events a branch can have.
pub const MOST_EVENTS: u32 = 1_000_000;

/// How many messages can wait.
pub const MOST_WAITING: usize = 65_536;
