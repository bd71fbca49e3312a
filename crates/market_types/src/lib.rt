//! The typed values that the crates of the simulator share: messages, orders and replies, the public feed, and
//! the entries of a trace.
#![tactic(auto)]

mod account;
mod entry;
mod error;
mod feed;
mod feed_list;
mod limits;
mod message;
mod order;
mod readers;
mod reply;
mod roomy;
mod trace;
mod worked;

pub use account::{Account, TraderTold};
pub use entry::{EditMark, End, Entry, Record};
pub use error::{CodecError, TypeError};
pub use feed::{Feed, What};
pub use feed_list::FeedList;
pub use limits::{
    HIGHEST_PRICE, LAST_TIME, LONGEST_DELAY, MOST_EVENTS, MOST_STOCKS, MOST_TRADERS, MOST_WAITING,
};
pub use message::{Body, Message, Quote};
pub use order::{Cancel, Enter, Inbound, Side, Symbol, Token};
pub use plain_lists::{Memory, Sequence, copied};
pub use readers::{read_price, read_shares, read_symbol, read_token};
pub use reply::Reply;
pub use roomy::Roomy;
pub use trace::Trace;
pub use worked::{
    kept_places_are_not_told, limits_in_numbers, opposite_sides, ranges_at_their_ends,
};

/// Nanoseconds past midnight.
pub type Time = u64;

/// Millionths of a dollar.
pub type Money = i128;

/// The number of an agent: 0 is the exchange, the traders follow from 1 in the study's order.
pub type AgentNo = u16;

/// The number of a stock, from 0 in the study's order.
pub type StockNo = u16;
