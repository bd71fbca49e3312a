//! The exchange: a market of limit orders in some stocks, which answers one message at a time.
//!
//! Contracts see an exchange as the plain record of its state: each stock's book is the list of its orders in
//! order of arrival, and the remembered pairs of agent and token are their list in order.
#![tactic(auto)]

mod cancel;
mod changes;
mod enter;
mod exchange;
mod handled;
pub mod laws;
mod listing;
mod market;
mod meet;
mod pair;
mod readers;
mod remembered;
mod settle;
mod tokens;
mod told;
mod trading;
mod verdict;
pub mod worked;

pub use exchange::Exchange;
pub use handled::{Handled, Outgoing};
pub use told::{Counts, StockRules, StockTold};
