//! Traders that take quotes as they come: watchers, noise traders and traders on value.
#![tactic(auto)]

mod choice;
mod taker;
pub mod worked;

pub use taker::take;
