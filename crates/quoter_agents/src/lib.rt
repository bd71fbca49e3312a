//! Traders that keep or make a market: momentum and makers.
#![tactic(auto)]

mod history;
mod levels;
mod momentum;
mod quoter;
pub mod worked;

pub use history::History;
pub use quoter::{follow, make};
