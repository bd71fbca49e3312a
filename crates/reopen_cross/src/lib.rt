//! At which price a stock would reopen, and who trades there.
#![tactic(auto)]

mod choosing;
mod cross;
mod filling;
mod ladder;
pub mod laws;
mod sides;
mod tallies;
mod worked;

pub use choosing::choose;
pub use cross::{Cross, Interest, Part};
pub use filling::parts;
pub use market_types::Memory;
pub use worked::{priorities, reopening};
