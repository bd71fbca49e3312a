//! What all traders share: their parameters, what they send, their own account and list of open orders, and the
//! parts of a decision that are the same for each kind.
#![tactic(auto)]

mod hashing;
pub mod laws;
mod parts;
mod placing;
mod sending;
mod setting;
mod shell;
mod tokens;
mod wish;
pub mod worked;

pub use parts::Parts;
pub use placing::{make_room, send};
pub use sending::{Sending, Sends};
pub use setting::{Kind, Levels, TraderSetting};
pub use shell::{OwnOrder, Shell};
pub use wish::Wish;
