//! Everything behind the receivers of messages: what a run starts from, the traders, the exchange and the offsets of the stocks' values.
//!
//! Contracts see a floor as the plain record of its parts. A message is delivered to its receiver as one call, in
//! which dated changes of the stocks' rules come first.
#![tactic(auto)]

mod editing;
mod floor;
pub mod laws;
mod opening;
pub mod opening_laws;
pub mod opening_worked;
mod party;
pub mod party_worked;
mod posting;
mod postings;
mod reacting;
mod ruling;
pub mod worked;

pub use floor::Floor;
pub use opening::{Opening, group_number};
pub use party::Party;
pub use posting::{Posting, PostingSeen};
pub use postings::{Happening, Postings};
pub use ruling::applied_by;
