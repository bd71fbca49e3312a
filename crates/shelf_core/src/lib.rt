//! The shelf of checkpoints that workers share, as a machine on plain data, and its law.
#![tactic(auto)]

mod after;
mod event;
pub mod laws;
mod places;
mod plan;
mod possible;
mod run;
mod seat;
mod system;
mod views;
mod words;
pub mod worked;

pub use event::Event;
pub use plan::{Key, ShelfPlan};
pub use run::{law, step};
pub use seat::SeatView;
pub use system::System;
pub use words::{ClaimWord, PlaceWord, Seen, Word};
