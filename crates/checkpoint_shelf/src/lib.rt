//! The shelf of checkpoints that workers share: words and slots of an atomic table, in which each step is one event of
//! the shared system.
#![tactic(auto)]

mod about;
mod begun;
mod close;
mod closed;
mod code;
mod find;
mod get;
mod law;
mod open;
mod progress;
mod seat;
mod shelf;
mod shelved;
mod steps;
mod turns;
pub mod worked;

pub use about::{About, Held, View};
pub use begun::{Begun, Found, Turn};
pub use closed::ClosedShelf;
pub use law::Law;
pub use progress::Progress;
pub use seat::ShelfSeat;
pub use shelf::Shelf;
pub use shelf_core::{Key, PlaceWord, ShelfPlan};
pub use shelved::Shelved;
