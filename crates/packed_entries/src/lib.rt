//! Entries of a run kept small: each field that all events have in a mark, and what only some have in columns of its own.
#![tactic(auto)]

mod blank;
mod columns;
mod mark;
mod marking;
mod packed;
mod parts;
mod reading;
mod rest;
mod walk;

pub use blank::{blank_edit, blank_event};
pub use packed::Packed;
pub use parts::EventParts;
pub use walk::{Step, Walk};
