//! Workers that share a course's segments: each segment is claimed and run once, from the end of its parent that a shelf keeps.
#![tactic(auto)]

mod all;
pub mod examples;
mod found;
mod gather;
mod grid;
mod layout;
mod order;
mod rest;
mod segment;
mod shift;
mod staff;
mod worker;

pub use all::{Setup, Worked, work};
pub use checkpoint_shelf::ClosedShelf;
pub use kernel_copy::{Checkpoint, Keep, Kept, Key, Outcome};
pub use layout::open_shelf;
pub use segment::run_segment;
pub use shift::Shift;
