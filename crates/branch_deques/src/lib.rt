//! The lanes by which workers hand segments to one another: each worker pushes and pops on its own, and takes from the
//! others' when it has none.
#![tactic(auto)]

mod end;
mod lane;
mod lanes;
mod rule;
pub mod worked;

pub use end::{OtherLane, OwnLane};
pub use lane::Lane;
pub use lanes::open_lanes;
pub use plain_lists::Memory;
pub use rule::{LaneView, Room};
