//! Branches run segment by segment, each from a copy of the state that its parent ends with; the closing and the frames of a state.
//!
//! Contracts see a course as its opening and plan. A branch's full run goes from the opening and knows no segment; the laws say
//! that the segments' own runs one after another are the full run, for every tree of branches.
#![tactic(auto)]

mod checkpoint;
mod closing;
pub mod closing_laws;
mod course;
mod frame_bytes;
mod kept;
mod keys;
pub mod laws;
mod run;
mod state;
mod summed_events;
mod tallied;
mod tally;
mod unkept;
pub mod worked_closing;
pub mod worked_keys;
pub mod worked_states;

pub use checkpoint::Checkpoint;
pub use closing::closing_of;
pub use course::Course;
pub use kept::{Keep, Kept};
pub use keys::{END_AT_A_TIME, number_of_end};
pub use run::{Outcome, Ran, go_on, goes_on, kept_end, outcome_at};
pub use shelf_core::Key;
pub use state::state_frames;
pub use tallied::Tallied;
pub use tally::Tally;
