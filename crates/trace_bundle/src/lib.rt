//! The bundle of a study's branches as bytes, and the lines that tell of a large study.
#![tactic(auto)]

mod bundle;
mod carrier;
mod ends;
mod feed;
mod forks;
pub mod large_worked;
pub mod laws;
mod lines;
mod listed;
mod outcomes;
mod ran;
mod segment_tallies;
mod send;
mod to_bytes;
pub mod worked;

pub use bundle::{put_branch_head, write_header};
pub use carrier::Carrier;
pub use ends::{closing_of_branch, events_of_branch};
pub use forks::stop_written;
pub use lines::big_lines;
pub use listed::{summed_of_segment, trace_of_segment};
pub use ran::RunOutcomes;
pub use send::{send_bundle, send_end};
pub use to_bytes::{ToBytes, write_branch};
