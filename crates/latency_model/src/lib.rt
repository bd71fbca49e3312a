//! How long messages are on their way between groups of agents.
//!
//! Each ordered pair of groups has a base and a jitter, in nanoseconds. A message from the one to the
//! other takes the base and, on top, a number from 0 to the jitter, which a 32-bit word picks. The
//! word of the message with sequence number `n` is the draw at place `n` of stream 0 of the study's
//! key, so that a latency depends on nothing but the tables in force and the message's own number.
#![tactic(auto)]

mod groups;
mod rows;
pub mod worked;

pub use groups::Groups;

/// The stream of a key's draws from which messages take their words.
pub const JITTER_STREAM: u64 = 0;
