//! The messages that wait for delivery.
//!
//! Contracts see a queue as the list of the waiting messages in order of their sequence numbers,
//! which are distinct, and a number `spare` of places that are kept for more. The order in which the
//! queue holds them is its own affair: the next message is found by its time, and at one time by its
//! number, so that messages due at one time are delivered in the order in which they first joined.
#![tactic(auto)]

mod heaps;
mod key;
pub mod laws;
mod queue;
pub mod worked;

pub use queue::Queue;
