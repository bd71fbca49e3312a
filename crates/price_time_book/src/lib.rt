//! The resting orders of one stock, which meet incoming orders by price and, at one price, by whether they
//! are shown, and then by time.
//!
//! Contracts see a book as the list of its orders in order of arrival, which is the order of their
//! references, and a number `spare` of places that are kept for more. An incoming order meets the
//! order with the best price first, at one price the shown ones before the hidden ones, and of those the
//! one that came first.
#![tactic(auto)]

mod book;
pub mod bytes;
mod chains;
mod index;
pub mod keeping;
pub mod laws;
mod levels;
mod lowering;
mod resting;
mod room;
mod search;
pub mod worked;

pub use book::Book;
pub use resting::{Best, Fill, Resting};
