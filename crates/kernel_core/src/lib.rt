//! The kernel: messages on their way, and one event after another.
//!
//! Contracts see a kernel as the plain record of its state, one event as a function of that state, and a run as events one
//! after another. A keeper takes each event where its message stands: a trace is one.
#![tactic(auto)]

mod due;
mod edit;
pub mod edits_worked;
mod jitter;
mod keeper;
mod kernel;
pub mod laws;
mod mail;
pub mod mail_laws;
pub mod mail_worked;
mod opened;
mod post;
mod step;
mod stepped;
mod telling;
mod traced;
pub mod worked;

pub use keeper::{EventSeen, Keeper};
pub use kernel::{Kernel, KernelTold};
pub use mail::Mail;
pub use market_floor::Opening;
pub use stepped::Stepped;
