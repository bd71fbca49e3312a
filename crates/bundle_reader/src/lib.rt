//! A bundle read back as values: the parts of a frame, one frame, the whole bundle, and what bytes are read as, as one function.
#![tactic(auto)]

mod as_read;
pub mod as_read_worked;
mod bodies;
mod bundle;
mod closing;
mod entries;
mod frame;
mod head;
mod head_type;
mod heads;
pub mod laws;
mod market_body;
mod next;
mod numbers;
mod opening;
mod parts;
mod payload;
mod reading;
mod take;
mod worked;

pub use as_read::read;
pub use bodies::read_body;
pub use bundle::{Bundle, BundleError, Told, read_bundle};
pub use frame::{BranchFrame, EventFrame, Frame, HeaderFrame, WaitingFrame};
pub use head::{
    AgentHead, BranchHead, EditHead, EventHead, Head, HeaderHead, StockHead, WaitingHead,
};
pub use heads::read_head;
pub use next::{FrameError, next_frame};
pub use payload::read_payload;
pub use worked::frames_are_those_that_are_written;
