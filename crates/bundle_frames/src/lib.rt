//! The frames of a bundle, one by one, and the values of a closing.
#![tactic(auto)]

mod bodies;
mod closing;
mod ends;
mod events;
mod frames;
mod head;
mod items;
mod layouts;
mod waiting;
mod whole;
mod worked;
mod written;

pub use closing::{Closing, ClosingAgent, ClosingCounts, ClosingOrder, ClosingStock};
pub use ends::{put_branch, put_end, put_header};
pub use events::{put_parts, put_parts_with_feed};
pub use head::EventHead;
pub use layouts::{
    AGENT, ASK, BRANCH, COUNTS, EDIT, END, EVENT, HEADER, ORDER, POSITION, QUOTE, STOCK, WAITING,
};
pub use worked::{one_of_each, published_kinds, published_layouts};
pub use written::{Written, put_all};
