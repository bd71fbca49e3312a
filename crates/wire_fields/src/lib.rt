//! Fields of fixed messages: what both codecs, of orders and of the public feed, stand on.
#![tactic(auto)]

mod checking;
mod decoding;
mod kind;
mod message_bytes;
mod reading;
mod worked;
mod writing;

pub use checking::check;
pub use decoding::{MessageType, decode, one_message};
pub use kind::Kind;
pub use message_bytes::MessageBytes;
pub use reading::{array_at, byte_at, side_at, u16_at, u32_at, u48_at, u64_at};
pub use worked::{number_bytes_both_ways, texts_and_sides};
pub use writing::{Value, fields, message, side_letter};
