//! The public feed in the bytes of Nasdaq TotalView-ITCH 5.0, and frames of two bytes of length and a payload.
#![tactic(auto)]

mod feed;
mod framing;
mod layouts;
mod reading;
mod worked;

pub use feed::{FeedBytes, encode_feed};
pub use framing::{frame, frame_of_two, unframe};
pub use reading::decode_feed;
pub use worked::{
    added_order, one_spelling, published_layouts, published_types, refused_feed, small_frames,
};
