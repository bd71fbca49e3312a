//! Orders to the exchange and its replies in the bytes of Nasdaq OUCH 4.2.
#![tactic(auto)]

mod inbound;
mod layouts;
mod outbound;
mod worked;

pub use inbound::{decode_in, encode_cancel, encode_enter};
pub use outbound::{ReplyBytes, decode_out, encode_reply};
pub use worked::{entered_order, one_spelling, published_layouts, published_types, refused_orders};
