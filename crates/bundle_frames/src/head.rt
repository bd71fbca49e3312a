//! What an event tells before its body.

use market_types::{AgentNo, Time};

/// What stands in an event's frame before the body of its message.
#[derive(Clone, Copy)]
pub struct EventHead {
    /// The event's number, from 1.
    pub number: u32,
    /// The time of the event in nanoseconds past midnight.
    pub time: Time,
    /// The sequence number of the message.
    pub seq: u64,
    pub from: AgentNo,
    pub to: AgentNo,
    /// Whether the message was put back.
    pub put_back: bool,
    /// The receiver's own time after the event, in nanoseconds past midnight.
    pub until: Time,
    /// The sum of the fees that the event took, in millionths of a dollar.
    pub fee: i64,
}
