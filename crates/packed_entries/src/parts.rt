//! An event by its parts.

use market_types::{AgentNo, Body, Feed, Time};

/// What an event tells, where it stands.
#[derive(Clone, Copy)]
pub struct EventParts<'a> {
    /// The event's number, from 1.
    pub number: u32,
    /// The time of the event in nanoseconds past midnight.
    pub time: Time,
    /// The sequence number of the message.
    pub seq: u64,
    pub from: AgentNo,
    pub to: AgentNo,
    /// Whether the message was put back.
    pub put_back: bool,
    /// The receiver's own time after the event.
    pub until: Time,
    /// The sum of the fees that the event took, in millionths of a dollar.
    pub fee: i64,
    pub body: &'a Body,
    /// The feed of the dated rule changes that came into force with the event.
    pub before: &'a [Feed],
    /// The feed of the event itself.
    pub after: &'a [Feed],
}
