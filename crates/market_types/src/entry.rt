//! The entries of a trace.

use crate::feed_list::FeedList;
use crate::message::Body;
use crate::{AgentNo, Time};

/// One event of the kernel: a message that was delivered, or put back until its receiver is free.
#[derive(Drop)]
pub struct Record {
    /// The event's number, from 1.
    pub number: u32,
    /// The time of the event in nanoseconds past midnight.
    pub time: Time,
    /// The sequence number of the message.
    pub seq: u64,
    pub from: AgentNo,
    pub to: AgentNo,
    /// Whether the message was put back.
    pub put_back: bool,
    /// The receiver's own time after the event.
    pub until: Time,
    /// The sum of the fees that the event took, in millionths of a dollar.
    pub fee: i64,
    pub body: Body,
    /// The feed of the dated rule changes that came into force with the event.
    pub before: FeedList,
    /// The feed of the event itself.
    pub after: FeedList,
}

/// One edit of a branch.
#[derive(Drop)]
pub struct EditMark {
    /// The number of events before it.
    pub events: u32,
    /// The time of the state in nanoseconds past midnight.
    pub time: Time,
    pub branch: u16,
    /// The edit's place among the branch's edits, from 0.
    pub index: u16,
    /// The letter of the kind of edit.
    pub letter: u8,
    pub feed: FeedList,
}

/// One entry of a trace.
#[derive(Drop)]
pub enum Entry {
    Event(Record),
    Edit(EditMark),
}

/// Why a state has no next event.
#[derive(Clone, Copy, PartialEq, Eq)]
pub enum End {
    /// No message waits.
    Quiet,
    /// The least waiting message is later than the close.
    Closed,
    /// So many events stand as the study allows.
    EventLimit,
    /// A message was dropped at a full queue.
    QueueFull,
}
