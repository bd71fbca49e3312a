//! The frames of a bundle as values.

use crate::EditHead;
use branch_tree::Name;
use bundle_frames::{ClosingAgent, ClosingCounts, ClosingOrder, ClosingStock};
use market_types::{AgentNo, Body, Feed, Time};

/// `h`, the header of a bundle of version 1.
#[derive(Clone, Copy)]
pub struct HeaderFrame {
    /// Agents with the exchange.
    pub agents: u16,
    pub stocks: u16,
    pub branches: u16,
}

/// `b`, a branch.
#[derive(Drop)]
pub struct BranchFrame {
    pub branch: u16,
    /// The parent's number; 65,535 for the root.
    pub parent: u16,
    pub stop: u32,
    pub name: Name,
}

/// `e`, an event without its feed.
#[derive(Clone, Copy)]
pub struct EventFrame {
    /// The event's number.
    pub number: u32,
    /// Nanoseconds past midnight.
    pub time: Time,
    /// The message's number.
    pub seq: u64,
    pub from: AgentNo,
    pub to: AgentNo,
    /// Whether the message was put back.
    pub put_back: bool,
    /// The receiver's own time afterwards.
    pub until: Time,
    /// Millionths of a dollar.
    pub fee: i64,
    pub body: Body,
}

/// `w`, a waiting message.
#[derive(Clone, Copy)]
pub struct WaitingFrame {
    /// When it is due, in nanoseconds past midnight.
    pub time: Time,
    /// Its number.
    pub seq: u64,
    pub from: AgentNo,
    pub to: AgentNo,
    pub body: Body,
}

/// One frame.
#[derive(Drop)]
pub enum Frame {
    Header(HeaderFrame),
    Branch(BranchFrame),
    /// A message of the feed.
    Message(Feed),
    Event(EventFrame),
    /// `d`, an edit without its feed.
    Edit(EditHead),
    /// `c`, the counters of a closing.
    Counts(ClosingCounts),
    /// `s`, a stock of a closing.
    Stock(ClosingStock),
    /// `l`, a live order of a closing.
    Order(ClosingOrder),
    /// `a`, an agent of a closing.
    Agent(ClosingAgent),
    Waiting(WaitingFrame),
    /// `z`, the end of a bundle, with the number of its branches.
    End(u16),
}
