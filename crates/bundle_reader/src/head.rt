//! What the fixed fields of a frame say, as they stand.

use bundle_frames::{ClosingCounts, ClosingOrder};
use market_types::{AgentNo, StockNo, Time};

/// `h`, the header of a bundle.
#[derive(Clone, Copy)]
pub struct HeaderHead {
    pub version: u16,
    /// Agents with the exchange.
    pub agents: u16,
    pub stocks: u16,
    pub branches: u16,
}

/// `b`, a branch before its name.
#[derive(Clone, Copy)]
pub struct BranchHead {
    pub branch: u16,
    /// The parent's number; 65,535 for the root.
    pub parent: u16,
    pub stop: u32,
    /// How many bytes the name has.
    pub name_length: u8,
}

/// `e`, an event before the body of its message.
#[derive(Clone, Copy)]
pub struct EventHead {
    /// The event's number.
    pub number: u32,
    /// Nanoseconds past midnight.
    pub time: Time,
    /// The message's number.
    pub seq: u64,
    pub from: AgentNo,
    pub to: AgentNo,
    /// `D` is delivered, `P` is put back.
    pub delivery: u8,
    /// The receiver's own time afterwards.
    pub until: Time,
    /// Millionths of a dollar in two's complement.
    pub fee: u64,
    /// The kind of the body: `w`, `i`, `o`, `a` or `q`.
    pub body: u8,
}

/// `d`, an edit.
#[derive(Clone, Copy)]
pub struct EditHead {
    /// Events before it.
    pub events: u32,
    /// Nanoseconds past midnight.
    pub time: Time,
    pub branch: u16,
    /// Its place among the branch's edits, from 0.
    pub index: u16,
    /// The letter of its kind.
    pub letter: u8,
}

/// `s`, a stock of a closing.
#[derive(Clone, Copy)]
pub struct StockHead {
    pub stock: StockNo,
    pub state: u8,
    /// The price of the last match with four implied decimals.
    pub last: u32,
    /// Matched shares.
    pub matched: u64,
    /// The higher half of the fees in two's complement, in millionths of a dollar.
    pub fees_high: u64,
    /// Their lower half.
    pub fees_low: u64,
    /// The offset of the value series in two's complement.
    pub offset: u64,
    /// Live orders.
    pub live: u32,
}

/// `a`, an agent of a closing before its positions. Money is millionths of a dollar in two's complement, in two halves.
#[derive(Clone, Copy)]
pub struct AgentHead {
    pub agent: AgentNo,
    /// `Y` is silenced, `N` is not.
    pub silenced: u8,
    /// Its own time in nanoseconds past midnight.
    pub time: Time,
    /// Order tokens given.
    pub tokens: u32,
    /// Random draws made.
    pub draws: u64,
    pub cash_high: u64,
    pub cash_low: u64,
    pub own_cash_high: u64,
    pub own_cash_low: u64,
    /// Its own account's position in shares, in two's complement.
    pub own_position: u64,
    /// Orders in its own list.
    pub live: u16,
    /// Quotes heard.
    pub quotes: u32,
}

/// `w`, a waiting message before its body.
#[derive(Clone, Copy)]
pub struct WaitingHead {
    /// When it is due, in nanoseconds past midnight.
    pub time: Time,
    /// Its number.
    pub seq: u64,
    pub from: AgentNo,
    pub to: AgentNo,
    /// The kind of the body: `w`, `i`, `o`, `a` or `q`.
    pub body: u8,
}

/// The fixed fields of a frame.
#[derive(Clone, Copy)]
pub enum Head {
    Header(HeaderHead),
    Branch(BranchHead),
    Event(EventHead),
    Edit(EditHead),
    Counts(ClosingCounts),
    Stock(StockHead),
    Order(ClosingOrder),
    Agent(AgentHead),
    Waiting(WaitingHead),
    /// `z`, the end of a bundle, with the number of its branches.
    End(u16),
}
