//! What is kept of an entry, kind by kind.

use market_types::{AgentNo, Side, StockNo, Symbol, Time, Token};

// What an entry is: an edit, or an event with a message of this kind.
#[derive(Clone, Copy, PartialEq, Eq)]
pub(crate) enum Kind {
    Wake,
    Ask,
    Enter,
    Cancel,
    Quote,
    System,
    Accepted,
    Canceled,
    Executed,
    Rejected,
    Edit,
}

// What each event has, in 32 bytes. Of an edit only its kind and the number of its messages say something.
#[derive(Clone, Copy)]
pub(crate) struct Mark {
    pub time: Time,
    pub number: u32,
    pub seq: u32,
    // From the event's time to the receiver's own time after it.
    pub later: u32,
    pub from: AgentNo,
    pub to: AgentNo,
    // The stock of a question.
    pub stock: StockNo,
    // How many messages its feeds have; an edit's feed stands as the one before.
    pub before: u8,
    pub after: u8,
    pub kind: Kind,
    pub put_back: bool,
    // Whether what follows stands in an `Extra`, and not here: an event with a fee, or with a number that has no room here.
    pub is_more: bool,
}

// What a mark has no room for.
#[derive(Clone, Copy)]
pub(crate) struct Extra {
    pub seq: u64,
    pub until: Time,
    pub fee: i64,
    pub before: usize,
    pub after: usize,
}

// An edit without its feed.
#[derive(Clone, Copy)]
pub(crate) struct EditHead {
    pub events: u32,
    pub time: Time,
    pub branch: u16,
    pub index: u16,
    pub letter: u8,
}

// The fields of an accepted order, the widest first.
#[derive(Clone, Copy)]
pub(crate) struct Accepted {
    pub time: Time,
    pub reference: u64,
    pub shares: u32,
    pub price: u32,
    pub tif: u32,
    pub minimum: u32,
    pub token: Token,
    pub stock: Symbol,
    pub firm: [u8; 4],
    pub side: Side,
    pub display: u8,
    pub capacity: u8,
    pub sweep: u8,
    pub cross: u8,
    pub state: u8,
    pub bbo: u8,
}

// The fields of any other reply, of which each has some.
#[derive(Clone, Copy)]
pub(crate) struct Short {
    pub time: Time,
    pub number: u64,
    pub shares: u32,
    pub price: u32,
    pub token: Token,
    pub letter: u8,
}
