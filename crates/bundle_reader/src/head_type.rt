//! The types of frames, and the head of a frame whose bytes are known to be good.

ghost use Rattle.std.specs.Prelude.{◌≡◌, ◌+◌, length};
ghost use Rattle.wire_fields.specs.Wire.{AreGood, total_width, wire_in};
ghost use Rattle.bundle_frames.specs.Wires.{letter_of_order};
ghost use Rattle.bundle_reader.specs.Heads.{head_wire};
ghost use Rattle.bundle_reader.specs.Back.{head_kinds};

use crate::head::{
    AgentHead, BranchHead, EditHead, EventHead, Head, HeaderHead, StockHead, WaitingHead,
};
use bundle_frames::{
    AGENT, BRANCH, COUNTS, ClosingCounts, ClosingOrder, EDIT, END, EVENT, HEADER, ORDER, STOCK,
};
use market_types::Token;
use wire_fields::{Kind, MessageType, array_at, byte_at, side_at, u16_at, u32_at, u64_at};

/// `w`, a waiting message before its body: when it is due, its number, sender, receiver, kind of body.
pub const WAITING: [Kind; 5] = [
    Kind::Number(8),
    Kind::Number(8),
    Kind::Number(2),
    Kind::Number(2),
    Kind::OneOf(*b"wioaq"),
];

/// The types of frames that have a head.
#[derive(Clone, Copy)]
pub enum HeadType {
    Header,
    Branch,
    Event,
    Edit,
    Counts,
    Stock,
    /// A shown order.
    Order,
    /// A hidden order.
    Hidden,
    Agent,
    Waiting,
    End,
}

impl HeadType {
    /// How many bytes the head has, with its letter.
    pub fn size(self) -> usize
        ensures { result ≡ 1 + total_width (head_kinds self) }
    {
        match self {
            HeadType::Header => 9,
            HeadType::Branch => 10,
            HeadType::Event => 43,
            HeadType::Edit => 18,
            HeadType::Counts => 66,
            HeadType::Stock | HeadType::Order | HeadType::Hidden => 44,
            HeadType::Agent => 70,
            HeadType::Waiting => 22,
            HeadType::End => 3,
        }
    }
}

impl MessageType for HeadType {
    ghost use Rattle.bundle_reader.specs.Heads.{head_wire, head_layout};
    ghost use Rattle.bundle_reader.specs.Back.{head_of, head_letter, head_kinds, head_told, head_back};

    type Message = Head;

    ghost wire = { head_wire };

    ghost message = { head_of };

    ghost layout = { head_layout };

    ghost letter = { head_letter };

    ghost kinds = { head_kinds };

    ghost told = { head_told };

    ghost back = { head_back };

    fn of_letter(first: u8) -> Option<HeadType> {
        match first {
            b'h' => Some(HeadType::Header),
            b'b' => Some(HeadType::Branch),
            b'e' => Some(HeadType::Event),
            b'd' => Some(HeadType::Edit),
            b'c' => Some(HeadType::Counts),
            b's' => Some(HeadType::Stock),
            b'l' => Some(HeadType::Order),
            b'n' => Some(HeadType::Hidden),
            b'a' => Some(HeadType::Agent),
            b'w' => Some(HeadType::Waiting),
            b'z' => Some(HeadType::End),
            _ => None,
        }
    }

    fn fields(self) -> &'static [Kind] {
        match self {
            HeadType::Header => &HEADER,
            HeadType::Branch => &BRANCH,
            HeadType::Event => &EVENT,
            HeadType::Edit => &EDIT,
            HeadType::Counts => &COUNTS,
            HeadType::Stock => &STOCK,
            HeadType::Order | HeadType::Hidden => &ORDER,
            HeadType::Agent => &AGENT,
            HeadType::Waiting => &WAITING,
            HeadType::End => &END,
        }
    }

    fn read(self, bytes: &[u8]) -> Head {
        match self {
            HeadType::Header => header_at(bytes),
            HeadType::Branch => branch_at(bytes),
            HeadType::Event => event_at(bytes),
            HeadType::Edit => edit_at(bytes),
            HeadType::Counts => counts_at(bytes),
            HeadType::Stock => stock_at(bytes),
            HeadType::Order => order_at(bytes, true),
            HeadType::Hidden => order_at(bytes, false),
            HeadType::Agent => agent_at(bytes),
            HeadType::Waiting => waiting_at(bytes),
            HeadType::End => end_at(bytes),
        }
    }
}

fn header_at(bytes: &[u8]) -> Head
    requires { length bytes.now ≡ 9 }
    ensures { head_wire result ≡ wire_in 104 HEADER bytes.now }
{
    Head::Header(HeaderHead {
        version: u16_at(bytes, 1),
        agents: u16_at(bytes, 3),
        stocks: u16_at(bytes, 5),
        branches: u16_at(bytes, 7),
    })
}

fn branch_at(bytes: &[u8]) -> Head
    requires { length bytes.now ≡ 10 }
    ensures { head_wire result ≡ wire_in 98 BRANCH bytes.now }
{
    Head::Branch(BranchHead {
        branch: u16_at(bytes, 1),
        parent: u16_at(bytes, 3),
        stop: u32_at(bytes, 5),
        name_length: byte_at(bytes, 9),
    })
}

fn event_at(bytes: &[u8]) -> Head
    requires { length bytes.now ≡ 43 }
    ensures { head_wire result ≡ wire_in 101 EVENT bytes.now }
{
    Head::Event(EventHead {
        number: u32_at(bytes, 1),
        time: u64_at(bytes, 5),
        seq: u64_at(bytes, 13),
        from: u16_at(bytes, 21),
        to: u16_at(bytes, 23),
        delivery: byte_at(bytes, 25),
        until: u64_at(bytes, 26),
        fee: u64_at(bytes, 34),
        body: byte_at(bytes, 42),
    })
}

fn edit_at(bytes: &[u8]) -> Head
    requires { length bytes.now ≡ 18 }
    ensures { head_wire result ≡ wire_in 100 EDIT bytes.now }
{
    Head::Edit(EditHead {
        events: u32_at(bytes, 1),
        time: u64_at(bytes, 5),
        branch: u16_at(bytes, 13),
        index: u16_at(bytes, 15),
        letter: byte_at(bytes, 17),
    })
}

fn counts_at(bytes: &[u8]) -> Head
    requires { length bytes.now ≡ 66 }
    ensures { head_wire result ≡ wire_in 99 COUNTS bytes.now }
{
    Head::Counts(ClosingCounts {
        end: byte_at(bytes, 1),
        events: u32_at(bytes, 2),
        time: u64_at(bytes, 6),
        next_seq: u64_at(bytes, 14),
        waiting: u32_at(bytes, 22),
        dropped: u64_at(bytes, 26),
        enters: u64_at(bytes, 34),
        cancels: u64_at(bytes, 42),
        orders: u64_at(bytes, 50),
        matches: u64_at(bytes, 58),
    })
}

fn stock_at(bytes: &[u8]) -> Head
    requires { length bytes.now ≡ 44 }
    ensures { head_wire result ≡ wire_in 115 STOCK bytes.now }
{
    Head::Stock(StockHead {
        stock: u16_at(bytes, 1),
        state: byte_at(bytes, 3),
        last: u32_at(bytes, 4),
        matched: u64_at(bytes, 8),
        fees_high: u64_at(bytes, 16),
        fees_low: u64_at(bytes, 24),
        offset: u64_at(bytes, 32),
        live: u32_at(bytes, 40),
    })
}

fn order_at(bytes: &[u8], shown: bool) -> Head
    requires length { length bytes.now ≡ 44 }
    requires good { AreGood ORDER 1 bytes.now }
    ensures { head_wire result ≡ wire_in (letter_of_order shown) ORDER bytes.now }
{
    Head::Order(ClosingOrder {
        reference: u64_at(bytes, 1),
        agent: u16_at(bytes, 9),
        token: Token(array_at(bytes, 11)),
        side: side_at(bytes, 25),
        intended: u32_at(bytes, 26),
        left: u32_at(bytes, 30),
        stock: u16_at(bytes, 34),
        price: u32_at(bytes, 36),
        tif: u32_at(bytes, 40),
        shown,
    })
}

fn agent_at(bytes: &[u8]) -> Head
    requires { length bytes.now ≡ 70 }
    ensures { head_wire result ≡ wire_in 97 AGENT bytes.now }
{
    Head::Agent(AgentHead {
        agent: u16_at(bytes, 1),
        silenced: byte_at(bytes, 3),
        time: u64_at(bytes, 4),
        tokens: u32_at(bytes, 12),
        draws: u64_at(bytes, 16),
        cash_high: u64_at(bytes, 24),
        cash_low: u64_at(bytes, 32),
        own_cash_high: u64_at(bytes, 40),
        own_cash_low: u64_at(bytes, 48),
        own_position: u64_at(bytes, 56),
        live: u16_at(bytes, 64),
        quotes: u32_at(bytes, 66),
    })
}

fn waiting_at(bytes: &[u8]) -> Head
    requires { length bytes.now ≡ 22 }
    ensures { head_wire result ≡ wire_in 119 WAITING bytes.now }
{
    Head::Waiting(WaitingHead {
        time: u64_at(bytes, 1),
        seq: u64_at(bytes, 9),
        from: u16_at(bytes, 17),
        to: u16_at(bytes, 19),
        body: byte_at(bytes, 21),
    })
}

fn end_at(bytes: &[u8]) -> Head
    requires { length bytes.now ≡ 3 }
    ensures { head_wire result ≡ wire_in 122 END bytes.now }
{
    Head::End(u16_at(bytes, 1))
}
