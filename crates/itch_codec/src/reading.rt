//! Feed messages from bytes.

ghost use Rattle.std.specs.Prelude.{◌≡◌, ◌≤◌, take, drop, length, IfOk, Ok};
ghost use Rattle.std.specs.Result.{result_err};
ghost use Rattle.wire_fields.specs.Numbers.{number_of};
ghost use Rattle.wire_fields.specs.Wire.{IsSpelled, AreGood, wire_in, refusal};
ghost use Rattle.itch_codec.specs.Messages.{feed_wire, feed_layout};
ghost use Rattle.market_types.specs.declared.feed.Feed.{Feed};

use crate::layouts::{
    ADD, ADD_TYPE, CANCEL, CANCEL_TYPE, CROSS, CROSS_TYPE, DELETE, DELETE_TYPE, DIRECTORY,
    DIRECTORY_TYPE, EXECUTED, EXECUTED_TYPE, SYSTEM, SYSTEM_TYPE, TRADE, TRADE_TYPE, TRADING,
    TRADING_TYPE,
};
use market_types::{CodecError, Feed, Symbol, What};
use wire_fields::{
    Kind, MessageType, array_at, byte_at, decode, side_at, u16_at, u32_at, u48_at, u64_at,
};

// The types of feed messages.
#[derive(Clone, Copy)]
pub(crate) enum FeedType {
    System,
    Directory,
    Trading,
    Add,
    Executed,
    Cancel,
    Delete,
    Trade,
    Cross,
}

impl MessageType for FeedType {
    ghost use Rattle.itch_codec.specs.Messages.{feed_wire, feed_layout};
    ghost use Rattle.itch_codec.specs.Back.{feed_of, feed_letter, feed_kinds, feed_told, feed_back};

    type Message = Feed;

    ghost wire = { feed_wire };

    ghost message = { feed_of };

    ghost layout = { feed_layout };

    ghost letter = { feed_letter };

    ghost kinds = { feed_kinds };

    ghost told = { feed_told };

    ghost back = { feed_back };

    fn of_letter(first: u8) -> Option<FeedType> {
        match first {
            SYSTEM_TYPE => Some(FeedType::System),
            DIRECTORY_TYPE => Some(FeedType::Directory),
            TRADING_TYPE => Some(FeedType::Trading),
            ADD_TYPE => Some(FeedType::Add),
            EXECUTED_TYPE => Some(FeedType::Executed),
            CANCEL_TYPE => Some(FeedType::Cancel),
            DELETE_TYPE => Some(FeedType::Delete),
            TRADE_TYPE => Some(FeedType::Trade),
            CROSS_TYPE => Some(FeedType::Cross),
            _ => None,
        }
    }

    fn fields(self) -> &'static [Kind] {
        match self {
            FeedType::System => &SYSTEM,
            FeedType::Directory => &DIRECTORY,
            FeedType::Trading => &TRADING,
            FeedType::Add => &ADD,
            FeedType::Executed => &EXECUTED,
            FeedType::Cancel => &CANCEL,
            FeedType::Delete => &DELETE,
            FeedType::Trade => &TRADE,
            FeedType::Cross => &CROSS,
        }
    }

    fn read(self, bytes: &[u8]) -> Feed {
        match self {
            FeedType::System => system_at(bytes),
            FeedType::Directory => directory_at(bytes),
            FeedType::Trading => trading_at(bytes),
            FeedType::Add => add_at(bytes),
            FeedType::Executed => executed_at(bytes),
            FeedType::Cancel => cancel_at(bytes),
            FeedType::Delete => delete_at(bytes),
            FeedType::Trade => trade_at(bytes),
            FeedType::Cross => cross_at(bytes),
        }
    }
}

/// The feed message that these bytes are. What it refuses, the first that applies: a type that is none of `S`, `R`, `H`,
/// `A`, `E`, `X`, `D`, `P` and `Q`, another length than the type's, where 1 is needed of the empty input, and the least
/// offset of a field out of its range.
pub fn decode_feed(bytes: &[u8]) -> Result<Feed, CodecError>
    ensures spelled { IfOk result (λ m. IsSpelled bytes.now (feed_wire m)) }
    ensures only { (m : Feed) → IsSpelled bytes.now (feed_wire m) → result ≡ Ok m }
    ensures refused { result_err result ≡ refusal feed_layout bytes.now }
{
    decode::<FeedType>(bytes)
}

// A feed message with the fields that each begins with.
fn feed_at(bytes: &[u8], what: What) -> Feed
    requires { 11 ≤ length bytes.now }
    ensures locate { result.locate ≡ number_of (take 2 (drop 1 bytes.now)) }
    ensures tracking { result.tracking ≡ number_of (take 2 (drop 3 bytes.now)) }
    ensures time { result.time ≡ number_of (take 6 (drop 5 bytes.now)) }
    ensures what { result.what ≡ what }
{
    Feed {
        locate: u16_at(bytes, 1),
        tracking: u16_at(bytes, 3),
        time: u48_at(bytes, 5),
        what,
    }
}

fn system_at(bytes: &[u8]) -> Feed
    requires { length bytes.now ≡ 12 }
    ensures { feed_wire result ≡ wire_in SYSTEM_TYPE SYSTEM bytes.now }
{
    let what = What::System {
        code: byte_at(bytes, 11),
    };
    feed_at(bytes, what)
}

fn directory_at(bytes: &[u8]) -> Feed
    requires { length bytes.now ≡ 39 }
    ensures { feed_wire result ≡ wire_in DIRECTORY_TYPE DIRECTORY bytes.now }
{
    let what = What::Directory {
        stock: Symbol(array_at(bytes, 11)),
        category: byte_at(bytes, 19),
        financial: byte_at(bytes, 20),
        lot: u32_at(bytes, 21),
        lots_only: byte_at(bytes, 25),
        class: byte_at(bytes, 26),
        sub_type: array_at(bytes, 27),
        authenticity: byte_at(bytes, 29),
        short_sale: byte_at(bytes, 30),
        ipo: byte_at(bytes, 31),
        tier: byte_at(bytes, 32),
        etp: byte_at(bytes, 33),
        leverage: u32_at(bytes, 34),
        inverse: byte_at(bytes, 38),
    };
    feed_at(bytes, what)
}

fn trading_at(bytes: &[u8]) -> Feed
    requires { length bytes.now ≡ 25 }
    ensures { feed_wire result ≡ wire_in TRADING_TYPE TRADING bytes.now }
{
    let what = What::Trading {
        stock: Symbol(array_at(bytes, 11)),
        state: byte_at(bytes, 19),
        reserved: byte_at(bytes, 20),
        reason: array_at(bytes, 21),
    };
    feed_at(bytes, what)
}

fn add_at(bytes: &[u8]) -> Feed
    requires length { length bytes.now ≡ 36 }
    requires good { AreGood ADD 1 bytes.now }
    ensures { feed_wire result ≡ wire_in ADD_TYPE ADD bytes.now }
{
    let what = What::Add {
        reference: u64_at(bytes, 11),
        side: side_at(bytes, 19),
        shares: u32_at(bytes, 20),
        stock: Symbol(array_at(bytes, 24)),
        price: u32_at(bytes, 32),
    };
    feed_at(bytes, what)
}

fn executed_at(bytes: &[u8]) -> Feed
    requires { length bytes.now ≡ 31 }
    ensures { feed_wire result ≡ wire_in EXECUTED_TYPE EXECUTED bytes.now }
{
    let what = What::Executed {
        reference: u64_at(bytes, 11),
        shares: u32_at(bytes, 19),
        number: u64_at(bytes, 23),
    };
    feed_at(bytes, what)
}

fn cancel_at(bytes: &[u8]) -> Feed
    requires { length bytes.now ≡ 23 }
    ensures { feed_wire result ≡ wire_in CANCEL_TYPE CANCEL bytes.now }
{
    let what = What::Cancel {
        reference: u64_at(bytes, 11),
        shares: u32_at(bytes, 19),
    };
    feed_at(bytes, what)
}

fn delete_at(bytes: &[u8]) -> Feed
    requires { length bytes.now ≡ 19 }
    ensures { feed_wire result ≡ wire_in DELETE_TYPE DELETE bytes.now }
{
    let what = What::Delete {
        reference: u64_at(bytes, 11),
    };
    feed_at(bytes, what)
}

fn trade_at(bytes: &[u8]) -> Feed
    requires length { length bytes.now ≡ 44 }
    requires good { AreGood TRADE 1 bytes.now }
    ensures { feed_wire result ≡ wire_in TRADE_TYPE TRADE bytes.now }
{
    let what = What::Trade {
        reference: u64_at(bytes, 11),
        side: side_at(bytes, 19),
        shares: u32_at(bytes, 20),
        stock: Symbol(array_at(bytes, 24)),
        price: u32_at(bytes, 32),
        number: u64_at(bytes, 36),
    };
    feed_at(bytes, what)
}

fn cross_at(bytes: &[u8]) -> Feed
    requires { length bytes.now ≡ 40 }
    ensures { feed_wire result ≡ wire_in CROSS_TYPE CROSS bytes.now }
{
    let what = What::Cross {
        shares: u64_at(bytes, 11),
        stock: Symbol(array_at(bytes, 19)),
        price: u32_at(bytes, 27),
        number: u64_at(bytes, 31),
        kind: byte_at(bytes, 39),
    };
    feed_at(bytes, what)
}
