//! The bodies that are no messages of orders: questions for a stock's market, and their answers.

ghost use Rattle.std.specs.Prelude.{◌≡◌, length};
ghost use Rattle.wire_fields.specs.Wire.{wire_in};
ghost use Rattle.bundle_reader.specs.Bodies.{market_wire};

use bundle_frames::{ASK, QUOTE};
use market_types::{Quote, StockNo};
use wire_fields::{Kind, MessageType, byte_at, u16_at, u32_at, u64_at};

/// A question for the market in a stock, or its answer.
#[derive(Clone, Copy)]
pub enum MarketBody {
    Ask(StockNo),
    Quote(Quote),
}

/// The kinds of these bodies.
#[derive(Clone, Copy)]
pub enum MarketType {
    Ask,
    Quote,
}

impl MessageType for MarketType {
    ghost use Rattle.bundle_reader.specs.Bodies.{market_wire, market_layout};
    ghost use Rattle.bundle_reader.specs.BodiesBack.{market_of, market_letter, market_kinds, market_told, market_back};

    type Message = MarketBody;

    ghost wire = { market_wire };

    ghost message = { market_of };

    ghost layout = { market_layout };

    ghost letter = { market_letter };

    ghost kinds = { market_kinds };

    ghost told = { market_told };

    ghost back = { market_back };

    fn of_letter(first: u8) -> Option<MarketType> {
        match first {
            b'a' => Some(MarketType::Ask),
            b'q' => Some(MarketType::Quote),
            _ => None,
        }
    }

    fn fields(self) -> &'static [Kind] {
        match self {
            MarketType::Ask => &ASK,
            MarketType::Quote => &QUOTE,
        }
    }

    fn read(self, bytes: &[u8]) -> MarketBody {
        match self {
            MarketType::Ask => ask_at(bytes),
            MarketType::Quote => quote_at(bytes),
        }
    }
}

fn ask_at(bytes: &[u8]) -> MarketBody
    requires { length bytes.now ≡ 3 }
    ensures { market_wire result ≡ wire_in 97 ASK bytes.now }
{
    MarketBody::Ask(u16_at(bytes, 1))
}

fn quote_at(bytes: &[u8]) -> MarketBody
    requires { length bytes.now ≡ 32 }
    ensures { market_wire result ≡ wire_in 113 QUOTE bytes.now }
{
    MarketBody::Quote(Quote {
        stock: u16_at(bytes, 1),
        state: byte_at(bytes, 3),
        bid: u32_at(bytes, 4),
        bid_shares: u64_at(bytes, 8),
        ask: u32_at(bytes, 16),
        ask_shares: u64_at(bytes, 20),
        last: u32_at(bytes, 28),
    })
}
