//! Kinds of fields.

ghost use Rattle.std.specs.Prelude.{◌≡◌, ℕ, ◌==◌};
ghost use Rattle.std.specs.List.{list_any};
ghost use Rattle.wire_fields.specs.Kinds.{width, admits, is_padded};

/// What stands in a field of a message.
#[derive(Clone, Copy, PartialEq, Eq)]
pub enum Kind {
    /// An unsigned number of so many bytes, the most significant first.
    Number(usize),
    /// Any byte.
    Byte,
    /// So many bytes, any.
    Bytes(usize),
    /// One of these two letters.
    Either([u8; 2]),
    /// One of these five letters.
    OneOf([u8; 5]),
    /// So many bytes from 0x20 to 0x7E.
    Letters(usize),
    /// So many bytes: one or more from 0x21 to 0x7E, and then only spaces.
    Text(usize),
    /// So many bytes: one or more letters and digits, and then only spaces.
    Alphanumeric(usize),
    /// The side of an order: `B` buys, `S` sells.
    Side,
    /// The state of an accepted order: `L` is live, `D` is dead.
    OrderState,
    /// The trading state of a stock: `H` is halted, `P` is paused, `Q` is quoted alone, `T` is trading.
    TradingState,
}

impl Kind {
    /// How many bytes the field has.
    pub fn width(&self) -> usize
        ensures { result ≡ width self.now }
    {
        match self {
            Kind::Number(n)
            | Kind::Bytes(n)
            | Kind::Letters(n)
            | Kind::Text(n)
            | Kind::Alphanumeric(n) => *n,
            Kind::Byte
            | Kind::Either(_)
            | Kind::OneOf(_)
            | Kind::Side
            | Kind::OrderState
            | Kind::TradingState => 1,
        }
    }

    /// Whether a byte may stand in the field, but for the spaces that fill it.
    pub fn admits(&self, b: u8) -> bool
        ensures { result ≡ admits self.now b }
    {
        match self {
            Kind::Number(_) | Kind::Byte | Kind::Bytes(_) => true,
            Kind::Either(letters) => is_among(b, letters),
            Kind::OneOf(letters) => is_among(b, letters),
            Kind::Letters(_) => matches!(b, b' '..=b'~'),
            Kind::Text(_) => b.is_ascii_graphic(),
            Kind::Alphanumeric(_) => b.is_ascii_alphanumeric(),
            Kind::Side => matches!(b, b'B' | b'S'),
            Kind::OrderState => matches!(b, b'L' | b'D'),
            Kind::TradingState => matches!(b, b'H' | b'P' | b'Q' | b'T'),
        }
    }

    /// Whether spaces fill the field on its right.
    pub fn is_padded(&self) -> bool
        ensures { result ≡ is_padded self.now }
    {
        matches!(self, Kind::Text(_) | Kind::Alphanumeric(_))
    }
}

// Whether a byte is one of these.
fn is_among(b: u8, letters: &[u8]) -> bool
    ensures { result ≡ list_any (λ letter. letter == b) letters.now }
{
    letters.iter().any(|letter| *letter == b)
}
