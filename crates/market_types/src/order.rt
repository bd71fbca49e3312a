//! Orders to the exchange, with the fields of Nasdaq OUCH 4.2.

ghost use Rattle.std.specs.Prelude.{◌≡◌};
ghost use Rattle.market_types.specs.Sides.{opposite_of};

/// A stock's symbol in ASCII, padded with spaces on the right.
#[derive(Clone, Copy, PartialEq, Eq)]
pub struct Symbol(pub [u8; 8]);

/// An order token in ASCII, which its sender chose, padded with spaces on the right.
#[derive(Clone, Copy, PartialEq, Eq, Hash, Debug)]
pub struct Token(pub [u8; 14]);

/// The side of an order.
#[derive(Clone, Copy, PartialEq, Eq, Debug)]
pub enum Side {
    Buy,
    Sell,
}

impl Side {
    /// The other side.
    pub fn opposite(self) -> Side
        ensures { result ≡ opposite_of self }
    {
        match self {
            Side::Buy => Side::Sell,
            Side::Sell => Side::Buy,
        }
    }
}

/// A new order: OUCH's Enter Order.
#[derive(Clone, Copy, PartialEq, Eq)]
pub struct Enter {
    pub token: Token,
    pub side: Side,
    /// Shares.
    pub shares: u32,
    pub stock: Symbol,
    /// Dollars with four implied decimals.
    pub price: u32,
    /// Time in force: 0 is immediate or cancel, 99,998 and 99,999 are the day.
    pub tif: u32,
    pub firm: [u8; 4],
    /// Display, a letter; `Y` is displayed.
    pub display: u8,
    /// Capacity, a letter.
    pub capacity: u8,
    /// Intermarket sweep eligibility, a letter.
    pub sweep: u8,
    /// Minimum quantity in shares.
    pub minimum: u32,
    /// Cross type, a letter.
    pub cross: u8,
    /// Customer type, a letter.
    pub customer: u8,
}

/// Lowers an order: OUCH's Cancel Order.
#[derive(Clone, Copy, PartialEq, Eq)]
pub struct Cancel {
    pub token: Token,
    /// The new intended size in shares; 0 cancels all that is open.
    pub shares: u32,
}

/// What a trader sends to the exchange.
#[derive(Clone, Copy, PartialEq, Eq)]
pub enum Inbound {
    Enter(Enter),
    Cancel(Cancel),
}
