//! A displayed order, and why a feed tells none.

ghost use Rattle.std.specs.Prelude.{◌≡◌};
ghost use Rattle.market_types.specs.Sides.{is_same_side};
ghost use Rattle.feed_rebuild.specs.Compared.{is_same};

use market_types::{Memory, Side, StockNo};

/// A displayed order, as a feed and a closing tell it.
#[derive(Clone, Copy)]
pub struct Shown {
    /// Its stock.
    pub stock: StockNo,
    /// Its reference.
    pub reference: u64,
    /// Whether it buys or sells.
    pub side: Side,
    /// Open shares.
    pub left: u32,
    /// Dollars with four implied decimals.
    pub price: u32,
}

/// What does not fit.
#[derive(Clone, Copy, PartialEq, Eq, Debug)]
pub struct Misfit {
    /// The reference of an order; 0 where a state or the order of a list does not fit.
    pub reference: u64,
}

/// Why a feed tells no books.
#[derive(Clone, Copy, PartialEq, Eq, Debug)]
pub enum AuditError {
    /// The first message that can't be applied.
    Misfit(Misfit),
    /// Want of memory.
    Memory,
}

impl From<Memory> for AuditError {
    ghost use Rattle.feed_rebuild.specs.declared.shown.AuditError.TheVariants as error;

    ghost from_gives = { λ _ e. e ≡ error.Memory };

    fn from(_refused: Memory) -> AuditError {
        AuditError::Memory
    }
}

// Whether two sides are the same.
fn is_one_side(a: Side, b: Side) -> bool
    ensures { result ≡ is_same_side a b }
{
    match (a, b) {
        (Side::Buy, Side::Buy) | (Side::Sell, Side::Sell) => true,
        (Side::Buy, Side::Sell) | (Side::Sell, Side::Buy) => false,
    }
}

// Whether two orders are the same in every field.
pub(crate) fn is_one_order(a: &Shown, b: &Shown) -> bool
    ensures { result ≡ is_same a.now b.now }
{
    a.reference == b.reference
        && a.stock == b.stock
        && is_one_side(a.side, b.side)
        && a.left == b.left
        && a.price == b.price
}
