//! The shares on each side of a price.

ghost use Rattle.std.specs.Prelude.{◌≡◌};
ghost use Rattle.reopen_cross.specs.Parts.{is_within, takes_part};
ghost use Rattle.reopen_cross.specs.Tallies.{beats, executed_by, surplus_by};

use crate::Interest;
use market_types::Side;

/// How many shares there are to buy and to sell at a price.
#[derive(Clone, Copy, PartialEq, Eq)]
pub struct Tally {
    /// Dollars with four implied decimals.
    pub price: u32,
    /// The shares to buy at that price or above.
    pub buys: u64,
    /// The shares to sell at that price or below.
    pub sells: u64,
}

impl Tally {
    /// The shares that would trade at the price.
    pub fn executed(&self) -> u64
        ensures { result ≡ executed_by self.now }
    {
        self.buys.min(self.sells)
    }

    /// By how many shares one side has more than the other.
    pub fn surplus(&self) -> u64
        ensures { result ≡ surplus_by self.now }
    {
        self.buys.abs_diff(self.sells)
    }

    /// More shares would trade at its price than at the other's; or as many, with a lesser surplus; or with as
    /// much, and it is lower.
    pub fn beats(&self, other: &Tally) -> bool
        ensures { result ≡ beats self.now other.now }
    {
        if self.executed() != other.executed() {
            return other.executed() < self.executed();
        }
        if self.surplus() != other.surplus() {
            return self.surplus() < other.surplus();
        }
        self.price < other.price
    }
}

// An order to buy takes part at its price and below, and one to sell at its price and above.
fn is_within(side: Side, price: u32, limit: u32) -> bool
    ensures { result ≡ is_within side price limit }
{
    match side {
        Side::Buy => price <= limit,
        Side::Sell => limit <= price,
    }
}

/// Whether an order is of this side and takes part at a price.
pub fn takes_part(side: Side, price: u32, order: &Interest) -> bool
    ensures { result ≡ takes_part side price order.now }
{
    order.side == side && is_within(side, price, order.price)
}
