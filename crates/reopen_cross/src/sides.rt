//! A list of orders with the shares of each side by price.

ghost use Rattle.std.specs.Prelude.{◌≡◌, ◌≤◌, ℕ, All, IfOk, length};
ghost use Rattle.market_types.specs.declared.order.Side.TheVariants.{Buy, Sell};
ghost use Rattle.reopen_cross.specs.declared.cross.Interest.{Interest};
ghost use Rattle.reopen_cross.specs.Ladders.{from, up_to};
ghost use Rattle.reopen_cross.specs.Tallies.{shares_at, tally_of};

use crate::ladder::Ladder;
use crate::tallies::Tally;
use crate::{Interest, Memory};
use market_types::Side;
use std::alloc::Global;

/// A list with its orders by price.
#[derive(Drop)]
pub struct Sides<'a> {
    /// The list.
    pub list: &'a [Interest],
    /// Its orders to buy.
    pub buys: Ladder,
    /// Its orders to sell.
    pub sells: Ladder,
    ghost bought: { (p : ℕ) → from p buys.orders.items ≡ shares_at Buy list.now p },
    ghost sold: { (p : ℕ) → up_to p sells.orders.items ≡ shares_at Sell list.now p },
}

impl<'a> Sides<'a> {
    /// A list with its orders by price.
    pub fn new(alloc: Global, list: &'a [Interest]) -> Result<Sides<'a>, Memory>
        requires few { length list.now ≤ 32768 }
        requires small { All (λ (o : Interest). o.left ≤ 999999) list.now }
        ensures { IfOk result (λ s. s.list.now ≡ list.now) }
    {
        let buys = Ladder::new(alloc, Side::Buy, list)?;
        let sells = Ladder::new(alloc, Side::Sell, list)?;
        Ok(Sides { list, buys, sells })
    }

    /// The open shares of the orders of a side that take part at a price.
    pub fn shares_at(&self, side: Side, price: u32) -> u64
        ensures { result ≡ shares_at side self.now.list.now price }
    {
        match side {
            Side::Buy => self.buys.from(price),
            Side::Sell => self.sells.up_to(price),
        }
    }

    /// The shares to buy and to sell at a price.
    pub fn tally_at(&self, price: u32) -> Tally
        ensures { result ≡ tally_of self.now.list.now price }
    {
        Tally {
            price,
            buys: self.shares_at(Side::Buy, price),
            sells: self.shares_at(Side::Sell, price),
        }
    }
}
