//! The orders of a side by price.

ghost use Rattle.std.specs.Prelude.{◌≡◌, ◌≤◌, ◌+◌, All, IfOk, filter, length, sum_by, take};
ghost use Rattle.std.specs.List.Sorted.{IsNonDecreasingBy};
ghost use Rattle.market_types.specs.Sides.{is_same_side};
ghost use Rattle.reopen_cross.specs.declared.cross.Interest.{Interest};
ghost use Rattle.reopen_cross.specs.Ladders.{AreOf, AreSums, from, up_to};

use crate::{Interest, Memory};
use market_types::Side;
use std::alloc::Global;

/// The orders of one side from the lowest price on, and how many shares so many of the first have.
#[derive(Drop)]
pub struct Ladder {
    /// The orders, by price.
    pub orders: Vec<Interest>,
    /// At each number the open shares of so many of the first orders.
    pub sums: Vec<u64>,
    ghost rising: { IsNonDecreasingBy (λ (o : Interest). o.price) orders.items },
    ghost summed: { AreSums orders.items sums.items },
}

impl Ladder {
    /// The orders of a side.
    pub fn new(alloc: Global, side: Side, list: &[Interest]) -> Result<Ladder, Memory>
        requires few { length list.now ≤ 32768 }
        requires small { All (λ (o : Interest). o.left ≤ 999999) list.now }
        ensures { IfOk result (λ l. AreOf side list.now l.orders.items) }
    {
        let mut orders = of_side(alloc, side, list)?;
        orders.sort_unstable_by_key(|order| order.price);
        let sums = sums_of(alloc, &orders)?;
        Ok(Ladder { orders, sums })
    }

    /// The open shares at a price or below.
    pub fn up_to(&self, price: u32) -> u64
        ensures { result ≡ up_to price self.now.orders.items }
    {
        self.sums[count_up_to(self.orders.as_slice(), price)]
    }

    /// The open shares at a price or above.
    pub fn from(&self, price: u32) -> u64
        ensures { result ≡ from price self.now.orders.items }
    {
        self.sums[self.orders.len()] - self.sums[count_below(self.orders.as_slice(), price)]
    }
}

// How many of the orders by price are at a price or below.
fn count_up_to(orders: &[Interest], price: u32) -> usize
    requires { IsNonDecreasingBy (λ (o : Interest). o.price) orders.now }
    ensures within { result ≤ length orders.now }
    ensures shares { sum_by (λ (o : Interest). o.left) (take result orders.now) ≡ up_to price orders.now }
{
    orders.partition_point(|order| order.price <= price)
}

// How many of the orders by price are below a price.
fn count_below(orders: &[Interest], price: u32) -> usize
    requires { IsNonDecreasingBy (λ (o : Interest). o.price) orders.now }
    ensures within { result ≤ length orders.now }
    ensures shares { sum_by (λ (o : Interest). o.left) (take result orders.now) + from price orders.now ≡ sum_by (λ (o : Interest). o.left) orders.now }
{
    orders.partition_point(|order| order.price < price)
}

// The orders of a side.
fn of_side(alloc: Global, side: Side, list: &[Interest]) -> Result<Vec<Interest>, Memory>
    ensures { IfOk result (λ v. v.items ≡ filter (λ o. is_same_side o.side side) list.now) }
{
    let orders = list
        .iter()
        .filter(|order| order.side == side)
        .copied()
        .collect(alloc)?;
    Ok(orders)
}

// At each number the open shares of so many of the first orders.
fn sums_of(alloc: Global, orders: &[Interest]) -> Result<Vec<u64>, Memory>
    requires few { length orders.now ≤ 32768 }
    requires small { All (λ (o : Interest). o.left ≤ 999999) orders.now }
    ensures { IfOk result (λ v. AreSums orders.now v.items) }
{
    let mut sums = Vec::new(alloc);
    let mut shares = 0;
    sums.push(shares)?;
    for order in orders {
        shares += u64::from(order.left);
        sums.push(shares)?;
    }
    Ok(sums)
}
