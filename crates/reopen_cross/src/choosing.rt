//! The price that executes most, with its certificate.

ghost use Rattle.std.specs.Prelude.{◌≡◌, List, Some, IfOk, IfSome, option_map};
ghost use Rattle.reopen_cross.specs.Clearing.{IsClearing};
ghost use Rattle.reopen_cross.specs.Cross.{best_price, cross_of, cross_where, first_beyond, is_beyond};
ghost use Rattle.reopen_cross.specs.Orderly.{AreInterests};
ghost use Rattle.reopen_cross.specs.Tallies.{tally_of};

use crate::sides::Sides;
use crate::tallies::Tally;
use crate::{Cross, Interest, Memory};
use market_types::{HIGHEST_PRICE, Side};
use std::alloc::Global;

/// The price at which most shares would trade, of those the one with the least surplus, and of those the lowest,
/// with its certificate. `None` where no two orders could trade. Sorts the orders of each side once.
pub fn choose(alloc: Global, list: &[Interest]) -> Result<Option<Cross>, Memory>
    requires { AreInterests list.now }
    ensures cross { IfOk result (λ c. c ≡ cross_of list.now) }
    ensures clears { IfOk result (λ c. IfSome c (IsClearing list.now)) }
{
    let sides = Sides::new(alloc, list)?;
    let Some(best) = best_of(&sides) else {
        return Ok(None);
    };
    Ok(cross_at(&sides, &best))
}

// The best of the orders' prices.
fn best_of(sides: &Sides) -> Option<Tally>
    ensures { result ≡ option_map (tally_of sides.now.list.now) (best_price sides.now.list.now sides.now.list.now) }
{
    let list = sides.list;
    if list.is_empty() {
        return None;
    }
    let mut best = sides.tally_at(list[0].price);
    for order in list {
        let tally = sides.tally_at(order.price);
        if tally.beats(&best) {
            best = tally;
        }
    }
    Some(best)
}

// The cross at a price, where some shares trade there.
fn cross_at(sides: &Sides, best: &Tally) -> Option<Cross>
    requires orders { AreInterests sides.now.list.now }
    requires tally { best.now ≡ tally_of sides.now.list.now best.now.price }
    ensures { result ≡ cross_where sides.now.list.now (Some best.now.price) }
{
    let shares = best.executed();
    if shares == 0 {
        return None;
    }
    let cut = first_beyond(sides, shares) - 1;
    Some(Cross {
        price: best.price,
        shares,
        buys: best.buys,
        sells: best.sells,
        cut,
        below: sides.shares_at(Side::Sell, cut),
        above: sides.shares_at(Side::Buy, cut + 1),
    })
}

// The least price of an order to sell up to which more shares are to be sold than so many; above all prices
// where there is none.
fn first_beyond(sides: &Sides, shares: u64) -> u32
    ensures { result ≡ first_beyond sides.now.list.now shares sides.now.list.now }
{
    let list = sides.list;
    let mut first = HIGHEST_PRICE + 1;
    for order in list {
        if order.price < first && is_beyond(sides, shares, order) {
            first = order.price;
        }
    }
    first
}

// Whether an order is to sell, and more shares are to be sold up to its price than so many.
fn is_beyond(sides: &Sides, shares: u64, order: &Interest) -> bool
    ensures { result ≡ is_beyond sides.now.list.now shares order.now }
{
    order.side == Side::Sell && shares < sides.shares_at(Side::Sell, order.price)
}
