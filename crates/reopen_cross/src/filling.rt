//! Who trades at the chosen price.

ghost use Rattle.std.specs.Prelude.{◌≡◌, ◌≤◌, ◌++◌, ◌-◌, Some, IfOk, OnOk, filter, length};
ghost use Rattle.reopen_cross.specs.Cross.{cross_of};
ghost use Rattle.reopen_cross.specs.Orderly.{AreInterests};
ghost use Rattle.reopen_cross.specs.Parts.{part_of, parts_of, parts_on, takes_part};
ghost use Rattle.reopen_cross.specs.Places.{filled_along, ordinal};

use crate::tallies::takes_part;
use crate::{Cross, Interest, Memory, Part};
use market_types::Side;
use std::alloc::Global;

/// What each order trades at a chosen price: the orders to buy at that price or above, then those to sell at that
/// price or below. Each side goes by the better price, then what is displayed, then the order of the list, until
/// the shares of the cross are filled. Sorts the orders of each side once.
pub fn parts(alloc: Global, list: &[Interest], cross: &Cross) -> Result<Vec<Part>, Memory>
    requires orders { AreInterests list.now }
    requires chosen { cross_of list.now ≡ Some cross.now }
    ensures { IfOk result (λ v. v.items ≡ parts_of list.now cross.now) }
{
    let mut parts = Vec::new(alloc);
    fill(alloc, Side::Buy, list, cross, &mut parts)?;
    fill(alloc, Side::Sell, list, cross, &mut parts)?;
    Ok(parts)
}

// Appends what each order of a side trades.
fn fill(
    alloc: Global,
    side: Side,
    list: &[Interest],
    cross: &Cross,
    parts: &mut Vec<Part>,
) -> Result<(), Memory>
    requires { AreInterests list.now }
    ensures { OnOk result (parts.new.items ≡ parts.old.items ++ parts_on side list.now cross.now) }
{
    let mut waiting = taking_part(alloc, side, list, cross.price)?;
    waiting.sort_unstable_by_key(|order| place_of(side, order));
    fill_along(&waiting, cross.shares, parts)
}

// Fills orders one after another until no shares are wanted.
fn fill_along(orders: &[Interest], shares: u64, parts: &mut Vec<Part>) -> Result<(), Memory>
    ensures { OnOk result (parts.new.items ≡ parts.old.items ++ filled_along shares orders.now) }
{
    let mut wanted = shares;
    for order in orders {
        if wanted == 0 {
            return Ok(());
        }
        let part = part_of(wanted, order);
        wanted -= u64::from(part.shares);
        parts.push(part)?;
    }
    Ok(())
}

// The orders of a side that take part at a price.
fn taking_part(
    alloc: Global,
    side: Side,
    list: &[Interest],
    price: u32,
) -> Result<Vec<Interest>, Memory>
    ensures { IfOk result (λ v. v.items ≡ filter (takes_part side price) list.now) }
{
    let waiting = list
        .iter()
        .filter(|order| takes_part(side, price, order))
        .copied()
        .collect(alloc)?;
    Ok(waiting)
}

// What an order trades where so many shares are wanted.
fn part_of(wanted: u64, order: &Interest) -> Part
    ensures { result ≡ part_of wanted order.now }
{
    let shares = if wanted < u64::from(order.left) {
        wanted as u32
    } else {
        order.left
    };
    Part {
        side: order.side,
        reference: order.reference,
        shares,
    }
}

// What puts an order of a side into the order of filling: its ordinal, and then its reference.
fn place_of(side: Side, order: &Interest) -> (u64, u64)
    ensures { result ≡ (ordinal side order.now, order.now.reference) }
{
    (ordinal(side, order), order.reference)
}

// A number that is lower for what is filled earlier: by the better price, and at one price by being displayed.
fn ordinal(side: Side, order: &Interest) -> u64
    ensures { result ≡ ordinal side order.now }
{
    let price = order.price;
    let place = match side {
        Side::Buy => u32::MAX - price,
        Side::Sell => price,
    };
    let late = if order.shown { 0 } else { 1 };
    2 * u64::from(place) + late
}
