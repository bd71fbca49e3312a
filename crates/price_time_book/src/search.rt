//! Searches in a list of orders.

ghost use Rattle.std.specs.Prelude.{◌≡◌, ◌==◌, ◌&&◌, not, count_by, filter, IfOk, IfSome, Some, false, option_map, slice_get};
ghost use Rattle.std.specs.Option.{option_map_or};
ghost use Rattle.price_time_book.specs.Chains.{IsChained};
ghost use Rattle.price_time_book.specs.Index.{IsByReference};
ghost use Rattle.price_time_book.specs.Indexed.{open_orders};
ghost use Rattle.price_time_book.specs.Orders.{order_of, order_with};
ghost use Rattle.price_time_book.specs.Next.{crosses, crossing_of};
ghost use Rattle.price_time_book.specs.Sides.{is_better, is_within};

use crate::chains::{Chains, by_token};
use crate::index::{ReferenceEntry, by_reference};
use crate::resting::{Best, Resting};
use market_types::{AgentNo, Memory, Side, Token};
use std::alloc::{AllocError, Global};

// Whether an order of this side with this limit trades at a price.
pub fn is_within(side: Side, limit: u32, price: u32) -> bool
    ensures { result ≡ is_within side limit price }
{
    match side {
        Side::Buy => price <= limit,
        Side::Sell => limit <= price,
    }
}

// Whether a price is better than another for orders that rest on this side.
pub fn is_better(side: Side, a: u32, b: u32) -> bool
    ensures { result ≡ is_better side a b }
{
    match side {
        Side::Buy => b < a,
        Side::Sell => a < b,
    }
}

// Whether an order crosses an incoming order of this side with this limit.
fn crosses(side: Side, limit: u32, order: &Resting) -> bool
    ensures { result ≡ crosses side limit order.now }
{
    order.side == side.opposite() && is_within(side, limit, order.price)
}

// Whether a best price crosses an incoming order of this side with this limit.
pub fn is_crossed(best: Option<Best>, side: Side, limit: u32) -> bool
    ensures { result ≡ option_map_or (λ b. is_within side limit b.price) best false }
{
    match best {
        None => false,
        Some(best) => is_within(side, limit, best.price),
    }
}

// Whether an order has open shares.
pub fn is_open(order: &Resting) -> bool
    ensures { result ≡ not (order.now.left == 0) }
{
    order.left != 0
}

// How many orders are open and cross an incoming order of this side with this limit.
fn count_crossing(orders: &[Resting], side: Side, limit: u32) -> usize
    ensures { result ≡ count_by (λ o. not (o.left == 0) && crosses side limit o) orders.now }
{
    orders
        .iter()
        .filter(|o| o.left != 0 && crosses(side, limit, o))
        .count()
}

// How many open orders cross an incoming order of this side with this limit.
pub fn crossing_in(orders: &[Resting], side: Side, limit: u32) -> usize
    ensures { result ≡ crossing_of side limit (open_orders orders.now) }
{
    count_crossing(orders, side, limit)
}

// The open order with this reference, and where it stands.
pub fn held_at(
    orders: &[Resting],
    entries: &[ReferenceEntry],
    reference: u64,
) -> Option<(usize, Resting)>
    requires { IsByReference orders.now entries.now }
    ensures held { option_map (λ p. p.1) result ≡ order_with reference (open_orders orders.now) }
    ensures place { IfSome result (λ p. slice_get orders.now p.0 ≡ Some p.1) }
{
    let at = by_reference(orders, entries, reference)?;
    Some((at, orders[at]))
}

// The open order that an agent sent under a token.
pub fn order_of<'a>(
    orders: &'a [Resting],
    chains: &Chains,
    agent: AgentNo,
    token: &Token,
) -> Option<&'a Resting>
    requires { IsChained orders.now chains.now.lasts.items chains.now.befores.items }
    ensures { option_map (λ o. o.now) result ≡ order_of agent token.now (open_orders orders.now) }
{
    let at = by_token(orders, chains, agent, token)?;
    Some(&orders[at])
}

// The orders that are open.
fn kept(alloc: Global, orders: &[Resting]) -> Result<Vec<Resting>, Memory>
    ensures { IfOk result (λ v. v.items ≡ filter (λ o. not (o.left == 0)) orders.now) }
{
    let open: Result<Vec<Resting>, AllocError> = orders
        .iter()
        .copied()
        .filter(|o| o.left != 0)
        .collect(alloc);
    Ok(open?)
}

// The open orders in order of arrival.
pub fn open_of(alloc: Global, orders: &[Resting]) -> Result<Vec<Resting>, Memory>
    ensures { IfOk result (λ v. v.items ≡ open_orders orders.now) }
{
    kept(alloc, orders)
}
