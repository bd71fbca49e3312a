//! The displayed orders and the trading states of a closing.

ghost use Rattle.std.specs.Prelude.{◌≡◌, IfOk, count_by, filter, length, map};
ghost use Rattle.bundle_frames.specs.declared.closing.ClosingOrder.{ClosingOrder as ClosingOrderTold};
ghost use Rattle.bundle_frames.specs.declared.closing.ClosingStock.{ClosingStock as ClosingStockTold};
ghost use Rattle.audit_desk.specs.Audited.{displayed, order_shown, states_of};

use bundle_frames::{Closing, ClosingOrder, ClosingStock};
use feed_rebuild::Shown;
use market_types::Memory;
use std::alloc::Global;

// An order of a closing as the feed could tell it.
fn order_shown(order: &ClosingOrder) -> Shown
    ensures { result ≡ order_shown order.now }
{
    Shown {
        stock: order.stock,
        reference: order.reference,
        side: order.side,
        left: order.left,
        price: order.price,
    }
}

// The displayed ones among orders, in order.
fn shown_among(alloc: Global, orders: &[ClosingOrder]) -> Result<Vec<Shown>, Memory>
    ensures { IfOk result (λ v. v.items ≡ map order_shown (filter (λ (o : ClosingOrderTold). o.shown) orders.now)) }
{
    Ok(
        orders
            .iter()
            .filter(|order| order.shown)
            .map(|order| order_shown(order))
            .collect(alloc)?,
    )
}

// The states of stocks.
fn states_among(alloc: Global, stocks: &[ClosingStock]) -> Result<Vec<u8>, Memory>
    ensures { IfOk result (λ v. v.items ≡ map (λ (s : ClosingStockTold). s.state) stocks.now) }
{
    Ok(stocks.iter().map(|stock| stock.state).collect(alloc)?)
}

/// The displayed orders of a closing, in its order.
pub fn displayed(alloc: Global, closing: &Closing) -> Result<Vec<Shown>, Memory>
    ensures { IfOk result (λ v. v.items ≡ displayed closing.now) }
{
    shown_among(alloc, closing.orders.as_slice())
}

/// The trading states of its stocks.
pub fn states_of(alloc: Global, closing: &Closing) -> Result<Vec<u8>, Memory>
    ensures { IfOk result (λ v. v.items ≡ states_of closing.now) }
{
    states_among(alloc, closing.stocks.as_slice())
}

// How many orders are displayed.
fn count_among(orders: &[ClosingOrder]) -> usize
    ensures { result ≡ count_by (λ (o : ClosingOrderTold). o.shown) orders.now }
{
    orders.iter().filter(|order| order.shown).count()
}

/// How many displayed orders there are.
pub fn count_displayed(closing: &Closing) -> usize
    ensures { result ≡ length (displayed closing.now) }
{
    count_among(closing.orders.as_slice())
}
