//! The numbers of a closing are as their fields hold them, by their types.

ghost use Rattle.std.specs.Prelude.{◌≡◌, map};
ghost use Rattle.audit_desk.specs.Clipped.{clipped_agent, clipped_closing, clipped_counts, clipped_order, clipped_signed, clipped_stock};

use crate::fields::{eight, four, signed, signed_wide, two};
use bundle_frames::{Closing, ClosingAgent, ClosingCounts, ClosingOrder, ClosingStock};

// The counters.
fn counts_fit(counts: &ClosingCounts)
    ensures { clipped_counts counts.now ≡ counts.now }
{
    four(counts.events);
    eight(counts.time);
    eight(counts.next_seq);
    four(counts.waiting);
    eight(counts.dropped);
    eight(counts.enters);
    eight(counts.cancels);
    eight(counts.orders);
    eight(counts.matches);
}

// A stock.
fn stock_fits(stock: &ClosingStock)
    ensures { clipped_stock stock.now ≡ stock.now }
{
    two(stock.stock);
    four(stock.last);
    eight(stock.matched);
    signed_wide(stock.fees);
    signed(stock.offset);
    four(stock.live);
}

// An order.
fn order_fits(order: &ClosingOrder)
    ensures { clipped_order order.now ≡ order.now }
{
    eight(order.reference);
    two(order.agent);
    four(order.intended);
    four(order.left);
    two(order.stock);
    four(order.price);
    four(order.tif);
}

// Positions.
fn positions_fit(positions: &[i64])
    ensures { map clipped_signed positions.now ≡ positions.now }
{
    for i in 0..positions.len() {
        signed(positions[i]);
    }
}

// An agent.
fn agent_fits(agent: &ClosingAgent)
    ensures { clipped_agent agent.now ≡ agent.now }
{
    two(agent.agent);
    eight(agent.time);
    four(agent.tokens);
    eight(agent.draws);
    signed_wide(agent.cash);
    signed_wide(agent.own_cash);
    signed(agent.own_position);
    two(agent.live);
    four(agent.quotes);
    positions_fit(agent.positions.as_slice());
}

// Stocks.
fn stocks_fit(stocks: &[ClosingStock])
    ensures { map clipped_stock stocks.now ≡ stocks.now }
{
    for i in 0..stocks.len() {
        stock_fits(&stocks[i]);
    }
}

// Orders.
fn orders_fit(orders: &[ClosingOrder])
    ensures { map clipped_order orders.now ≡ orders.now }
{
    for i in 0..orders.len() {
        order_fits(&orders[i]);
    }
}

// Agents.
fn agents_fit(agents: &[ClosingAgent])
    ensures { map clipped_agent agents.now ≡ agents.now }
{
    for i in 0..agents.len() {
        agent_fits(&agents[i]);
    }
}

// A closing.
pub(crate) fn closing_fits(closing: &Closing)
    ensures { clipped_closing closing.now ≡ closing.now }
{
    counts_fit(&closing.counts);
    stocks_fit(closing.stocks.as_slice());
    orders_fit(closing.orders.as_slice());
    agents_fit(closing.agents.as_slice());
}
