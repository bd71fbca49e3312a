//! The orders of a book as interest.

ghost use Rattle.std.specs.Prelude.{◌≡◌, ◌<◌, ◌≤◌, All, IfOk, length, map};
ghost use Rattle.exchange_agent.specs.State.{stock_at};
ghost use Rattle.reopen_cross.specs.declared.cross.Interest.{Interest as InterestTold};
ghost use Rattle.reopen_cross.specs.Orderly.{AreInterests};
ghost use Rattle.reopening_desk.specs.Books.{AreResting};
ghost use Rattle.reopening_desk.specs.Reopened.{interest_of};

use exchange_agent::Exchange;
use market_types::{Memory, StockNo};
use price_time_book::Resting;
use reopen_cross::Interest;
use std::alloc::Global;

// An order of a book as interest.
fn interest_of(order: &Resting) -> Interest
    ensures { result ≡ interest_of order.now }
{
    Interest {
        reference: order.reference,
        side: order.side,
        price: order.price,
        left: order.left,
        shown: order.shown,
    }
}

/// A stock's live orders as interest, by arrival.
///
/// # Errors
/// Want of memory alone.
pub fn interests(
    alloc: Global,
    exchange: &Exchange,
    stock: StockNo,
) -> Result<Vec<Interest>, Memory>
    requires stock { stock < length exchange.now.stocks }
    requires resting { AreResting exchange.now.counts.orders (stock_at exchange.now stock).book }
    ensures same { IfOk result (λ v. v.items ≡ map interest_of (stock_at exchange.now stock).book) }
    ensures few { IfOk result (λ v. length v.items ≤ 16384) }
    ensures last { IfOk result (λ v. All (λ (o : InterestTold). o.reference ≤ exchange.now.counts.orders) v.items) }
    ensures interests { IfOk result (λ v. AreInterests v.items) }
{
    let orders = exchange.orders(alloc, stock)?;
    let mut list: Vec<Interest> = Vec::new(alloc);
    for order in orders.as_slice() {
        list.push(interest_of(order))?;
    }
    Ok(list)
}
