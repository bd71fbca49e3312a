//! What a stock's book and a file's orders come to.

ghost use Rattle.std.specs.Prelude.{◌≡◌, ◌<◌, IfOk, length};
ghost use Rattle.reopening_desk.specs.Filed.{AreFiled};
ghost use Rattle.reopen_cross.specs.Cross.{cross_of};
ghost use Rattle.reopen_cross.specs.Orderly.{AreInterests};
ghost use Rattle.market_laws.specs.Small.{IsSmallExchange};
ghost use Rattle.reopening_desk.specs.Reopened.{Clears, interests_of, parts_in, reopened};

use crate::book::interests;
use crate::laws::{live_orders_are_in_range, reopenings_clear};
use crate::stock::StockNamed;
use crate::{Reopening, join, put_reopening};
use kernel_core::Kernel;
use market_types::Memory;
use reopen_cross::{Cross, Interest, Part, choose, parts};
use std::alloc::Global;

// What each order trades, where there is a cross.
fn parts_in(alloc: Global, list: &[Interest], cross: Option<Cross>) -> Result<Vec<Part>, Memory>
    requires orders { AreInterests list.now }
    requires cross { cross ≡ cross_of list.now }
    ensures parts { IfOk result (λ v. v.items ≡ parts_in list.now cross) }
{
    match cross {
        Some(cross) => parts(alloc, list, &cross),
        None => Ok(Vec::new(alloc)),
    }
}

/// All that is told of a stock's reopening in the kernel's state, if these orders of a file joined its book: at which price most
/// shares would trade, and what each order trades there. The state stays as it is. The numbers of the exchange's orders are
/// small, as they are in every state of a study.
///
/// # Errors
/// Want of memory alone.
pub fn reopening(
    alloc: Global,
    kernel: &Kernel,
    stock: StockNamed,
    orders: &[Interest],
) -> Result<Vec<u8>, Memory>
    requires stock { stock.number < length kernel.now.floor.exchange.stocks }
    requires few { stock.number < 16 }
    requires orders { AreFiled orders.now }
    requires small { IsSmallExchange (length kernel.now.floor.exchange.cash) kernel.now.events kernel.now.floor.exchange }
    ensures told { IfOk result (λ v. v.items ≡ reopened kernel.now stock orders.now) }
    ensures clears { Clears (interests_of kernel.now stock.number orders.now) }
{
    live_orders_are_in_range();
    reopenings_clear();
    let _ = kernel.events();
    let exchange = kernel.exchange();
    let counts = exchange.counts();
    let mut list = interests(alloc, exchange, stock.number)?;
    let resting = list.len();
    join(&mut list, counts.orders, orders)?;
    let cross = choose(alloc, &list)?;
    let parts = parts_in(alloc, &list, cross)?;
    let at = Reopening {
        time: kernel.time(),
        locate: stock.number + 1,
        symbol: stock.symbol,
        matches: counts.matches,
    };
    let mut out = Vec::new(alloc);
    put_reopening(&mut out, &at, &list[resting..], cross, &parts)?;
    Ok(out)
}
