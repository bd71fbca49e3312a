//! The closing of a kernel's state.

ghost use Rattle.std.specs.Prelude.{◌≡◌, ◌≤◌, ◌<◌, ◌^◌, ◌++◌, ◌∷◌, [], All, IfOk, OnOk, length, map};
ghost use Rattle.bundle_frames.specs.Frames.{HasFewPositions};
ghost use Rattle.agent_shell.specs.Trader.{told_of};
ghost use Rattle.exchange_agent.specs.State.{stock_at};
ghost use Rattle.kernel_core.specs.Step.{Fits};
ghost use Rattle.market_floor.specs.Floor.{offset_at, party_at};
ghost use Rattle.kernel_copy.specs.Closing.{agents_closed, closing_at, counts_of, end_letter_of, exchange_closed, order_closed, orders_closed, positions_closed, stock_closed, stocks_closed, trader_closed};

use crate::closing_laws::agents_have_all_positions;
use bundle_frames::{Closing, ClosingAgent, ClosingCounts, ClosingOrder, ClosingStock};
use exchange_agent::Exchange;
use kernel_core::Kernel;
use market_floor::Opening;
use market_types::{AgentNo, End, Memory, Sequence, StockNo};
use price_time_book::Resting;
use std::alloc::Global;

fn end_letter(end: Option<End>) -> u8
    ensures { result ≡ end_letter_of end }
{
    match end {
        None => b'-',
        Some(End::Quiet) => b'Q',
        Some(End::Closed) => b'C',
        Some(End::EventLimit) => b'L',
        Some(End::QueueFull) => b'F',
    }
}

fn counts(o: &Opening, kernel: &Kernel) -> ClosingCounts
    ensures value { result ≡ counts_of o.now kernel.now }
    ensures time { result.time < 2 ^ 48 }
{
    let told = kernel.counts();
    let exchange = kernel.exchange().counts();
    ClosingCounts {
        end: end_letter(kernel.end(o)),
        events: kernel.events(),
        time: kernel.time(),
        next_seq: told.next_seq,
        waiting: told.waiting,
        dropped: told.dropped,
        enters: exchange.enters,
        cancels: exchange.cancels,
        orders: exchange.orders,
        matches: exchange.matches,
    }
}

fn stock(kernel: &Kernel, k: StockNo) -> ClosingStock
    requires { k < length kernel.now.floor.exchange.stocks }
    ensures { result ≡ stock_closed k (offset_at kernel.now.floor k) (stock_at kernel.now.floor.exchange k) }
{
    let told = kernel.exchange().stock(k);
    ClosingStock {
        stock: k,
        state: told.state,
        last: told.last,
        matched: told.matched,
        fees: told.fees,
        offset: kernel.offset(k),
        live: told.live,
    }
}

// The first so many stocks in order.
fn stocks(alloc: Global, kernel: &Kernel, count: StockNo) -> Result<Vec<ClosingStock>, Memory>
    requires { count ≤ length kernel.now.floor.exchange.stocks }
    ensures { IfOk result (λ v. v.items ≡ stocks_closed kernel.now count) }
{
    let mut stocks = Vec::new(alloc);
    for k in 0..count {
        stocks.push(stock(kernel, k))?;
    }
    Ok(stocks)
}

// Appends the orders of a stock's book.
fn add_orders(k: StockNo, book: &[Resting], orders: &mut Vec<ClosingOrder>) -> Result<(), Memory>
    ensures { OnOk result (orders.new.items ≡ orders.old.items ++ map (order_closed k) book.now) }
{
    for resting in book {
        orders.push(ClosingOrder {
            reference: resting.reference,
            agent: resting.agent,
            token: resting.token,
            side: resting.side,
            intended: resting.intended,
            left: resting.left,
            stock: k,
            price: resting.price,
            tif: resting.tif,
            shown: resting.shown,
        })?;
    }
    Ok(())
}

// Appends the orders of a stock in order of their arrival.
fn add_book(
    alloc: Global,
    exchange: &Exchange,
    k: StockNo,
    orders: &mut Vec<ClosingOrder>,
) -> Result<(), Memory>
    requires { k < length exchange.now.stocks }
    ensures { OnOk result (orders.new.items ≡ orders.old.items ++ map (order_closed k) (stock_at exchange.now k).book) }
{
    let Ok(book) = exchange.orders(alloc, k) else {
        return Err(Memory);
    };
    let added = add_orders(k, &book, orders);
    drop(book);
    added
}

// The orders of the first so many stocks, each stock's in order of their arrival.
fn orders(alloc: Global, exchange: &Exchange, count: StockNo) -> Result<Vec<ClosingOrder>, Memory>
    requires { count ≤ length exchange.now.stocks }
    ensures { IfOk result (λ v. v.items ≡ orders_closed exchange.now count) }
{
    let mut orders = Vec::new(alloc);
    for k in 0..count {
        let Ok(()) = add_book(alloc, exchange, k, &mut orders) else {
            drop(orders);
            return Err(Memory);
        };
    }
    Ok(orders)
}

// A trader's settled positions in the first so many stocks.
fn positions(
    alloc: Global,
    exchange: &Exchange,
    agent: AgentNo,
    count: StockNo,
) -> Result<Sequence<i64>, Memory>
    requires trader { 1 ≤ agent }
    requires exists { agent ≤ length exchange.now.cash }
    requires stocks { count ≤ length exchange.now.stocks }
    ensures { IfOk result (λ s. s ≡ positions_closed exchange.now agent count) }
{
    let mut positions = Vec::new(alloc);
    for k in 0..count {
        positions.push(exchange.position(agent, k))?;
    }
    Ok(Sequence::new(positions))
}

// The exchange, where there are so many stocks.
fn exchange(alloc: Global, kernel: &Kernel, count: StockNo) -> Result<ClosingAgent, Memory>
    requires own { 0 < length kernel.now.own }
    requires stocks { count ≡ length kernel.now.floor.exchange.stocks }
    ensures { IfOk result (λ a. a ≡ exchange_closed kernel.now) }
{
    let positions = vec![in alloc; 0i64; usize::from(count)]?;
    Ok(ClosingAgent {
        agent: 0,
        silenced: false,
        time: kernel.own_time(0),
        tokens: 0,
        draws: 0,
        cash: 0,
        own_cash: 0,
        own_position: 0,
        live: 0,
        quotes: 0,
        positions: Sequence::new(positions),
    })
}

// A trader, where there are so many stocks.
fn trader(
    alloc: Global,
    kernel: &Kernel,
    agent: AgentNo,
    count: StockNo,
) -> Result<ClosingAgent, Memory>
    requires some { 1 ≤ agent }
    requires own { agent < length kernel.now.own }
    requires exists { agent ≤ length kernel.now.floor.parties }
    requires stocks { count ≡ length kernel.now.floor.exchange.stocks }
    ensures { IfOk result (λ a. a ≡ trader_closed kernel.now agent (party_at kernel.now.floor agent) (told_of (party_at kernel.now.floor agent).trader)) }
{
    let told = kernel.trader(agent);
    let positions = positions(alloc, kernel.exchange(), agent, count)?;
    Ok(ClosingAgent {
        agent,
        silenced: kernel.silenced(agent),
        time: kernel.own_time(agent),
        tokens: told.tokens,
        draws: told.draws,
        cash: kernel.exchange().cash(agent),
        own_cash: told.account.cash,
        own_position: told.account.position,
        live: told.live,
        quotes: told.quotes,
        positions,
    })
}

// Appends a trader, where there are so many stocks.
fn add_trader(
    alloc: Global,
    kernel: &Kernel,
    agent: AgentNo,
    count: StockNo,
    agents: &mut Vec<ClosingAgent>,
) -> Result<(), Memory>
    requires some { 1 ≤ agent }
    requires own { agent < length kernel.now.own }
    requires exists { agent ≤ length kernel.now.floor.parties }
    requires stocks { count ≡ length kernel.now.floor.exchange.stocks }
    ensures { OnOk result (agents.new.items ≡ agents.old.items ++ trader_closed kernel.now agent (party_at kernel.now.floor agent) (told_of (party_at kernel.now.floor agent).trader) ∷ []) }
{
    agents.push(trader(alloc, kernel, agent, count)?)?;
    Ok(())
}

// The exchange and each trader in order.
fn agents(alloc: Global, kernel: &Kernel, count: StockNo) -> Result<Vec<ClosingAgent>, Memory>
    requires { count ≡ length kernel.now.floor.exchange.stocks }
    ensures { IfOk result (λ v. v.items ≡ agents_closed kernel.now (length kernel.now.floor.parties)) }
{
    let traders = kernel.agents() - 1;
    let first = exchange(alloc, kernel, count)?;
    let mut agents = Vec::new(alloc);
    agents.push(first)?;
    for i in 0..traders {
        let Ok(()) = add_trader(alloc, kernel, i + 1, count, &mut agents) else {
            drop(agents);
            return Err(Memory);
        };
    }
    Ok(agents)
}

/// The closing of a state: the counters, each stock, each live order by stock and then by arrival, and each agent with its
/// position in each stock.
///
/// # Errors
/// Want of memory alone.
pub fn closing_of(alloc: Global, o: &Opening, kernel: &Kernel) -> Result<Closing, Memory>
    requires { Fits o.now kernel.now }
    ensures value { IfOk result (λ c. c ≡ closing_at o.now kernel.now) }
    ensures time { IfOk result (λ c. c.counts.time < 2 ^ 48) }
    ensures positions { IfOk result (λ c. All HasFewPositions c.agents) }
{
    agents_have_all_positions();
    let count = o.stocks.as_slice().len() as StockNo;
    let stocks = stocks(alloc, kernel, count)?;
    let Ok(orders) = orders(alloc, kernel.exchange(), count) else {
        drop(stocks);
        return Err(Memory);
    };
    let Ok(agents) = agents(alloc, kernel, count) else {
        drop(stocks);
        drop(orders);
        return Err(Memory);
    };
    Ok(Closing {
        counts: counts(o, kernel),
        stocks: Sequence::new(stocks),
        orders: Sequence::new(orders),
        agents: Sequence::new(agents),
    })
}
