//! One stock of the exchange.

ghost use Rattle.std.specs.Prelude.{◌≡◌, ◌<◌, ◌≤◌, IfOk, OnOk, OnErr, IfSome, length, replicate, pos};
ghost use Rattle.price_time_book.specs.Orders.{changed, order_with, reduced};
ghost use Rattle.exchange_agent.specs.Market.{best_or_none_of, quote_of};
ghost use Rattle.exchange_agent.specs.Open.{listed, told_of};
ghost use Rattle.exchange_agent.specs.View.{stock_of};

use crate::told::{StockRules, StockTold};
use crate::trading::Trading;
use market_rules::{FeeTable, TickTable};
use market_types::{Memory, Quote, Side, StockNo, Symbol, copied};
use price_time_book::{Best, Book, Resting};
use std::alloc::Global;

/// One stock: its symbol, its rules in force, its trading state, its book and what its matches have come to.
#[derive(Drop)]
pub struct Listing {
    pub symbol: Symbol,
    pub ticks: TickTable,
    pub fees: FeeTable,
    pub trading: Trading,
    pub book: Book,
    pub last: u32,
    pub matched: u64,
    pub taken: i128,
    pub positions: Vec<i64>,
}

// The best of a side, or 0 and 0.
fn best_or_none(best: Option<Best>) -> Best
    ensures { result ≡ best_or_none_of best }
{
    match best {
        Some(best) => best,
        None => Best {
            price: 0,
            shares: 0,
        },
    }
}

impl Listing {
    /// The stock before its first order, with so many traders.
    pub fn open(alloc: Global, rules: &StockRules, traders: usize) -> Result<Listing, Memory>
        ensures { IfOk result (λ k. stock_of k ≡ listed traders rules.now) }
    {
        let ticks = rules.ticks.copy(alloc)?;
        let Ok(positions) = vec![in alloc; 0; traders] else {
            drop(ticks);
            return Err(Memory);
        };
        Ok(Listing {
            symbol: rules.symbol,
            ticks,
            fees: rules.fees,
            trading: Trading::Open,
            book: Book::new(alloc),
            last: 0,
            matched: 0,
            taken: 0,
            positions,
        })
    }

    /// An equal stock.
    pub fn copy(&self, alloc: Global) -> Result<Listing, Memory>
        ensures { IfOk result (λ k. stock_of k ≡ stock_of self.now) }
    {
        let ticks = self.ticks.copy(alloc)?;
        let Ok(book) = self.book.copy(alloc) else {
            drop(ticks);
            return Err(Memory);
        };
        let Ok(positions) = copied(alloc, self.positions.as_slice()) else {
            drop(ticks);
            drop(book);
            return Err(Memory);
        };
        Ok(Listing {
            symbol: self.symbol,
            ticks,
            fees: self.fees,
            trading: self.trading,
            book,
            last: self.last,
            matched: self.matched,
            taken: self.taken,
            positions,
        })
    }

    /// What the exchange tells of the stock of this number.
    pub fn quote(&self, number: StockNo) -> Quote
        ensures { result ≡ quote_of number (stock_of self.now) }
    {
        let bid = best_or_none(self.book.best(Side::Buy));
        let ask = best_or_none(self.book.best(Side::Sell));
        Quote {
            stock: number,
            state: self.trading.letter(),
            bid: bid.price,
            bid_shares: bid.shares,
            ask: ask.price,
            ask_shares: ask.shares,
            last: self.last,
        }
    }

    /// The stock's state in short.
    pub fn told(&self) -> StockTold
        requires { length self.now.book.list ≤ 131072 }
        ensures { result ≡ told_of (stock_of self.now) }
    {
        StockTold {
            state: self.trading.letter(),
            last: self.last,
            matched: self.matched,
            fees: self.taken,
            live: self.book.len() as u32,
        }
    }

    /// An order that rests is lowered to fewer open shares.
    pub fn reduce(&mut self, order: &Resting, left: u32)
        requires held { order_with order.now.reference self.old.book.list ≡ Some order.now }
        requires fewer { left < order.now.left }
        ensures { stock_of self.new ≡ record (stock_of self.old) { book = changed (reduced left order.now) self.old.book.list } }
    {
        let _ = self.book.reduce(order.reference, left);
    }
}
