//! The exchange: its opening and its copies.

ghost use Rattle.std.specs.Prelude.{◌≡◌, ◌^◌, IfOk, All, map};
ghost use Rattle.exchange_agent.specs.Open.{IsOpening, listed, opened};
ghost use Rattle.exchange_agent.specs.View.{stock_of};
ghost use Rattle.exchange_agent.specs.Sound.{IsWithin};

use crate::listing::Listing;
use crate::remembered::Remembered;
use crate::told::{Counts, StockRules};
use market_types::{Memory, Money, copied};
use std::alloc::Global;
use std::marker::Model;

/// The exchange's state between two messages.
#[derive(Drop)]
pub struct Exchange {
    pub(crate) stocks: Vec<Listing>,
    pub(crate) cash: Vec<Money>,
    pub(crate) pairs: Remembered,
    pub(crate) counts: Counts,
    pub(crate) hidden: bool,
}

impl Model for Exchange {
    ghost use Rattle.exchange_agent.specs.State.{State};
    ghost use Rattle.exchange_agent.specs.Sound.{IsSound};
    ghost use Rattle.exchange_agent.specs.View.{state_of};

    ghost Value = { State };

    ghost view = { λ x. state_of x.stocks.items x.cash.items x.pairs.keys x.counts x.hidden };

    ghost invariant = { λ x. IsSound (state_of x.stocks.items x.cash.items x.pairs.keys x.counts x.hidden) };
}

// The stocks before the first order.
fn listings(alloc: Global, stocks: &[StockRules], traders: usize) -> Result<Vec<Listing>, Memory>
    ensures { IfOk result (λ v. map stock_of v.items ≡ map (listed traders) stocks.now) }
{
    let mut listings = Vec::new(alloc);
    for rules in stocks {
        let Ok(listing) = Listing::open(alloc, rules, traders) else {
            drop(listings);
            return Err(Memory);
        };
        let Ok(()) = listings.push(listing) else {
            drop(listings);
            return Err(Memory);
        };
    }
    Ok(listings)
}

// Equal stocks.
fn copies(alloc: Global, stocks: &[Listing]) -> Result<Vec<Listing>, Memory>
    ensures { IfOk result (λ v. map stock_of v.items ≡ map stock_of stocks.now) }
{
    let mut listings = Vec::new(alloc);
    for listing in stocks {
        let Ok(listing) = listing.copy(alloc) else {
            drop(listings);
            return Err(Memory);
        };
        let Ok(()) = listings.push(listing) else {
            drop(listings);
            return Err(Memory);
        };
    }
    Ok(listings)
}

// An amount of money, which is far from the ends of the numbers.
fn money_of(amount: i64) -> Money
    ensures value { result ≡ amount }
    ensures small { IsWithin (2 ^ 63) result }
{
    i128::from(amount)
}

// The traders' cash in millionths of a dollar.
fn accounts(alloc: Global, cash: &[i64]) -> Result<Vec<Money>, Memory>
    ensures value { IfOk result (λ v. v.items ≡ cash.now) }
    ensures small { IfOk result (λ v. All (IsWithin (2 ^ 63)) v.items) }
{
    let mut accounts = Vec::new(alloc);
    for amount in cash {
        let Ok(()) = accounts.push(money_of(*amount)) else {
            drop(accounts);
            return Err(Memory);
        };
    }
    Ok(accounts)
}

impl Exchange {
    /// The exchange of these stocks, where each trader in order has so much cash, in millionths of a dollar. With `hidden` it
    /// takes orders with display `N`, which rest hidden; else it rejects them.
    pub fn open(
        alloc: Global,
        stocks: &[StockRules],
        cash: &[i64],
        hidden: bool,
    ) -> Result<Exchange, Memory>
        requires { IsOpening stocks.now cash.now }
        ensures { IfOk result (λ x. x ≡ opened stocks.now cash.now hidden) }
    {
        let stocks = listings(alloc, stocks, cash.len())?;
        let Ok(cash) = accounts(alloc, cash) else {
            drop(stocks);
            return Err(Memory);
        };
        Ok(Exchange {
            stocks,
            cash,
            pairs: Remembered::new(alloc),
            counts: Counts {
                orders: 0,
                matches: 0,
                enters: 0,
                cancels: 0,
            },
            hidden,
        })
    }

    /// An equal exchange.
    pub fn copy(&self, alloc: Global) -> Result<Exchange, Memory>
        ensures { IfOk result (λ x. x ≡ self.now) }
    {
        let stocks = copies(alloc, self.stocks.as_slice())?;
        let Ok(cash) = copied(alloc, self.cash.as_slice()) else {
            drop(stocks);
            return Err(Memory);
        };
        let Ok(pairs) = self.pairs.copy(alloc) else {
            drop(stocks);
            return Err(Memory);
        };
        Ok(Exchange {
            stocks,
            cash,
            pairs,
            counts: self.counts,
            hidden: self.hidden,
        })
    }
}
