//! Changes of a stock's rules.

ghost use Rattle.std.specs.Prelude.{◌≡◌, ◌<◌, ◌+◌, ◌==◌, ◌++◌, ◌∷◌, [], OnOk, OnErr, All, length};
ghost use Rattle.market_types.specs.declared.feed.What.TheVariants as what;
ghost use Rattle.exchange_agent.specs.Changes.{changed_by, turned};
ghost use Rattle.exchange_agent.specs.State.{stock_at, with_stock};
ghost use Rattle.exchange_agent.specs.View.{trading_letter};

use crate::exchange::Exchange;
use crate::trading::Trading;
use market_rules::{Change, FeeTable, TickTable};
use market_types::{Feed, FeedList, Memory, StockNo, Time, What};

impl Exchange {
    // Whether the stock's trading state is this one.
    fn stands(&self, stock: StockNo, trading: Trading) -> bool
        requires { stock < length self.now.stocks }
        ensures { result ≡ ((stock_at self.now stock).trading == trading_letter trading) }
    {
        self.stocks[usize::from(stock)].trading.letter() == trading.letter()
    }

    // What the feed says of a stock whose trading state becomes this one.
    fn turning(&self, time: Time, stock: StockNo, trading: Trading) -> Feed
        requires { stock < length self.now.stocks }
        ensures { result ≡ record { locate = stock + 1; tracking = 0; time = time; what = what.Trading (stock_at self.now stock).symbol (trading_letter trading) 32 (32 ∷ 32 ∷ 32 ∷ 32 ∷ []) } }
    {
        let symbol = self.stocks[usize::from(stock)].symbol;
        Feed {
            locate: stock + 1,
            tracking: 0,
            time,
            what: What::Trading {
                stock: symbol,
                state: trading.letter(),
                reserved: b' ',
                reason: [b' '; 4],
            },
        }
    }

    // The stock's trading state becomes this one.
    fn put_trading(&mut self, stock: StockNo, trading: Trading)
        requires { stock < length self.old.stocks }
        ensures { self.new ≡ with_stock self.old stock (record (stock_at self.old stock) { trading = trading_letter trading }) }
    {
        self.stocks[usize::from(stock)].trading = trading;
    }

    // The stock's tick table becomes this one.
    fn put_ticks(&mut self, stock: StockNo, ticks: TickTable)
        requires { stock < length self.old.stocks }
        ensures { self.new ≡ with_stock self.old stock (record (stock_at self.old stock) { bands = ticks }) }
    {
        self.stocks[usize::from(stock)].ticks = ticks;
    }

    // The stock's fee table becomes this one.
    fn put_fees(&mut self, stock: StockNo, fees: FeeTable)
        requires { stock < length self.old.stocks }
        ensures { self.new ≡ with_stock self.old stock (record (stock_at self.old stock) { fees = fees }) }
    {
        self.stocks[usize::from(stock)].fees = fees;
    }

    // The stock's trading state becomes this one, which the feed is told unless it stands already.
    fn turn(
        &mut self,
        time: Time,
        stock: StockNo,
        trading: Trading,
        feed: &mut FeedList,
    ) -> Result<(), Memory>
        requires { stock < length self.old.stocks }
        ensures state { OnOk result (self.new ≡ (turned self.old time stock (trading_letter trading)).state) }
        ensures feed { OnOk result (feed.new.list ≡ feed.old.list ++ (turned self.old time stock (trading_letter trading)).feed) }
        ensures exchange_refused { OnErr result (self.new ≡ self.old) }
        ensures feed_refused { OnErr result (feed.new ≡ feed.old) }
    {
        if self.stands(stock, trading) {
            return Ok(());
        }
        feed.push(self.turning(time, stock, trading))?;
        self.put_trading(stock, trading);
        Ok(())
    }

    /// A change of a stock's rules, at a time in nanoseconds past midnight. A halt or a resume is told by the feed
    /// unless the state stands already. After want of memory the exchange and the feed are as they were.
    pub fn apply_change(
        &mut self,
        time: Time,
        stock: StockNo,
        change: &Change,
        feed: &mut FeedList,
    ) -> Result<(), Memory>
        requires { stock < length self.old.stocks }
        ensures state { OnOk result (self.new ≡ (changed_by self.old time stock change.now).state) }
        ensures feed { OnOk result (feed.new.list ≡ feed.old.list ++ (changed_by self.old time stock change.now).feed) }
        ensures times { OnOk result (All (λ f. f.time ≡ time) (changed_by self.old time stock change.now).feed) }
        ensures stocks { length self.new.stocks ≡ length self.old.stocks }
        ensures traders { length self.new.cash ≡ length self.old.cash }
        ensures counts { self.new.counts ≡ self.old.counts }
        ensures exchange_refused { OnErr result (self.new ≡ self.old) }
        ensures feed_refused { OnErr result (feed.new ≡ feed.old) }
    {
        match change {
            Change::Tick(table) => {
                let table = table.copy(*self.stocks.allocator())?;
                self.put_ticks(stock, table);
                Ok(())
            }
            Change::Fee(fees) => {
                self.put_fees(stock, *fees);
                Ok(())
            }
            Change::Halt => self.turn(time, stock, Trading::Halted, feed),
            Change::Resume => self.turn(time, stock, Trading::Open, feed),
        }
    }
}
