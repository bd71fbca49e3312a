//! What the exchange does with a message.

ghost use Rattle.std.specs.Prelude.{◌≡◌, ◌<◌, ◌≤◌, ◌+◌, ◌++◌, ◌^◌, [], pos, OnOk, OnErr, All, length};
ghost use Rattle.exchange_agent.specs.Market.{IsAskable, asked, market};
ghost use Rattle.exchange_agent.specs.Outcome.{IsToTrader};
ghost use Rattle.exchange_agent.specs.Sound.{IsSound};

use crate::exchange::Exchange;
use crate::handled::Handled;
use market_types::{AgentNo, Body, Inbound, Memory, StockNo, Time};
use price_time_book::keeping::fills_add_up;

impl Exchange {
    // The market in a stock is told.
    fn ask(&self, from: AgentNo, stock: StockNo, out: &mut Handled) -> Result<(), Memory>
        requires { stock < length self.now.stocks }
        ensures replies { OnOk result (out.new.replies.list ≡ out.old.replies.list ++ (asked self.now from stock).replies) }
        ensures feed { out.new.feed.list ≡ out.old.feed.list }
        ensures fee { out.new.fee ≡ out.old.fee }
        ensures refused { OnErr result (out.new.replies.list ≡ out.old.replies.list) }
    {
        let Ok(()) = out.reserve(1, 0) else {
            return Err(Memory);
        };
        let quote = self.stocks[usize::from(stock)].quote(stock);
        out.reply(from, Body::Quote(quote));
        Ok(())
    }

    // What holds of each exchange.
    fn know_soundness(&self)
        ensures { IsSound self.now }
    {
        let _counts = &self.counts;
    }

    // What each message does.
    fn answer(
        &mut self,
        time: Time,
        from: AgentNo,
        body: &Body,
        out: &mut Handled,
    ) -> Result<(), Memory>
        requires trader { 1 ≤ from }
        requires exists { from ≤ length self.old.cash }
        requires askable { IsAskable (length self.old.stocks) body.now }
        requires enters { self.old.counts.enters < 2 ^ 63 }
        requires cancels { self.old.counts.cancels < 2 ^ 63 }
        requires no_replies { out.old.replies.list ≡ [] }
        requires no_feed { out.old.feed.list ≡ [] }
        requires no_fee { out.old.fee ≡ pos 0 }
        ensures state { OnOk result (self.new ≡ (market self.old time from body.now).state) }
        ensures replies { OnOk result (out.new.replies.list ≡ (market self.old time from body.now).replies) }
        ensures feed { OnOk result (out.new.feed.list ≡ (market self.old time from body.now).feed) }
        ensures fee { OnOk result (out.new.fee ≡ (market self.old time from body.now).fee) }
        ensures exchange_refused { OnErr result (self.new ≡ self.old) }
        ensures replies_refused { OnErr result (out.new.replies.list ≡ out.old.replies.list) }
        ensures feed_refused { OnErr result (out.new.feed.list ≡ out.old.feed.list) }
        ensures fee_refused { OnErr result (out.new.fee ≡ out.old.fee) }
    {
        match body {
            Body::Order(Inbound::Enter(e)) => self.enter(time, from, e, out),
            Body::Order(Inbound::Cancel(c)) => self.cancel(time, from, c, out),
            Body::Ask(stock) => self.ask(from, *stock, out),
            Body::Wake | Body::Answer(_) | Body::Quote(_) => Ok(()),
        }
    }

    /// Handles a message from a trader at a time, in nanoseconds past midnight. Orders, cancels and questions are
    /// answered in `out`, which is empty before; every other message changes nothing. Each refusal of an order is a
    /// reply. After want of memory the exchange and `out` are as they were.
    pub fn handle(
        &mut self,
        time: Time,
        from: AgentNo,
        body: &Body,
        out: &mut Handled,
    ) -> Result<(), Memory>
        requires trader { 1 ≤ from }
        requires exists { from ≤ length self.old.cash }
        requires askable { IsAskable (length self.old.stocks) body.now }
        requires enters { self.old.counts.enters < 2 ^ 63 }
        requires cancels { self.old.counts.cancels < 2 ^ 63 }
        requires no_replies { out.old.replies.list ≡ [] }
        requires no_feed { out.old.feed.list ≡ [] }
        requires no_fee { out.old.fee ≡ pos 0 }
        ensures state { OnOk result (self.new ≡ (market self.old time from body.now).state) }
        ensures replies { OnOk result (out.new.replies.list ≡ (market self.old time from body.now).replies) }
        ensures feed { OnOk result (out.new.feed.list ≡ (market self.old time from body.now).feed) }
        ensures fee { OnOk result (out.new.fee ≡ (market self.old time from body.now).fee) }
        ensures receivers { All (IsToTrader (length self.old.cash)) out.new.replies.list }
        ensures times { All (λ f. f.time ≡ time) out.new.feed.list }
        ensures stocks { length self.new.stocks ≡ length self.old.stocks }
        ensures traders { length self.new.cash ≡ length self.old.cash }
        ensures ignored_enters { self.new.counts.enters ≤ self.old.counts.enters + 1 }
        ensures ignored_cancels { self.new.counts.cancels ≤ self.old.counts.cancels + 1 }
        ensures exchange_refused { OnErr result (self.new ≡ self.old) }
        ensures replies_refused { OnErr result (out.new.replies.list ≡ out.old.replies.list) }
        ensures feed_refused { OnErr result (out.new.feed.list ≡ out.old.feed.list) }
        ensures fee_refused { OnErr result (out.new.fee ≡ out.old.fee) }
    {
        fills_add_up();
        self.know_soundness();
        self.answer(time, from, body, out)
    }
}
