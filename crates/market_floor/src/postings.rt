//! What the receiver of a message gives to the mail.

ghost use Rattle.std.specs.Prelude.{◌≡◌, ◌<◌, ◌≤◌, ◌+◌, ◌++◌, ◌^◌, ℕ, [], pos, All, IfOk, OnOk, OnErr, length, map};
ghost use Rattle.agent_shell.specs.Bounds.{AreSendings, IsAfter};
ghost use Rattle.agent_shell.specs.Sight.{sight_of};
ghost use Rattle.exchange_agent.specs.Market.{IsAskable, market};
ghost use Rattle.exchange_agent.specs.Outcome.{IsToTrader};
ghost use Rattle.market_floor.specs.Party.{reacted, with_trader};
ghost use Rattle.market_floor.specs.Posted.{to_exchange, to_receiver};

use crate::Party;
use agent_shell::{Sending, Sends};
use exchange_agent::{Exchange, Handled, Outgoing};
use market_rules::View;
use market_types::{Body, FeedList, Memory, Message, Time};
use std::alloc::Global;
use std::marker::Model;
use std::mem::swap;

/// What is given to the mail, in its order: the exchange's replies, or what a trader sends. It is read where it stands and
/// takes no memory. Its lists are filled again with each message, one of them at a time.
#[derive(Drop)]
pub struct Postings {
    answer: Handled,
    sends: Sends,
}

impl Model for Postings {
    ghost use Rattle.std.specs.Prelude.{List};
    ghost use Rattle.market_floor.specs.declared.posting.Posting.{Posting};
    ghost use Rattle.market_floor.specs.Posted.{postings_of};

    ghost Value = { List Posting };

    ghost view = { λ p. postings_of p.answer p.sends };
}

/// What happened when a message was delivered. It is filled again with each message, and keeps the memory of its
/// lists.
#[derive(Drop)]
pub struct Happening {
    /// The feed of the dated changes that were made first.
    pub before: FeedList,
    /// What the receiver gives to the mail.
    pub postings: Postings,
    /// How long the receiver computes, in nanoseconds.
    pub delay: Time,
    /// The feed of the event itself.
    pub after: FeedList,
    /// The sum of the fees that the event took, in millionths of a dollar.
    pub fee: i64,
}

impl Happening {
    /// Nothing happened so far. It takes no memory, and later calls take theirs from `alloc`.
    pub fn new(alloc: Global) -> Happening
        ensures { result ≡ record { before = record { list = []; spare = 0 }; postings = []; delay = 0; after = record { list = []; spare = 0 }; fee = pos 0 } }
    {
        Happening {
            before: FeedList::new(alloc),
            postings: Postings::new(alloc),
            delay: 0,
            after: FeedList::new(alloc),
            fee: 0,
        }
    }
}

impl Postings {
    // None so far.
    pub(crate) fn new(alloc: Global) -> Postings
        ensures { result ≡ [] }
    {
        Postings {
            answer: Handled::new(alloc),
            sends: Sends::new(alloc),
        }
    }

    /// The exchange's replies, and behind them what a trader sends to the exchange.
    pub fn lists(&self) -> (&[Outgoing], &[Sending])
        ensures whole { self.now ≡ map to_receiver result.0.now ++ map to_exchange result.1.now }
    {
        (self.answer.replies(), self.sends.as_slice())
    }

    // The exchange's answer to a message takes the place of what was. Its feed is told apart, and the sum of fees
    // comes back.
    pub(crate) fn take_answer(
        &mut self,
        exchange: &mut Exchange,
        m: &Message,
        feed: &mut FeedList,
    ) -> Result<i64, Memory>
        requires trader { 1 ≤ m.now.from }
        requires exists { m.now.from ≤ length exchange.old.cash }
        requires askable { IsAskable (length exchange.old.stocks) m.now.body }
        requires enters { exchange.old.counts.enters < 2 ^ 63 }
        requires cancels { exchange.old.counts.cancels < 2 ^ 63 }
        ensures exchange { OnOk result (exchange.new ≡ (market exchange.old m.now.time m.now.from m.now.body).state) }
        ensures postings { OnOk result (self.new ≡ map to_receiver (market exchange.old m.now.time m.now.from m.now.body).replies) }
        ensures feed { OnOk result (feed.new.list ≡ (market exchange.old m.now.time m.now.from m.now.body).feed) }
        ensures fee { IfOk result (λ n. n ≡ (market exchange.old m.now.time m.now.from m.now.body).fee) }
        ensures receivers { OnOk result (All (IsToTrader (length exchange.old.cash)) (market exchange.old m.now.time m.now.from m.now.body).replies) }
        ensures times { OnOk result (All (λ f. f.time ≡ m.now.time) feed.new.list) }
        ensures stocks { length exchange.new.stocks ≡ length exchange.old.stocks }
        ensures traders { length exchange.new.cash ≡ length exchange.old.cash }
        ensures ignored_enters { exchange.new.counts.enters ≤ exchange.old.counts.enters + 1 }
        ensures ignored_cancels { exchange.new.counts.cancels ≤ exchange.old.counts.cancels + 1 }
        ensures refused { OnErr result (exchange.new ≡ exchange.old) }
    {
        self.sends.clear();
        self.answer.clear();
        exchange.handle(m.time, m.from, &m.body, &mut self.answer)?;
        swap(feed, &mut self.answer.feed);
        Ok(self.answer.fee)
    }

    // What a trader sends after a message takes the place of what was.
    pub(crate) fn take_sends(
        &mut self,
        party: &mut Party,
        view: &View,
        body: &Body,
    ) -> Result<(), Memory>
        requires time { view.now.time < 2 ^ 62 }
        requires few { IsAfter 1000000 party.old.trader }
        ensures party { OnOk result (party.new ≡ with_trader (reacted (sight_of view.now) party.old body.now).trader party.old) }
        ensures postings { OnOk result (self.new ≡ map to_exchange (reacted (sight_of view.now) party.old body.now).sends) }
        ensures refused { OnErr result (party.new ≡ party.old) }
        ensures sendings { AreSendings (sight_of view.now) party.old.trader (reacted (sight_of view.now) party.old body.now).sends }
        ensures setting { party.new.trader.setting ≡ party.old.trader.setting }
        ensures after { (n : ℕ) → IsAfter n party.old.trader → IsAfter (n + 1) party.new.trader }
    {
        self.answer.clear();
        self.sends.clear();
        party.react(view, body, &mut self.sends)
    }
}
