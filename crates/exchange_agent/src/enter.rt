//! Enters.

ghost use Rattle.std.specs.Prelude.{◌≡◌, ◌<◌, ◌≤◌, ◌+◌, ◌*◌, ◌++◌, ◌∷◌, ◌^◌, [], pos, not, OnOk, OnErr, IfOk, All, map, length, position, bytes_eq};
ghost use Rattle.std.specs.Bool.{OnFalse, OnTrue};
ghost use Rattle.exchange_agent.specs.declared.verdict.Verdict.TheVariants as verdict;
ghost use Rattle.exchange_agent.specs.Enter.{acceptance_of, display_is_refused, entered, entered_unless, is_remembered, price_is_refused, shares_are_refused, terms_are_refused, rejection_of, remembering, verdict_found, verdict_there, verdict_when_full, way_of};
ghost use Rattle.exchange_agent.specs.Pairs.{has_pair, pair_of, with_pair};
ghost use Rattle.exchange_agent.specs.Sound.{IsSoundStock, IsWithin};
ghost use Rattle.exchange_agent.specs.State.{stock_number_of, resting_over};
ghost use Rattle.exchange_agent.specs.View.{stock_of, way_at};

use crate::exchange::Exchange;
use crate::handled::Handled;
use crate::listing::Listing;
use crate::pair::Pair;
use crate::remembered::Remembered;
use crate::settle::Taking;
use crate::told::Counts;
use crate::verdict::{Reason, Verdict};
use market_types::{AgentNo, Body, Enter, Memory, Money, Reply, Symbol, Time};
use price_time_book::bytes::is_same;
use price_time_book::keeping::changes_keep;

// How many pairs are remembered at most.
const MOST_PAIRS: usize = 131_072;

// How many orders rest at most over all stocks.
const MOST_RESTING: usize = 16_384;

// The display is neither 'Y' nor, where hidden orders are taken, 'N'.
fn has_strange_display(hidden: bool, e: &Enter) -> bool
    ensures { result ≡ display_is_refused hidden e.now }
{
    !(e.display == b'Y' || (hidden && e.display == b'N'))
}

// The display is strange, there is a minimum, it is for a cross, or the time in force is none of the three.
fn has_strange_terms(hidden: bool, e: &Enter) -> bool
    ensures { result ≡ terms_are_refused hidden e.now }
{
    has_strange_display(hidden, e)
        || e.minimum != 0
        || e.cross != b'N'
        || !(e.tif == 0 || e.tif == 99_998 || e.tif == 99_999)
}

// The shares are 0 or above 999,999.
fn has_strange_size(e: &Enter) -> bool
    ensures { result ≡ shares_are_refused e.now }
{
    e.shares == 0 || e.shares > 999_999
}

// The price is out of range or off its tick.
fn has_strange_price(listing: &Listing, e: &Enter) -> bool
    ensures { result ≡ price_is_refused (stock_of listing.now) e.now }
{
    e.price == 0 || e.price > 1_999_999_900 || !listing.ticks.allowed(e.price)
}

// The place of the first stock with a symbol.
fn place_of(stocks: &[Listing], symbol: &Symbol) -> Option<usize>
    ensures { result ≡ position (λ k. bytes_eq k.symbol.0 symbol.now.0) stocks.now }
{
    stocks.iter().position(|k| is_same(&k.symbol.0, &symbol.0))
}

// The number of the stock with a symbol.
fn stock_number(stocks: &[Listing], symbol: &Symbol) -> Option<usize>
    ensures { result ≡ stock_number_of symbol.now (map stock_of stocks.now) }
{
    place_of(stocks, symbol)
}

// How many orders rest over all stocks.
fn resting(stocks: &[Listing]) -> usize
    requires few { length stocks.now ≤ 16 }
    requires each { All (λ k. length k.book.list ≤ 131072) stocks.now }
    ensures { result ≡ resting_over (map stock_of stocks.now) }
{
    let mut count = 0;
    for listing in stocks {
        count += listing.book.len();
    }
    count
}

// The reply Rejected.
fn rejection(time: Time, e: &Enter, reason: Reason) -> Reply
    ensures { result ≡ rejection_of time e.now reason }
{
    Reply::Rejected {
        time,
        token: e.token,
        reason: reason.letter(),
    }
}

// The reply Accepted.
fn acceptance(time: Time, e: &Enter, reference: u64) -> Reply
    ensures { result ≡ acceptance_of time e.now reference }
{
    Reply::Accepted {
        time,
        token: e.token,
        side: e.side,
        shares: e.shares,
        stock: e.stock,
        price: e.price,
        tif: e.tif,
        firm: e.firm,
        display: e.display,
        reference,
        capacity: e.capacity,
        sweep: e.sweep,
        minimum: e.minimum,
        cross: e.cross,
        state: b'L',
        bbo: b' ',
    }
}

impl Exchange {
    // Which of the nine lines answers an Enter; while there is room for a pair, the first line is not asked.
    fn verdict(&self, agent: AgentNo, e: &Enter) -> Verdict
        ensures { result ≡ verdict_found self.now agent e.now }
    {
        if self.pairs.len() >= MOST_PAIRS {
            return self.verdict_when_full(agent, e);
        }
        match stock_number(self.stocks.as_slice(), &e.stock) {
            Some(stock) => self.verdict_there(e, stock),
            None => Verdict::Refused(Reason::UnknownStock),
        }
    }

    // Which of the first two lines answers it, where so many pairs are remembered as may be.
    fn verdict_when_full(&self, agent: AgentNo, e: &Enter) -> Verdict
        ensures { result ≡ verdict_when_full self.now agent e.now }
    {
        let pair = Pair {
            agent,
            token: e.token.0,
        };
        if self.pairs.contains(&pair) {
            return Verdict::Ignored;
        }
        Verdict::Forgotten(Reason::Other)
    }

    // Which of the lines from the fourth on answers it, at the stock of this number.
    fn verdict_there(&self, e: &Enter, stock: usize) -> Verdict
        requires { stock < length self.now.stocks }
        ensures { result ≡ verdict_there self.now e.now stock }
    {
        let listing = &self.stocks[stock];
        if has_strange_terms(self.hidden, e) {
            return Verdict::Refused(Reason::Other);
        }
        if listing.trading.is_halted() {
            return Verdict::Refused(Reason::Halted);
        }
        if has_strange_size(e) {
            return Verdict::Refused(Reason::Other);
        }
        if has_strange_price(listing, e) {
            return Verdict::Refused(Reason::Price);
        }
        if resting(self.stocks.as_slice()) >= MOST_RESTING {
            return Verdict::Refused(Reason::Other);
        }
        Verdict::Accepted(stock)
    }

    // The pair of agent and token is remembered; whether it was not before. After want of memory the exchange is as it was.
    fn remember(&mut self, agent: AgentNo, e: &Enter) -> Result<bool, Memory>
        requires { length self.old.pairs < 131072 }
        ensures new { IfOk result (λ new. new ≡ not (is_remembered self.old agent e.now)) }
        ensures state { OnOk result (self.new ≡ remembering self.old agent e.now) }
        ensures same { IfOk result (λ new. OnFalse new (self.new ≡ self.old)) }
        ensures refused { OnErr result (self.new ≡ self.old) }
    {
        let pair = Pair {
            agent,
            token: e.token.0,
        };
        self.pairs.insert(pair)
    }

    // An Enter is rejected and the pair is remembered, unless it was: then the Enter is ignored.
    fn reject(
        &mut self,
        time: Time,
        from: AgentNo,
        e: &Enter,
        reason: Reason,
        out: &mut Handled,
    ) -> Result<(), Memory>
        requires room { length self.old.pairs < 131072 }
        requires ignored { self.old.counts.enters < 2 ^ 63 }
        requires no_replies { out.old.replies.list ≡ [] }
        requires no_feed { out.old.feed.list ≡ [] }
        requires no_fee { out.old.fee ≡ pos 0 }
        ensures state { OnOk result (self.new ≡ (entered_unless self.old time from e.now (verdict.Refused reason)).state) }
        ensures replies { OnOk result (out.new.replies.list ≡ (entered_unless self.old time from e.now (verdict.Refused reason)).replies) }
        ensures feed { OnOk result (out.new.feed.list ≡ (entered_unless self.old time from e.now (verdict.Refused reason)).feed) }
        ensures fee { OnOk result (out.new.fee ≡ (entered_unless self.old time from e.now (verdict.Refused reason)).fee) }
        ensures exchange_refused { OnErr result (self.new ≡ self.old) }
        ensures replies_refused { OnErr result (out.new.replies.list ≡ out.old.replies.list) }
        ensures feed_refused { OnErr result (out.new.feed.list ≡ out.old.feed.list) }
        ensures fee_refused { OnErr result (out.new.fee ≡ out.old.fee) }
    {
        let Ok(()) = out.reserve(1, 0) else {
            return Err(Memory);
        };
        let Ok(new) = self.remember(from, e) else {
            return Err(Memory);
        };
        if !new {
            self.ignore_enter();
            return Ok(());
        }
        out.reply(from, Body::Answer(rejection(time, e, reason)));
        Ok(())
    }
}

// An Enter is rejected, and the pair is not remembered.
fn forget(
    time: Time,
    from: AgentNo,
    e: &Enter,
    reason: Reason,
    out: &mut Handled,
) -> Result<(), Memory>
    ensures replies { OnOk result (out.new.replies.list ≡ out.old.replies.list ++ record { to = from; body = Body.Answer (rejection_of time e.now reason) } ∷ []) }
    ensures feed { out.new.feed.list ≡ out.old.feed.list }
    ensures fee { out.new.fee ≡ out.old.fee }
    ensures replies_refused { OnErr result (out.new.replies.list ≡ out.old.replies.list) }
{
    let Ok(()) = out.reserve(1, 0) else {
        return Err(Memory);
    };
    out.reply(from, Body::Answer(rejection(time, e, reason)));
    Ok(())
}

// Room is made and the pair is remembered; then nothing fails, and the order trades. Answers whether it did: where the
// pair was remembered before, and after want of memory, all is as it was.
fn admit(
    listing: &mut Listing,
    cash: &mut Vec<Money>,
    pairs: &mut Remembered,
    counts: &mut Counts,
    taking: &Taking,
    e: &Enter,
    out: &mut Handled,
) -> Result<bool, Memory>
    requires same_side { taking.now.side ≡ e.now.side }
    requires same_token { taking.now.token ≡ e.now.token }
    requires few { e.now.shares < 1000000 }
    requires trader { 1 ≤ taking.now.agent }
    requires exists { taking.now.agent ≤ length cash.old.items }
    requires stock { IsSoundStock (length cash.old.items) counts.old.orders pairs.old.keys (stock_of listing.old) }
    requires some_orders { counts.old.orders < 131072 }
    requires some_pairs { length pairs.old.keys < 131072 }
    requires matches { counts.old.matches ≤ 1000000 * counts.old.orders }
    requires money { All (IsWithin (2 ^ 63 + 2 ^ 61 * counts.old.orders)) cash.old.items }
    requires no_fee { out.old.fee ≡ pos 0 }
    ensures new { IfOk result (λ new. new ≡ not (has_pair (pair_of taking.now.agent e.now.token) pairs.old.keys)) }
    ensures way { IfOk result (λ new. OnTrue new (way_at listing.new cash.new.items counts.new.matches out.new ≡ way_of taking.now e.now (counts.old.orders + 1) (record (way_at listing.old cash.old.items counts.old.matches out.old) { replies = out.old.replies.list ++ record { to = taking.now.agent; body = Body.Answer (acceptance_of taking.now.time e.now (counts.old.orders + 1)) } ∷ [] }))) }
    ensures pairs { IfOk result (λ new. OnTrue new (pairs.new.keys ≡ with_pair (pair_of taking.now.agent e.now.token) pairs.old.keys)) }
    ensures counts { IfOk result (λ new. OnTrue new (counts.new ≡ record counts.old { orders = counts.old.orders + 1; matches = counts.new.matches })) }
    ensures stock { IfOk result (λ new. OnTrue new (IsSoundStock (length cash.new.items) counts.new.orders pairs.new.keys (stock_of listing.new))) }
    ensures matches { IfOk result (λ new. OnTrue new (counts.new.matches ≤ 1000000 * (counts.old.orders + 1))) }
    ensures money { IfOk result (λ new. OnTrue new (All (IsWithin (2 ^ 63 + 2 ^ 61 * (counts.old.orders + 1))) cash.new.items)) }
    ensures same { length cash.new.items ≡ length cash.old.items }
    ensures ignored { IfOk result (λ new. OnFalse new ((stock_of listing.new ≡ stock_of listing.old) × (cash.new.items ≡ cash.old.items) × (pairs.new.keys ≡ pairs.old.keys) × (counts.new ≡ counts.old) × (out.new.replies.list ≡ out.old.replies.list) × (out.new.feed.list ≡ out.old.feed.list) × (out.new.fee ≡ out.old.fee))) }
    ensures stock_refused { OnErr result (stock_of listing.new ≡ stock_of listing.old) }
    ensures cash_refused { OnErr result (cash.new.items ≡ cash.old.items) }
    ensures pairs_refused { OnErr result (pairs.new.keys ≡ pairs.old.keys) }
    ensures counts_refused { OnErr result (counts.new ≡ counts.old) }
    ensures replies_refused { OnErr result (out.new.replies.list ≡ out.old.replies.list) }
    ensures feed_refused { OnErr result (out.new.feed.list ≡ out.old.feed.list) }
    ensures fee_refused { OnErr result (out.new.fee ≡ out.old.fee) }
{
    changes_keep();
    let most = listing.book.most_fills(taking.side, e.price, e.shares);
    let Ok(()) = out.reserve(2 * most + 2, most + 1) else {
        return Err(Memory);
    };
    let Ok(()) = listing.book.reserve(1) else {
        return Err(Memory);
    };
    let pair = Pair {
        agent: taking.agent,
        token: e.token.0,
    };
    let Ok(new) = pairs.insert(pair) else {
        return Err(Memory);
    };
    if !new {
        return Ok(false);
    }
    counts.orders += 1;
    out.reply(
        taking.agent,
        Body::Answer(acceptance(taking.time, e, counts.orders)),
    );
    listing.trade(taking, e, counts.orders, cash, &mut counts.matches, out);
    Ok(true)
}

impl Exchange {
    // An Enter is accepted at the stock of this number, unless its pair was remembered: then it is ignored.
    fn accept(
        &mut self,
        time: Time,
        from: AgentNo,
        e: &Enter,
        stock: usize,
        out: &mut Handled,
    ) -> Result<(), Memory>
        requires stock { stock < length self.old.stocks }
        requires few { e.now.shares < 1000000 }
        requires ignored { self.old.counts.enters < 2 ^ 63 }
        requires room { length self.old.pairs < 131072 }
        requires trader { 1 ≤ from }
        requires exists { from ≤ length self.old.cash }
        requires no_replies { out.old.replies.list ≡ [] }
        requires no_feed { out.old.feed.list ≡ [] }
        requires no_fee { out.old.fee ≡ pos 0 }
        ensures state { OnOk result (self.new ≡ (entered_unless self.old time from e.now (verdict.Accepted stock)).state) }
        ensures replies { OnOk result (out.new.replies.list ≡ (entered_unless self.old time from e.now (verdict.Accepted stock)).replies) }
        ensures feed { OnOk result (out.new.feed.list ≡ (entered_unless self.old time from e.now (verdict.Accepted stock)).feed) }
        ensures fee { OnOk result (out.new.fee ≡ (entered_unless self.old time from e.now (verdict.Accepted stock)).fee) }
        ensures exchange_refused { OnErr result (self.new ≡ self.old) }
        ensures replies_refused { OnErr result (out.new.replies.list ≡ out.old.replies.list) }
        ensures feed_refused { OnErr result (out.new.feed.list ≡ out.old.feed.list) }
        ensures fee_refused { OnErr result (out.new.fee ≡ out.old.fee) }
    {
        let listing = &mut self.stocks[stock];
        let taking = Taking {
            time,
            agent: from,
            locate: stock as u16 + 1,
            side: e.side,
            token: e.token,
        };
        let Ok(admitted) = admit(
            listing,
            &mut self.cash,
            &mut self.pairs,
            &mut self.counts,
            &taking,
            e,
            out,
        ) else {
            return Err(Memory);
        };
        if !admitted {
            self.ignore_enter();
        }
        Ok(())
    }

    // An Enter is ignored.
    fn ignore_enter(&mut self)
        requires { self.old.counts.enters < 2 ^ 63 }
        ensures { self.new ≡ record self.old { counts = record self.old.counts { enters = self.old.counts.enters + 1 } } }
    {
        self.counts.enters += 1;
    }

    /// An Enter: the first of the nine lines that applies answers.
    pub(crate) fn enter(
        &mut self,
        time: Time,
        from: AgentNo,
        e: &Enter,
        out: &mut Handled,
    ) -> Result<(), Memory>
        requires ignored { self.old.counts.enters < 2 ^ 63 }
        requires trader { 1 ≤ from }
        requires exists { from ≤ length self.old.cash }
        requires no_replies { out.old.replies.list ≡ [] }
        requires no_feed { out.old.feed.list ≡ [] }
        requires no_fee { out.old.fee ≡ pos 0 }
        ensures state { OnOk result (self.new ≡ (entered self.old time from e.now).state) }
        ensures replies { OnOk result (out.new.replies.list ≡ (entered self.old time from e.now).replies) }
        ensures feed { OnOk result (out.new.feed.list ≡ (entered self.old time from e.now).feed) }
        ensures fee { OnOk result (out.new.fee ≡ (entered self.old time from e.now).fee) }
        ensures exchange_refused { OnErr result (self.new ≡ self.old) }
        ensures replies_refused { OnErr result (out.new.replies.list ≡ out.old.replies.list) }
        ensures feed_refused { OnErr result (out.new.feed.list ≡ out.old.feed.list) }
        ensures fee_refused { OnErr result (out.new.fee ≡ out.old.fee) }
    {
        match self.verdict(from, e) {
            Verdict::Ignored => {
                self.ignore_enter();
                Ok(())
            }
            Verdict::Forgotten(reason) => forget(time, from, e, reason, out),
            Verdict::Refused(reason) => self.reject(time, from, e, reason, out),
            Verdict::Accepted(stock) => self.accept(time, from, e, stock, out),
        }
    }
}
