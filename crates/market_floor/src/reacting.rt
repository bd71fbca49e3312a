//! What the receiver of a message does.

ghost use Rattle.std.specs.Prelude.{◌≡◌, ◌<◌, ◌≤◌, ◌+◌, ℕ, [], All, OnOk, OnErr, length, nat_lt};
ghost use Rattle.agent_shell.specs.Sight.{sight_of};
ghost use Rattle.market_rules.specs.Changes.{dated_by};
ghost use Rattle.exchange_agent.specs.Market.{market};
ghost use Rattle.exchange_agent.specs.State.{Stock};
ghost use Rattle.market_floor.specs.Party.{with_trader};
ghost use Rattle.market_floor.specs.Opening.{IsOpening};
ghost use Rattle.market_floor.specs.Postings.{IsAmong};
ghost use Rattle.market_floor.specs.Floor.{FloorState, floor_of};
ghost use Rattle.market_floor.specs.Reaction.{ArePosted, IsTold, decided_by, market_reaction, reaction, sight_for, trader_reaction, value_for};
ghost use Rattle.market_floor.specs.Ruled.{ruled};
ghost use Rattle.market_floor.specs.Sound.{FitsFloor, IsSoundFloor, IsSoundParty};

use crate::floor::Floor;
use crate::opening_laws::stocks_have_values;
use crate::postings::Happening;
use crate::ruling::changed;
use crate::{Opening, Party};
use agent_shell::laws::traders_stay_in_range;
use exchange_agent::Exchange;
use exchange_agent::laws::{books_stay_short, replies_ask_nothing};
use fundamental_series::with_offset;
use market_rules::View;
use market_rules::laws::first_changes_are_due;
use market_types::{Body, Memory, Message, StockNo, Time};
use std::alloc::Global;

// The value of a stock at a time, which is worked out for a quote alone: with any other body a trader doesn't judge by
// it.
fn value_for(o: &Opening, offsets: &[i64], stock: StockNo, time: Time, body: &Body) -> u32
    requires opening { IsOpening o.now }
    requires start { o.now.start ≤ time }
    requires exists { stock < length o.now.stocks }
    requires offset { stock < length offsets.now }
    ensures { result ≡ value_for o.now offsets.now stock time body.now }
{
    stocks_have_values();
    match body {
        Body::Quote(_) => {
            let place = usize::from(stock);
            with_offset(o.series.as_slice()[place].value_at(time), offsets[place])
        }
        Body::Wake | Body::Order(_) | Body::Answer(_) | Body::Ask(_) => 1,
    }
}

// What a trader in a stock is shown at a time with a body.
fn view_at<'a>(
    o: &'a Opening,
    exchange: &'a Exchange,
    offsets: &[i64],
    stock: StockNo,
    time: Time,
    body: &Body,
) -> View<'a>
    requires opening { IsOpening o.now }
    requires start { o.now.start ≤ time }
    requires stocks { length o.now.stocks ≡ length exchange.now.stocks }
    requires offsets { length offsets.now ≡ length exchange.now.stocks }
    requires exists { stock < length exchange.now.stocks }
    ensures sight { sight_of result ≡ sight_for o.now exchange.now offsets.now stock time body.now }
    ensures time { result.time ≡ time }
{
    let place = usize::from(stock);
    View {
        time,
        key: &o.key,
        symbol: o.stocks.as_slice()[place].symbol,
        value: value_for(o, offsets, stock, time, body),
        ticks: exchange.ticks(stock),
    }
}

// What a trader does with a message.
fn decide(
    o: &Opening,
    exchange: &Exchange,
    offsets: &[i64],
    party: &mut Party,
    m: &Message,
    out: &mut Happening,
) -> Result<(), Memory>
    requires opening { IsOpening o.now }
    requires start { o.now.start ≤ m.now.time }
    requires close { m.now.time ≤ o.now.close }
    requires stocks { length o.now.stocks ≡ length exchange.now.stocks }
    requires offsets { length offsets.now ≡ length exchange.now.stocks }
    requires trader { 1 ≤ m.now.to }
    requires sound { IsSoundParty (length exchange.now.stocks) 1000000 party.old }
    ensures party { OnOk result (party.new ≡ with_trader (decided_by o.now exchange.now offsets.now party.old m.now).trader party.old) }
    ensures told { (f : FloorState) → OnOk result (IsTold (trader_reaction f m.now.to party.old (decided_by o.now exchange.now offsets.now party.old m.now)) out.new) }
    ensures before { out.new.before ≡ out.old.before }
    ensures posted { (traders : ℕ) → m.now.to ≤ traders → OnOk result (ArePosted traders (length exchange.now.stocks) m.now out.new.postings) }
    ensures hour { OnOk result (out.new.delay ≤ 3600000000000) }
    ensures sound { (stocks n : ℕ) → IsSoundParty stocks n party.old → IsSoundParty stocks (n + 1) party.new }
    ensures refused { OnErr result (party.new ≡ party.old) }
{
    let view = view_at(o, exchange, offsets, party.stock(), m.time, &m.body);
    out.delay = party.delay();
    out.after.clear();
    out.fee = 0;
    out.postings.take_sends(party, &view, &m.body)
}

// What the exchange does with a message.
fn answer(
    o: &Opening,
    exchange: &mut Exchange,
    m: &Message,
    out: &mut Happening,
) -> Result<(), Memory>
    requires opening { IsOpening o.now }
    requires receiver { m.now.to ≡ 0 }
    requires among { IsAmong (length exchange.old.cash) (length exchange.old.stocks) m.now }
    requires enters { exchange.old.counts.enters ≤ 1000000 }
    requires cancels { exchange.old.counts.cancels ≤ 1000000 }
    requires books { All (λ (k : Stock). length k.book ≤ 1000000) exchange.old.stocks }
    ensures exchange { OnOk result (exchange.new ≡ (market exchange.old m.now.time m.now.from m.now.body).state) }
    ensures told { (f : FloorState) → OnOk result (IsTold (market_reaction o.now f (market exchange.old m.now.time m.now.from m.now.body)) out.new) }
    ensures before { out.new.before ≡ out.old.before }
    ensures posted { OnOk result (ArePosted (length exchange.old.cash) (length exchange.old.stocks) m.now out.new.postings) }
    ensures hour { OnOk result (out.new.delay ≤ 3600000000000) }
    ensures times { OnOk result (All (λ f. f.time ≡ m.now.time) out.new.after.list) }
    ensures books { (n : ℕ) → All (λ (k : Stock). length k.book ≤ n) exchange.old.stocks → All (λ (k : Stock). length k.book ≤ n + 1) exchange.new.stocks }
    ensures stocks { length exchange.new.stocks ≡ length exchange.old.stocks }
    ensures traders { length exchange.new.cash ≡ length exchange.old.cash }
    ensures ignored_enters { exchange.new.counts.enters ≤ exchange.old.counts.enters + 1 }
    ensures ignored_cancels { exchange.new.counts.cancels ≤ exchange.old.counts.cancels + 1 }
    ensures refused { OnErr result (exchange.new ≡ exchange.old) }
{
    books_stay_short();
    replies_ask_nothing();
    out.delay = o.exchange_delay;
    let fee = out.postings.take_answer(exchange, m, &mut out.after)?;
    out.fee = fee;
    Ok(())
}

// What the receiver of a message does.
fn react(
    o: &Opening,
    exchange: &mut Exchange,
    parties: &mut Vec<Party>,
    offsets: &[i64],
    m: &Message,
    out: &mut Happening,
) -> Result<(), Memory>
    requires fits { FitsFloor o.now (floor_of exchange.old parties.old.items offsets.now) }
    requires sound { IsSoundFloor 1000000 (floor_of exchange.old parties.old.items offsets.now) }
    requires among { IsAmong (length parties.old.items) (length exchange.old.stocks) m.now }
    requires start { o.now.start ≤ m.now.time }
    requires close { m.now.time ≤ o.now.close }
    ensures floor { OnOk result (floor_of exchange.new parties.new.items offsets.now ≡ (reaction o.now (floor_of exchange.old parties.old.items offsets.now) m.now).floor) }
    ensures told { OnOk result (IsTold (reaction o.now (floor_of exchange.old parties.old.items offsets.now) m.now) out.new) }
    ensures before { out.new.before ≡ out.old.before }
    ensures posted { OnOk result (ArePosted (length parties.old.items) (length exchange.old.stocks) m.now out.new.postings) }
    ensures hour { OnOk result (out.new.delay ≤ 3600000000000) }
    ensures times { OnOk result (All (λ f. f.time ≡ m.now.time) out.new.after.list) }
    ensures sound { (n : ℕ) → IsSoundFloor n (floor_of exchange.old parties.old.items offsets.now) → IsSoundFloor (n + 1) (floor_of exchange.new parties.new.items offsets.now) }
    ensures stocks { length exchange.new.stocks ≡ length exchange.old.stocks }
    ensures traders { length parties.new.items ≡ length parties.old.items }
    ensures exchange_refused { OnErr result (exchange.new ≡ exchange.old) }
    ensures parties_refused { OnErr result (parties.new.items ≡ parties.old.items) }
{
    traders_stay_in_range();
    if m.to == 0 {
        return answer(o, exchange, m, out);
    }
    let party = &mut parties[usize::from(m.to) - 1];
    decide(o, exchange, offsets, party, m, out)
}

impl Floor {
    /// Delivers a message: the dated changes that are due at its time are made, where the first so many were made
    /// before, and then its receiver does what it does with it. The caller says whether a change is due. A silenced
    /// trader takes replies, and does nothing with a wakeup or a quote. What happened takes the place of all that `out`
    /// told.
    ///
    /// # Errors
    /// Want of memory alone. The floor is then as it was, and `out` tells nothing that counts.
    pub fn deliver(
        &mut self,
        alloc: Global,
        o: &Opening,
        applied: usize,
        is_due: bool,
        m: &Message,
        out: &mut Happening,
    ) -> Result<(), Memory>
        requires fits { FitsFloor o.now self.old }
        requires sound { IsSoundFloor 1000000 self.old }
        requires among { IsAmong (length self.old.parties) (length self.old.exchange.stocks) m.now }
        requires start { o.now.start ≤ m.now.time }
        requires close { m.now.time ≤ o.now.close }
        requires due { is_due ≡ nat_lt applied (dated_by o.now.dated m.now.time) }
        ensures floor { OnOk result (self.new ≡ (reaction o.now (ruled o.now applied m.now.time self.old).floor m.now).floor) }
        ensures before { OnOk result (out.new.before.list ≡ (ruled o.now applied m.now.time self.old).feed) }
        ensures told { OnOk result (IsTold (reaction o.now (ruled o.now applied m.now.time self.old).floor m.now) out.new) }
        ensures posted { OnOk result (ArePosted (length self.old.parties) (length self.old.exchange.stocks) m.now out.new.postings) }
        ensures hour { OnOk result (out.new.delay ≤ 3600000000000) }
        ensures times_before { OnOk result (All (λ f. f.time ≤ m.now.time) out.new.before.list) }
        ensures times_after { OnOk result (All (λ f. f.time ≡ m.now.time) out.new.after.list) }
        ensures sound { (n : ℕ) → IsSoundFloor n self.old → IsSoundFloor (n + 1) self.new }
        ensures stocks { length self.new.exchange.stocks ≡ length self.old.exchange.stocks }
        ensures traders { length self.new.parties ≡ length self.old.parties }
        ensures refused { OnErr result (self.new ≡ self.old) }
    {
        out.before.clear();
        if is_due {
            return self.deliver_changed(alloc, o, applied, m, out);
        }
        let offsets = self.offsets.as_slice();
        react(o, &mut self.exchange, &mut self.parties, offsets, m, out)
    }

    // Delivers a message once the dated changes up to its time are made. They are made on a copy of the exchange, which
    // takes its place where nothing is refused.
    fn deliver_changed(
        &mut self,
        alloc: Global,
        o: &Opening,
        applied: usize,
        m: &Message,
        out: &mut Happening,
    ) -> Result<(), Memory>
        requires fits { FitsFloor o.now self.old }
        requires sound { IsSoundFloor 1000000 self.old }
        requires among { IsAmong (length self.old.parties) (length self.old.exchange.stocks) m.now }
        requires start { o.now.start ≤ m.now.time }
        requires close { m.now.time ≤ o.now.close }
        requires untold { out.old.before.list ≡ [] }
        ensures floor { OnOk result (self.new ≡ (reaction o.now (ruled o.now applied m.now.time self.old).floor m.now).floor) }
        ensures before { OnOk result (out.new.before.list ≡ (ruled o.now applied m.now.time self.old).feed) }
        ensures told { OnOk result (IsTold (reaction o.now (ruled o.now applied m.now.time self.old).floor m.now) out.new) }
        ensures posted { OnOk result (ArePosted (length self.old.parties) (length self.old.exchange.stocks) m.now out.new.postings) }
        ensures hour { OnOk result (out.new.delay ≤ 3600000000000) }
        ensures times_before { OnOk result (All (λ f. f.time ≤ m.now.time) out.new.before.list) }
        ensures times_after { OnOk result (All (λ f. f.time ≡ m.now.time) out.new.after.list) }
        ensures sound { (n : ℕ) → IsSoundFloor n self.old → IsSoundFloor (n + 1) self.new }
        ensures stocks { length self.new.exchange.stocks ≡ length self.old.exchange.stocks }
        ensures traders { length self.new.parties ≡ length self.old.parties }
        ensures refused { OnErr result (self.new ≡ self.old) }
    {
        traders_stay_in_range();
        books_stay_short();
        first_changes_are_due();
        let offsets = self.offsets.as_slice();
        let Ok(mut exchange) = changed(alloc, o, &self.exchange, applied, m.time, &mut out.before)
        else {
            return Err(Memory);
        };
        let Ok(()) = react(o, &mut exchange, &mut self.parties, offsets, m, out) else {
            drop(exchange);
            return Err(Memory);
        };
        self.exchange = exchange;
        Ok(())
    }
}
