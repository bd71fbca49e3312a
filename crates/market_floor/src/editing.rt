//! Edits of the floor.

ghost use Rattle.std.specs.Prelude.{◌≡◌, ◌<◌, ◌^◌, ◌+ℤ◌, ℕ, true, All, IfOk, OnOk, OnErr, length};
ghost use Rattle.agent_shell.specs.Parameters.{IsOwnParam};
ghost use Rattle.agent_shell.specs.Trader.{trader_with};
ghost use Rattle.market_rules.specs.EditRanges.{is_near_zero};
ghost use Rattle.exchange_agent.specs.Changes.{changed_by};
ghost use Rattle.market_floor.specs.Edited.{IsAgent, IsEdit, edited_floor};
ghost use Rattle.market_floor.specs.Floor.{offset_at, party_at, with_exchange, with_offset, with_party};
ghost use Rattle.market_floor.specs.Party.{with_trader};
ghost use Rattle.market_floor.specs.Sound.{IsSoundFloor};

use crate::floor::Floor;
use exchange_agent::laws::books_stay_short;
use market_rules::{Change, Edit, Param};
use market_types::{AgentNo, FeedList, Memory, StockNo, Time};
use std::alloc::Global;

impl Floor {
    // A change of a stock's rules.
    fn change(
        &mut self,
        alloc: Global,
        time: Time,
        stock: StockNo,
        change: &Change,
    ) -> Result<FeedList, Memory>
        requires { stock < length self.old.exchange.stocks }
        ensures floor { OnOk result (self.new ≡ with_exchange (changed_by self.old.exchange time stock change.now).state self.old) }
        ensures feed { IfOk result (λ l. l.list ≡ (changed_by self.old.exchange time stock change.now).feed) }
        ensures times { IfOk result (λ l. All (λ f. f.time ≡ time) l.list) }
        ensures sound { (n : ℕ) → IsSoundFloor n self.old → IsSoundFloor n self.new }
        ensures stocks { length self.new.exchange.stocks ≡ length self.old.exchange.stocks }
        ensures traders { length self.new.parties ≡ length self.old.parties }
        ensures refused { OnErr result (self.new ≡ self.old) }
    {
        books_stay_short();
        let mut feed = FeedList::new(alloc);
        if let Err(refused) = self.exchange.apply_change(time, stock, change, &mut feed) {
            drop(feed);
            return Err(refused);
        }
        Ok(feed)
    }

    // A change of a stock's rules, which is let go of once it is made.
    fn change_once(
        &mut self,
        alloc: Global,
        time: Time,
        stock: StockNo,
        change: Change,
    ) -> Result<FeedList, Memory>
        requires { stock < length self.old.exchange.stocks }
        ensures floor { OnOk result (self.new ≡ with_exchange (changed_by self.old.exchange time stock change).state self.old) }
        ensures feed { IfOk result (λ l. l.list ≡ (changed_by self.old.exchange time stock change).feed) }
        ensures times { IfOk result (λ l. All (λ f. f.time ≡ time) l.list) }
        ensures sound { (n : ℕ) → IsSoundFloor n self.old → IsSoundFloor n self.new }
        ensures stocks { length self.new.exchange.stocks ≡ length self.old.exchange.stocks }
        ensures traders { length self.new.parties ≡ length self.old.parties }
        ensures refused { OnErr result (self.new ≡ self.old) }
    {
        let feed = self.change(alloc, time, stock, &change);
        drop(change);
        feed
    }

    // A parameter of a trader becomes this one.
    fn set(&mut self, agent: AgentNo, name: Param, value: u64)
        requires agent { IsAgent (length self.old.parties) agent }
        requires param { IsOwnParam (party_at self.old agent).trader.setting.kind name value }
        ensures floor { self.new ≡ with_party agent (with_trader (trader_with name value (party_at self.old agent).trader) (party_at self.old agent)) self.old }
        ensures sound { (n : ℕ) → IsSoundFloor n self.old → IsSoundFloor n self.new }
    {
        self.parties[usize::from(agent) - 1].set(name, value);
    }

    // A trader sends nothing from now on.
    fn silence(&mut self, agent: AgentNo)
        requires { IsAgent (length self.old.parties) agent }
        ensures floor { self.new ≡ with_party agent (record (party_at self.old agent) { silent = true }) self.old }
        ensures sound { (n : ℕ) → IsSoundFloor n self.old → IsSoundFloor n self.new }
    {
        self.parties[usize::from(agent) - 1].silence();
    }

    // The value of a stock is shifted by so much more.
    fn shift(&mut self, stock: StockNo, offset: i64)
        requires stock { stock < length self.old.offsets }
        requires step { is_near_zero 2000000000 offset ≡ true }
        requires near { is_near_zero (2 ^ 62) (offset_at self.old stock) ≡ true }
        ensures floor { self.new ≡ with_offset stock (offset_at self.old stock +ℤ offset) self.old }
        ensures sound { (n : ℕ) → IsSoundFloor n self.old → IsSoundFloor n self.new }
    {
        self.offsets[usize::from(stock)] += offset;
    }

    /// Makes an edit at a time, in nanoseconds past midnight, and gives its feed. Edits of latencies and injected
    /// messages leave the floor as it is.
    ///
    /// # Errors
    /// Want of memory alone. The floor is then as it was.
    pub fn edit(&mut self, alloc: Global, time: Time, edit: &Edit) -> Result<FeedList, Memory>
        requires { IsEdit self.old edit.now }
        ensures floor { OnOk result (self.new ≡ (edited_floor time edit.now self.old).floor) }
        ensures feed { IfOk result (λ l. l.list ≡ (edited_floor time edit.now self.old).feed) }
        ensures times { IfOk result (λ l. All (λ f. f.time ≡ time) l.list) }
        ensures sound { (n : ℕ) → IsSoundFloor n self.old → IsSoundFloor n self.new }
        ensures stocks { length self.new.exchange.stocks ≡ length self.old.exchange.stocks }
        ensures traders { length self.new.parties ≡ length self.old.parties }
        ensures refused { OnErr result (self.new ≡ self.old) }
    {
        match edit {
            Edit::Tick { stock, table } => {
                let Ok(table) = table.copy(alloc) else {
                    return Err(Memory);
                };
                self.change_once(alloc, time, *stock, Change::Tick(table))
            }
            Edit::Fee { stock, fees } => self.change_once(alloc, time, *stock, Change::Fee(*fees)),
            Edit::Halt { stock } => self.change_once(alloc, time, *stock, Change::Halt),
            Edit::Resume { stock } => self.change_once(alloc, time, *stock, Change::Resume),
            Edit::Agent { agent, name, value } => {
                self.set(*agent, *name, *value);
                Ok(FeedList::new(alloc))
            }
            Edit::Silence { agent } => {
                self.silence(*agent);
                Ok(FeedList::new(alloc))
            }
            Edit::Series { stock, offset } => {
                self.shift(*stock, *offset);
                Ok(FeedList::new(alloc))
            }
            Edit::Latency { .. } | Edit::Inject { .. } => Ok(FeedList::new(alloc)),
        }
    }
}
