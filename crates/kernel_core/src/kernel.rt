//! The kernel: its copies and its readers.

ghost use Rattle.std.specs.Prelude.{◌≡◌, ◌<◌, ◌≤◌, ◌+◌, Some, None, IfOk, IfErr, OnOk, length, slice_index};
ghost use Rattle.std.specs.List.Sorted.{IsPermutation, IsSortedBy};
ghost use Rattle.market_types.specs.Limits.{last_time};
ghost use Rattle.agent_shell.specs.Trader.{told_of};
ghost use Rattle.event_queue.specs.InOrder.{in_order};
ghost use Rattle.event_queue.specs.Waiting.{before, least};
ghost use Rattle.market_floor.specs.Floor.{offset_at, party_at};
ghost use Rattle.kernel_core.specs.Step.{end_with};
ghost use Rattle.kernel_core.specs.Step.{end_of};

use crate::Mail;
use exchange_agent::Exchange;
use latency_model::Groups;
use market_floor::{Floor, Happening, Opening};
use market_types::{AgentNo, End, Memory, Message, StockNo, Time, TraderTold, copied};
use std::alloc::Global;
use std::marker::Model;

/// The state of a market between two events.
#[derive(Drop)]
pub struct Kernel {
    pub(crate) time: Time,
    pub(crate) events: u32,
    pub(crate) applied: usize,
    pub(crate) mail: Mail,
    pub(crate) own: Vec<Time>,
    pub(crate) floor: Floor,
    pub(crate) groups: Groups,
    // What happened in the last event that was delivered. It is used again at each, so that its lists keep their memory, and no
    // contract sees it.
    pub(crate) happening: Happening,
}

impl Model for Kernel {
    ghost use Rattle.kernel_core.specs.State.{State};
    ghost use Rattle.kernel_core.specs.Sound.{IsSound};
    ghost use Rattle.kernel_core.specs.View.{state_of};

    ghost Value = { State };

    ghost view = { state_of };

    ghost invariant = { λ k. IsSound (state_of k) };
}

/// The counters of the mail.
#[derive(Clone, Copy, PartialEq, Eq)]
pub struct KernelTold {
    /// The number of the next message that joins.
    pub next_seq: u64,
    /// How many messages wait.
    pub waiting: u32,
    /// How many messages were dropped at a full queue.
    pub dropped: u64,
}

// The message of the next event where so many stand, or why there is none.
pub(crate) fn next_of<'a>(mail: &'a Mail, events: u32, o: &Opening) -> Result<&'a Message, End>
    ensures least { IfOk result (λ m. least mail.now.waiting ≡ Some m.now) }
    ensures going { OnOk result (end_with o.now mail.now events ≡ None) }
    ensures ended { IfErr result (λ end. end_with o.now mail.now events ≡ Some end) }
{
    if mail.dropped() > 0 {
        return Err(End::QueueFull);
    }
    if events == o.limit {
        return Err(End::EventLimit);
    }
    match mail.least() {
        None => Err(End::Quiet),
        Some(m) => {
            if m.time > o.close {
                Err(End::Closed)
            } else {
                Ok(m)
            }
        }
    }
}

impl Kernel {
    /// An equal kernel.
    ///
    /// # Errors
    /// Want of memory alone.
    pub fn copy(&self, alloc: Global) -> Result<Kernel, Memory>
        ensures { IfOk result (λ k. k ≡ self.now) }
    {
        let mail = self.mail.copy(alloc)?;
        let Ok(own) = copied(alloc, self.own.as_slice()) else {
            drop(mail);
            return Err(Memory);
        };
        let Ok(floor) = self.floor.copy(alloc) else {
            drop(mail);
            return Err(Memory);
        };
        let Ok(groups) = self.groups.copy(alloc) else {
            drop(mail);
            drop(floor);
            return Err(Memory);
        };
        Ok(Kernel {
            time: self.time,
            events: self.events,
            applied: self.applied,
            mail,
            own,
            floor,
            groups,
            happening: Happening::new(alloc),
        })
    }

    /// How many events stand.
    pub fn events(&self) -> u32
        ensures { result ≡ self.now.events }
    {
        self.events
    }

    /// The time of the last event, in nanoseconds past midnight; the opening's start before the first.
    pub fn time(&self) -> Time
        ensures value { result ≡ self.now.time }
        ensures early { result ≤ last_time }
    {
        self.time
    }

    // The message of the next event, or why there is none.
    pub(crate) fn next(&self, o: &Opening) -> Result<&Message, End>
        ensures least { IfOk result (λ m. least self.now.post.waiting ≡ Some m.now) }
        ensures going { OnOk result (end_of o.now self.now ≡ None) }
        ensures ended { IfErr result (λ end. end_of o.now self.now ≡ Some end) }
    {
        next_of(&self.mail, self.events, o)
    }

    /// Why the state has no next event, if it has none.
    pub fn end(&self, o: &Opening) -> Option<End>
        ensures { result ≡ end_of o.now self.now }
    {
        match self.next(o) {
            Ok(_) => None,
            Err(end) => Some(end),
        }
    }

    /// The counters of the mail.
    pub fn counts(&self) -> KernelTold
        ensures next_seq { result.next_seq ≡ self.now.post.next_seq }
        ensures waiting { result.waiting ≡ length self.now.post.waiting }
        ensures dropped { result.dropped ≡ self.now.post.dropped }
    {
        KernelTold {
            next_seq: self.mail.next_seq(),
            waiting: self.mail.len(),
            dropped: self.mail.dropped(),
        }
    }

    /// How many agents there are: the exchange and the traders.
    pub fn agents(&self) -> AgentNo
        ensures own { result ≡ length self.now.own }
        ensures traders { result ≡ length self.now.floor.parties + 1 }
        ensures few { result ≤ 512 }
    {
        self.own.len() as AgentNo
    }

    /// An agent's own time, in nanoseconds past midnight: it is busy until then.
    pub fn own_time(&self, agent: AgentNo) -> Time
        requires { agent < length self.now.own }
        ensures { result ≡ slice_index self.now.own agent }
    {
        self.own[usize::from(agent)]
    }

    /// Whether a trader is silenced.
    pub fn silenced(&self, agent: AgentNo) -> bool
        requires trader { 1 ≤ agent }
        requires exists { agent ≤ length self.now.floor.parties }
        ensures { result ≡ (party_at self.now.floor agent).silent }
    {
        self.floor.silenced(agent)
    }

    /// What a trader tells of itself.
    pub fn trader(&self, agent: AgentNo) -> TraderTold
        requires trader { 1 ≤ agent }
        requires exists { agent ≤ length self.now.floor.parties }
        ensures { result ≡ told_of (party_at self.now.floor agent).trader }
    {
        self.floor.trader(agent)
    }

    /// The offset of a stock's value, with four implied decimals.
    pub fn offset(&self, stock: StockNo) -> i64
        requires { stock < length self.now.floor.exchange.stocks }
        ensures { result ≡ offset_at self.now.floor stock }
    {
        self.floor.offset(stock)
    }

    /// The exchange, which has an account for each trader.
    pub fn exchange(&self) -> &Exchange
        ensures value { result.now ≡ self.now.floor.exchange }
        ensures traders { length result.now.cash ≡ length self.now.floor.parties }
    {
        self.floor.exchange()
    }

    /// The waiting messages in order of time and then of number.
    ///
    /// # Errors
    /// Want of memory alone.
    pub fn messages(&self, alloc: Global) -> Result<Vec<Message>, Memory>
        ensures listed { IfOk result (λ v. v.items ≡ in_order self.now.post.waiting) }
        ensures same { IfOk result (λ v. IsPermutation self.now.post.waiting v.items) }
        ensures sorted { IfOk result (λ v. IsSortedBy before v.items) }
    {
        self.mail.messages(alloc)
    }
}
