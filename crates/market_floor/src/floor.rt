//! The floor: its opening, its copies and its readers.

ghost use Rattle.std.specs.Prelude.{◌≡◌, ◌<◌, ◌≤◌, All, IfOk, length, map};
ghost use Rattle.agent_shell.specs.Trader.{told_of};
ghost use Rattle.market_floor.specs.Opening.{IsOpening};
ghost use Rattle.market_floor.specs.Floor.{floor_at_opening, offset_at, parties_from, party_at};
ghost use Rattle.market_floor.specs.Sound.{FitsFloor, IsSoundFloor, IsSoundParty};

use crate::{Opening, Party};
use agent_shell::TraderSetting;
use exchange_agent::Exchange;
use market_types::{AgentNo, Memory, StockNo, TraderTold, copied};
use std::alloc::Global;
use std::marker::Model;

/// The exchange, the traders from agent 1 on, and the offset of each stock's value.
#[derive(Drop)]
pub struct Floor {
    pub(crate) exchange: Exchange,
    pub(crate) parties: Vec<Party>,
    pub(crate) offsets: Vec<i64>,
}

impl Model for Floor {
    ghost use Rattle.market_floor.specs.Floor.{FloorState};

    ghost Value = { FloorState };

    ghost view = { λ f. record { exchange = f.exchange; parties = f.parties.items; offsets = f.offsets.items } };
}

// The cash of each trader, in millionths of a dollar.
fn cash_of(alloc: Global, traders: &[TraderSetting]) -> Result<Vec<i64>, Memory>
    ensures { IfOk result (λ v. v.items ≡ map (λ s. s.cash) traders.now) }
{
    let cash = traders.iter().map(|setting| setting.cash).collect(alloc)?;
    Ok(cash)
}

// The traders at the opening, from agent 1 on.
fn open_all(alloc: Global, o: &Opening) -> Result<Vec<Party>, Memory>
    requires { IsOpening o.now }
    ensures value { IfOk result (λ v. v.items ≡ parties_from 1 o.now.traders) }
    ensures sound { IfOk result (λ v. All (IsSoundParty (length o.now.stocks) 0) v.items) }
{
    let mut parties = Vec::new(alloc);
    for (i, setting) in o.traders.as_slice().iter().enumerate() {
        let Ok(party) = Party::open(alloc, i as u16 + 1, setting) else {
            drop(parties);
            return Err(Memory);
        };
        let Ok(()) = parties.push(party) else {
            drop(parties);
            return Err(Memory);
        };
    }
    Ok(parties)
}

// Equal traders.
fn copy_all(alloc: Global, parties: &[Party]) -> Result<Vec<Party>, Memory>
    ensures { IfOk result (λ v. v.items ≡ parties.now) }
{
    let mut copies = Vec::new(alloc);
    for party in parties {
        let Ok(copy) = party.copy() else {
            drop(copies);
            return Err(Memory);
        };
        let Ok(()) = copies.push(copy) else {
            drop(copies);
            return Err(Memory);
        };
    }
    Ok(copies)
}

impl Floor {
    /// The floor before the first event.
    ///
    /// # Errors
    /// Want of memory alone.
    pub fn open(alloc: Global, o: &Opening) -> Result<Floor, Memory>
        requires { IsOpening o.now }
        ensures value { IfOk result (λ f. f ≡ floor_at_opening o.now) }
        ensures sound { IfOk result (λ f. IsSoundFloor 0 f) }
        ensures fits { IfOk result (λ f. FitsFloor o.now f) }
    {
        let cash = cash_of(alloc, o.traders.as_slice())?;
        let exchange = Exchange::open(alloc, o.stocks.as_slice(), cash.as_slice(), o.hidden)?;
        let Ok(parties) = open_all(alloc, o) else {
            drop(exchange);
            return Err(Memory);
        };
        let Ok(offsets) = vec![in alloc; 0i64; o.stocks.len()] else {
            drop(exchange);
            drop(parties);
            return Err(Memory);
        };
        Ok(Floor {
            exchange,
            parties,
            offsets,
        })
    }

    /// An equal floor.
    ///
    /// # Errors
    /// Want of memory alone.
    pub fn copy(&self, alloc: Global) -> Result<Floor, Memory>
        ensures { IfOk result (λ f. f ≡ self.now) }
    {
        let exchange = self.exchange.copy(alloc)?;
        let Ok(parties) = copy_all(alloc, self.parties.as_slice()) else {
            drop(exchange);
            return Err(Memory);
        };
        let Ok(offsets) = copied(alloc, self.offsets.as_slice()) else {
            drop(exchange);
            drop(parties);
            return Err(Memory);
        };
        Ok(Floor {
            exchange,
            parties,
            offsets,
        })
    }

    /// The exchange.
    pub fn exchange(&self) -> &Exchange
        ensures { result.now ≡ self.now.exchange }
    {
        &self.exchange
    }

    /// How many traders there are.
    pub fn traders(&self) -> usize
        ensures { result ≡ length self.now.parties }
    {
        self.parties.len()
    }

    /// What a trader tells of itself.
    pub fn trader(&self, agent: AgentNo) -> TraderTold
        requires trader { 1 ≤ agent }
        requires exists { agent ≤ length self.now.parties }
        ensures { result ≡ told_of (party_at self.now agent).trader }
    {
        self.parties[usize::from(agent) - 1].told()
    }

    /// Whether a trader is silenced.
    pub fn silenced(&self, agent: AgentNo) -> bool
        requires trader { 1 ≤ agent }
        requires exists { agent ≤ length self.now.parties }
        ensures { result ≡ (party_at self.now agent).silent }
    {
        self.parties[usize::from(agent) - 1].is_silent()
    }

    /// The offset of a stock's value, with four implied decimals.
    pub fn offset(&self, stock: StockNo) -> i64
        requires { stock < length self.now.offsets }
        ensures { result ≡ offset_at self.now stock }
    {
        self.offsets[usize::from(stock)]
    }
}
