//! A trader of any kind.

ghost use Rattle.std.specs.Prelude.{◌≡◌, ◌<◌, ◌≤◌, ◌+◌, ◌++◌, ◌^◌, ℕ, true, IfOk, OnOk, OnErr};
ghost use Rattle.agent_shell.specs.Bounds.{AreSendings, IsAfter};
ghost use Rattle.agent_shell.specs.Decide.{choice_of, chosen, quoted};
ghost use Rattle.agent_shell.specs.Parameters.{IsOwnParam, IsSetting};
ghost use Rattle.agent_shell.specs.Parts.{trader_of};
ghost use Rattle.agent_shell.specs.Sight.{sight_of};
ghost use Rattle.agent_shell.specs.Sound.{IsOwn, IsTrader};
ghost use Rattle.agent_shell.specs.Trader.{IsReady, told_of, trader_at_opening, trader_with};
ghost use Rattle.market_floor.specs.Party.{party_at_opening, reacted, with_trader};
ghost use Rattle.market_floor.specs.Past.{IsPast};

use agent_shell::laws::traders_stay_in_range;
use agent_shell::{Kind, Levels, Parts, Sends, TraderSetting};
use market_rules::{Param, View};
use market_types::{AgentNo, Body, Memory, Quote, StockNo, Time, TraderTold};
use quoter_agents::{History, follow, make};
use std::alloc::Global;
use std::marker::Model;
use taker_agents::take;

/// A trader, and whether it is silenced: it then takes replies, and nothing else moves it.
#[derive(Drop)]
pub struct Party {
    parts: Parts,
    past: History,
    silent: bool,
}

impl Model for Party {
    ghost use Rattle.std.specs.Prelude.{◌≡◌};
    ghost use Rattle.agent_shell.specs.Parts.{trader_of};
    ghost use Rattle.agent_shell.specs.Sound.{IsTrader};
    ghost use Rattle.market_floor.specs.Party.{PartyState};
    ghost use Rattle.market_floor.specs.Past.{IsPast};

    ghost Value = { PartyState };

    ghost view = { λ p. record { trader = trader_of p.past p.parts; silent = p.silent } };

    ghost invariant = { λ p. record {
      sound : IsTrader (trader_of p.past p.parts);
      past : IsPast p.parts.setting.kind p.past;
      stream : p.parts.stream ≡ p.parts.shell.orders.agent;
    } };
}

// What a trader does with a quote of a stock that trades, but for its count of quotes.
fn trade_on(
    parts: &mut Parts,
    past: &mut History,
    view: &View,
    quote: &Quote,
    out: &mut Sends,
) -> Result<(), Memory>
    requires sound { IsTrader (trader_of past.old parts.old) }
    requires past { IsPast parts.old.setting.kind past.old }
    requires stream { parts.old.stream ≡ parts.old.shell.orders.agent }
    requires ready { IsReady (trader_of past.old parts.old) }
    ensures orders { OnOk result (parts.new.shell.orders ≡ (chosen (sight_of view.now) (trader_of past.old parts.old) (choice_of (sight_of view.now) (trader_of past.old parts.old) quote.now)).trader.orders) }
    ensures draws { OnOk result (parts.new.draws ≡ (chosen (sight_of view.now) (trader_of past.old parts.old) (choice_of (sight_of view.now) (trader_of past.old parts.old) quote.now)).trader.draws) }
    ensures middles { OnOk result (past.new ≡ (choice_of (sight_of view.now) (trader_of past.old parts.old) quote.now).past) }
    ensures sends { OnOk result (out.new.list ≡ out.old.list ++ (chosen (sight_of view.now) (trader_of past.old parts.old) (choice_of (sight_of view.now) (trader_of past.old parts.old) quote.now)).sends) }
    ensures own { IsOwn parts.new.shell.orders }
    ensures past { IsPast parts.old.setting.kind past.new }
    ensures setting { parts.new.setting ≡ parts.old.setting }
    ensures stream { parts.new.stream ≡ parts.new.shell.orders.agent }
    ensures quotes { parts.new.quotes ≡ parts.old.quotes }
    ensures unmoved { OnErr result (trader_of past.new parts.new ≡ trader_of past.old parts.old) }
    ensures nothing_sent { OnErr result (out.new.list ≡ out.old.list) }
{
    match parts.setting.kind {
        Kind::Watcher | Kind::Noise { .. } | Kind::Value { .. } => take(parts, view, quote, out),
        Kind::Momentum { size, short, long } => {
            follow(parts, past, view, quote, size, short, long, out)
        }
        Kind::Maker {
            size,
            half,
            step,
            levels,
            pause,
        } => {
            let each = Levels {
                size,
                half,
                step,
                pause,
            };
            make(parts, view, quote, &each, levels, out)
        }
    }
}

// What a trader does with a quote.
fn take_quote(
    parts: &mut Parts,
    past: &mut History,
    view: &View,
    quote: &Quote,
    out: &mut Sends,
) -> Result<(), Memory>
    requires sound { IsTrader (trader_of past.old parts.old) }
    requires past { IsPast parts.old.setting.kind past.old }
    requires stream { parts.old.stream ≡ parts.old.shell.orders.agent }
    requires ready { IsReady (trader_of past.old parts.old) }
    ensures trader { OnOk result (trader_of past.new parts.new ≡ (quoted (sight_of view.now) (trader_of past.old parts.old) quote.now).trader) }
    ensures sends { OnOk result (out.new.list ≡ out.old.list ++ (quoted (sight_of view.now) (trader_of past.old parts.old) quote.now).sends) }
    ensures sound { IsTrader (trader_of past.new parts.new) }
    ensures past { IsPast parts.new.setting.kind past.new }
    ensures stream { parts.new.stream ≡ parts.new.shell.orders.agent }
    ensures unmoved { OnErr result (trader_of past.new parts.new ≡ trader_of past.old parts.old) }
    ensures nothing_sent { OnErr result (out.new.list ≡ out.old.list) }
{
    if quote.state == b'T' {
        trade_on(parts, past, view, quote, out)?;
    }
    parts.quotes += 1;
    Ok(())
}

impl Party {
    /// The trader of this number at the opening, with no draw made. It isn't silenced.
    ///
    /// # Errors
    /// Want of memory alone.
    pub fn open(alloc: Global, agent: AgentNo, setting: &TraderSetting) -> Result<Party, Memory>
        requires agent { agent ≤ 511 }
        requires setting { IsSetting setting.now }
        ensures value { IfOk result (λ p. p ≡ party_at_opening agent setting.now) }
        ensures fresh { IfOk result (λ p. IsAfter 0 p.trader) }
    {
        let parts = Parts::open(alloc, agent, setting)?;
        Ok(Party {
            parts,
            past: History::new(alloc),
            silent: false,
        })
    }

    /// What the trader does with a message. The sendings are put behind those of `out`. A silenced trader takes
    /// replies, and does nothing with any other message.
    ///
    /// # Errors
    /// Want of memory alone. The trader and the list are then as they were.
    pub fn react(&mut self, view: &View, body: &Body, out: &mut Sends) -> Result<(), Memory>
        requires time { view.now.time < 2 ^ 62 }
        requires few { IsAfter 1000000 self.old.trader }
        ensures state { OnOk result (self.new ≡ with_trader (reacted (sight_of view.now) self.old body.now).trader self.old) }
        ensures sends { OnOk result (out.new.list ≡ out.old.list ++ (reacted (sight_of view.now) self.old body.now).sends) }
        ensures refused { OnErr result (self.new ≡ self.old) }
        ensures nothing_sent { OnErr result (out.new.list ≡ out.old.list) }
        ensures sendings { AreSendings (sight_of view.now) self.old.trader (reacted (sight_of view.now) self.old body.now).sends }
        ensures setting { self.new.trader.setting ≡ self.old.trader.setting }
        ensures after { (n : ℕ) → IsAfter n self.old.trader → IsAfter (n + 1) self.new.trader }
    {
        traders_stay_in_range();
        match body {
            Body::Answer(reply) => {
                self.parts.shell.take_reply(reply);
                Ok(())
            }
            Body::Wake if !self.silent => self.parts.wake(view, out),
            Body::Quote(quote) if !self.silent => take_quote(
                &mut self.parts,
                &mut self.past,
                view,
                quote,
                out,
            ),
            Body::Wake | Body::Quote(_) | Body::Order(_) | Body::Ask(_) => Ok(()),
        }
    }

    /// Replaces one parameter.
    pub fn set(&mut self, name: Param, value: u64)
        requires { IsOwnParam self.old.trader.setting.kind name value }
        ensures value { self.new ≡ with_trader (trader_with name value self.old.trader) self.old }
        ensures stock { self.new.trader.setting.stock ≡ self.old.trader.setting.stock }
        ensures after { (n : ℕ) → IsAfter n self.old.trader → IsAfter n self.new.trader }
    {
        traders_stay_in_range();
        self.parts.setting = self.parts.setting.with(name, value);
    }

    /// The trader sends nothing from now on.
    pub fn silence(&mut self)
        ensures { self.new ≡ record self.old { silent = true } }
    {
        self.silent = true;
    }

    /// Whether the trader is silenced.
    pub fn is_silent(&self) -> bool
        ensures { result ≡ self.now.silent }
    {
        self.silent
    }

    /// The number of the trader's stock.
    pub fn stock(&self) -> StockNo
        ensures { result ≡ self.now.trader.setting.stock }
    {
        self.parts.setting.stock
    }

    /// The computation delay in nanoseconds.
    pub fn delay(&self) -> Time
        ensures value { result ≡ self.now.trader.setting.delay }
        ensures hour { result ≤ 3600000000000 }
    {
        self.parts.setting.delay
    }

    /// What the trader tells of itself.
    pub fn told(&self) -> TraderTold
        ensures value { result ≡ told_of self.now.trader }
        ensures few { result.live ≤ 64 }
    {
        self.parts.told()
    }

    /// An equal trader.
    ///
    /// # Errors
    /// Want of memory alone.
    pub fn copy(&self) -> Result<Party, Memory>
        ensures { IfOk result (λ p. p ≡ self.now) }
    {
        let parts = self.parts.copy()?;
        let Ok(past) = self.past.copy() else {
            drop(parts);
            return Err(Memory);
        };
        Ok(Party {
            parts,
            past,
            silent: self.silent,
        })
    }
}
