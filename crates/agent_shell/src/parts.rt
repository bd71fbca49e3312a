//! The parts of a trader that all kinds share.

ghost use Rattle.std.specs.Prelude.{◌≡◌, ◌<◌, ◌≤◌, ◌+◌, ◌-◌, ◌^◌, ◌++◌, if◌then◌else◌, [], IfOk, OnOk, OnErr, length, map};
ghost use Rattle.agent_shell.specs.Decide.{woken};
ghost use Rattle.agent_shell.specs.Trader.{told_of, trader_at_opening, trader_word};
ghost use Rattle.agent_shell.specs.Wakeup.{cancel_of, takes_back, next_wakeup};
ghost use Rattle.agent_shell.specs.Own.{OwnList};
ghost use Rattle.agent_shell.specs.Parameters.{IsSetting};
ghost use Rattle.agent_shell.specs.Parts.{trader_of};
ghost use Rattle.agent_shell.specs.Shell.{IsModest};
ghost use Rattle.agent_shell.specs.Sight.{sight_of};
ghost use Rattle.agent_shell.specs.Sound.{IsTrader};

use crate::sending::{Sending, Sends};
use crate::setting::{Kind, TraderSetting};
use crate::shell::Shell;
use draw_streams::{Stream, below};
use market_rules::View;
use market_types::{AgentNo, Body, Cancel, Inbound, Memory, Time, TraderTold};
use std::alloc::Global;

/// The parameters, the orders and the counters of a trader.
#[derive(Drop)]
pub struct Parts {
    pub setting: TraderSetting,
    pub shell: Shell,
    /// The stream of its random words.
    pub stream: Stream,
    /// Random draws made.
    pub draws: u64,
    /// Quotes heard.
    pub quotes: u32,
}

// Whether a kind takes its open orders back when it wakes.
fn takes_back(kind: &Kind) -> bool
    ensures { (own : OwnList) → takes_back kind.now own ≡ if result then own else [] }
{
    match kind {
        Kind::Value { .. } | Kind::Maker { .. } => true,
        Kind::Watcher | Kind::Noise { .. } | Kind::Momentum { .. } => false,
    }
}

// Takes the open orders back, the first sent first.
fn take_back(shell: &Shell, out: &mut Sends)
    requires { length shell.now.orders.own ≤ out.old.spare }
    ensures sends { out.new.list ≡ out.old.list ++ map (λ e. cancel_of e.0) shell.now.orders.own }
    ensures room { out.old.spare ≤ out.new.spare + length shell.now.orders.own }
{
    for i in 0..shell.open_len() {
        match shell.open_token(i) {
            Some(token) => out.put(Sending::To {
                body: Body::Order(Inbound::Cancel(Cancel { token, shares: 0 })),
                extra: 0,
            }),
            None => unreachable!(),
        }
    }
}

impl Parts {
    /// The parts at the opening.
    pub fn open(alloc: Global, agent: AgentNo, setting: &TraderSetting) -> Result<Parts, Memory>
        ensures value { IfOk result (λ p. trader_of [] p ≡ trader_at_opening agent setting.now) }
        ensures stream { IfOk result (λ p. p.stream ≡ p.shell.orders.agent) }
    {
        let shell = Shell::open(alloc, agent, setting.cash)?;
        Ok(Parts {
            setting: *setting,
            shell,
            stream: Stream::new(u64::from(agent)),
            draws: 0,
            quotes: 0,
        })
    }

    /// The word of the draw at a place.
    pub fn word(&mut self, view: &View, place: u64) -> u32
        requires { self.old.stream ≡ self.old.shell.orders.agent }
        ensures value { result ≡ trader_word (sight_of view.now) (trader_of [] self.old) place }
        ensures same { self.new ≡ self.old }
    {
        self.stream.draw(view.key, place)
    }

    // When the trader wakes next.
    fn next_wakeup(&mut self, view: &View) -> Time
        requires time { view.now.time < 2 ^ 62 }
        requires every { self.old.setting.every ≤ 3600000000000 }
        requires stream { self.old.stream ≡ self.old.shell.orders.agent }
        ensures value { result ≡ next_wakeup (sight_of view.now) (trader_of [] self.old) }
        ensures same { self.new ≡ self.old }
    {
        let wobble = self.setting.wobble;
        let word = self.word(view, self.draws);
        view.time + self.setting.every + u64::from(below(word, u64::from(wobble) + 1))
    }

    /// What a trader does when it wakes.
    pub fn wake(&mut self, view: &View, out: &mut Sends) -> Result<(), Memory>
        requires time { view.now.time < 2 ^ 62 }
        requires draws { self.old.draws < 2 ^ 62 }
        requires sound { IsTrader (trader_of [] self.old) }
        requires stream { self.old.stream ≡ self.old.shell.orders.agent }
        ensures trader { OnOk result (trader_of [] self.new ≡ (woken (sight_of view.now) (trader_of [] self.old)).trader) }
        ensures sends { OnOk result (out.new.list ≡ out.old.list ++ (woken (sight_of view.now) (trader_of [] self.old)).sends) }
        ensures unmoved { OnErr result (trader_of [] self.new ≡ trader_of [] self.old) }
        ensures sound { IsTrader (trader_of [] self.new) }
        ensures nothing_sent { OnErr result (out.new.list ≡ out.old.list) }
        ensures setting { self.new.setting ≡ self.old.setting }
        ensures stream { self.new.stream ≡ self.new.shell.orders.agent }
    {
        out.reserve(self.shell.open_len() + 2)?;
        if takes_back(&self.setting.kind) {
            take_back(&self.shell, out);
        }
        out.put(Sending::To {
            body: Body::Ask(self.setting.stock),
            extra: 0,
        });
        out.put(Sending::WakeAt(self.next_wakeup(view)));
        self.draws += 1;
        Ok(())
    }

    /// What the trader tells of itself.
    pub fn told(&self) -> TraderTold
        requires { length self.now.shell.orders.own ≤ 64 }
        ensures { result ≡ told_of (trader_of [] self.now) }
    {
        TraderTold {
            tokens: self.shell.tokens(),
            draws: self.draws,
            account: self.shell.account(),
            live: self.shell.open_len() as u16,
            quotes: self.quotes,
        }
    }

    /// Equal parts.
    pub fn copy(&self) -> Result<Parts, Memory>
        requires { self.now.stream ≡ self.now.shell.orders.agent }
        ensures value { IfOk result (λ p. trader_of [] p ≡ trader_of [] self.now) }
        ensures stream { IfOk result (λ p. p.stream ≡ p.shell.orders.agent) }
    {
        let shell = self.shell.copy()?;
        Ok(Parts {
            setting: self.setting,
            shell,
            stream: self.stream.copy(),
            draws: self.draws,
            quotes: self.quotes,
        })
    }
}
