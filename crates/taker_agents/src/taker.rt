//! Watchers, noise traders and traders on value.

ghost use Rattle.std.specs.Prelude.{◌≡◌, ◌<◌, ◌≤◌, ◌^◌, ◌++◌, [], OnOk, OnErr};
ghost use Rattle.agent_shell.specs.Decide.{choice_of, chosen};
ghost use Rattle.agent_shell.specs.Parameters.{IsKind};
ghost use Rattle.agent_shell.specs.Parts.{trader_of};
ghost use Rattle.agent_shell.specs.Sight.{sight_of};
ghost use Rattle.agent_shell.specs.Sound.{IsOwn};
ghost use Rattle.taker_agents.specs.Taker.{IsTakerKind};

use crate::choice::choice_of;
use agent_shell::{Parts, Sends, make_room, send};
use market_rules::View;
use market_types::{Memory, Quote};

/// What a taker does with a quote of a stock that trades, but for its count of quotes.
///
/// # Errors
/// Want of memory alone. The trader and the list are then as they were.
pub fn take(parts: &mut Parts, view: &View, quote: &Quote, out: &mut Sends) -> Result<(), Memory>
    requires sound { IsOwn parts.old.shell.orders }
    requires kind { IsKind parts.old.setting.kind }
    requires taker { IsTakerKind parts.old.setting.kind }
    requires stream { parts.old.stream ≡ parts.old.shell.orders.agent }
    requires tokens { parts.old.shell.orders.tokens ≤ 900000000 }
    requires draws { parts.old.draws < 2 ^ 62 }
    ensures orders { OnOk result (parts.new.shell.orders ≡ (chosen (sight_of view.now) (trader_of [] parts.old) (choice_of (sight_of view.now) (trader_of [] parts.old) quote.now)).trader.orders) }
    ensures draws { OnOk result (parts.new.draws ≡ (chosen (sight_of view.now) (trader_of [] parts.old) (choice_of (sight_of view.now) (trader_of [] parts.old) quote.now)).trader.draws) }
    ensures sends { OnOk result (out.new.list ≡ out.old.list ++ (chosen (sight_of view.now) (trader_of [] parts.old) (choice_of (sight_of view.now) (trader_of [] parts.old) quote.now)).sends) }
    ensures own { IsOwn parts.new.shell.orders }
    ensures setting { parts.new.setting ≡ parts.old.setting }
    ensures stream { parts.new.stream ≡ parts.old.stream }
    ensures agent { parts.new.shell.orders.agent ≡ parts.old.shell.orders.agent }
    ensures quotes { parts.new.quotes ≡ parts.old.quotes }
    ensures unmoved { OnErr result (parts.new.shell.orders ≡ parts.old.shell.orders) }
    ensures undrawn { OnErr result (parts.new.draws ≡ parts.old.draws) }
    ensures nothing_sent { OnErr result (out.new.list ≡ out.old.list) }
{
    let choice = choice_of(parts, view, quote);
    if let Some(wish) = choice.wish {
        let Ok(()) = make_room(&mut parts.shell, 1, out) else {
            return Err(Memory);
        };
        send(&mut parts.shell, view.symbol, wish, out);
    }
    parts.draws += choice.draws;
    Ok(())
}
