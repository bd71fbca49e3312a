//! Momentum and makers.

ghost use Rattle.std.specs.Prelude.{◌≡◌, ◌<◌, ◌≤◌, ◌++◌, [], length, OnOk, OnErr};
ghost use Rattle.agent_shell.specs.Decide.{chosen};
ghost use Rattle.agent_shell.specs.Maker.{maker_choice};
ghost use Rattle.agent_shell.specs.Momentum.{momentum_choice};
ghost use Rattle.agent_shell.specs.Parts.{trader_of};
ghost use Rattle.agent_shell.specs.Sight.{sight_of};
ghost use Rattle.agent_shell.specs.Sound.{IsOwn};
ghost use Rattle.quoter_agents.specs.Levels.{IsLevels};

use crate::history::History;
use crate::levels::{centre_of, has_both, middle, quote_levels};
use crate::momentum::momentum_wish;
use agent_shell::{Levels, Parts, Sends, make_room, send};
use market_rules::View;
use market_types::{Memory, Quote};

/// What momentum does with a quote of a stock that trades, but for its count of quotes.
///
/// # Errors
/// Want of memory alone. The trader and the list are then as they were.
pub fn follow(
    parts: &mut Parts,
    past: &mut History,
    view: &View,
    quote: &Quote,
    size: u32,
    short: u32,
    long: u32,
    out: &mut Sends,
) -> Result<(), Memory>
    requires sound { IsOwn parts.old.shell.orders }
    requires tokens { parts.old.shell.orders.tokens ≤ 900000000 }
    requires size { 0 < size }
    requires short { short < long }
    requires long { long ≤ 64 }
    requires past { length past.old ≤ long }
    ensures orders { OnOk result (parts.new.shell.orders ≡ (chosen (sight_of view.now) (trader_of past.old parts.old) (momentum_choice (trader_of past.old parts.old) quote.now size short long)).trader.orders) }
    ensures past { OnOk result (past.new ≡ (momentum_choice (trader_of past.old parts.old) quote.now size short long).past) }
    ensures sends { OnOk result (out.new.list ≡ out.old.list ++ (chosen (sight_of view.now) (trader_of past.old parts.old) (momentum_choice (trader_of past.old parts.old) quote.now size short long)).sends) }
    ensures own { IsOwn parts.new.shell.orders }
    ensures kept { length past.new ≤ long }
    ensures setting { parts.new.setting ≡ parts.old.setting }
    ensures stream { parts.new.stream ≡ parts.old.stream }
    ensures agent { parts.new.shell.orders.agent ≡ parts.old.shell.orders.agent }
    ensures draws { parts.new.draws ≡ parts.old.draws }
    ensures quotes { parts.new.quotes ≡ parts.old.quotes }
    ensures unmoved { OnErr result (parts.new.shell.orders ≡ parts.old.shell.orders) }
    ensures unmoved_past { OnErr result (past.new ≡ past.old) }
    ensures nothing_sent { OnErr result (out.new.list ≡ out.old.list) }
{
    if has_both(quote) {
        make_room(&mut parts.shell, 1, out)?;
        past.remember(long, middle(quote))?;
        if let Some(wish) = momentum_wish(quote, size, short, long, past.as_slice()) {
            send(&mut parts.shell, view.symbol, wish, out);
        }
    }
    Ok(())
}

/// What a maker does with a quote of a stock that trades, but for its count of quotes.
///
/// # Errors
/// Want of memory alone. The trader and the list are then as they were.
pub fn make(
    parts: &mut Parts,
    view: &View,
    quote: &Quote,
    levels: &Levels,
    count: u32,
    out: &mut Sends,
) -> Result<(), Memory>
    requires sound { IsOwn parts.old.shell.orders }
    requires tokens { parts.old.shell.orders.tokens ≤ 900000000 }
    requires levels { IsLevels levels.now }
    requires count { count ≤ 8 }
    ensures orders { OnOk result (parts.new.shell.orders ≡ (chosen (sight_of view.now) (trader_of [] parts.old) (maker_choice (sight_of view.now) (trader_of [] parts.old) quote.now count levels.now)).trader.orders) }
    ensures sends { OnOk result (out.new.list ≡ out.old.list ++ (chosen (sight_of view.now) (trader_of [] parts.old) (maker_choice (sight_of view.now) (trader_of [] parts.old) quote.now count levels.now)).sends) }
    ensures own { IsOwn parts.new.shell.orders }
    ensures setting { parts.new.setting ≡ parts.old.setting }
    ensures stream { parts.new.stream ≡ parts.old.stream }
    ensures agent { parts.new.shell.orders.agent ≡ parts.old.shell.orders.agent }
    ensures draws { parts.new.draws ≡ parts.old.draws }
    ensures quotes { parts.new.quotes ≡ parts.old.quotes }
    ensures unmoved { OnErr result (parts.new.shell.orders ≡ parts.old.shell.orders) }
    ensures nothing_sent { OnErr result (out.new.list ≡ out.old.list) }
{
    make_room(&mut parts.shell, 2 * count as usize, out)?;
    let centre = centre_of(quote, view.value);
    quote_levels(&mut parts.shell, view, levels, count, centre, out);
    Ok(())
}
