//! A maker's levels.

ghost use Rattle.std.specs.Prelude.{◌≡◌, ◌<◌, ◌≤◌, ◌+◌, ◌*◌, ◌^◌, ◌++◌, pos, ◌≤ℤ◌};
ghost use Rattle.agent_shell.specs.Choice.{has_both, middle};
ghost use Rattle.agent_shell.specs.Maker.{buy_at, sell_at, centre_of, distance_of, levels_from};
ghost use Rattle.agent_shell.specs.Ordered.{all_ordered};
ghost use Rattle.agent_shell.specs.Sight.{sight_of};
ghost use Rattle.agent_shell.specs.Sound.{IsOwn};
ghost use Rattle.quoter_agents.specs.Levels.{IsLevels};

use agent_shell::{Levels, Sends, Shell, Wish, send};
use market_rules::View;
use market_types::{Quote, Side, Time};

/// Whether both sides of a quote are there.
pub fn has_both(quote: &Quote) -> bool
    ensures { result ≡ has_both quote.now }
{
    quote.bid != 0 && quote.ask != 0
}

/// The middle of both sides.
pub fn middle(quote: &Quote) -> u32
    ensures { result ≡ middle quote.now }
{
    ((u64::from(quote.bid) + u64::from(quote.ask)) / 2) as u32
}

/// A maker's centre.
pub fn centre_of(quote: &Quote, value: u32) -> u32
    ensures { result ≡ centre_of quote.now value }
{
    if has_both(quote) {
        middle(quote)
    } else if quote.last == 0 {
        value
    } else {
        quote.last
    }
}

// A level's steps from the nearest one.
fn steps_of(step: u32, i: u32) -> u64
    requires step { step ≤ 1000000000 }
    requires level { i < 8 }
    ensures value { result ≡ i * step }
    ensures high { result ≤ 7000000000 }
{
    u64::from(i) * u64::from(step)
}

// How far a level is from the centre.
fn distance_of(levels: &Levels, i: u32) -> i64
    requires levels { IsLevels levels.now }
    requires level { i < 8 }
    ensures value { result ≡ pos (distance_of levels.now i) }
    ensures high { result ≤ℤ pos 8000000000 }
{
    (u64::from(levels.half) + steps_of(levels.step, i)) as i64
}

fn extra_of(levels: &Levels, i: u32) -> Time
    requires levels { IsLevels levels.now }
    requires level { i < 8 }
    ensures { result ≡ i * levels.now.pause }
{
    u64::from(i) * levels.pause
}

fn buy_at(levels: &Levels, view: &View, centre: u32, i: u32) -> Wish
    requires levels { IsLevels levels.now }
    requires level { i < 8 }
    ensures value { result ≡ buy_at levels.now (sight_of view.now).bands centre i }
    ensures shares { 0 < result.shares }
{
    Wish {
        side: Side::Buy,
        shares: levels.size,
        price: view.ticks.down(i64::from(centre) - distance_of(levels, i)),
        tif: 99_999,
        extra: extra_of(levels, i),
    }
}

fn sell_at(levels: &Levels, view: &View, centre: u32, i: u32) -> Wish
    requires levels { IsLevels levels.now }
    requires level { i < 8 }
    ensures value { result ≡ sell_at levels.now (sight_of view.now).bands centre i }
    ensures shares { 0 < result.shares }
{
    Wish {
        side: Side::Sell,
        shares: levels.size,
        price: view.ticks.up(i64::from(centre) + distance_of(levels, i)),
        tif: 99_999,
        extra: extra_of(levels, i),
    }
}

/// Sends the orders of so many levels, the nearest first, each with its buy and then its sell.
pub fn quote_levels(
    shell: &mut Shell,
    view: &View,
    levels: &Levels,
    count: u32,
    centre: u32,
    out: &mut Sends,
)
    requires own { IsOwn shell.old.orders }
    requires tokens { shell.old.orders.tokens ≤ 900000000 }
    requires levels { IsLevels levels.now }
    requires count { count ≤ 8 }
    requires places { 2 * count ≤ shell.old.spare }
    requires room { 2 * count ≤ out.old.spare }
    ensures orders { shell.new.orders ≡ (all_ordered (sight_of view.now).symbol (levels_from levels.now (sight_of view.now).bands centre 0 count) shell.old.orders).orders }
    ensures sends { out.new.list ≡ out.old.list ++ (all_ordered (sight_of view.now).symbol (levels_from levels.now (sight_of view.now).bands centre 0 count) shell.old.orders).sends }
    ensures own { IsOwn shell.new.orders }
    ensures agent { shell.new.orders.agent ≡ shell.old.orders.agent }
{
    for i in 0..count {
        send(shell, view.symbol, buy_at(levels, view, centre, i), out);
        send(shell, view.symbol, sell_at(levels, view, centre, i), out);
    }
}
