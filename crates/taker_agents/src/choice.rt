//! What a trader makes of a quote of a stock that trades.

ghost use Rattle.std.specs.Prelude.{◌≡◌, ◌<◌, ◌≤◌, ◌+◌, ◌^◌, ◌==◌, ◌&&◌, not, nat_le, if◌then◌else◌, pos, ◌+ℤ◌, ◌-ℤ◌, ◌≤ℤ◌, Some, IfSome, [], ◌∷◌};
ghost use Rattle.market_types.specs.declared.order.Side.TheVariants.{Buy as buying, Sell as selling};
ghost use Rattle.market_rules.specs.Nearest.{down_of, up_of};
ghost use Rattle.agent_shell.specs.Choice.{day_order, wishes_of};
ghost use Rattle.agent_shell.specs.Decide.{choice_of};
ghost use Rattle.agent_shell.specs.Noise.{noise_wish, price_or};
ghost use Rattle.agent_shell.specs.Parameters.{IsKind};
ghost use Rattle.agent_shell.specs.Parts.{trader_of};
ghost use Rattle.agent_shell.specs.Sight.{sight_of};
ghost use Rattle.agent_shell.specs.Value.{clamped, guess_of, value_by};
ghost use Rattle.taker_agents.specs.Taker.{IsTakerKind};

use agent_shell::{Kind, Parts, Wish};
use draw_streams::{below, centred};
use market_rules::View;
use market_types::{HIGHEST_PRICE, Quote, Side};

/// How many draws a quote takes, and the order that it calls for.
#[derive(Clone, Copy)]
pub struct Choice {
    pub draws: u64,
    pub wish: Option<Wish>,
}

fn day_order(side: Side, shares: u32, price: i64) -> Wish
    ensures { result ≡ day_order side shares price 0 }
{
    Wish {
        side,
        shares,
        price,
        tif: 99_999,
        extra: 0,
    }
}

// The price of a side of a quote, or another where the side is absent.
fn price_or(quoted: u32, other: i64) -> i64
    ensures { result ≡ price_or quoted other }
{
    if quoted == 0 {
        other
    } else {
        i64::from(quoted)
    }
}

// The price nearest to a number.
fn clamped(price: i64) -> u32
    ensures value { result ≡ clamped price }
    ensures high { result ≤ 1999999900 }
{
    if price < 1 {
        1
    } else if price > i64::from(HIGHEST_PRICE) {
        HIGHEST_PRICE
    } else {
        price as u32
    }
}

// The value, off by as much as a word picks.
fn guess_of(value: u32, word: u32, noise: u32) -> u32
    requires { noise ≤ 1000000000 }
    ensures value { result ≡ guess_of value word noise }
    ensures high { result ≤ 1999999900 }
{
    clamped(i64::from(value) + centred(word, noise))
}

// A noise trader's order by a coin.
fn noise_wish(view: &View, quote: &Quote, coin: u32, shares: u32) -> Wish
    ensures value { result ≡ noise_wish (sight_of view.now) quote.now coin shares }
    ensures shares { result.shares ≡ shares }
{
    if coin == 0 {
        let value = view.ticks.down(i64::from(view.value));
        day_order(Side::Buy, shares, price_or(quote.ask, value))
    } else {
        let value = view.ticks.up(i64::from(view.value));
        day_order(Side::Sell, shares, price_or(quote.bid, value))
    }
}

fn with_wish(draws: u64, wish: Wish) -> Choice
    ensures { result ≡ record { draws = draws; wish = Some wish } }
{
    Choice {
        draws,
        wish: Some(wish),
    }
}

// Whether the ask is the margin or more below a guess.
fn is_cheap(ask: u32, margin: u32, guess: u32) -> bool
    ensures { result ≡ (not (ask == 0) && nat_le (ask + margin) guess) }
{
    let low = u64::from(ask) + u64::from(margin);
    ask != 0 && low <= u64::from(guess)
}

// Whether the bid is the margin or more above a guess.
fn is_dear(bid: u32, margin: u32, guess: u32) -> bool
    ensures { result ≡ (not (bid == 0) && nat_le (guess + margin) bid) }
{
    let high = u64::from(guess) + u64::from(margin);
    bid != 0 && high <= u64::from(bid)
}

// The order that waits the margin away from a guess, on the side that a coin picks.
fn waiting(view: &View, size: u32, margin: u32, guess: u32, coin: u32) -> Wish
    ensures value { result ≡ (if coin == 0 then day_order buying size (down_of (sight_of view.now).bands (pos guess -ℤ pos margin)) 0 else day_order selling size (up_of (sight_of view.now).bands (pos guess +ℤ pos margin)) 0) }
    ensures shares { result.shares ≡ size }
{
    if coin == 0 {
        let price = view.ticks.down(i64::from(guess) - i64::from(margin));
        day_order(Side::Buy, size, price)
    } else {
        let price = view.ticks.up(i64::from(guess) + i64::from(margin));
        day_order(Side::Sell, size, price)
    }
}

// What a trader on value makes of a quote, by its guess and a coin.
fn value_choice(view: &View, quote: &Quote, size: u32, margin: u32, guess: u32, coin: u32) -> Choice
    requires size { 0 < size }
    requires margin { margin ≤ 1000000000 }
    requires guess { guess ≤ 1999999900 }
    ensures value { value_by (sight_of view.now) [] quote.now size margin guess coin ≡ record { draws = result.draws; past = []; wishes = wishes_of result.wish } }
    ensures few { result.draws ≤ 2 }
    ensures shares { IfSome result.wish (λ w. 0 < w.shares) }
{
    if is_cheap(quote.ask, margin, guess) {
        return with_wish(1, day_order(Side::Buy, size, i64::from(quote.ask)));
    }
    if is_dear(quote.bid, margin, guess) {
        return with_wish(1, day_order(Side::Sell, size, i64::from(quote.bid)));
    }
    with_wish(2, waiting(view, size, margin, guess, coin))
}

/// What a trader makes of a quote.
pub fn choice_of(parts: &mut Parts, view: &View, quote: &Quote) -> Choice
    requires kind { IsKind parts.old.setting.kind }
    requires taker { IsTakerKind parts.old.setting.kind }
    requires draws { parts.old.draws < 2 ^ 62 }
    requires stream { parts.old.stream ≡ parts.old.shell.orders.agent }
    ensures value { choice_of (sight_of view.now) (trader_of [] parts.old) quote.now ≡ record { draws = result.draws; past = []; wishes = wishes_of result.wish } }
    ensures same { parts.new ≡ parts.old }
    ensures few { result.draws ≤ 2 }
    ensures shares { IfSome result.wish (λ w. 0 < w.shares) }
{
    match parts.setting.kind {
        Kind::Watcher => Choice {
            draws: 0,
            wish: None,
        },
        Kind::Noise { size } => {
            let draws = parts.draws;
            let coin = below(parts.word(view, draws), 2);
            let shares = 1 + below(parts.word(view, draws + 1), u64::from(size));
            with_wish(2, noise_wish(view, quote, coin, shares))
        }
        Kind::Value {
            size,
            noise,
            margin,
        } => {
            let draws = parts.draws;
            let guess = guess_of(view.value, parts.word(view, draws), noise);
            let coin = below(parts.word(view, draws + 1), 2);
            value_choice(view, quote, size, margin, guess, coin)
        }
        Kind::Momentum { .. } | Kind::Maker { .. } => unreachable!(),
    }
}
