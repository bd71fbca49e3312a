//! Momentum.

ghost use Rattle.std.specs.Prelude.{◌≡◌, ◌<◌, ◌≤◌, ◌+◌, ◌-◌, ◌*◌, Option, IfSome, length, sum};
ghost use Rattle.agent_shell.specs.Choice.{wishes_of};
ghost use Rattle.agent_shell.specs.Momentum.{last_of, momentum_order, momentum_wishes};

use crate::history::sum_of;
use agent_shell::Wish;
use market_types::{Quote, Side};

fn momentum_order(side: Side, size: u32, price: u32) -> Wish
    ensures { result ≡ momentum_order side size price }
{
    Wish {
        side,
        shares: size,
        price: i64::from(price),
        tif: 0,
        extra: 0,
    }
}

// The sum of the last so many middles.
fn sum_of_last(past: &[u32], n: usize) -> u64
    requires low { n ≤ length past.now }
    requires high { length past.now ≤ 64 }
    ensures value { result ≡ sum (last_of n past.now) }
    ensures bound { result ≤ 64 * 4294967296 }
{
    sum_of(&past[past.len() - n..])
}

/// The order that momentum's middles call for.
pub fn momentum_wish(quote: &Quote, size: u32, short: u32, long: u32, past: &[u32]) -> Option<Wish>
    requires size { 0 < size }
    requires short { short < long }
    requires long { long ≤ 64 }
    requires past { length past.now ≤ long }
    ensures value { wishes_of result ≡ momentum_wishes quote.now size short long past.now }
    ensures shares { IfSome result (λ w. 0 < w.shares) }
{
    if past.len() < long as usize {
        return None;
    }
    let recent = sum_of_last(past, short as usize) * u64::from(long);
    let all = sum_of(past) * u64::from(short);
    if all < recent {
        Some(momentum_order(Side::Buy, size, quote.ask))
    } else if recent < all {
        Some(momentum_order(Side::Sell, size, quote.bid))
    } else {
        None
    }
}
