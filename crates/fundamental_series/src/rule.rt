//! What a series is made of. Values are prices with four implied decimals.

ghost use Rattle.std.specs.Prelude.{◌≡◌, ◌≤◌, ◌^◌, pos, ◌-ℤ◌, ◌*ℤ◌, ◌≤ℤ◌};
ghost use Rattle.std.proofs.Common.{neg_ℤ};
ghost use Rattle.market_types.specs.Limits.{highest_price};
ghost use Rattle.fundamental_series.specs.Ranges.{IsInRange, IsPrice};
ghost use Rattle.fundamental_series.specs.Value.{clamped, floor_of, stepped, with_offset_of};

use draw_streams::centred;
use market_types::{HIGHEST_PRICE, Time};

/// A rule by which a value goes from step to step.
#[derive(Clone, Copy)]
pub struct SeriesRule {
    /// The value of the first step, from 1 to 1,999,999,900.
    pub start: u32,
    /// The value to which it is drawn back, from 1 to 1,999,999,900.
    pub mean: u32,
    /// By how many millionths of its distance from the mean it is drawn back at each step, at most
    /// 1,000,000.
    pub pull: u32,
    /// The greatest shock of a step, up or down, at most 1,000,000,000.
    pub shock: u32,
    /// The length of a step in nanoseconds, at least 1.
    pub every: Time,
}

/// A row of a series file: the value from a time on.
#[derive(Clone, Copy)]
pub struct SeriesRow {
    /// Nanoseconds past midnight.
    pub time: Time,
    /// A price with four implied decimals, from 1 to 1,999,999,900.
    pub value: u32,
}

// By how much a value is drawn back to the mean, rounded down.
fn pulled(rule: &SeriesRule, value: u32) -> i64
    requires rule { IsInRange rule.now }
    requires price { value ≤ highest_price }
    ensures value { result ≡ floor_of (pos rule.now.pull *ℤ (pos rule.now.mean -ℤ pos value)) 1000000 }
    ensures low { neg_ℤ (pos 2000000000000000) ≤ℤ result }
    ensures high { result ≤ℤ pos 2000000000000000 }
{
    let distance = i64::from(rule.mean) - i64::from(value);
    (i64::from(rule.pull) * distance).div_euclid(1_000_000)
}

// The nearest price.
fn clamped(value: i64) -> u32
    ensures { result ≡ clamped value }
{
    value.clamp(1, i64::from(HIGHEST_PRICE)) as u32
}

// The value one step later, by the word that is drawn for this step.
pub fn stepped(rule: &SeriesRule, value: u32, word: u32) -> u32
    requires rule { IsInRange rule.now }
    requires price { value ≤ highest_price }
    ensures value { result ≡ stepped rule.now value word }
    ensures high { result ≤ highest_price }
{
    clamped(i64::from(value) + pulled(rule, value) + centred(word, rule.shock))
}

/// A value with the offset of edits, both in dollars with four implied decimals: the nearest price.
pub fn with_offset(value: u32, offset: i64) -> u32
    ensures value { result ≡ with_offset_of value offset }
    ensures price { IsPrice result }
{
    clamped(i64::from(value).saturating_add(offset))
}
