//! The rules of the agents' keys and times.

ghost use Rattle.std.specs.Prelude.{◌≡◌, nat_le, int_le, pos};
ghost use Rattle.toml.specs.View.{table_view};
ghost use Rattle.study_file.specs.Keys.{has_form as form_in};
ghost use Rattle.study_market.specs.AgentForms.{agent_form};
ghost use Rattle.study_market.specs.AgentRules.{count_of, first_wakeup_at as first_wakeup, has_timing as timing_in};

use crate::forms::AGENT_KEYS;
use crate::market_table::is_group;
use market_types::Time;
use study_file::{Table, has_between, has_form, number_at, number_or};

/// Whether an entry has its keys with their types and no other, and its kind is known.
pub fn has_agent_keys(agent: &Table) -> bool
    ensures { result ≡ form_in agent_form (table_view agent.now) }
{
    has_form(
        agent,
        "kind",
        &["watcher", "noise", "value", "momentum", "maker"],
        &AGENT_KEYS,
    )
}

/// How many traders an entry makes.
pub fn count_in(agent: &Table) -> u64
    ensures { result ≡ count_of (table_view agent.now) }
{
    number_or(agent, "count", 1).unsigned_abs()
}

// Whether the trader of this number first wakes on the day, where the spread and the first wakeup aren't negative.
fn wakes_on_the_day(number: u64, agent: &Table) -> bool
    ensures { result ≡ nat_le (first_wakeup number (table_view agent.now)) 86399999999999 }
{
    let first = number_at(agent, "first").unsigned_abs();
    let spread = number_at(agent, "spread").unsigned_abs();
    u128::from(first) + u128::from(number) * u128::from(spread) <= 86_399_999_999_999
}

// Whether a number isn't below the low one.
fn is_at_least(low: u64, number: i64) -> bool
    ensures { result ≡ int_le (pos low) number }
{
    0 <= number && low <= number as u64
}

/// Whether the numbers of an entry that say when its traders act are in their ranges, beside so many latency groups and a market
/// that opens at `start`, in nanoseconds past midnight.
pub fn has_timing(size: u32, start: Time, agent: &Table) -> bool
    ensures { result ≡ timing_in size start (table_view agent.now) }
{
    is_group(size, agent)
        && is_at_least(start, number_at(agent, "first"))
        && has_between(agent, "spread", 0, 3_600_000_000_000)
        && has_between(agent, "delay", 0, 3_600_000_000_000)
        && has_between(agent, "every", 1, 3_600_000_000_000)
        && has_between(agent, "wobble", 0, 4_294_967_295)
        && wakes_on_the_day(count_in(agent).saturating_sub(1), agent)
}
