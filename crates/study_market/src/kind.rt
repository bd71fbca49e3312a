//! The kinds of traders with their own parameters.

ghost use Rattle.std.specs.Prelude.{◌≡◌, is_some, IfSome};
ghost use Rattle.toml.specs.View.{table_view};
ghost use Rattle.study_market.specs.AgentRules.{has_size, has_distance, has_guess, has_spans, has_levels, has_own};
ghost use Rattle.study_market.specs.Entries.{natural_at as natural_of};
ghost use Rattle.study_market.specs.Traders.{size_of, value_kind_of, momentum_kind_of, maker_kind_of, kind_of};

use crate::entries::natural_between;
use agent_shell::Kind;
use study_file::{Table, is_kind, number_at};

// The shares of each order.
fn read_size(agent: &Table) -> Option<u32>
    ensures kept { is_some result ≡ has_size (table_view agent.now) }
    ensures said { IfSome result (λ size. size ≡ size_of (table_view agent.now)) }
{
    match natural_between(agent, "size", 1, 999_999) {
        Some(size) => Some(size as u32),
        None => None,
    }
}

// A distance of prices, with four implied decimals.
fn read_distance(agent: &Table, key: &str) -> Option<u32>
    ensures kept { is_some result ≡ has_distance key.now (table_view agent.now) }
    ensures said { IfSome result (λ distance. distance ≡ natural_of key.now (table_view agent.now)) }
{
    match natural_between(agent, key, 0, 1_000_000_000) {
        Some(distance) => Some(distance as u32),
        None => None,
    }
}

fn read_value(agent: &Table) -> Option<Kind>
    ensures kept { is_some result ≡ has_guess (table_view agent.now) }
    ensures said { IfSome result (λ kind. kind ≡ value_kind_of (table_view agent.now)) }
{
    let size = read_size(agent)?;
    let noise = read_distance(agent, "noise")?;
    let margin = read_distance(agent, "margin")?;
    Some(Kind::Value {
        size,
        noise,
        margin,
    })
}

fn read_momentum(agent: &Table) -> Option<Kind>
    ensures kept { is_some result ≡ has_spans (table_view agent.now) }
    ensures said { IfSome result (λ kind. kind ≡ momentum_kind_of (table_view agent.now)) }
{
    let size = read_size(agent)?;
    let short = natural_between(agent, "short", 1, 64)?;
    let long = natural_between(agent, "long", 2, 64)?;
    if number_at(agent, "short") < number_at(agent, "long") {
        Some(Kind::Momentum {
            size,
            short: short as u32,
            long: long as u32,
        })
    } else {
        None
    }
}

fn read_maker(agent: &Table) -> Option<Kind>
    ensures kept { is_some result ≡ has_levels (table_view agent.now) }
    ensures said { IfSome result (λ kind. kind ≡ maker_kind_of (table_view agent.now)) }
{
    let size = read_size(agent)?;
    let half = read_distance(agent, "half")?;
    let step = read_distance(agent, "step")?;
    let levels = natural_between(agent, "levels", 1, 8)?;
    let pause = natural_between(agent, "pause", 0, 3_600_000_000_000)?;
    Some(Kind::Maker {
        size,
        half,
        step,
        levels: levels as u32,
        pause,
    })
}

/// The kind of an entry's traders, where its own parameters are in their ranges.
#[tactic(auto, using(crate::proofs::OneKind::noise_own, crate::proofs::OneKind::value_own, crate::proofs::OneKind::momentum_own, crate::proofs::OneKind::maker_own, crate::proofs::OneKind::watcher_own))]
pub fn read_kind(agent: &Table) -> Option<Kind>
    ensures kept { is_some result ≡ has_own (table_view agent.now) }
    ensures said { IfSome result (λ kind. kind ≡ kind_of (table_view agent.now)) }
{
    if is_kind(agent, "noise") {
        match read_size(agent) {
            Some(size) => Some(Kind::Noise { size }),
            None => None,
        }
    } else if is_kind(agent, "value") {
        read_value(agent)
    } else if is_kind(agent, "momentum") {
        read_momentum(agent)
    } else if is_kind(agent, "maker") {
        read_maker(agent)
    } else {
        Some(Kind::Watcher)
    }
}
