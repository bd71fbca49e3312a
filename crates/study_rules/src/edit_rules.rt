//! Edits as a study's entries say them, and the rule that each is one.

ghost use Rattle.std.specs.Prelude.{◌≡◌, ◌≤◌, true, option_map, IfOk, IfSome};
ghost use Rattle.toml.specs.View.{table_view};
ghost use Rattle.study_rules.specs.EditRules.{natural_in as natural_of, stock_in as stock_of, trader_in as trader_of, group_in as group_of, tick_in as tick_of, fee_in as fee_of, latency_in as latency_of, common_param as common_of, order_param as ordering_of, maker_param as making_of, param_named as param_of, has_param as param_belongs, is_param_value as param_value, agent_in as agent_of, silence_in as silence_of, order_in as order_of, message_in as message_of, inject_in as inject_of, series_in as series_of, edit_in as edit_of};

use crate::scope::Scope;
use hex::FromHexError;
use market_rules::{Edit, Param};
use market_types::{AgentNo, Inbound, Memory, StockNo};
use ouch_codec::decode_in;
use std::alloc::Global;
use study_file::{Table, has_between, is_kind, is_within, is_word, number_at, string_at};
use study_market::{read_fees, read_ticks};

// The number at a key, where it is from a low to a high one.
fn natural_in(edit: &Table, key: &str, low: u64, high: u64) -> Option<u64>
    ensures number { result ≡ natural_of low high key.now (table_view edit.now) }
    ensures within { IfSome result (λ number. number ≤ high) }
{
    let number = number_at(edit, key);
    if is_within(low, high, number) {
        Some(number.unsigned_abs())
    } else {
        None
    }
}

// The stock that an edit names.
fn stock_in(scope: &Scope<'_>, edit: &Table) -> Option<StockNo>
    ensures { result ≡ stock_of scope.now (table_view edit.now) }
{
    scope.stock(string_at(edit, "stock"))
}

// The trader that an edit names.
fn trader_in(scope: &Scope<'_>, edit: &Table) -> Option<AgentNo>
    ensures { result ≡ trader_of scope.now (table_view edit.now) }
{
    match natural_in(edit, "agent", 1, scope.trader_count()) {
        Some(trader) => Some(trader as AgentNo),
        None => None,
    }
}

// The latency group at a key, of at most 32.
fn group_in(groups: u32, edit: &Table, key: &str) -> Option<u8>
    requires few { groups ≤ 32 }
    ensures { result ≡ group_of groups key.now (table_view edit.now) }
{
    let number = number_at(edit, key);
    if 0 <= number && number < i64::from(groups) {
        Some(number as u8)
    } else {
        None
    }
}

fn tick_in(alloc: Global, scope: &Scope<'_>, edit: &Table) -> Result<Option<Edit>, Memory>
    ensures { IfOk result (λ e. e ≡ tick_of scope.now (table_view edit.now)) }
{
    let Some(stock) = stock_in(scope, edit) else {
        return Ok(None);
    };
    match read_ticks(alloc, edit)? {
        Some(table) => Ok(Some(Edit::Tick { stock, table })),
        None => Ok(None),
    }
}

fn fee_in(scope: &Scope<'_>, edit: &Table) -> Option<Edit>
    ensures { result ≡ fee_of scope.now (table_view edit.now) }
{
    let stock = stock_in(scope, edit)?;
    let fees = read_fees(edit)?;
    Some(Edit::Fee { stock, fees })
}

fn halt_in(scope: &Scope<'_>, edit: &Table) -> Option<Edit>
    ensures { result ≡ option_map Edit.Halt (stock_of scope.now (table_view edit.now)) }
{
    let stock = stock_in(scope, edit)?;
    Some(Edit::Halt { stock })
}

fn resume_in(scope: &Scope<'_>, edit: &Table) -> Option<Edit>
    ensures { result ≡ option_map Edit.Resume (stock_of scope.now (table_view edit.now)) }
{
    let stock = stock_in(scope, edit)?;
    Some(Edit::Resume { stock })
}

fn latency_in(scope: &Scope<'_>, edit: &Table) -> Option<Edit>
    ensures { result ≡ latency_of scope.now (table_view edit.now) }
{
    let groups = scope.groups();
    let from = group_in(groups, edit, "from")?;
    let to = group_in(groups, edit, "to")?;
    let base = natural_in(edit, "base", 0, 3_600_000_000_000)?;
    let jitter = natural_in(edit, "jitter", 0, 4_294_967_295)?;
    Some(Edit::Latency {
        from,
        to,
        base,
        jitter: jitter as u32,
    })
}

// The parameter of a name that traders of all kinds have.
fn common_param(name: &str) -> Option<Param>
    ensures { result ≡ common_of name.now }
{
    if name == "every" {
        Some(Param::Every)
    } else if name == "wobble" {
        Some(Param::Wobble)
    } else if name == "delay" {
        Some(Param::Delay)
    } else {
        None
    }
}

// The parameter of a name that traders who send orders have.
fn order_param(name: &str) -> Option<Param>
    ensures { result ≡ ordering_of name.now }
{
    if name == "size" {
        Some(Param::Size)
    } else if name == "noise" {
        Some(Param::Noise)
    } else if name == "margin" {
        Some(Param::Margin)
    } else {
        None
    }
}

// The parameter of a name that makers have.
fn maker_param(name: &str) -> Option<Param>
    ensures { result ≡ making_of name.now }
{
    if name == "half" {
        Some(Param::Half)
    } else if name == "step" {
        Some(Param::Step)
    } else if name == "levels" {
        Some(Param::Levels)
    } else if name == "pause" {
        Some(Param::Pause)
    } else {
        None
    }
}

// The parameter of a name.
fn param_named(name: &str) -> Option<Param>
    ensures { result ≡ param_of name.now }
{
    if let Some(param) = common_param(name) {
        return Some(param);
    }
    match order_param(name) {
        Some(param) => Some(param),
        None => maker_param(name),
    }
}

// Whether a parameter belongs to a trader's kind.
fn has_param(kind: &str, param: Param) -> bool
    ensures { result ≡ param_belongs kind.now param }
{
    match param {
        Param::Every | Param::Wobble | Param::Delay => true,
        Param::Size => is_word(&["noise", "value", "momentum", "maker"], kind),
        Param::Noise | Param::Margin => is_word(&["value"], kind),
        Param::Half | Param::Step | Param::Levels | Param::Pause => is_word(&["maker"], kind),
    }
}

// Whether a number is in the range of a parameter.
fn is_param_value(param: Param, number: i64) -> bool
    ensures { result ≡ param_value param number }
{
    match param {
        Param::Size => is_within(1, 999_999, number),
        Param::Every => is_within(1, 3_600_000_000_000, number),
        Param::Wobble => is_within(0, 4_294_967_295, number),
        Param::Delay | Param::Pause => is_within(0, 3_600_000_000_000, number),
        Param::Noise | Param::Margin | Param::Half | Param::Step => {
            is_within(0, 1_000_000_000, number)
        }
        Param::Levels => is_within(1, 8, number),
    }
}

fn agent_in(scope: &Scope<'_>, edit: &Table) -> Option<Edit>
    ensures { result ≡ agent_of scope.now (table_view edit.now) }
{
    let agent = trader_in(scope, edit)?;
    let name = param_named(string_at(edit, "name"))?;
    let value = number_at(edit, "value");
    if has_param(scope.kind_of_trader(agent), name) && is_param_value(name, value) {
        Some(Edit::Agent {
            agent,
            name,
            value: value.unsigned_abs(),
        })
    } else {
        None
    }
}

fn silence_in(scope: &Scope<'_>, edit: &Table) -> Option<Edit>
    ensures { result ≡ silence_of scope.now (table_view edit.now) }
{
    let agent = trader_in(scope, edit)?;
    Some(Edit::Silence { agent })
}

// The order that bytes spell.
fn order_in(bytes: &[u8]) -> Option<Inbound>
    ensures { result ≡ order_of bytes.now }
{
    match decode_in(bytes) {
        Ok(message) => Some(message),
        Err(_) => None,
    }
}

// The order that the bytes of a text of hexadecimal digits spell.
fn message_in(alloc: Global, text: &str) -> Result<Option<Inbound>, Memory>
    ensures { IfOk result (λ message. message ≡ message_of text.now) }
{
    match hex::decode(alloc, text.as_bytes()) {
        Ok(bytes) => Ok(order_in(bytes.as_slice())),
        Err(FromHexError::OutOfMemory) => Err(Memory),
        Err(_) => Ok(None),
    }
}

fn inject_in(alloc: Global, scope: &Scope<'_>, edit: &Table) -> Result<Option<Edit>, Memory>
    ensures { IfOk result (λ e. e ≡ inject_of scope.now (table_view edit.now)) }
{
    let Some(agent) = trader_in(scope, edit) else {
        return Ok(None);
    };
    let Some(after) = natural_in(edit, "after", 0, 86_399_999_999_999) else {
        return Ok(None);
    };
    match message_in(alloc, string_at(edit, "message"))? {
        Some(message) => Ok(Some(Edit::Inject {
            agent,
            after,
            message,
        })),
        None => Ok(None),
    }
}

fn series_in(scope: &Scope<'_>, edit: &Table) -> Option<Edit>
    ensures { result ≡ series_of scope.now (table_view edit.now) }
{
    let stock = stock_in(scope, edit)?;
    if has_between(edit, "offset", -2_000_000_000, 2_000_000_000) {
        Some(Edit::Series {
            stock,
            offset: number_at(edit, "offset"),
        })
    } else {
        None
    }
}

/// The edit that an entry says. There is none where its stock, trader or groups don't exist, a number is out of its range, a
/// parameter doesn't belong to the trader's kind, or the message is no order.
pub fn edit_in(alloc: Global, scope: &Scope<'_>, edit: &Table) -> Result<Option<Edit>, Memory>
    ensures { IfOk result (λ e. e ≡ edit_of scope.now (table_view edit.now)) }
{
    if is_kind(edit, "tick") {
        tick_in(alloc, scope, edit)
    } else if is_kind(edit, "fee") {
        Ok(fee_in(scope, edit))
    } else if is_kind(edit, "halt") {
        Ok(halt_in(scope, edit))
    } else if is_kind(edit, "resume") {
        Ok(resume_in(scope, edit))
    } else if is_kind(edit, "latency") {
        Ok(latency_in(scope, edit))
    } else if is_kind(edit, "agent") {
        Ok(agent_in(scope, edit))
    } else if is_kind(edit, "silence") {
        Ok(silence_in(scope, edit))
    } else if is_kind(edit, "inject") {
        inject_in(alloc, scope, edit)
    } else if is_kind(edit, "series") {
        Ok(series_in(scope, edit))
    } else {
        Ok(None)
    }
}
