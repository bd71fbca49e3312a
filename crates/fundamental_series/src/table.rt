//! The values of a rule, computed once.

ghost use Rattle.std.specs.Prelude.{◌≡◌, ◌-◌, ◌/◌, ◌≤◌, IfOk, length};
ghost use Rattle.fundamental_series.specs.Made.{rule_value};
ghost use Rattle.fundamental_series.specs.Ranges.{IsInRange, IsPrice};
ghost use Rattle.fundamental_series.specs.Table.{IsTable};

use crate::rule::{SeriesRule, stepped};
use draw_streams::Stream;
use market_types::{Memory, StockNo, Time};
use std::alloc::Global;
use std::marker::Model;

/// The values of a rule, one for each step that begins not after the close.
#[derive(Drop)]
pub struct Table {
    key: [u8; 32],
    stock: StockNo,
    rule: SeriesRule,
    start: Time,
    close: Time,
    values: Vec<u32>,
}

impl Model for Table {
    ghost use Rattle.std.specs.Prelude.{◌≡◌, ◌+◌, ◌-◌, ◌/◌, ◌≤◌, length};
    ghost use Rattle.fundamental_series.specs.Made.{RuleMade};
    ghost use Rattle.fundamental_series.specs.Ranges.{IsPrice};
    ghost use Rattle.fundamental_series.specs.Table.{IsTable};

    ghost Value = { RuleMade };

    ghost view = { λ t. record { key = t.key; stock = t.stock; rule = t.rule; start = t.start; close = t.close } };

    ghost invariant = { λ t. record {
      start : IsPrice t.rule.start;
      steps : 1 ≤ t.rule.every;
      long : length t.values.items ≡ (t.close - t.start) / t.rule.every + 1;
      table : IsTable t.key t.stock t.rule t.values.items;
    } };
}

impl Table {
    /// Computes the values.
    pub fn new(
        alloc: Global,
        key: &[u8; 32],
        stock: StockNo,
        rule: &SeriesRule,
        start: Time,
        close: Time,
    ) -> Result<Table, Memory>
        requires rule { IsInRange rule.now }
        requires steps { (close - start) / rule.now.every ≤ 65535 }
        ensures { IfOk result (λ t. t ≡ record { key = key.now; stock = stock; rule = rule.now; start = start; close = close }) }
    {
        let last = close.saturating_sub(start) / rule.every;
        let values = values_of(alloc, key, stock, rule, last as usize + 1)?;
        Ok(Table {
            key: *key,
            stock,
            rule: *rule,
            start,
            close,
            values,
        })
    }

    /// The value at a time in nanoseconds past midnight.
    pub fn value_at(&self, time: Time) -> u32
        ensures value { result ≡ rule_value self.now time }
        ensures price { IsPrice result }
    {
        let step = time.min(self.close).saturating_sub(self.start) / self.rule.every;
        self.values[step as usize]
    }
}

// The stream of a key's draws from which stock 0 takes its shocks; stock `k` takes its own from the
// `k`th stream after it.
const SERIES_STREAMS: u64 = 1 << 33;

// The first values of a rule.
fn values_of(
    alloc: Global,
    key: &[u8; 32],
    stock: StockNo,
    rule: &SeriesRule,
    count: usize,
) -> Result<Vec<u32>, Memory>
    requires rule { IsInRange rule.now }
    ensures long { IfOk result (λ v. length v.items ≡ count) }
    ensures table { IfOk result (λ v. IsTable key.now stock rule.now v.items) }
{
    let mut stream = Stream::new(SERIES_STREAMS + u64::from(stock));
    let mut values = Vec::new(alloc);
    let mut value = rule.start;
    for step in 0..count {
        values.push(value)?;
        value = stepped(rule, value, stream.draw(key, step as u64));
    }
    Ok(values)
}
