//! The series.

ghost use Rattle.std.specs.Prelude.{◌≡◌, ◌-◌, ◌/◌, ◌≤◌, IfOk};
ghost use Rattle.fundamental_series.specs.Made.{by_rows, by_rule, first_time_of, value_of};
ghost use Rattle.fundamental_series.specs.Ranges.{AreRows, IsInRange, IsPrice};

use crate::rows::Rows;
use crate::rule::{SeriesRow, SeriesRule};
use crate::table::Table;
use market_types::{Memory, StockNo, Time};
use std::alloc::Global;
use std::marker::Model;

#[derive(Drop)]
enum Form {
    Rule(Table),
    Rows(Rows),
}

/// The values of one stock over the day, without the offsets of edits.
#[derive(Drop)]
pub struct Series {
    form: Form,
}

impl Model for Series {
    ghost use Rattle.fundamental_series.specs.Made.{Made};
    ghost use Rattle.fundamental_series.specs.Form.{made_of};

    ghost Value = { Made };

    ghost view = { λ s. made_of s.form };
}

/// The series of a rule for stock `stock` under the study's key, from `start` to `close` in
/// nanoseconds past midnight. After the close the value stays.
pub fn series_by_rule(
    alloc: Global,
    key: &[u8; 32],
    stock: StockNo,
    rule: &SeriesRule,
    start: Time,
    close: Time,
) -> Result<Series, Memory>
    requires rule { IsInRange rule.now }
    requires steps { (close - start) / rule.now.every ≤ 65535 }
    ensures { IfOk result (λ s. s ≡ by_rule (record { key = key.now; stock = stock; rule = rule.now; start = start; close = close })) }
{
    let table = Table::new(alloc, key, stock, rule, start, close)?;
    Ok(Series {
        form: Form::Rule(table),
    })
}

/// The series of at least one row, in order of time.
pub fn series_from_rows(alloc: Global, rows: &[SeriesRow]) -> Result<Series, Memory>
    requires { AreRows rows.now }
    ensures { IfOk result (λ s. s ≡ by_rows rows.now) }
{
    let rows = Rows::new(alloc, rows)?;
    Ok(Series {
        form: Form::Rows(rows),
    })
}

impl Series {
    /// The value at a time in nanoseconds past midnight, which is not before the start of the rule or
    /// the first row: a price with four implied decimals.
    pub fn value_at(&self, time: Time) -> u32
        requires { first_time_of self.now ≤ time }
        ensures value { result ≡ value_of self.now time }
        ensures price { IsPrice result }
    {
        match &self.form {
            Form::Rule(table) => table.value_at(time),
            Form::Rows(rows) => rows.value_at(time),
        }
    }
}
