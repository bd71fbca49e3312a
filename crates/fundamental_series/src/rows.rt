//! The rows of a series file.

ghost use Rattle.std.specs.Prelude.{◌≡◌, ℕ, ◌<◌, ◌≤◌, IfOk, length, slice_index_or};
ghost use Rattle.fundamental_series.specs.declared.rule.SeriesRow.{SeriesRow};
ghost use Rattle.fundamental_series.specs.Made.{first_time, row_value};
ghost use Rattle.fundamental_series.specs.Ranges.{AreRows, IsPrice, IsRising};

use crate::rule::SeriesRow;
use market_types::{Memory, Time, copied};
use std::alloc::Global;
use std::marker::Model;

/// Rows in order of time.
#[derive(Drop)]
pub struct Rows {
    rows: Vec<SeriesRow>,
}

impl Model for Rows {
    ghost use Rattle.std.specs.Prelude.{List};
    ghost use Rattle.fundamental_series.specs.declared.rule.SeriesRow.{SeriesRow};
    ghost use Rattle.fundamental_series.specs.Ranges.{AreRows};

    ghost Value = { List SeriesRow };

    ghost view = { λ r. r.rows.items };

    ghost invariant = { λ r. AreRows r.rows.items };
}

impl Rows {
    /// Copies the rows.
    pub fn new(alloc: Global, rows: &[SeriesRow]) -> Result<Rows, Memory>
        requires { AreRows rows.now }
        ensures { IfOk result (λ r. r ≡ rows.now) }
    {
        let rows = copied(alloc, rows)?;
        Ok(Rows { rows })
    }

    /// The value of the last row that isn't later than a time in nanoseconds past midnight.
    pub fn value_at(&self, time: Time) -> u32
        requires { first_time self.now ≤ time }
        ensures value { result ≡ row_value self.now time }
        ensures price { IsPrice result }
    {
        let count = count_not_later(self.rows.as_slice(), time);
        self.rows[count - 1].value
    }
}

// How many rows aren't later than a time.
fn count_not_later(rows: &[SeriesRow], time: Time) -> usize
    requires { IsRising rows.now }
    ensures within { result ≤ length rows.now }
    ensures not_later { (k : ℕ) (d : SeriesRow) → k < result → (slice_index_or rows.now k d).time ≤ time }
    ensures later { (k : ℕ) (d : SeriesRow) → result ≤ k → k < length rows.now → time < (slice_index_or rows.now k d).time }
{
    rows.partition_point(|r| r.time <= time)
}
