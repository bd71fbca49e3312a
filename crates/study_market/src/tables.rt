//! The rows of each stock.

ghost use Rattle.std.specs.Prelude.{◌≡◌, ◌<◌, ◌++◌, ◌∷◌, [], true, false, None, Some, if◌then◌else◌, length, map, replicate, slice_set, IfOk, OnOk, option_copied};
ghost use Rattle.fundamental_series.specs.declared.rule.SeriesRow.{SeriesRow};
ghost use Rattle.study_market.specs.Rows.{rows_of, with_row, is_later as later, last_row};

use crate::row::FileRow;
use fundamental_series::SeriesRow;
use market_types::{Memory, Sequence};
use std::alloc::Global;
use std::marker::Model;

/// The rows of each stock of a study, in the order of the stocks and of their times; none for a stock that doesn't go by
/// rows. Contracts see the list of these lists.
#[derive(Drop)]
pub struct SeriesTables {
    tables: Vec<Sequence<SeriesRow>>,
}

impl Model for SeriesTables {
    ghost use Rattle.std.specs.Prelude.{List};
    ghost use Rattle.fundamental_series.specs.declared.rule.SeriesRow.{SeriesRow};

    ghost Value = { List (List SeriesRow) };

    ghost view = { λ t. t.tables.items };
}

// Appends no rows of so many stocks.
fn add_empty(
    tables: &mut Vec<Sequence<SeriesRow>>,
    alloc: Global,
    count: usize,
) -> Result<(), Memory>
    requires { tables.old.items ≡ [] }
    ensures { OnOk result (tables.new.items ≡ replicate count []) }
{
    for _turn in 0..count {
        tables.push(Sequence::empty(alloc))?;
    }
    Ok(())
}

impl SeriesTables {
    /// No rows of so many stocks.
    pub fn empty(alloc: Global, count: usize) -> Result<SeriesTables, Memory>
        ensures { IfOk result (λ t. t ≡ replicate count []) }
    {
        let mut tables = Vec::new(alloc);
        add_empty(&mut tables, alloc, count)?;
        Ok(SeriesTables { tables })
    }

    /// The rows of the stock at a place, and none where no stock is there.
    pub fn rows(&self, stock: usize) -> &[SeriesRow]
        ensures { result.now ≡ rows_of self.now stock }
    {
        match self.tables.get(stock) {
            Some(rows) => rows.as_slice(),
            None => &[],
        }
    }

    // Puts a row last to those of its stock, where it is later than they; whether it is.
    pub(crate) fn take(&mut self, row: FileRow) -> Result<bool, Memory>
        requires { row.stock < length self.old }
        ensures taken { IfOk result (λ taken. with_row self.old row ≡ (if taken then Some self.new else None)) }
        ensures length { length self.new ≡ length self.old }
    {
        if !is_later(self.rows(row.stock), row.row) {
            return Ok(false);
        }
        self.tables[row.stock].push(row.row)?;
        Ok(true)
    }
}

// Whether a row is later than the last one.
fn is_later(rows: &[SeriesRow], row: SeriesRow) -> bool
    ensures { result ≡ later rows.now row }
{
    match rows.last() {
        Some(before) => before.time < row.time,
        None => true,
    }
}
