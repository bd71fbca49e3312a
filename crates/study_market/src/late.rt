//! Stocks by rows without a value at the start.

ghost use Rattle.std.specs.Prelude.{◌≡◌, ◌≤◌, ◌&&◌, ℕ, nat_le, map, length, position};
ghost use Rattle.std.specs.List.{list_any, enumerate_from};
ghost use Rattle.toml.specs.View.{view};
ghost use Rattle.study_market.specs.StockRules.{is_by_rows as by_rows};
ghost use Rattle.study_market.specs.Rows.{rows_of};
ghost use Rattle.study_market.specs.Late.{is_late as late_at, first_late};

use crate::stock::is_by_rows;
use crate::tables::SeriesTables;
use fundamental_series::SeriesRow;
use market_types::Time;
use study_file::Value;

// Whether some row is at the start or earlier.
fn has_early(start: Time, rows: &[SeriesRow]) -> bool
    ensures { result ≡ list_any (λ r. nat_le r.time start) rows.now }
{
    rows.iter().any(|row| row.time <= start)
}

// Whether no row is at the start or earlier.
fn is_late(start: Time, rows: &[SeriesRow]) -> bool
    ensures { result ≡ late_at start rows.now }
{
    !has_early(start, rows)
}

// The place of the first stock by rows that has no row at the start or earlier.
fn late_place(start: Time, stocks: &[Value], tables: &SeriesTables) -> Option<usize>
    ensures { result ≡ position (λ (p : ℕ × _). by_rows (view p.1) && late_at start (rows_of tables.now p.0)) (enumerate_from 0 stocks.now) }
{
    stocks.iter().enumerate().position(|(at, stock)| is_by_rows(stock)
        && is_late(start, tables.rows(at)))
}

/// The place of the first of at most 16 stocks that goes by rows and has no row at the start or earlier, in nanoseconds past
/// midnight.
pub fn late_stock(start: Time, stocks: &[Value], tables: &SeriesTables) -> Option<u32>
    requires few { length stocks.now ≤ 16 }
    ensures { result ≡ first_late start (map view stocks.now) tables.now }
{
    match late_place(start, stocks, tables) {
        Some(at) => Some(at as u32),
        None => None,
    }
}
