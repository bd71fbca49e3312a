//! The rule of single latencies.

ghost use Rattle.std.specs.Prelude.{◌≡◌, ◌+◌, ◌*◌, ◌≤◌, ◌<◌, nat_le, not, true, pos, map, length, position, IfSome};
ghost use Rattle.std.specs.List.{list_all};
ghost use Rattle.toml.specs.View.{table_view, view};
ghost use Rattle.study_file.specs.Values.{list_in as items_in, number_in as number_of, is_between as between};
ghost use Rattle.study_market.specs.MarketRules.{cell_outside as cell_in};

use study_file::{Value, is_at_most, list_in, number_in};

fn column_outside(high: u64, row: &[Value]) -> Option<usize>
    ensures { result ≡ position (λ v. not (between (pos 0) (pos high) (number_of (view v)))) row.now }
{
    row.iter()
        .position(|value| !is_at_most(high, number_in(value)))
}

// The first column of a row whose number isn't from 0 to the high one.
fn column_of(high: u64, row: &Value) -> Option<usize>
    ensures column { result ≡ position (λ d. not (between (pos 0) (pos high) (number_of d))) (items_in (view row.now)) }
    ensures low { IfSome result (λ at. at < length (items_in (view row.now))) }
{
    let numbers = list_in(row);
    column_outside(high, numbers)
}

/// The place of the first number that isn't from 0 to the high one: the rows have 32 places each.
pub fn cell_outside(high: u64, place: u32, rows: &[Value]) -> Option<u32>
    requires room { place + 32 * length rows.now ≤ 2048 }
    requires narrow { list_all (λ v. nat_le (length (items_in (view v))) 32) rows.now ≡ true }
    ensures { result ≡ cell_in (pos high) place (map view rows.now) }
{
    match rows.split_first() {
        Some((row, rest)) => match column_of(high, row) {
            Some(column) => Some(place + column as u32),
            None => cell_outside(high, place + 32, rest),
        },
        None => None,
    }
}
