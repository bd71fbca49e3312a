//! The latencies between groups.

ghost use Rattle.std.specs.Prelude.{◌≡◌, map, None, true, All, IfOk, pos, unsigned_abs};
ghost use Rattle.toml.specs.View.{table_view, view};
ghost use Rattle.study_file.specs.Values.{number_in as number_of, list_in as items_in, is_between};
ghost use Rattle.study_market.specs.MarketRules.{squares_broken as rule_7, cells_broken as rule_8, cell_outside};
ghost use Rattle.study_market.specs.Market.{numbers_in, latencies_of};

use crate::market_table::{bases, jitters};
use latency_model::Groups;
use market_types::{Memory, Time};
use std::alloc::{AllocError, Global};
use study_file::{Table, Value, list_in, number_in};

// The numbers of these items, which aren't negative.
fn base_numbers(alloc: Global, items: &[Value]) -> Result<Vec<Time>, AllocError>
    ensures { IfOk result (λ v. v.items ≡ map (λ x. unsigned_abs (number_of x)) (map view items.now)) }
{
    let mut numbers = Vec::new(alloc);
    for item in items {
        numbers.push(number_in(item).unsigned_abs())?;
    }
    Ok(numbers)
}

// The base latencies of a row.
fn base_row(alloc: Global, row: &Value) -> Result<Vec<Time>, AllocError>
    ensures { IfOk result (λ v. v.items ≡ numbers_in (view row.now)) }
{
    base_numbers(alloc, list_in(row))
}

// The number of an item, which is one of 32 bits.
fn jitter_number(item: &Value) -> u32
    requires { is_between (pos 0) (pos 4294967295) (number_of (view item.now)) ≡ true }
    ensures { result ≡ unsigned_abs (number_of (view item.now)) }
{
    number_in(item).unsigned_abs() as u32
}

// The numbers of these items, which are numbers of 32 bits.
fn jitter_numbers(alloc: Global, items: &[Value]) -> Result<Vec<u32>, AllocError>
    requires { All (λ x. is_between (pos 0) (pos 4294967295) (number_of x) ≡ true) (map view items.now) }
    ensures { IfOk result (λ v. v.items ≡ map (λ x. unsigned_abs (number_of x)) (map view items.now)) }
{
    let mut numbers = Vec::new(alloc);
    for item in items {
        numbers.push(jitter_number(item))?;
    }
    Ok(numbers)
}

// The jitters of a row.
fn jitter_row(alloc: Global, row: &Value) -> Result<Vec<u32>, AllocError>
    requires { All (λ x. is_between (pos 0) (pos 4294967295) (number_of x) ≡ true) (items_in (view row.now)) }
    ensures { IfOk result (λ v. v.items ≡ numbers_in (view row.now)) }
{
    jitter_numbers(alloc, list_in(row))
}

// The base latencies of these rows.
fn base_rows(alloc: Global, rows: &[Value]) -> Result<Vec<Vec<Time>>, AllocError>
    ensures { IfOk result (λ v. map (λ row. row.items) v.items ≡ map numbers_in (map view rows.now)) }
{
    let mut table = Vec::new(alloc);
    for row in rows {
        let numbers = base_row(alloc, row)?;
        table.push(numbers)?;
    }
    Ok(table)
}

// The jitters of these rows.
fn jitter_rows(alloc: Global, rows: &[Value]) -> Result<Vec<Vec<u32>>, AllocError>
    requires { cell_outside (pos 4294967295) 1024 (map view rows.now) ≡ None }
    ensures { IfOk result (λ v. map (λ row. row.items) v.items ≡ map numbers_in (map view rows.now)) }
{
    let mut table = Vec::new(alloc);
    for row in rows {
        let numbers = jitter_row(alloc, row)?;
        table.push(numbers)?;
    }
    Ok(table)
}

/// The latencies between the groups of a study, whose latencies are square and in their ranges.
pub fn latencies(alloc: Global, table: &Table) -> Result<Groups, Memory>
    requires square { rule_7 (table_view table.now) ≡ None }
    requires cells { rule_8 (table_view table.now) ≡ None }
    ensures { IfOk result (λ g. g ≡ latencies_of (table_view table.now)) }
{
    let base = base_rows(alloc, bases(table))?;
    let jitter = jitter_rows(alloc, jitters(table))?;
    Groups::new(alloc, base.as_slice(), jitter.as_slice())
}
