//! Tick tables as pairs of numbers say them.

ghost use Rattle.std.specs.Prelude.{◌≡◌, map, IfOk, IfSome, is_none, is_some, codes};
ghost use Rattle.std.specs.Int.{is_in_range};
ghost use Rattle.toml.specs.View.{table_view, view};
ghost use Rattle.market_rules.specs.Refusals.{table_refusal};
ghost use Rattle.study_file.specs.Values.{list_at as items_at};
ghost use Rattle.study_market.specs.StockRules.{band_in, is_band, first_in, second_in, are_in_range, has_bands};

use market_rules::{Band, RuleError, TickTable};
use market_types::Memory;
use std::alloc::{AllocError, Global};
use study_file::{Table, Value, is_at_most, is_between, list_at, list_in, number_in};

// The number of the first item, and 0 where there is none.
fn first_number(items: &[Value]) -> i64
    ensures { result ≡ first_in (map view items.now) }
{
    match items.first() {
        Some(item) => number_in(item),
        None => 0,
    }
}

// The number of the second item, and 0 where there is none.
fn second_number(items: &[Value]) -> i64
    ensures { result ≡ second_in (map view items.now) }
{
    match items.split_first() {
        Some((_, rest)) => first_number(rest),
        None => 0,
    }
}

// The band that a pair of numbers says, where it starts at a price or at 0 and has a tick up to 100 dollars.
fn read_band(value: &Value) -> Option<Band>
    ensures kept { is_some result ≡ is_band (view value.now) }
    ensures said { IfSome result (λ band. band ≡ band_in (view value.now)) }
{
    let pair = list_in(value);
    let from = first_number(pair);
    let tick = second_number(pair);
    if !is_at_most(1_999_999_900, from) {
        return None;
    }
    if !is_between(1, 1_000_000, tick) {
        return None;
    }
    Some(Band {
        from: from.unsigned_abs() as u32,
        tick: tick.unsigned_abs() as u32,
    })
}

// Whether there are 1 to 16 of something.
fn is_count(number: usize) -> bool
    ensures { result ≡ is_in_range 1 16 number }
{
    matches!(number, 1..=16)
}

// The bands that values say, where they are 1 to 16 such pairs.
fn read_bands(alloc: Global, values: &[Value]) -> Result<Option<Vec<Band>>, AllocError>
    ensures kept { IfOk result (λ read. is_some read ≡ are_in_range (map view values.now)) }
    ensures said { IfOk result (λ read. IfSome read (λ bands. bands.items ≡ map band_in (map view values.now))) }
{
    if !is_count(values.len()) {
        return Ok(None);
    }
    let mut bands = Vec::new(alloc);
    for value in values {
        match read_band(value) {
            Some(band) => bands.push(band)?,
            None => return Ok(None),
        }
    }
    Ok(Some(bands))
}

// The tick table of these bands, where they are one.
fn tick_table(alloc: Global, bands: &[Band]) -> Result<Option<TickTable>, Memory>
    ensures kept { IfOk result (λ read. is_some read ≡ is_none (table_refusal bands.now)) }
    ensures said { IfOk result (λ read. IfSome read (λ ticks. ticks ≡ bands.now)) }
{
    match TickTable::new(alloc, bands) {
        Ok(ticks) => Ok(Some(ticks)),
        Err(RuleError::Memory) => Err(Memory),
        Err(_) => Ok(None),
    }
}

/// The tick table that the `bands` of a table say, where they are 1 to 16 bands in their ranges that are one.
pub fn read_ticks(alloc: Global, table: &Table) -> Result<Option<TickTable>, Memory>
    ensures kept { IfOk result (λ read. is_some read ≡ has_bands (table_view table.now)) }
    ensures said { IfOk result (λ read. IfSome read (λ ticks. ticks ≡ map band_in (items_at (codes "bands") (table_view table.now)))) }
{
    match read_bands(alloc, list_at(table, "bands"))? {
        Some(bands) => tick_table(alloc, bands.as_slice()),
        None => Ok(None),
    }
}
