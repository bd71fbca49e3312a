ghost use Rattle.std.specs.Prelude.{◌≡◌, ◌<◌, ◌≤◌, ◌-◌, ◌/◌, IfOk};
ghost use Rattle.fundamental_series.specs.Made.{by_rows, first_time_of};
ghost use Rattle.fundamental_series.specs.Worked.{two_rows};

use crate::facts::{equal, holds};
use draw_streams::worked::{COUNTING_KEY, ZERO_KEY};
use fundamental_series::{
    Series, SeriesRow, SeriesRule, series_by_rule, series_from_rows, with_offset,
};
use market_types::{Memory, Time};
use std::alloc::Global;
use std::process::Abort;

const OPEN: Time = 1000;

// A rule without shocks, with a step every 100 nanoseconds.
const CALM: SeriesRule = SeriesRule {
    start: 100_000,
    mean: 110_000,
    pull: 100_000,
    shock: 0,
    every: 100,
};

const HALF_WAY: SeriesRule = SeriesRule {
    start: 100_001,
    mean: 100_000,
    pull: 500_000,
    ..CALM
};

const SHOCKED: SeriesRule = SeriesRule {
    mean: 100_000,
    pull: 50_000,
    shock: 500,
    ..CALM
};

// Shocks that leave the range of prices.
const WILD: SeriesRule = SeriesRule {
    start: 100,
    mean: 100,
    pull: 0,
    shock: 1_000_000_000,
    ..CALM
};

// Whether a series goes as the calm rule says.
fn is_calm(series: &Series) -> bool
    requires { first_time_of series.now ≤ OPEN }
{
    (later(series, 0) == 100_000)
        & (later(series, 99) == 100_000)
        & (later(series, 100) == 101_000)
        & (later(series, 200) == 101_900)
        & (later(series, 4000) == 101_900)
}

#[test]
fn goes_by_its_rule(rt: HostRuntime) {
    let alloc = rt.alloc();
    let calm = series_by_rule(alloc, &ZERO_KEY, 0, &CALM, OPEN, 1250).expect(&rt, "memory");
    holds(&rt, is_calm(&calm));
    let half = series_by_rule(alloc, &COUNTING_KEY, 3, &HALF_WAY, OPEN, 1250);
    let half = half.expect(&rt, "memory");
    equal(&rt, later(&half, 100), 100_000);
}

// The value so many nanoseconds after the opening.
fn later(series: &Series, nanoseconds: u32) -> u32
    requires { first_time_of series.now ≤ OPEN }
{
    series.value_at(OPEN + Time::from(nanoseconds))
}

// The values at the starts of six steps and after the close.
fn shown(series: &Series) -> [u32; 7]
    requires { first_time_of series.now ≤ OPEN }
{
    [
        later(series, 0),
        later(series, 100),
        later(series, 200),
        later(series, 300),
        later(series, 400),
        later(series, 500),
        later(series, 8999),
    ]
}

// What another program gives, which was written from the rule apart from this one.
const FIRST_SHOCKS: [u32; 7] = [100_000, 99_697, 100_183, 99_982, 99_838, 100_008, 100_008];

const SECOND_SHOCKS: [u32; 7] = [100_000, 100_215, 100_380, 100_157, 100_302, 99_943, 99_943];

const WILD_SHOCKS: [u32; 7] = [
    100,
    1,
    941_479_420,
    558_917_008,
    271_500_302,
    594_216_091,
    594_216_091,
];

// Whether a series has these values.
fn is_shown(rt: &impl Abort, series: Result<Series, Memory>, hoped: &[u32; 7]) -> bool
    requires { IfOk series (λ s. first_time_of s ≤ OPEN) }
{
    let series = series.expect(rt, "memory");
    let shown = shown(&series);
    shown == *hoped
}

#[test]
fn takes_its_shocks_from_its_own_stream(rt: HostRuntime) {
    let alloc = rt.alloc();
    let first = series_by_rule(alloc, &ZERO_KEY, 0, &SHOCKED, OPEN, 1500);
    holds(&rt, is_shown(&rt, first, &FIRST_SHOCKS));
    let second = series_by_rule(alloc, &COUNTING_KEY, 1, &SHOCKED, OPEN, 1500);
    holds(&rt, is_shown(&rt, second, &SECOND_SHOCKS));
    let wild = series_by_rule(alloc, &ZERO_KEY, 0, &WILD, OPEN, 1500);
    holds(&rt, is_shown(&rt, wild, &WILD_SHOCKS));
}

// 9.90 dollars from 900 nanoseconds past midnight on, 9.80 from 1500 on.
fn file_series(alloc: Global) -> Result<Series, Memory>
    ensures { IfOk result (λ s. s ≡ by_rows two_rows) }
{
    let first = SeriesRow {
        time: 900,
        value: 99_000,
    };
    let second = SeriesRow {
        time: 1500,
        value: 98_000,
    };
    series_from_rows(alloc, &[first, second])
}

// Whether a series goes by those rows.
fn has_rows(series: &Series) -> bool
    requires { series.now ≡ by_rows two_rows }
{
    (series.value_at(900) == 99_000)
        & (series.value_at(1499) == 99_000)
        & (series.value_at(1500) == 98_000)
        & (series.value_at(9999) == 98_000)
}

#[test]
fn goes_by_its_rows(rt: HostRuntime) {
    let series = file_series(rt.alloc()).expect(&rt, "memory");
    holds(&rt, has_rows(&series));
}

#[test]
fn offsets_stay_prices(rt: HostRuntime) {
    equal(&rt, with_offset(99_000, -500), 98_500);
    equal(&rt, with_offset(99_000, -99_000), 1);
    equal(&rt, with_offset(99_000, 2_000_000_000), 1_999_999_900);
    equal(&rt, with_offset(99_000, i64::MIN), 1);
    equal(&rt, with_offset(99_000, i64::MAX), 1_999_999_900);
}
