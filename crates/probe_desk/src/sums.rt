//! What the four columns of every table say of some events.

ghost use Rattle.std.specs.Prelude.{◌≡◌, ◌≤◌, ◌^◌, ◌++◌, [], List, option_map, unsigned_abs};
ghost use Rattle.market_types.specs.Told.{EntryTold};
ghost use Rattle.probe_desk.specs.Columns.{shares_of, spread_in};
ghost use Rattle.probe_desk.specs.Sums.{AreSums, moved_by, no_sums, number_of, saturated, span_in, sums_told, wider, width_of};

use crate::Column;
use crate::price_range::Span;
use crate::removal::{Execution, taken_in};
use crate::spread_sum::spread_in;
use market_types::Body;

/// The shares taken, the spreads, the fees, and the least and the greatest price at which shares were taken, of some
/// events.
#[derive(Clone, Copy)]
pub struct Sums {
    volume: i128,
    spread: i128,
    fees: i128,
    span: Option<Span>,
}

impl Sums {
    /// Those of no event.
    pub fn new() -> Sums
        ensures value { result ≡ no_sums }
        ensures sums { AreSums result [] }
    {
        Sums {
            volume: 0,
            spread: 0,
            fees: 0,
            span: None,
        }
    }

    /// Those of one event, which took these fees in millionths of a dollar.
    pub fn of(fee: i64, put_back: bool, body: &Body) -> Sums
        ensures value { result ≡ sums_told fee put_back body.now }
        ensures few { moved_by (sums_told fee put_back body.now) ≤ 2 ^ 64 }
    {
        let taken = if put_back { None } else { taken_in(body) };
        Sums {
            volume: shares(taken),
            spread: if put_back { 0 } else { spread(body) },
            fees: i128::from(fee),
            span: span(taken),
        }
    }

    /// Those of these events and of others after them.
    pub fn followed_by(&self, others: &Sums) -> Sums
        ensures value { result ≡ saturated self.now others.now }
        ensures sums { (xs ys : List EntryTold) → AreSums self.now xs → AreSums others.now ys → AreSums result (xs ++ ys) }
    {
        Sums {
            volume: self.volume.saturating_add(others.volume),
            spread: self.spread.saturating_add(others.spread),
            fees: self.fees.saturating_add(others.fees),
            span: widened_by(self.span, others.span),
        }
    }

    /// The number of a column.
    pub fn number(&self, column: Column) -> i128
        ensures { result ≡ number_of column self.now }
    {
        match column {
            Column::Volume => self.volume,
            Column::SpreadSum => self.spread,
            Column::Range => width(self.span),
            Column::Fees => self.fees,
        }
    }
}

// The shares of an execution; 0 of none.
fn shares(taken: Option<Execution>) -> i128
    ensures value { result ≡ shares_of (option_map (λ t. record { shares = t.shares; price = t.price }) taken) }
    ensures few { unsigned_abs result ≤ 2 ^ 32 }
{
    match taken {
        Some(taken) => i128::from(taken.shares),
        None => 0,
    }
}

// The price of an execution.
fn span(taken: Option<Execution>) -> Option<Span>
    ensures { result ≡ span_in (option_map (λ t. record { shares = t.shares; price = t.price }) taken) }
{
    let Execution { price, .. } = taken?;
    Some(Span {
        least: price,
        greatest: price,
    })
}

// The spread that a body tells.
fn spread(body: &Body) -> i128
    ensures value { result ≡ spread_in body.now }
    ensures few { unsigned_abs result ≤ 2 ^ 32 }
{
    match body {
        Body::Quote(quote) => spread_in(quote),
        _ => 0,
    }
}

// Both spans as one.
fn widened_by(a: Option<Span>, b: Option<Span>) -> Option<Span>
    ensures { result ≡ wider a b }
{
    match (a, b) {
        (None, b) => b,
        (a, None) => a,
        (Some(a), Some(b)) => Some(Span {
            least: a.least.min(b.least),
            greatest: a.greatest.max(b.greatest),
        }),
    }
}

// The greatest less the least price; 0 of none.
fn width(span: Option<Span>) -> i128
    ensures { result ≡ width_of span }
{
    match span {
        Some(span) => i128::from(span.greatest) - i128::from(span.least),
        None => 0,
    }
}
