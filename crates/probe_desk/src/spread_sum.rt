//! The probe `spread_sum`.

ghost use Rattle.std.specs.Prelude.{◌≡◌, ◌≤◌, ◌^◌, pos, unsigned_abs};
ghost use Rattle.probe_desk.specs.Columns.{spread_of, spread_told};
ghost use Rattle.market_types.specs.Told.{event_told};

use crate::{Column, Probe};
use market_types::{Body, Quote, Record};

/// The sum of ask less bid, with four implied decimals, over the quotes with both sides.
#[derive(Drop)]
pub struct SpreadSum {
    total: i128,
}

impl SpreadSum {
    /// The probe as it opens. Takes no memory.
    pub fn new() -> SpreadSum
        ensures { result ≡ record { total = pos 0 } }
    {
        SpreadSum { total: 0 }
    }
}

impl Probe for SpreadSum {
    ghost use Rattle.std.specs.Prelude.{◌∷◌, [], pos, codes};
    ghost use Rattle.probe_desk.specs.Columns.{spread_sum as meaning_of};

    ghost title = { λ _. codes "spread_sum" };

    ghost meaning = { λ _. meaning_of };

    ghost numbers = { λ p. p.total ∷ [] };

    fn name(&self) -> &str {
        "spread_sum"
    }

    fn see(&mut self, event: &Record) {
        self.total = self.total.saturating_add(spread(event));
    }

    fn value(&self) -> i128 {
        self.total
    }

    fn column(&self) -> Option<Column> {
        Some(Column::SpreadSum)
    }

    fn restart(&mut self) {
        self.total = 0;
    }
}

// The spread that a record tells.
fn spread(event: &Record) -> i128
    ensures { result ≡ spread_of (event_told event.now) }
{
    if event.put_back {
        return 0;
    }
    match &event.body {
        Body::Quote(quote) => spread_in(quote),
        _ => 0,
    }
}

// Ask less bid; 0 where a side is absent.
pub(crate) fn spread_in(quote: &Quote) -> i128
    ensures value { result ≡ spread_told quote.now }
    ensures few { unsigned_abs result ≤ 2 ^ 32 }
{
    if quote.bid == 0 || quote.ask == 0 {
        return 0;
    }
    i128::from(quote.ask) - i128::from(quote.bid)
}
