//! The probe `volume`.

ghost use Rattle.std.specs.Prelude.{◌≡◌, pos};
ghost use Rattle.probe_desk.specs.Columns.{removal_of, shares_of};
ghost use Rattle.market_types.specs.Told.{event_told};

use crate::removal::taken;
use crate::{Column, Probe};
use market_types::Record;

/// Executed shares of the orders that took from the book.
#[derive(Drop)]
pub struct Volume {
    total: i128,
}

impl Volume {
    /// The probe as it opens. Takes no memory.
    pub fn new() -> Volume
        ensures { result ≡ record { total = pos 0 } }
    {
        Volume { total: 0 }
    }
}

impl Probe for Volume {
    ghost use Rattle.std.specs.Prelude.{◌∷◌, [], pos, codes};
    ghost use Rattle.probe_desk.specs.Columns.{volume as meaning_of};

    ghost title = { λ _. codes "volume" };

    ghost meaning = { λ _. meaning_of };

    ghost numbers = { λ p. p.total ∷ [] };

    fn name(&self) -> &str {
        "volume"
    }

    fn see(&mut self, event: &Record) {
        self.total = self.total.saturating_add(shares_taken(event));
    }

    fn value(&self) -> i128 {
        self.total
    }

    fn column(&self) -> Option<Column> {
        Some(Column::Volume)
    }

    fn restart(&mut self) {
        self.total = 0;
    }
}

// The shares that a record tells to be taken.
fn shares_taken(event: &Record) -> i128
    ensures { result ≡ shares_of (removal_of (event_told event.now)) }
{
    match taken(event) {
        Some(taken) => i128::from(taken.shares),
        None => 0,
    }
}
