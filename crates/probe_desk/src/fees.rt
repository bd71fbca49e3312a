//! The probe `fees`.

ghost use Rattle.std.specs.Prelude.{◌≡◌, pos};

use crate::{Column, Probe};
use market_types::Record;

/// The fees of all records in millionths of a dollar, delivered and put back.
#[derive(Drop)]
pub struct Fees {
    total: i128,
}

impl Fees {
    /// The probe as it opens. Takes no memory.
    pub fn new() -> Fees
        ensures { result ≡ record { total = pos 0 } }
    {
        Fees { total: 0 }
    }
}

impl Probe for Fees {
    ghost use Rattle.std.specs.Prelude.{◌∷◌, [], pos, codes};
    ghost use Rattle.probe_desk.specs.Columns.{fees as meaning_of};

    ghost title = { λ _. codes "fees" };

    ghost meaning = { λ _. meaning_of };

    ghost numbers = { λ p. p.total ∷ [] };

    fn name(&self) -> &str {
        "fees"
    }

    fn see(&mut self, event: &Record) {
        self.total = self.total.saturating_add(i128::from(event.fee));
    }

    fn value(&self) -> i128 {
        self.total
    }

    fn column(&self) -> Option<Column> {
        Some(Column::Fees)
    }

    fn restart(&mut self) {
        self.total = 0;
    }
}
