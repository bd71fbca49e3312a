//! The probe `range`.

ghost use Rattle.std.specs.Prelude.{◌≡◌, None};
ghost use Rattle.probe_desk.specs.Spans.{widened_of};

use crate::removal::taken;
use crate::{Column, Probe};
use market_types::Record;

// The least and the greatest price with four implied decimals.
#[derive(Clone, Copy)]
pub(crate) struct Span {
    pub(crate) least: u32,
    pub(crate) greatest: u32,
}

/// The greatest less the least price, with four implied decimals, at which an order took from the book; 0 where none
/// did.
#[derive(Drop)]
pub struct Range {
    span: Option<Span>,
}

impl Range {
    /// The probe as it opens. Takes no memory.
    pub fn new() -> Range
        ensures { result ≡ record { span = None } }
    {
        Range { span: None }
    }
}

impl Probe for Range {
    ghost use Rattle.std.specs.Prelude.{codes};
    ghost use Rattle.probe_desk.specs.Columns.{price_range};
    ghost use Rattle.probe_desk.specs.Spans.{numbers_of};

    ghost title = { λ _. codes "range" };

    ghost meaning = { λ _. price_range };

    ghost numbers = { λ p. numbers_of p.span };

    fn name(&self) -> &str {
        "range"
    }

    fn see(&mut self, event: &Record) {
        if let Some(taken) = taken(event) {
            self.span = Some(widened(self.span, taken.price));
        }
    }

    fn value(&self) -> i128 {
        match self.span {
            Some(span) => i128::from(span.greatest) - i128::from(span.least),
            None => 0,
        }
    }

    fn column(&self) -> Option<Column> {
        Some(Column::Range)
    }

    fn restart(&mut self) {
        self.span = None;
    }
}

// The span with one more price.
fn widened(span: Option<Span>, price: u32) -> Span
    ensures { result ≡ widened_of span price }
{
    match span {
        Some(span) => Span {
            least: span.least.min(price),
            greatest: span.greatest.max(price),
        },
        None => Span {
            least: price,
            greatest: price,
        },
    }
}
