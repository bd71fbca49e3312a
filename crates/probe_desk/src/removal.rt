//! What a record tells of an order that took shares from the book.

ghost use Rattle.std.specs.Prelude.{◌≡◌, option_map};
ghost use Rattle.market_types.specs.Told.{event_told};
ghost use Rattle.probe_desk.specs.Columns.{removal_of, removal_in};

use market_types::{Body, Record, Reply};

/// Shares that were taken from the book, and the price with four implied decimals.
#[derive(Clone, Copy)]
pub struct Execution {
    pub shares: u32,
    pub price: u32,
}

/// What a delivered record tells: an Executed reply with flag `R`.
pub fn taken(event: &Record) -> Option<Execution>
    ensures { option_map (λ t. record { shares = t.shares; price = t.price }) result ≡ removal_of (event_told event.now) }
{
    if event.put_back {
        return None;
    }
    taken_in(&event.body)
}

// The same of a body.
pub(crate) fn taken_in(body: &Body) -> Option<Execution>
    ensures { option_map (λ t. record { shares = t.shares; price = t.price }) result ≡ removal_in body.now }
{
    match *body {
        Body::Answer(
            Reply::Executed {
                shares,
                price,
                flag: b'R',
                ..
            },
        ) => Some(Execution { shares, price }),
        _ => None,
    }
}
