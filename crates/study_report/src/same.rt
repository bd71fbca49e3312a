//! Whether two records tell the same.

ghost use Rattle.std.specs.Prelude.{◌≡◌};
ghost use Rattle.market_types.specs.Told.{event_told};
ghost use Rattle.study_report.specs.Same.{same_body, same_feeds, same_event};

use market_types::{Body, Feed, Record};

fn same_body(a: &Body, b: &Body) -> bool
    ensures { result ≡ same_body a.now b.now }
{
    *a == *b
}

fn same_feeds(a: &[Feed], b: &[Feed]) -> bool
    ensures { result ≡ same_feeds a.now b.now }
{
    a == b
}

/// Whether two records are the same in all that they tell, feeds included.
pub fn same_event(a: &Record, b: &Record) -> bool
    ensures { result ≡ same_event (event_told a.now) (event_told b.now) }
{
    a.number == b.number
        && a.time == b.time
        && a.seq == b.seq
        && a.from == b.from
        && a.to == b.to
        && a.put_back == b.put_back
        && a.until == b.until
        && a.fee == b.fee
        && same_body(&a.body, &b.body)
        && same_feeds(a.before.as_slice(), b.before.as_slice())
        && same_feeds(a.after.as_slice(), b.after.as_slice())
}
