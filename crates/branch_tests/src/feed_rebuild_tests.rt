use crate::facts::{equal, holds};
use feed_rebuild::{AuditError, Misfit, Rebuilt, Shown, rebuild};
use market_types::{Feed, FeedList, Side, Symbol, What};
use std::alloc::Global;
use std::process::Abort;

const NAME: Symbol = Symbol(*b"ABM     ");

fn message(locate: u16, what: What) -> Feed {
    Feed {
        locate,
        tracking: 0,
        time: 0,
        what,
    }
}

fn add(locate: u16, reference: u64, shares: u32) -> Feed {
    let what = What::Add {
        reference,
        side: Side::Buy,
        shares,
        stock: NAME,
        price: 100_000,
    };
    message(locate, what)
}

fn executed(locate: u16, reference: u64, shares: u32) -> Feed {
    let what = What::Executed {
        reference,
        shares,
        number: 1,
    };
    message(locate, what)
}

fn cancel(locate: u16, reference: u64, shares: u32) -> Feed {
    message(locate, What::Cancel { reference, shares })
}

fn delete(locate: u16, reference: u64) -> Feed {
    message(locate, What::Delete { reference })
}

fn trading(locate: u16, state: u8) -> Feed {
    let what = What::Trading {
        stock: NAME,
        state,
        reserved: b' ',
        reason: *b"    ",
    };
    message(locate, what)
}

// A message of a feed in short.
enum Step {
    Add(u16, u64, u32),
    Executed(u16, u64, u32),
    Cancel(u16, u64, u32),
    Delete(u16, u64),
    Trading(u16, u8),
}

fn message_of(step: &Step) -> Feed {
    match step {
        Step::Add(locate, reference, shares) => add(*locate, *reference, *shares),
        Step::Executed(locate, reference, shares) => executed(*locate, *reference, *shares),
        Step::Cancel(locate, reference, shares) => cancel(*locate, *reference, *shares),
        Step::Delete(locate, reference) => delete(*locate, *reference),
        Step::Trading(locate, state) => trading(*locate, *state),
    }
}

fn misfit(reference: u64) -> AuditError {
    AuditError::Misfit(Misfit { reference })
}

// A feed of these messages.
fn feed_of(rt: &impl Abort, alloc: Global, steps: &[Step]) -> FeedList {
    let mut feed = FeedList::new(alloc);
    for step in steps {
        holds(rt, feed.push(message_of(step)).is_ok());
    }
    feed
}

// What a feed of two stocks tells.
fn told(rt: &impl Abort, alloc: Global, steps: &[Step]) -> Result<Rebuilt, AuditError> {
    let feed = feed_of(rt, alloc, steps);
    let told = rebuild(alloc, &feed, 2);
    drop(feed);
    told
}

// Why a feed tells no books.
fn refusal(rt: &impl Abort, alloc: Global, steps: &[Step]) -> Option<AuditError> {
    match told(rt, alloc, steps) {
        Ok(books) => {
            drop(books);
            None
        }
        Err(error) => Some(error),
    }
}

// What tells books from a closing.
fn difference(books: &Rebuilt, live: &[Shown], states: &[u8]) -> Option<u64> {
    match books.compare(live, states) {
        Some(misfit) => Some(misfit.reference),
        None => None,
    }
}

const BOOKS: [Step; 7] = [
    Step::Add(2, 0, 100),
    Step::Add(1, 4, 300),
    Step::Add(2, 5, 7),
    Step::Cancel(1, 4, 60),
    Step::Executed(1, 4, 40),
    Step::Delete(2, 5),
    Step::Trading(2, b'H'),
];

const FIRST: Shown = Shown {
    stock: 0,
    reference: 4,
    side: Side::Buy,
    left: 200,
    price: 100_000,
};

const LESS: Shown = Shown { left: 199, ..FIRST };

const SECOND: Shown = Shown {
    stock: 1,
    reference: 0,
    left: 100,
    ..FIRST
};

const THIRD: Shown = Shown {
    stock: 1,
    reference: 3,
    left: 1,
    ..FIRST
};

// Closings, each with what tells the books from it.
const CLOSINGS: [(&[Shown], &[u8], Option<u64>); 9] = [
    (&[FIRST, SECOND], b"TH", None),
    (&[FIRST, SECOND], b"TT", Some(0)),
    (&[FIRST, SECOND], b"THT", Some(0)),
    (&[SECOND, FIRST], b"TH", Some(0)),
    (&[FIRST, FIRST, SECOND], b"TH", Some(0)),
    (&[FIRST], b"TH", Some(0)),
    (&[SECOND], b"TT", Some(4)),
    (&[LESS, SECOND], b"TH", Some(4)),
    (&[FIRST, SECOND, THIRD], b"TT", Some(3)),
];

#[test]
fn books_are_compared(rt: HostRuntime) {
    let books = told(&rt, rt.alloc(), &BOOKS).expect(&rt, "books");
    for (live, states, want) in CLOSINGS.iter() {
        equal(&rt, difference(&books, live, states), *want);
    }
    drop(books);
}

const LAST: u64 = u64::MAX;

// Feeds, each with the misfit for which it is refused.
const MISFITS: [(&[Step], Option<u64>); 9] = [
    (&[Step::Add(1, LAST, 1), Step::Delete(1, LAST)], None),
    (&[Step::Add(1, LAST, 1), Step::Add(1, LAST, 1)], Some(LAST)),
    (&[Step::Add(0, 9, 1)], Some(9)),
    (&[Step::Add(3, 9, 1)], Some(9)),
    (&[Step::Add(1, 9, 1), Step::Add(2, 8, 1)], Some(8)),
    (&[Step::Add(1, 9, 1), Step::Executed(1, 9, 2)], Some(9)),
    (&[Step::Add(1, 9, 1), Step::Delete(2, 9)], Some(9)),
    (
        &[
            Step::Add(1, 9, 0),
            Step::Cancel(1, 9, 0),
            Step::Delete(1, 9),
        ],
        Some(9),
    ),
    (&[Step::Add(1, 9, 1), Step::Trading(0, b'H')], Some(0)),
];

// The error of a misfit, if there is one.
fn error_of(reference: Option<u64>) -> Option<AuditError> {
    Some(misfit(reference?))
}

#[test]
fn misfits_are_told(rt: HostRuntime) {
    for (steps, want) in MISFITS.iter() {
        equal(&rt, refusal(&rt, rt.alloc(), steps), error_of(*want));
    }
}
