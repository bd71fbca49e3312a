use crate::facts::{equal, holds};
use market_rules::{
    Band, Change, Dated, DatedList, Edit, FeeTable, Param, RuleError, TickTable, View,
};
use market_types::Symbol;
use std::alloc::Global;
use std::process::Abort;

const TWO_BANDS: [Band; 2] = [CENT, NICKEL];

fn two_bands(rt: &impl Abort, alloc: Global) -> TickTable {
    TickTable::new(alloc, &TWO_BANDS).expect(rt, "a table")
}

// The allowed prices next to a number.
fn nearest(table: &TickTable, price: i32) -> (i64, i64) {
    (table.down(i64::from(price)), table.up(i64::from(price)))
}

// Prices, each with the allowed prices next to it.
const NEAREST: [(i32, i64, i64); 7] = [
    (-1, 0, 0),
    (0, 0, 0),
    (99, 0, 100),
    (999_950, 999_900, 1_000_000),
    (1_000_000, 1_000_000, 1_000_000),
    (1_000_001, 1_000_000, 1_000_500),
    (1_000_499, 1_000_000, 1_000_500),
];

// Prices, each with the tick there, and whether it is allowed.
const ALLOWED: [(u32, u32, bool); 6] = [
    (0, 100, true),
    (50, 100, false),
    (999_999, 100, false),
    (1_000_000, 500, true),
    (1_000_100, 500, false),
    (4_294_967_000, 500, true),
];

fn assert_allowed(rt: &impl Abort, table: &TickTable) {
    for (price, tick, allowed) in ALLOWED.iter() {
        equal(rt, table.tick_at(*price), *tick);
        holds(rt, table.allowed(*price) == *allowed);
    }
}

fn assert_nearest(rt: &impl Abort, table: &TickTable) {
    for (price, down, up) in NEAREST.iter() {
        holds(rt, nearest(table, *price) == (*down, *up));
    }
}

#[test]
fn prices_move_to_their_ticks(rt: HostRuntime) {
    let table = two_bands(&rt, rt.alloc());
    let view = View {
        time: 5,
        key: &[0; 32],
        symbol: Symbol(*b"ABM     "),
        value: 100_000,
        ticks: &table,
    };
    assert_nearest(&rt, view.ticks);
    assert_allowed(&rt, &table);
    drop(table);
}

fn refusal(alloc: Global, bands: &[Band]) -> Option<RuleError> {
    TickTable::new(alloc, bands).err()
}

const CENT: Band = Band { from: 0, tick: 100 };

const NICKEL: Band = Band {
    from: 1_000_000,
    tick: 500,
};

const NONE: Band = Band { from: 7, tick: 0 };

const OFF: Band = Band {
    from: 150,
    tick: 100,
};

// Bands, each with their refusal.
const BANDS: [(&[Band], Option<RuleError>); 7] = [
    (&[], Some(RuleError::BandsNotRising(0))),
    (&[CENT, CENT], Some(RuleError::BandsNotRising(1))),
    (&[OFF, NONE, CENT], Some(RuleError::BandsNotRising(1))),
    (&[NONE, OFF], Some(RuleError::ZeroTick(0))),
    (&[CENT, OFF], Some(RuleError::BandOffTick(1))),
    (&[NICKEL], Some(RuleError::BandOffTick(0))),
    (&[CENT, NICKEL], None),
];

#[test]
fn bad_bands_are_refused(rt: HostRuntime) {
    let alloc = rt.alloc();
    for (bands, hoped) in BANDS.iter() {
        holds(&rt, refusal(alloc, bands) == *hoped);
    }
}

fn halt(time: u64) -> Dated {
    Dated {
        time,
        stock: 0,
        change: Change::Halt,
    }
}

// Changes at these times.
fn dated(rt: &impl Abort, alloc: Global, times: &[u64]) -> Result<DatedList, RuleError> {
    let mut list = Vec::new(alloc);
    for time in times {
        holds(rt, list.push(halt(*time)).is_ok());
    }
    DatedList::new(list)
}

// Times, each with how many of the changes at 5, 5 and 7 are due by then.
const DUE: [(u64, usize); 5] = [(4, 0), (5, 2), (6, 2), (7, 3), (u64::MAX, 3)];

fn assert_due(rt: &impl Abort, list: &DatedList) {
    for (time, count) in DUE.iter() {
        equal(rt, list.rules_at(*time), *count);
    }
    holds(rt, list.as_slice().len() == 3);
}

// Why changes at these times are refused, if they are.
fn date_refusal(rt: &impl Abort, alloc: Global, times: &[u64]) -> Option<RuleError> {
    dated(rt, alloc, times).err()
}

#[test]
fn changes_keep_their_order(rt: HostRuntime) {
    let list = dated(&rt, rt.alloc(), &[5, 5, 7]).expect(&rt, "a list");
    assert_due(&rt, &list);
    drop(list);
    equal(&rt, date_refusal(&rt, rt.alloc(), &[]), None);
    let refused = date_refusal(&rt, rt.alloc(), &[5, 6, 4, 3]);
    equal(&rt, refused, Some(RuleError::DatesNotRising(2)));
}

// One edit of each kind but the one of a message, with its letter.
fn edits(table: TickTable) -> [(Edit, u8); 8] {
    let fees = FeeTable { add: -20, take: 30 };
    let (stock, agent, from, to) = (3, 7, 0, 1);
    let (base, jitter, offset) = (500, 9, -5);
    let (name, value) = (Param::Pause, 9);
    [
        (Edit::Tick { stock, table }, b't'),
        (Edit::Fee { stock, fees }, b'f'),
        (Edit::Halt { stock }, b'h'),
        (Edit::Resume { stock }, b'r'),
        (
            Edit::Latency {
                from,
                to,
                base,
                jitter,
            },
            b'l',
        ),
        (Edit::Agent { agent, name, value }, b'p'),
        (Edit::Silence { agent }, b's'),
        (Edit::Series { stock, offset }, b'v'),
    ]
}

// Compares an edit with its copy.
fn is_copied(rt: &impl Abort, alloc: Global, edit: &Edit, letter: u8) {
    let copy = edit.copy(alloc).expect(rt, "memory");
    holds(rt, copy == *edit);
    equal(rt, copy.letter(), letter);
    drop(copy);
}

// Compares a change with its copy.
fn change_is_copied(rt: &impl Abort, alloc: Global, change: &Change) {
    let copy = change.copy(alloc).expect(rt, "memory");
    holds(rt, copy == *change);
    holds(rt, copy != Change::Halt);
    drop(copy);
}

#[test]
fn copies_are_equal(rt: HostRuntime) {
    let alloc = rt.alloc();
    for (edit, letter) in edits(two_bands(&rt, alloc)) {
        is_copied(&rt, alloc, &edit, letter);
        drop(edit);
    }
    let change = Change::Tick(two_bands(&rt, alloc));
    change_is_copied(&rt, alloc, &change);
    drop(change);
}

#[test]
fn fees_go_by_the_flag(rt: HostRuntime) {
    let fees = FeeTable { add: -20, take: 30 };
    equal(&rt, fees.fee(b'A', 100), -2_000);
    equal(&rt, fees.fee(b'R', 100), 3_000);
    equal(&rt, fees.fee(b'A', 999_999), -19_999_980);
}
