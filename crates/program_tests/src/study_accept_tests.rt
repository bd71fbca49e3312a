//! How much there is of a study that is accepted.

use crate::facts::holds;
use std::alloc::Global;
use std::process::Abort;
use study_file::read_tables;
use study_rules::{Study, accept};

const STUDY: &str = "version = 1
key = \"00112233445566778899aabbccddeeff0123456789abcdef0123456789abcdef\"
open = 1000
close = 2000
events = 100
series = \"rows.csv\"
exchange = { group = 1, delay = 7 }
latency = { base = [[5, 6], [7, 8]], jitter = [[0, 1], [2, 4294967295]] }
stock = [
  { symbol = \"ABM\", bands = [[0, 100]], add = -20, take = 30, series = \"rule\", start = 100000, mean = 110000, pull = 3, shock = 4, every = 1000000 },
  { symbol = \"XYZ\", bands = [[0, 100], [1000000, 500]], add = 0, take = -1, series = \"rows\" },
  { symbol = \"W\", bands = [[0, 1]], add = 5, take = 6, series = \"rows\" },
]
change = [
  { time = 1000, stock = \"ABM\", kind = \"halt\" },
  { time = 1500, stock = \"XYZ\", kind = \"tick\", bands = [[0, 1]] },
  { time = 1500, stock = \"W\", kind = \"fee\", add = 1, take = 2 },
  { time = 2000, stock = \"ABM\", kind = \"resume\" },
]
agent = [
  { kind = \"watcher\", group = 0, stock = \"W\", first = 1000, every = 1, count = 3, spread = 10, cash = -5 },
  { kind = \"noise\", group = 1, stock = \"XYZ\", first = 1001, every = 2, wobble = 9, delay = 8, cash = 1000000, size = 11 },
  { kind = \"value\", group = 1, stock = \"ABM\", first = 1002, every = 3, size = 12, noise = 13, margin = 14 },
  { kind = \"momentum\", group = 1, stock = \"XYZ\", first = 1003, every = 4, size = 15, short = 16, long = 17 },
  { kind = \"maker\", group = 1, stock = \"ABM\", first = 1004, every = 5, size = 18, half = 19, step = 20, levels = 8, pause = 22 },
]
";

const ROWS: &str = "symbol,time,value
XYZ,900,99000
W,1000,5
XYZ,1500,98000
";

// How many stocks, changes, traders, branches and segments a study has, and its stride.
fn counted(study: &Study) -> [usize; 6] {
    let opening = study.course.opening();
    let plan = study.course.plan();
    [
        opening.stocks.len(),
        opening.dated.as_slice().len(),
        opening.traders.len(),
        plan.branches().len(),
        plan.segments().len(),
        study.stride as usize,
    ]
}

// The same of this text, if it is accepted.
fn counts_of(alloc: Global, text: &str) -> Option<[usize; 6]> {
    let Ok(raw) = read_tables(alloc, text.as_bytes()) else {
        return None;
    };
    let accepted = accept(alloc, &raw, Some(ROWS.as_bytes()));
    drop(raw);
    match accepted {
        Ok(study) => Some(counted(&study)),
        Err(_) => None,
    }
}

// The same of the study with one text in place of another.
fn counts(rt: &impl Abort, alloc: Global, old: &str, new: &str) -> Option<[usize; 6]> {
    let text = STUDY.replacen(alloc, old, new, 1).expect(rt, "memory");
    let counts = counts_of(alloc, text.as_str());
    drop(text);
    counts
}

// A text, what stands in its place, and the counts of the study.
const CHANGES: [(&str, &str, [usize; 6]); 4] = [
    ("version", "version", [3, 4, 7, 1, 1, 10_000]),
    (
        "agent = [",
        "branch = [{ name = \"x\", parent = \"root\", at = 2 }]\nagent = [",
        [3, 4, 7, 2, 3, 10_000],
    ),
    (
        "events = 100",
        "events = 100\nstride = 500",
        [3, 4, 7, 1, 1, 500],
    ),
    (
        "version = 1",
        "version = 2\nbranch = [{ name = \"x\", parent = \"root\", when = 2000 }]",
        [3, 4, 7, 2, 3, 10_000],
    ),
];

#[test]
fn studies_are_accepted(rt: HostRuntime) {
    for (old, new, hoped) in CHANGES.iter() {
        holds(&rt, counts(&rt, rt.alloc(), old, new) == Some(*hoped));
    }
}
