//! The large study: the lines that tell of its run, and that it is accepted.

use crate::facts::holds;
use crate::runs::{Around, alone, is_whole, ran, ran_past, sized};
use outside::HoldGate;
use std::alloc::Global;
use std::process::Abort;
use std::sync::Wait;
use std::thread::Threads;
use study_file::study_text;

// As another program writes them.
const LINES: &str =
    "study bytes 2960\nbranches 8\nevents 160000\ndistinct 88000\nbundle bytes 13727663\nbyte sum 621938571\n";

const ACCEPTED: &str = "accepted: agents 101, stocks 2, branches 8, segments 13\n";

// The words, the call of the library that would fail, how many steps are counted, and what is written.
const ROWS: [([&str; 3], u32, u64, &str); 3] = [
    (["big", "7", "--workers=1"], 1, 88_000, LINES),
    (["big", "0007", "--workers=4"], 1, 88_000, LINES),
    (["check", "s", "--workers=4"], 2, 0, ACCEPTED),
];

// Words run so on a study.
fn runs_so<R: Abort + Threads + Wait + Sync>(
    rt: &R,
    alloc: Global,
    text: &str,
    row: &([&str; 3], u32, u64, &str),
) -> bool {
    let around = Around {
        failing_read: row.1,
        ..alone(text, sized(200, 64))
    };
    let ended = ran(rt, alloc, &row.0, &around);
    let is_so = is_whole(&ended, row.2, row.3.as_bytes());
    drop(ended);
    is_so
}

// The call of the library that would fail is the first, or the one behind the study's: no file is fetched for the lines.
#[test]
fn lines_of_the_large_study(rt: HostRuntime) {
    let alloc = rt.alloc();
    let text = study_text(alloc, 7, 500_000).expect(&rt, "memory");
    for row in ROWS.iter() {
        holds(&rt, runs_so(&rt, alloc, text.as_str(), row));
    }
    drop(text);
}

// The lines by two workers, of which each segment of two branches waits for the other to begin.
#[test]
fn workers_of_the_large_study(rt: HostRuntime) {
    let alloc = rt.alloc();
    for (held, until) in [(11, 12), (12, 11)] {
        let gate = HoldGate::new(held, until, 100_000_000);
        let around = Around {
            failing_read: 1,
            ..alone("", sized(200, 64))
        };
        let words = ["big", "7", "--workers=2"];
        let ended = ran_past(&rt, alloc, &words, &around, Vec::new(alloc), &gate);
        holds(&rt, is_whole(&ended, 88_000, LINES.as_bytes()));
        drop(ended);
        holds(&rt, !gate.exceeded() & (gate.passes() == 13));
    }
}
