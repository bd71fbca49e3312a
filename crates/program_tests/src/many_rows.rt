//! A series file with as many rows as there may be, and one with one more.

use crate::facts::{ends, equal, holds};
use crate::fault_runs::WATCHERS;
use crate::runs::{Around, Ended, NOTES, is_whole, ran};
use abides_run::Status;
use std::alloc::Global;
use std::process::Abort;
use std::sync::Wait;
use std::thread::Threads;

// One row more.
fn join_row(rt: &impl Abort, alloc: Global, text: &mut String, time: u32) {
    let row = format!(in alloc; "ABM,{time},1\n").expect(rt, "memory");
    text.push_str(row.as_str()).expect(rt, "memory");
    drop(row);
}

// A series file of so many rows, a nanosecond apart.
fn many_rows(rt: &impl Abort, alloc: Global, count: u32) -> String {
    let mut text = String::from_str(alloc, "symbol,time,value\n").expect(rt, "memory");
    for time in 0..count {
        join_row(rt, alloc, &mut text, time);
    }
    text
}

const BY_RULE: &str =
    "\"rule\"\nstart = 100000\nmean = 100000\npull = 0\nshock = 0\nevery = 1000000";

// A study whose stock has its values from the file `t`.
fn study_by_rows(rt: &impl Abort, alloc: Global) -> String {
    let by_rows = WATCHERS
        .replacen(alloc, BY_RULE, "\"rows\"", 1)
        .expect(rt, "memory");
    let study = format!(in alloc; "series = \"t\"\n{by_rows}").expect(rt, "memory");
    drop(by_rows);
    study
}

// A check of a study with its series file, which counts no step.
fn checked<R: Abort + Threads + Wait + Sync>(
    rt: &R,
    alloc: Global,
    study: &str,
    series: &str,
) -> Ended {
    let around = Around {
        study,
        series,
        failing_read: 0,
        out: NOTES,
        notes: NOTES,
    };
    let ended = ran(rt, alloc, &["check", "s"], &around);
    equal(rt, ended.steps, 0);
    ended
}

const ACCEPTED: &[u8] = b"accepted: agents 3, stocks 1, branches 1, segments 1\n";

const REFUSED: &[u8] = b"study refused: rule 19, place 1000001\n";

// A series file is taken.
fn is_taken<R: Abort + Threads + Wait + Sync>(rt: &R, alloc: Global, study: &str, rows: &str) {
    let taken = checked(rt, alloc, study, rows);
    holds(rt, is_whole(&taken, 0, ACCEPTED));
    drop(taken);
}

// A series file is refused for its row of number 1,000,001.
fn is_refused<R: Abort + Threads + Wait + Sync>(rt: &R, alloc: Global, study: &str, rows: &str) {
    let refused = checked(rt, alloc, study, rows);
    let (rule, place) = (19, 1_000_001);
    ends(rt, refused.status, Status::Refused { rule, place });
    holds(rt, refused.out.taken().is_empty());
    holds(rt, refused.notes.taken() == REFUSED);
    drop(refused);
}

#[test]
fn a_million_rows_are_taken_and_no_more(rt: HostRuntime) {
    let alloc = rt.alloc();
    let study = study_by_rows(&rt, alloc);
    let mut rows = many_rows(&rt, alloc, 1_000_000);
    is_taken(&rt, alloc, study.as_str(), rows.as_str());
    holds(&rt, rows.push_str("ABM,1000000,1\n").is_ok());
    is_refused(&rt, alloc, study.as_str(), rows.as_str());
    drop(rows);
    drop(study);
}
