//! Rewinds: the states that they write, their steps, and writes that fail.

use crate::facts::{equal, holds};
use crate::runs::{Ended, Room, alone, is_write_fault, ran, sized};
use crate::worked_examples::{branched, timed};
use abides_run::Status;
use std::alloc::Global;
use std::process::Abort;
use std::sync::Wait;
use std::thread::Threads;
use study_file::study_text;

// The sum of the bytes.
fn sum(bytes: &[u8]) -> u64 {
    let mut sum: u64 = 0;
    for byte in bytes {
        sum = sum.wrapping_add(u64::from(*byte));
    }
    sum
}

// What words write about a study, and how many steps they count.
fn written<R: Abort + Threads + Wait + Sync>(
    rt: &R,
    alloc: Global,
    text: &str,
    words: &[&str],
) -> Ended {
    let ended = ran(rt, alloc, words, &alone(text, sized(30_000, 4096)));
    holds(
        rt,
        ended.status == Status::Ok && ended.notes.taken().is_empty(),
    );
    ended
}

// Whether at these places of the bytes stand a branch's frame and, right behind it, the first bytes of a state's counters.
fn have_states(bytes: &[u8], states: &[(usize, &[u8], &[u8])]) -> bool {
    for (at, branch, counters) in states {
        let Some(rest) = bytes.get(*at..) else {
            return false;
        };
        match rest.strip_prefix(*branch) {
            Some(rest) if rest.starts_with(*counters) => {}
            _ => return false,
        }
    }
    true
}

const THREE_STATES: [(usize, &[u8], &[u8]); 3] = [
    (
        0,
        b"\0\x0eb\0\0\xff\xff\0\0\0\0\x04root",
        b"\0\x42c-\0\0\0\0",
    ),
    (
        418,
        b"\0\x0bb\0\x01\0\0\0\0\0\x02\x01x",
        b"\0\x42c-\0\0\0\x02",
    ),
    (
        885,
        b"\0\x0eb\0\0\xff\xff\0\0\0\x06\x04root",
        b"\0\x42cC\0\0\0\x06",
    ),
];

const TWO_STATES: [(usize, &[u8], &[u8]); 2] = [
    (
        0,
        b"\0\x0bb\0\x01\0\0\0\0\0\x04\x01x",
        b"\0\x42c-\0\0\0\x04",
    ),
    (
        525,
        b"\0\x0bb\0\x01\0\0\0\0\0\x05\x01x",
        b"\0\x42c-\0\0\0\x05",
    ),
];

const TO_THREE: [&str; 5] = ["rewind", "s", "root:0", "x:2", "root:6"];

// A rewind of a study writes these states and this end.
fn rewinds<R: Abort + Threads + Wait + Sync>(
    rt: &R,
    alloc: Global,
    text: &str,
    words: &[&str],
    states: &[(usize, &[u8], &[u8])],
    end: &[u8],
) {
    let ended = written(rt, alloc, text, words);
    holds(rt, have_states(ended.out.taken(), states));
    holds(rt, ended.out.taken().ends_with(end));
    drop(ended);
}

const TO_TWO: [&str; 4] = ["rewind", "s", "x:4", "x:5"];

// Each branch has the event as its stop, and behind it stand the counters: how the state ended and how many events it has.
#[test]
fn rewinds_of_three_branches(rt: HostRuntime) {
    let alloc = rt.alloc();
    let text = branched(&rt, alloc);
    let end = b"\0\x03z\0\x03";
    rewinds(&rt, alloc, text.as_str(), &TO_THREE, &THREE_STATES, end);
    drop(text);
    // branches that leave at 1005, after events 3 and 4 of that time: x after event 4 has its edit, and hasn't ended
    let timed = timed(&rt, alloc, "when = 1005");
    let end = b"\0\x03z\0\x02";
    rewinds(&rt, alloc, timed.as_str(), &TO_TWO, &TWO_STATES, end);
    drop(timed);
}

// A failing call, and how many steps are counted and bytes taken: no write comes before the study's own steps.
const FAILING: [(u32, u64, usize); 4] = [(1, 18, 0), (2, 18, 418), (3, 22, 885), (4, 22, 1303)];

// A rewind whose write fails leaves a first part of the whole.
fn leaves_a_part<R: Abort + Threads + Wait + Sync>(
    rt: &R,
    alloc: Global,
    text: &str,
    row: &(u32, u64, usize),
    whole: &[u8],
) {
    let out = Room {
        failing: row.0,
        ..sized(4000, 1000)
    };
    let ended = ran(rt, alloc, &TO_THREE, &alone(text, out));
    holds(rt, is_write_fault(&ended, row.1));
    let bytes = ended.out.taken();
    holds(rt, whole.starts_with(bytes) & (bytes.len() == row.2));
    drop(ended);
}

#[test]
fn failing_writes_leave_a_first_part_of_rewinds(rt: HostRuntime) {
    let alloc = rt.alloc();
    let text = branched(&rt, alloc);
    let whole = written(&rt, alloc, text.as_str(), &TO_THREE);
    for row in FAILING.iter() {
        leaves_a_part(&rt, alloc, text.as_str(), row, whole.out.taken());
    }
    drop(whole);
    drop(text);
}

// The words, and at least and at most how many steps they count.
const PLACES: [(&[&str], u64, u64); 2] = [
    (
        &["rewind", "s", "tick5:7500", "--places=1", "--workers=4"],
        88_000,
        90_500,
    ),
    (
        &["rewind", "s", "tick5:7500", "--places=128"],
        88_500,
        88_500,
    ),
];

// Words write these bytes, and count at least and at most so many steps.
fn writes_by_places<R: Abort + Threads + Wait + Sync>(
    rt: &R,
    alloc: Global,
    text: &str,
    row: &(&[&str], u64, u64),
    bytes: &[u8],
) {
    let again = written(rt, alloc, text, row.0);
    holds(rt, again.out.taken() == bytes);
    holds(rt, (row.1 <= again.steps) & (again.steps <= row.2));
    drop(again);
}

const WITHOUT_PLACES: [&str; 4] = ["rewind", "s", "tick5:7500", "--places=0"];

// The large study of 20,000 events has a stride of 1,000. With no places a rewind goes from the end of a segment, with places
// enough from the last thousand, and the bytes are the same. Their sum is that of another program.
#[test]
fn places_save_steps_and_change_no_byte(rt: HostRuntime) {
    let alloc = rt.alloc();
    let text = study_text(alloc, 7, 20_000).expect(&rt, "memory");
    let first = written(&rt, alloc, text.as_str(), &WITHOUT_PLACES);
    equal(&rt, first.out.taken().len(), 13_634);
    equal(&rt, sum(first.out.taken()), 873_152);
    equal(&rt, first.steps, 90_500);
    for row in PLACES.iter() {
        writes_by_places(&rt, alloc, text.as_str(), row, first.out.taken());
    }
    drop(first);
    drop(text);
}
