//! Writes and notes that fail.

use crate::facts::{ends, equal, holds};
use crate::fault_runs::{Around, QUIET, WATCHERS, branched_study, empty_study, ran};
use crate::runs::{is_whole, is_write_fault};
use abides_run::Status;
use std::alloc::Global;
use std::process::Abort;
use std::sync::Wait;
use std::thread::Threads;

// How many bytes a sink has taken before each of its calls, where pieces of these sizes are written to it.
fn taken_before_calls(rt: &impl Abort, alloc: Global, pieces: &[usize]) -> Vec<usize> {
    let mut taken = Vec::new(alloc);
    let mut before: usize = 0;
    for piece in pieces {
        for part in (0..*piece).step_by(64) {
            holds(rt, taken.push(before.saturating_add(part)).is_ok());
        }
        before = before.saturating_add(*piece);
    }
    taken
}

// A run of a study of so many steps, whose write of this number fails, has written these bytes.
fn fail_a_write<R: Abort + Threads + Wait + Sync>(
    rt: &R,
    alloc: Global,
    study: &str,
    steps: u64,
    call: u32,
    written: Option<&[u8]>,
) {
    let around = Around {
        failing_write: call,
        ..QUIET
    };
    let ran = ran(rt, alloc, "run s", study, around);
    holds(rt, is_write_fault(&ran, steps));
    holds(rt, written == Some(ran.out.taken()));
    drop(ran);
}

// A run of a study of so many steps that has no write of this number writes the whole.
fn fail_no_write<R: Abort + Threads + Wait + Sync>(
    rt: &R,
    alloc: Global,
    study: &str,
    steps: u64,
    call: u32,
    whole: &[u8],
) {
    let around = Around {
        failing_write: call,
        ..QUIET
    };
    let ran = ran(rt, alloc, "run s", study, around);
    holds(rt, is_whole(&ran, steps, whole));
    drop(ran);
}

// Runs a study of so many steps once for each write, which fails, and once more; the writes are given by how many bytes were
// taken before each.
fn fail_in_turn<R: Abort + Threads + Wait + Sync>(
    rt: &R,
    alloc: Global,
    study: &str,
    steps: u64,
    calls: &[usize],
    whole: &[u8],
) {
    let mut call = 1;
    for taken in calls {
        fail_a_write(rt, alloc, study, steps, call, whole.get(..*taken));
        call = call.saturating_add(1);
    }
    fail_no_write(rt, alloc, study, steps, call, whole);
}

// The same; the pieces are the sizes of its header, then for each branch of what stands before the entries, of the entries of
// each segment and of what stands behind, and of its end.
fn fail_each_write<R: Abort + Threads + Wait + Sync>(
    rt: &R,
    alloc: Global,
    study: &str,
    steps: u64,
    pieces: &[usize],
) -> usize {
    let calls = taken_before_calls(rt, alloc, pieces);
    let ran = ran(rt, alloc, "run s", study, QUIET);
    fail_in_turn(rt, alloc, study, steps, calls.as_slice(), ran.out.taken());
    let size = ran.out.taken().len();
    drop(ran);
    drop(calls);
    size
}

const EMPTY_PIECES: [usize; 5] = [11, 98, 0, 288, 5];

const BRANCHED_PIECES: [usize; 18] = [
    11, 98, 90, 246, 368, 95, 90, 266, 368, 95, 90, 266, 368, 95, 90, 246, 368, 5,
];

#[test]
fn each_write_fails_in_turn(rt: HostRuntime) {
    let alloc = rt.alloc();
    let empty = empty_study(&rt, alloc);
    let size = fail_each_write(&rt, alloc, empty.as_str(), 0, &EMPTY_PIECES);
    drop(empty);
    equal(&rt, size, 402);
    let branched = branched_study(&rt, alloc);
    let size = fail_each_write(&rt, alloc, branched.as_str(), 18, &BRANCHED_PIECES);
    drop(branched);
    equal(&rt, size, 3255);
}

// A run without room fails in its first write.
fn has_no_room<R: Abort + Threads + Wait + Sync>(
    rt: &R,
    alloc: Global,
    line: &str,
    study: &str,
    steps: u64,
) -> bool {
    let around = Around { room: 0, ..QUIET };
    let ran = ran(rt, alloc, line, study, around);
    let has_none = is_write_fault(&ran, steps) & ran.out.taken().is_empty();
    drop(ran);
    has_none
}

#[test]
fn a_sink_without_room_is_a_fault(rt: HostRuntime) {
    let alloc = rt.alloc();
    let study = branched_study(&rt, alloc);
    holds(&rt, has_no_room(&rt, alloc, "run s", study.as_str(), 18));
    holds(&rt, has_no_room(&rt, alloc, "check s", study.as_str(), 0));
    drop(study);
}

// The words, the study, the read that fails, the room of the output, and how the run ends.
const ROWS: [(&str, &str, u32, usize, Status); 9] = [
    ("run s", WATCHERS, 0, 1000, Status::Ok),
    ("ran s", WATCHERS, 0, 1000, Status::Usage),
    ("run s", "series = \"u\"", 0, 1000, Status::NoStudy),
    (
        "run s",
        "version = 2",
        0,
        1000,
        Status::Refused { rule: 1, place: 2 },
    ),
    ("run s", WATCHERS, 1, 1000, Status::ReadFault),
    ("run s", WATCHERS, 0, 100, Status::WriteFault),
    ("check s", WATCHERS, 0, 0, Status::WriteFault),
    ("rewind s x:0", WATCHERS, 0, 1000, Status::NoBranch),
    ("rewind s root:7", WATCHERS, 0, 1000, Status::NoEvent),
];

// A run ends so with this room for notes, and notes nothing where it ended well or has no room.
fn ends_so<R: Abort + Threads + Wait + Sync>(
    rt: &R,
    alloc: Global,
    row: &(&str, &str, u32, usize, Status),
    notes_room: usize,
) {
    let around = Around {
        failing_read: row.2,
        failing_write: 0,
        room: row.3,
        notes_room,
    };
    let ran = ran(rt, alloc, row.0, row.1, around);
    let (status, is_silent) = (ran.status, ran.notes.taken().is_empty());
    drop(ran);
    ends(rt, status, row.4);
    equal(rt, is_silent, notes_room == 0 || row.4 == Status::Ok);
}

#[test]
fn notes_that_fail_change_no_status(rt: HostRuntime) {
    let alloc = rt.alloc();
    for row in ROWS.iter() {
        // notes with room, and without: there each write fails
        ends_so(&rt, alloc, row, 100);
        ends_so(&rt, alloc, row, 0);
    }
}
