//! One run over a library and sinks in memory.

use abides_run::{Status, run};
use outside::{Counted, Gate, MemoryLibrary, MemorySink, OpenGate, Steps};
use probe_desk::{Fees, Probe, Range, SpreadSum, Volume};
use std::alloc::Global;
use std::process::Abort;
use std::sync::Wait;
use std::thread::Threads;

fn words_of(rt: &impl Abort, alloc: Global, words: &[&str]) -> Vec<String> {
    let mut all = Vec::new(alloc);
    for word in words {
        let word = String::from_str(alloc, word).expect(rt, "memory");
        all.push(word).expect(rt, "memory");
    }
    all
}

/// How many bytes a sink takes, at most how many a call, and the call that fails; none at 0.
#[derive(Clone, Copy)]
pub struct Room {
    pub room: usize,
    pub most: usize,
    pub failing: u32,
}

/// Room for so many bytes, at most so many a call, where no call fails.
pub fn sized(room: usize, most: usize) -> Room {
    Room {
        room,
        most,
        failing: 0,
    }
}

/// Room for a hundred bytes of notes.
pub const NOTES: Room = Room {
    room: 100,
    most: 64,
    failing: 0,
};

const WRITE_FAILED: &[u8] = b"write failed\n";

/// What surrounds a run: the files `s` and `t`, the call of the library that fails (none at 0), and the sinks.
#[derive(Clone, Copy)]
pub struct Around<'a> {
    pub study: &'a str,
    pub series: &'a str,
    pub failing_read: u32,
    pub out: Room,
    pub notes: Room,
}

/// A study alone, where no call fails.
pub fn alone(study: &str, out: Room) -> Around<'_> {
    Around {
        study,
        series: "",
        failing_read: 0,
        out,
        notes: NOTES,
    }
}

/// How a run ended, its counted steps, and what was written.
#[derive(Drop)]
pub struct Ended {
    pub status: Status,
    pub steps: u64,
    pub out: MemorySink,
    pub notes: MemorySink,
}

// A library with the files `s` and `t`.
fn library(rt: &impl Abort, alloc: Global, around: &Around<'_>) -> MemoryLibrary {
    let study = around.study.as_bytes().to_vec(alloc).expect(rt, "memory");
    let series = around.series.as_bytes().to_vec(alloc).expect(rt, "memory");
    let s = String::from_str(alloc, "s").expect(rt, "memory");
    let t = String::from_str(alloc, "t").expect(rt, "memory");
    let mut files = Vec::new(alloc);
    files.push((s, study)).expect(rt, "memory");
    files.push((t, series)).expect(rt, "memory");
    let failing = vec![in alloc; around.failing_read].expect(rt, "memory");
    MemoryLibrary::new(files, failing).expect(rt, "a library takes no memory")
}

fn sink(rt: &impl Abort, alloc: Global, room: Room) -> MemorySink {
    let failing = vec![in alloc; room.failing].expect(rt, "memory");
    MemorySink::new(alloc, room.room, room.most, failing).expect(rt, "memory")
}

// A probe more.
fn join_probe(rt: &impl Abort, probes: &mut Vec<Box<dyn Probe>>, probe: Box<dyn Probe>) {
    probes.push(probe).expect(rt, "memory");
}

/// The probes of the program, in the order of their columns.
pub fn four_probes(rt: &impl Abort, alloc: Global) -> Vec<Box<dyn Probe>> {
    let mut probes: Vec<Box<dyn Probe>> = Vec::new(alloc);
    let volume = Box::new(alloc, Volume::new()).expect(rt, "memory");
    join_probe(rt, &mut probes, volume);
    let spreads = Box::new(alloc, SpreadSum::new()).expect(rt, "memory");
    join_probe(rt, &mut probes, spreads);
    let range = Box::new(alloc, Range::new()).expect(rt, "memory");
    join_probe(rt, &mut probes, range);
    let fees = Box::new(alloc, Fees::new()).expect(rt, "memory");
    join_probe(rt, &mut probes, fees);
    probes
}

/// Runs words with the program's probes.
pub fn ran<R: Abort + Threads + Wait + Sync>(
    rt: &R,
    alloc: Global,
    words: &[&str],
    around: &Around<'_>,
) -> Ended {
    ran_past(rt, alloc, words, around, four_probes(rt, alloc), &OpenGate)
}

/// The same with these probes and this gate.
pub fn ran_past<R: Abort + Threads + Wait + Sync, G: Gate + Sync>(
    rt: &R,
    alloc: Global,
    words: &[&str],
    around: &Around<'_>,
    probes: Vec<Box<dyn Probe>>,
    gate: &G,
) -> Ended {
    let words = words_of(rt, alloc, words);
    let ended = ran_words(rt, alloc, words.as_slice(), around, probes, gate);
    drop(words);
    ended
}

/// The same of words in a list.
pub fn ran_words<R: Abort + Threads + Wait + Sync, G: Gate + Sync>(
    rt: &R,
    alloc: Global,
    words: &[String],
    around: &Around<'_>,
    probes: Vec<Box<dyn Probe>>,
    gate: &G,
) -> Ended {
    let mut library = library(rt, alloc, around);
    let mut out = sink(rt, alloc, around.out);
    let mut notes = sink(rt, alloc, around.notes);
    let mut steps: Steps<Counted> = Steps::new();
    let status = run(
        rt,
        alloc,
        words,
        &mut library,
        &mut out,
        &mut notes,
        probes,
        gate,
        &mut steps,
    );
    Ended {
        status,
        steps: steps.close(),
        out,
        notes,
    }
}

/// Whether a run ended so after so many steps.
pub fn is_ended(ended: &Ended, status: Status, steps: u64) -> bool {
    (ended.status == status) & (ended.steps == steps)
}

/// Whether a run failed in a write after so many steps, and says so.
pub fn is_write_fault(ended: &Ended, steps: u64) -> bool {
    is_ended(ended, Status::WriteFault, steps) & (ended.notes.taken() == WRITE_FAILED)
}

/// Whether a run ended well, wrote these bytes and noted nothing.
pub fn is_whole(ended: &Ended, steps: u64, bytes: &[u8]) -> bool {
    is_ended(ended, Status::Ok, steps)
        & (ended.out.taken() == bytes)
        & ended.notes.taken().is_empty()
}
