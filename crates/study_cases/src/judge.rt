//! One run of the program over files and sinks in memory, and how it ended.

use abides_run::{Status, run};
use anyhow::Result;
use outside::{Counted, Memory, MemoryLibrary, MemorySink, OpenGate, Steps};
use probe_desk::{Fees, Probe, Range, SpreadSum, Volume};
use std::alloc::{AllocError, Global};
use std::str::from_utf8;
use std::sync::Wait;
use std::thread::Threads;

/// What a run is given beside its words.
#[derive(Drop)]
pub struct Given {
    /// The study, which has the name `s`.
    pub study: Vec<u8>,
    /// The series file, which has the name `t`.
    pub series: Vec<u8>,
    /// The number of the read that fails, from 1 on; 0 where none does.
    pub failing: u32,
}

// How a run ended, its counted steps, and what was written.
#[derive(Drop)]
struct Ended {
    status: Status,
    steps: u64,
    out: MemorySink,
    notes: MemorySink,
}

// The words of a line; none where it is empty.
fn words_of(alloc: Global, line: &str) -> Result<Vec<String>, AllocError> {
    let mut words = Vec::new(alloc);
    if !line.is_empty() {
        for word in line.split(' ') {
            words.push(String::from_str(alloc, word)?)?;
        }
    }
    Ok(words)
}

// A library with the study and the series file.
fn library_of(alloc: Global, given: Given) -> Result<MemoryLibrary, AllocError> {
    let mut files = Vec::with_capacity(alloc, 2)?;
    files.push((String::from_str(alloc, "s")?, given.study))?;
    files.push((String::from_str(alloc, "t")?, given.series))?;
    let mut failing = Vec::new(alloc);
    failing.push(given.failing)?;
    match MemoryLibrary::new(files, failing) {
        Ok(library) => Ok(library),
        Err(Memory) => Err(AllocError),
    }
}

// A sink that takes at most 64 bytes a call.
fn sink(alloc: Global, room: usize) -> Result<MemorySink, AllocError> {
    match MemorySink::new(alloc, room, 64, Vec::new(alloc)) {
        Ok(sink) => Ok(sink),
        Err(Memory) => Err(AllocError),
    }
}

// Runs the words of a line.
fn ran<R: Threads + Wait + Sync>(
    rt: &R,
    alloc: Global,
    line: &str,
    given: Given,
) -> Result<Ended, AllocError> {
    let words = words_of(alloc, line)?;
    let mut library = library_of(alloc, given)?;
    let mut out = sink(alloc, 1_000_000)?;
    let mut notes = sink(alloc, 100)?;
    let mut probes: Vec<Box<dyn Probe>> = Vec::new(alloc);
    probes.push(Box::new(alloc, Volume::new())?)?;
    probes.push(Box::new(alloc, SpreadSum::new())?)?;
    probes.push(Box::new(alloc, Range::new())?)?;
    probes.push(Box::new(alloc, Fees::new())?)?;
    let mut steps: Steps<Counted> = Steps::new();
    let status = run(
        rt,
        alloc,
        &words,
        &mut library,
        &mut out,
        &mut notes,
        probes,
        &OpenGate,
        &mut steps,
    );
    let steps = steps.close();
    Ok(Ended {
        status,
        steps,
        out,
        notes,
    })
}

// The sum of the bytes.
fn sum(bytes: &[u8]) -> u64 {
    let mut sum: u64 = 0;
    for byte in bytes {
        sum = sum.wrapping_add(u64::from(*byte));
    }
    sum
}

// Bytes as text; none of those that are no text, or have a zero byte.
fn shown(bytes: &[u8]) -> &str {
    match from_utf8(bytes) {
        Ok(text) if !bytes.contains(&0) => text,
        _ => "",
    }
}

// A status as its number, and the rule and the place that refuse the study.
fn shown_status(alloc: Global, status: Status) -> Result<String, AllocError> {
    let code = status.code();
    match status {
        Status::Refused { rule, place } => format!(in alloc; "{code} {rule} {place}"),
        _ => format!(in alloc; "{code}"),
    }
}

/// Runs the words between a line's spaces, and prints how the run ended, with a tab between two of: the name of the case; the
/// status, with the rule and the place that refuse the study; the counted steps; how many bytes the output took; their sum;
/// and, where there is any, the text that the output and the notes took, as it stands.
///
/// # Errors
/// Where memory is wanting, or where printing fails.
pub fn tell<R: Print + Threads + Wait + Sync>(
    rt: &R,
    alloc: Global,
    name: &str,
    line: &str,
    given: Given,
) -> Result<()> {
    let ended = ran(rt, alloc, line, given)?;
    let status = shown_status(alloc, ended.status)?;
    let steps = ended.steps;
    let bytes = ended.out.taken();
    let (size, sum) = (bytes.len(), sum(bytes));
    let (text, note) = (shown(bytes), shown(ended.notes.taken()));
    let between = if text.is_empty() && note.is_empty() {
        "\n"
    } else {
        "\t"
    };
    print!(rt; "{name}\t{status}\t{steps}\t{size}\t{sum}{between}{text}{note}")?;
    Ok(())
}
