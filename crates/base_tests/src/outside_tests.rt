use crate::facts::{equal, holds};
use outside::{
    Counted, ErrSink, Failed, FetchError, Fetched, FileLibrary, Library, MemoryLibrary, MemorySink,
    OutSink, Sink, Steps, StreamSink, write_all,
};
use std::alloc::Global;
use std::fs;
use std::io::{Error, ErrorKind, Write};
use std::process::Abort;

// What a fetch answered, in words.
fn shown(answer: &Result<Fetched, FetchError>) -> &'static str {
    match answer {
        Ok(Fetched::Absent) => "absent",
        Ok(Fetched::TooLong) => "too long",
        Ok(Fetched::Whole(_)) => "whole",
        Err(FetchError::Failed) => "failed",
        Err(FetchError::Memory) => "memory",
    }
}

// Whether a fetch answered these bytes.
fn is_whole(answer: &Result<Fetched, FetchError>, bytes: &[u8]) -> bool {
    match answer {
        Ok(Fetched::Whole(held)) => held.as_slice() == bytes,
        _ => false,
    }
}

// A file, the most bytes of it, and what a fetch answers.
type Fetch = (&'static str, u64, &'static str);

// Whether a library answers a fetch so.
fn is_shown(alloc: Global, library: &mut impl Library, fetch: &Fetch) -> bool {
    let (name, most, want) = *fetch;
    shown(&library.fetch(alloc, name, most)) == want
}

// The same of fetches one after another.
fn assert_shown(rt: &impl Abort, alloc: Global, library: &mut impl Library, fetches: &[Fetch]) {
    for fetch in fetches {
        holds(rt, is_shown(alloc, library, fetch));
    }
}

const OF_THE_SYSTEM: [Fetch; 6] = [
    ("fetched.txt", 4999, "too long"),
    ("missing.txt", 9, "absent"),
    ("/dev/null", 0, "whole"),
    ("/dev/zero", 9, "too long"),
    (".", 9, "failed"),
    ("fetched.txt/x", 9, "failed"),
];

#[test]
fn files_of_the_system(rt: HostRuntime) {
    let sevens = vec![in rt.alloc(); 7; 5000].expect(&rt, "memory");
    holds(
        &rt,
        fs::write(&rt, "fetched.txt", sevens.as_slice()).is_ok(),
    );
    let mut library = FileLibrary::new(&rt);
    let whole = library.fetch(rt.alloc(), "fetched.txt", 5000);
    holds(&rt, is_whole(&whole, sevens.as_slice()));
    drop(whole);
    drop(sevens);
    assert_shown(&rt, rt.alloc(), &mut library, &OF_THE_SYSTEM);
    holds(&rt, fs::remove_file(&rt, "fetched.txt").is_ok());
}

#[test]
fn output_of_the_system(rt: HostRuntime) {
    let mut out = OutSink::new(rt.stdout());
    equal(&rt, out.write(b""), Ok(0));
    equal(&rt, out.write(b"out\n"), Ok(4));
}

#[test]
fn errors_of_the_system(rt: HostRuntime) {
    let mut errors = ErrSink::new(rt.stderr());
    equal(&rt, errors.write(b"err\n"), Ok(4));
}

// A stream that takes at most two bytes a call, and none of a piece that begins with `0`. It refuses a flush
// after a piece that begins with `f`, and a piece that begins with `w`.
#[derive(Drop)]
struct Narrow {
    flushes: bool,
}

impl Write for Narrow {
    fn write(&mut self, piece: &[u8]) -> Result<usize, Error> {
        self.flushes = piece.first() != Some(&b'f');
        match piece.first() {
            Some(b'0') => Ok(0),
            Some(b'w') => Err(Error::from(ErrorKind::BrokenPipe)),
            _ => Ok(piece.len().min(2)),
        }
    }

    fn flush(&mut self) -> Result<(), Error> {
        if self.flushes {
            return Ok(());
        }
        Err(Error::from(ErrorKind::BrokenPipe))
    }
}

// Pieces, each with what a stream takes of it.
const PIECES: [(&str, Result<usize, Failed>); 6] = [
    ("abc", Ok(2)),
    ("", Ok(0)),
    ("0", Err(Failed)),
    ("flush", Err(Failed)),
    ("write", Err(Failed)),
    ("d", Ok(1)),
];

#[test]
fn faults_of_a_stream(rt: HostRuntime) {
    let mut sink = StreamSink::new(Narrow { flushes: true });
    for (piece, want) in PIECES.iter() {
        holds(&rt, sink.write(piece.as_bytes()) == *want);
    }
}

// A library with one file of four bytes, whose second call fails.
fn one_file(rt: &impl Abort, alloc: Global) -> MemoryLibrary {
    let name = "study".to_string(alloc).expect(rt, "memory");
    let bytes = b"four".to_vec(alloc).expect(rt, "memory");
    let mut files = Vec::new(alloc);
    files.push((name, bytes)).expect(rt, "memory");
    let failing = vec![in alloc; 2].expect(rt, "memory");
    MemoryLibrary::new(files, failing).expect(rt, "a library takes no memory")
}

const IN_MEMORY: [Fetch; 4] = [
    ("study", 4, "whole"),
    ("study", 4, "failed"),
    ("study", 3, "too long"),
    ("stud", 4, "absent"),
];

#[test]
fn files_in_memory(rt: HostRuntime) {
    let mut library = one_file(&rt, rt.alloc());
    assert_shown(&rt, rt.alloc(), &mut library, &IN_MEMORY);
    let whole = library.fetch(rt.alloc(), "study", 9);
    holds(&rt, is_whole(&whole, b"four"));
    drop(whole);
    drop(library);
}

// Room, the most bytes a call, the failing call (0: none), and what is taken of ten bytes.
const TAKEN: [(usize, usize, u32, &str); 7] = [
    (10, 64, 0, "0123456789"),
    (10, 7, 0, "0123456789"),
    (10, 1, 0, "0123456789"),
    (10, 7, 1, ""),
    (10, 7, 2, "0123456"),
    (9, 7, 0, "012345678"),
    (10, 0, 0, ""),
];

// Compares what a sink takes of ten bytes.
fn assert_taken(rt: &impl Abort, alloc: Global, row: &(usize, usize, u32, &str)) {
    let (room, most, failing, want) = *row;
    let failing = vec![in alloc; failing].expect(rt, "memory");
    let mut sink = MemorySink::new(alloc, room, most, failing).expect(rt, "memory");
    let answer = write_all(&mut sink, b"0123456789");
    equal(rt, answer.is_ok(), want.len() == 10);
    holds(rt, sink.taken() == want.as_bytes());
    drop(sink);
}

#[test]
fn bytes_in_memory(rt: HostRuntime) {
    for row in TAKEN.iter() {
        assert_taken(&rt, rt.alloc(), row);
    }
}

#[test]
fn steps_are_counted(rt: HostRuntime) {
    let mut steps: Steps<Counted> = Steps::new();
    steps.tick();
    let mut part = steps.split();
    part.tick();
    part.tick();
    let before = steps.count();
    steps.join(part);
    let after = steps.close();
    equal(&rt, (before, after), (1, 3));
}
