use crate::facts::holds;
use command_words::{Asked, Crossing, Mark, Request, Task, ask};
use std::alloc::Global;
use std::process::Abort;

// A mark in one text.
fn mark_told(rt: &impl Abort, alloc: Global, mark: &Mark<'_>) -> String {
    let (word, branch) = (mark.word.as_str(), mark.branch.as_str());
    format!(in alloc; "{word}={branch}@{}", mark.event).expect(rt, "memory")
}

// A study and the marks of a rewind, each behind a space.
fn marks_told(rt: &impl Abort, alloc: Global, study: &str, marks: &[Mark<'_>]) -> String {
    let mut text = String::from_str(alloc, study).expect(rt, "memory");
    for mark in marks {
        let told = mark_told(rt, alloc, mark);
        text.push(' ').expect(rt, "memory");
        text.push_str(told.as_str()).expect(rt, "memory");
        drop(told);
    }
    text
}

// A study and what a cross of it is asked for.
fn crossing_told(rt: &impl Abort, alloc: Global, study: &str, crossing: &Crossing<'_>) -> String {
    let (symbol, file) = (crossing.symbol.as_str(), crossing.file.as_str());
    let mark = mark_told(rt, alloc, &crossing.mark);
    format!(in alloc; "{study} {symbol} {file} {mark}").expect(rt, "memory")
}

// Two words.
fn both_told(rt: &impl Abort, alloc: Global, first: &str, second: &str) -> String {
    format!(in alloc; "{first} {second}").expect(rt, "memory")
}

// A command, what it is given, and its places.
fn placed_told(
    rt: &impl Abort,
    alloc: Global,
    command: &str,
    words: String,
    places: u32,
) -> String {
    let told = format!(in alloc; "{command} {words}, {places} places").expect(rt, "memory");
    drop(words);
    told
}

// What is to be done with a study, in one text, with the places that it has.
fn task_told(rt: &impl Abort, alloc: Global, task: &Task<'_>, study: &str) -> String {
    match task {
        Task::Run => both_told(rt, alloc, "run", study),
        Task::Table => both_told(rt, alloc, "table", study),
        Task::Check => both_told(rt, alloc, "check", study),
        Task::Rewind(marks, places) => {
            let words = marks_told(rt, alloc, study, marks.as_slice());
            placed_told(rt, alloc, "rewind", words, *places)
        }
        Task::Cross(crossing, places) => {
            let words = crossing_told(rt, alloc, study, crossing);
            placed_told(rt, alloc, "cross", words, *places)
        }
        Task::Session(script, places) => {
            let words = both_told(rt, alloc, study, script.as_str());
            placed_told(rt, alloc, "session", words, *places)
        }
    }
}

// What is asked for, in one text.
fn told(rt: &impl Abort, alloc: Global, asked: &Asked<'_>) -> String {
    let text = match &asked.request {
        Request::File(task, study) => task_told(rt, alloc, task, study.as_str()),
        Request::Large(number) => format!(in alloc; "big {number}").expect(rt, "memory"),
        Request::Bundle(bundle) => {
            format!(in alloc; "audit {}", bundle.as_str()).expect(rt, "memory")
        }
    };
    format!(in alloc; "{text}, {} workers", asked.workers).expect(rt, "memory")
}

// The words between a line's spaces.
fn words_of(rt: &impl Abort, alloc: Global, line: &str) -> Vec<String> {
    let mut words = Vec::new(alloc);
    for word in line.split(' ') {
        let word = String::from_str(alloc, word).expect(rt, "memory");
        words.push(word).expect(rt, "memory");
    }
    words
}

// What the words between a line's spaces ask for, in one text, and the empty text where they ask for nothing.
fn answer(rt: &impl Abort, alloc: Global, line: &str) -> String {
    let words = words_of(rt, alloc, line);
    match ask(alloc, words.as_slice()) {
        Ok(Some(asked)) => told(rt, alloc, &asked),
        Ok(None) => String::new(alloc),
        Err(_) => panic!(rt; "out of memory"),
    }
}

// Lines, each with what it asks for.
const TAKEN: [(&str, &str); 18] = [
    ("run s", "run s, 1 workers"),
    ("run s --workers=3", "run s, 3 workers"),
    ("--workers 64 run s --places=128", "run s, 64 workers"),
    ("run --places 0 s", "run s, 1 workers"),
    ("run s --workers 0001", "run s, 1 workers"),
    ("run -- s", "run s, 1 workers"),
    ("run -- -s", "run -s, 1 workers"),
    ("run é", "run é, 1 workers"),
    ("table s", "table s, 1 workers"),
    ("check -- --help", "check --help, 1 workers"),
    (
        "rewind s a:1 --places 3 _b-9:0000020",
        "rewind s a:1=a@1 _b-9:0000020=_b-9@20, 3 places, 1 workers",
    ),
    (
        "rewind s abcdefghijklmnopqrstuvwxyz012345:9999999",
        "rewind s abcdefghijklmnopqrstuvwxyz012345:9999999=abcdefghijklmnopqrstuvwxyz012345@9999999, 16 places, 1 workers",
    ),
    ("big 0007", "big 7, 1 workers"),
    ("big 9999", "big 9999, 1 workers"),
    (
        "cross s x:07 ABM --places 2 f",
        "cross s ABM f x:07=x@7, 2 places, 1 workers",
    ),
    (
        "cross s root:0  f --workers=3",
        "cross s  f root:0=root@0, 16 places, 3 workers",
    ),
    ("audit --places 0 b --workers=2", "audit b, 2 workers"),
    (
        "session s --places=128 c",
        "session s c, 128 places, 1 workers",
    ),
];

#[test]
fn lines_that_are_taken(rt: HostRuntime) {
    let alloc = rt.alloc();
    for (line, wanted) in TAKEN.iter() {
        holds(&rt, answer(&rt, alloc, line).as_str() == *wanted);
    }
}

const REFUSED: [&str; 61] = [
    "run",
    "run ",
    " s",
    "Run s",
    "walk s",
    "run s more",
    "run s ",
    "table s more",
    "check s more",
    "run -- s --workers 3",
    "run s --workers 65",
    "run s --workers 0",
    "run s --workers 00003",
    "run s --workers +3",
    "run s --workers -3",
    "run s --workers 3x",
    "run s --workers ",
    "run s --workers=",
    "run s --workers",
    "run s --workers 1 --workers 1",
    "run s --work 3",
    "run s --places 129",
    "run s --places 00016",
    "check s --places 129",
    "audit",
    "audit ",
    "audit b c",
    "audit b --workers 65",
    "audit b --places 129",
    "session s",
    "session s ",
    "session s c d",
    "session s c --places 129",
    "run s --help",
    "--help",
    "--version",
    "run s -h",
    "run s -x",
    "run -s",
    "rewind s",
    "rewind  a:1",
    "rewind s root",
    "rewind s root:",
    "rewind s :1",
    "rewind s root:12345678",
    "rewind s ROOT:1",
    "rewind s a:1:2",
    "rewind s a.b:1",
    "rewind s a:1 b:x",
    "rewind s abcdefghijklmnopqrstuvwxyz0123456:1",
    "cross s root:0 ABM",
    "cross s root:0 ABM ",
    "cross s root ABM f",
    "cross s root:0 ABM f g",
    "cross  root:0 ABM f",
    "rewind s -- a:1 --places",
    "big ",
    "big 10000",
    "big 00007",
    "big x",
    "big 7 more",
];

#[test]
fn lines_that_are_refused(rt: HostRuntime) {
    let alloc = rt.alloc();
    for line in REFUSED.iter() {
        holds(&rt, answer(&rt, alloc, line).is_empty());
    }
    let none: Vec<String> = Vec::new(alloc);
    holds(&rt, matches!(&ask(alloc, none.as_slice()), Ok(None)));
}

// A line with so many marks.
fn marked(rt: &impl Abort, alloc: Global, marks: u32) -> String {
    let mut line = String::from_str(alloc, "rewind s").expect(rt, "memory");
    for _ in 0..marks {
        line.push_str(" a:1").expect(rt, "memory");
    }
    line
}

#[test]
fn a_rewind_has_at_most_64_marks(rt: HostRuntime) {
    let alloc = rt.alloc();
    let line = marked(&rt, alloc, 64);
    let told = answer(&rt, alloc, line.as_str());
    let end = " a:1=a@1, 16 places, 1 workers";
    holds(&rt, told.as_str().ends_with(end));
    let longer = marked(&rt, alloc, 65);
    holds(&rt, answer(&rt, alloc, longer.as_str()).is_empty());
}
