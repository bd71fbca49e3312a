//! Studies, and one run of the call over a library and sinks in memory.

use crate::runs;
use crate::runs::{Ended, Room, ran_words, sized};
use outside::OpenGate;
use probe_desk::Probe;
use std::alloc::Global;
use std::process::Abort;
use std::sync::Wait;
use std::thread::Threads;

/// Two watchers of one stock.
pub const WATCHERS: &str = "version = 1
key = \"0000000000000000000000000000000000000000000000000000000000000000\"
open = 1000
close = 2000
events = 100

[exchange]
group = 0
delay = 0

[latency]
base = [[5]]
jitter = [[0]]

[[stock]]
symbol = \"ABM\"
bands = [[0, 100]]
add = -20
take = 30
series = \"rule\"
start = 100000
mean = 100000
pull = 0
shock = 0
every = 1000000

[[agent]]
kind = \"watcher\"
group = 0
stock = \"ABM\"
first = 1000
every = 1000000
count = 2
";

// Three branches that leave the root after two events.
const BRANCHES: &str = "
[[branch]]
name = \"x\"
parent = \"root\"
at = 2
edit = [{ kind = \"latency\", from = 0, to = 0, base = 50, jitter = 0 }]

[[branch]]
name = \"y\"
parent = \"root\"
at = 2
edit = [{ kind = \"latency\", from = 0, to = 0, base = 7, jitter = 0 }]

[[branch]]
name = \"z\"
parent = \"root\"
at = 2
";

/// One watcher that would first wake after the close.
pub fn empty_study(rt: &impl Abort, alloc: Global) -> String {
    let closed = WATCHERS
        .replacen(alloc, "close = 2000", "close = 1000", 1)
        .expect(rt, "memory");
    let late = closed
        .replacen(alloc, "first = 1000", "first = 2000", 1)
        .expect(rt, "memory");
    drop(closed);
    let alone = late
        .replacen(alloc, "count = 2\n", "", 1)
        .expect(rt, "memory");
    drop(late);
    alone
}

/// The two watchers with three branches that leave the root after two events.
pub fn branched_study(rt: &impl Abort, alloc: Global) -> String {
    format!(in alloc; "{WATCHERS}{BRANCHES}").expect(rt, "memory")
}

/// What surrounds a run: the read and the write that fail (none at 0), and how many bytes the output and the notes take.
#[derive(Clone, Copy)]
pub struct Around {
    pub failing_read: u32,
    pub failing_write: u32,
    pub room: usize,
    pub notes_room: usize,
}

/// Where nothing fails.
pub const QUIET: Around = Around {
    failing_read: 0,
    failing_write: 0,
    room: 16_384,
    notes_room: 100,
};

// What stands between a line's spaces.
fn words_of(rt: &impl Abort, alloc: Global, line: &str) -> Vec<String> {
    let mut words = Vec::new(alloc);
    for word in line.split(' ') {
        let word = String::from_str(alloc, word).expect(rt, "memory");
        words.push(word).expect(rt, "memory");
    }
    words
}

/// Runs the words between a line's spaces on the study `s`, without probes. A sink takes at most 64 bytes a call.
pub fn ran<R: Abort + Threads + Wait + Sync>(
    rt: &R,
    alloc: Global,
    line: &str,
    study: &str,
    around: Around,
) -> Ended {
    ran_with(rt, alloc, line, study, around, Vec::new(alloc))
}

/// The same with these probes.
pub fn ran_with<R: Abort + Threads + Wait + Sync>(
    rt: &R,
    alloc: Global,
    line: &str,
    study: &str,
    around: Around,
    probes: Vec<Box<dyn Probe>>,
) -> Ended {
    let all_around = runs::Around {
        study,
        series: "",
        failing_read: around.failing_read,
        out: Room {
            room: around.room,
            most: 64,
            failing: around.failing_write,
        },
        notes: sized(around.notes_room, 64),
    };
    let words = words_of(rt, alloc, line);
    let ended = ran_words(rt, alloc, words.as_slice(), &all_around, probes, &OpenGate);
    drop(words);
    ended
}
