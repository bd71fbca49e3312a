use crate::facts::{equal, holds};
use bundle_reader::{Bundle, BundleError, read_bundle};
use market_types::{Entry, Trace};
use std::alloc::Global;
use std::process::Abort;

// The bundle of a run without events: two agents with the exchange, one stock, one branch.
const EMPTY_RUN: [u8; 402] = [
    0x00, 0x09, 0x68, 0x00, 0x01, 0x00, 0x02, 0x00, 0x01, 0x00, 0x01, 0x00, 0x0e, 0x62, 0x00, 0x00,
    0xff, 0xff, 0x00, 0x00, 0x00, 0x00, 0x04, 0x72, 0x6f, 0x6f, 0x74, 0x00, 0x0c, 0x53, 0x00, 0x00,
    0x00, 0x00, 0x00, 0x00, 0x00, 0x00, 0x03, 0xe8, 0x4f, 0x00, 0x27, 0x52, 0x00, 0x01, 0x00, 0x00,
    0x00, 0x00, 0x00, 0x00, 0x03, 0xe8, 0x41, 0x42, 0x4d, 0x20, 0x20, 0x20, 0x20, 0x20, 0x51, 0x4e,
    0x00, 0x00, 0x00, 0x64, 0x4e, 0x43, 0x5a, 0x20, 0x54, 0x4e, 0x4e, 0x20, 0x4e, 0x00, 0x00, 0x00,
    0x00, 0x4e, 0x00, 0x19, 0x48, 0x00, 0x01, 0x00, 0x00, 0x00, 0x00, 0x00, 0x00, 0x03, 0xe8, 0x41,
    0x42, 0x4d, 0x20, 0x20, 0x20, 0x20, 0x20, 0x54, 0x20, 0x20, 0x20, 0x20, 0x20, 0x00, 0x0c, 0x53,
    0x00, 0x00, 0x00, 0x00, 0x00, 0x00, 0x00, 0x00, 0x03, 0xe8, 0x43, 0x00, 0x42, 0x63, 0x43, 0x00,
    0x00, 0x00, 0x00, 0x00, 0x00, 0x00, 0x00, 0x00, 0x00, 0x03, 0xe8, 0x00, 0x00, 0x00, 0x00, 0x00,
    0x00, 0x00, 0x01, 0x00, 0x00, 0x00, 0x01, 0x00, 0x00, 0x00, 0x00, 0x00, 0x00, 0x00, 0x00, 0x00,
    0x00, 0x00, 0x00, 0x00, 0x00, 0x00, 0x00, 0x00, 0x00, 0x00, 0x00, 0x00, 0x00, 0x00, 0x00, 0x00,
    0x00, 0x00, 0x00, 0x00, 0x00, 0x00, 0x00, 0x00, 0x00, 0x00, 0x00, 0x00, 0x00, 0x00, 0x00, 0x00,
    0x2c, 0x73, 0x00, 0x00, 0x54, 0x00, 0x00, 0x00, 0x00, 0x00, 0x00, 0x00, 0x00, 0x00, 0x00, 0x00,
    0x00, 0x00, 0x00, 0x00, 0x00, 0x00, 0x00, 0x00, 0x00, 0x00, 0x00, 0x00, 0x00, 0x00, 0x00, 0x00,
    0x00, 0x00, 0x00, 0x00, 0x00, 0x00, 0x00, 0x00, 0x00, 0x00, 0x00, 0x00, 0x00, 0x00, 0x4e, 0x61,
    0x00, 0x00, 0x4e, 0x00, 0x00, 0x00, 0x00, 0x00, 0x00, 0x03, 0xe8, 0x00, 0x00, 0x00, 0x00, 0x00,
    0x00, 0x00, 0x00, 0x00, 0x00, 0x00, 0x00, 0x00, 0x00, 0x00, 0x00, 0x00, 0x00, 0x00, 0x00, 0x00,
    0x00, 0x00, 0x00, 0x00, 0x00, 0x00, 0x00, 0x00, 0x00, 0x00, 0x00, 0x00, 0x00, 0x00, 0x00, 0x00,
    0x00, 0x00, 0x00, 0x00, 0x00, 0x00, 0x00, 0x00, 0x00, 0x00, 0x00, 0x00, 0x00, 0x00, 0x00, 0x00,
    0x00, 0x00, 0x00, 0x00, 0x00, 0x00, 0x00, 0x00, 0x00, 0x00, 0x00, 0x00, 0x00, 0x00, 0x4e, 0x61,
    0x00, 0x01, 0x4e, 0x00, 0x00, 0x00, 0x00, 0x00, 0x00, 0x03, 0xe8, 0x00, 0x00, 0x00, 0x00, 0x00,
    0x00, 0x00, 0x00, 0x00, 0x00, 0x00, 0x00, 0x00, 0x00, 0x00, 0x00, 0x00, 0x00, 0x00, 0x00, 0x00,
    0x00, 0x00, 0x00, 0x00, 0x00, 0x00, 0x00, 0x00, 0x00, 0x00, 0x00, 0x00, 0x00, 0x00, 0x00, 0x00,
    0x00, 0x00, 0x00, 0x00, 0x00, 0x00, 0x00, 0x00, 0x00, 0x00, 0x00, 0x00, 0x00, 0x00, 0x00, 0x00,
    0x00, 0x00, 0x00, 0x00, 0x00, 0x00, 0x00, 0x00, 0x00, 0x00, 0x00, 0x00, 0x00, 0x00, 0x03, 0x7a,
    0x00, 0x01,
];

// Where its frames begin, as far as its first 200 bytes.
const STARTS: [usize; 8] = [0, 11, 27, 41, 82, 109, 123, 191];

// Up to which byte a change of one byte is answered so.
const CHANGED: [(usize, Option<BundleError>); 51] = [
    (1, Some(BundleError::Cut(402))),
    (5, Some(BundleError::BadFrame(0))),
    (7, Some(BundleError::BadOrder(397))),
    (9, Some(BundleError::BadOrder(82))),
    (11, Some(BundleError::BadOrder(397))),
    (12, Some(BundleError::Cut(391))),
    (14, Some(BundleError::BadFrame(11))),
    (16, Some(BundleError::BadOrder(11))),
    (22, None),
    (23, Some(BundleError::BadFrame(11))),
    (27, None),
    (28, Some(BundleError::Cut(375))),
    (30, Some(BundleError::BadFrame(27))),
    (40, None),
    (41, Some(BundleError::BadFrame(27))),
    (42, Some(BundleError::Cut(361))),
    (44, Some(BundleError::BadFrame(41))),
    (54, None),
    (64, Some(BundleError::BadFrame(41))),
    (68, None),
    (77, Some(BundleError::BadFrame(41))),
    (81, None),
    (82, Some(BundleError::BadFrame(41))),
    (83, Some(BundleError::Cut(320))),
    (85, Some(BundleError::BadFrame(82))),
    (95, None),
    (109, Some(BundleError::BadFrame(82))),
    (110, Some(BundleError::Cut(293))),
    (112, Some(BundleError::BadFrame(109))),
    (122, None),
    (123, Some(BundleError::BadFrame(109))),
    (124, Some(BundleError::Cut(279))),
    (126, Some(BundleError::BadFrame(123))),
    (191, None),
    (193, Some(BundleError::Cut(211))),
    (194, Some(BundleError::BadFrame(191))),
    (196, Some(BundleError::BadOrder(191))),
    (237, None),
    (239, Some(BundleError::Cut(165))),
    (240, Some(BundleError::BadFrame(237))),
    (242, Some(BundleError::BadOrder(237))),
    (243, Some(BundleError::BadFrame(237))),
    (317, None),
    (319, Some(BundleError::Cut(85))),
    (320, Some(BundleError::BadFrame(317))),
    (322, Some(BundleError::BadOrder(317))),
    (323, Some(BundleError::BadFrame(317))),
    (397, None),
    (399, Some(BundleError::Cut(5))),
    (400, Some(BundleError::BadFrame(397))),
    (402, Some(BundleError::BadOrder(397))),
];

// A bundle of one branch with no stocks and no agents, up to its entries, and what follows them.
const BEFORE: &[u8] =
    b"\x00\x09h\x00\x01\x00\x00\x00\x00\x00\x01\x00\x0eb\x00\x00\xff\xff\x00\x00\x00\x07\x04root\x00\x0cS\x00\x00\x00\x00\x00\x00\x00\x00\x03\xe8O";

const BEHIND: &[u8] =
    b"\x00\x0cS\x00\x00\x00\x00\x00\x00\x00\x00\x03\xe8C\x00BcC\x00\x00\x00\x00\x00\x00\x00\x00\x00\x00\x03\xe8\x00\x00\x00\x00\x00\x00\x00\x01\x00\x00\x00\x01\x00\x00\x00\x00\x00\x00\x00\x00\x00\x00\x00\x00\x00\x00\x00\x00\x00\x00\x00\x00\x00\x00\x00\x00\x00\x00\x00\x00\x00\x00\x00\x00\x00\x00\x00\x00\x00\x00\x00\x00\x00\x03z\x00\x01";

const EVENT: &[u8] =
    b"\x00+e\x00\x00\x00\x01\x00\x00\x00\x00\x00\x00\x03\xe8\x00\x00\x00\x00\x00\x00\x00\x00\x00\x01\x00\x01D\x00\x00\x00\x00\x00\x00\x03\xe8\x00\x00\x00\x00\x00\x00\x00\x00w";

const HALT: &[u8] = b"\x00\x12d\x00\x00\x00\x00\x00\x00\x00\x00\x00\x00\x03\xe8\x00\x00\x00\x00h";

const EARLIER_HALT: &[u8] =
    b"\x00\x12d\x00\x00\x00\x00\x00\x00\x00\x00\x00\x00\x03\xe7\x00\x00\x00\x00h";

const TICKS: &[u8] = b"\x00\x12d\x00\x00\x00\x00\x00\x00\x00\x00\x00\x00\x03\xe8\x00\x00\x00\x00t";

const TRADING: &[u8] =
    b"\x00\x19H\x00\x01\x00\x00\x00\x00\x00\x00\x03\xe8ABM\x20\x20\x20\x20\x20T\x20\x20\x20\x20\x20";

const DELETE: &[u8] =
    b"\x00\x13D\x00\x01\x00\x00\x00\x00\x00\x00\x03\xe8\x00\x00\x00\x00\x00\x00\x00\x00";

// What stands among the entries, and either how many messages each entry then has (of an event before it and after it, of
// an edit those that are its own) or where the frame begins that may not stand there.
const SPLITS: [(&[u8], Result<&[u8], usize>); 16] = [
    (b"", Ok(b"")),
    (b"eDD", Ok(b"02")),
    (b"eHe", Ok(b"0010")),
    (b"HHeD", Ok(b"21")),
    (b"hH", Ok(b"1")),
    (b"hHHe", Ok(b"110")),
    (b"tHe", Ok(b"010")),
    (b"lHe", Ok(b"010")),
    (b"hhHe", Ok(b"0100")),
    (b"eDHHeD", Ok(b"0121")),
    (b"eH", Err(72)),
    (b"hHH", Err(74)),
    (b"D", Err(0)),
    (b"hD", Err(20)),
    (b"HD", Err(27)),
    (b"Hh", Err(27)),
];

// The frame of a letter.
fn frame(letter: u8) -> &'static [u8] {
    match letter {
        b'e' => EVENT,
        b'h' => HALT,
        b't' => EARLIER_HALT,
        b'l' => TICKS,
        b'H' => TRADING,
        _ => DELETE,
    }
}

// Whether a digit is this count.
fn is_count(digit: u8, count: usize) -> bool {
    usize::from(digit.wrapping_sub(b'0')) == count
}

// Whether each entry has so many messages.
fn is_split(trace: &Trace, mut counts: &[u8]) -> bool {
    for entry in trace.as_slice() {
        let own = match entry {
            Entry::Event(event) => {
                let Some((before, rest)) = counts.split_first() else {
                    return false;
                };
                if !is_count(*before, event.before.len()) {
                    return false;
                }
                counts = rest;
                event.after.len()
            }
            Entry::Edit(edit) => edit.feed.len(),
        };
        let Some((first, rest)) = counts.split_first() else {
            return false;
        };
        if !is_count(*first, own) {
            return false;
        }
        counts = rest;
    }
    counts.is_empty()
}

// Whether what was read is a row's answer.
fn is_answer(read: Result<Bundle, BundleError>, answer: Result<&[u8], usize>) -> bool {
    let told = match (&read, answer) {
        (Ok(bundle), Ok(counts)) => match bundle.branches.get(0) {
            Some(branch) => is_split(&branch.entries, counts),
            None => false,
        },
        (Err(BundleError::BadOrder(offset)), Err(at)) => offset.wrapping_sub(BEFORE.len()) == at,
        _ => false,
    };
    drop(read);
    told
}

#[test]
fn the_empty_run(rt: HostRuntime) {
    let bundle = read_bundle(rt.alloc(), &EMPTY_RUN).expect(&rt, "a bundle");
    equal(
        &rt,
        (bundle.agents, bundle.stocks, bundle.branches.len()),
        (2, 1, 1),
    );
    let root = bundle.branches.get(0).expect(&rt, "a branch");
    holds(&rt, root.name.as_slice() == b"root".as_slice());
    equal(&rt, (root.parent, root.stop), (65_535, 0));
    holds(
        &rt,
        root.opening.len() == 3 && root.entries.is_empty() && root.ended.time == 1000,
    );
    let counts = root.closing.counts;
    holds(&rt, counts.end == b'C' && counts.waiting == 1);
    holds(
        &rt,
        root.closing.stocks.len() == 1 && root.closing.orders.len() == 0,
    );
    equal(&rt, root.closing.agents.len(), 2);
    drop(bundle);
}

#[test]
fn each_cut(rt: HostRuntime) {
    let mut start = 0;
    for n in 0..200 {
        if STARTS.contains(&n) {
            start = n;
        }
        let cut = read_bundle(rt.alloc(), &EMPTY_RUN[..n]).err();
        equal(&rt, cut, Some(BundleError::Cut(n.wrapping_sub(start))));
    }
}

// Whether the bundle with all bits of one byte changed is answered so.
fn is_told(alloc: Global, at: usize, answer: Option<BundleError>) -> bool {
    let mut bytes = EMPTY_RUN;
    if let Some(byte) = bytes.get_mut(at) {
        *byte ^= 0xff;
    }
    read_bundle(alloc, &bytes).err() == answer
}

#[test]
fn each_byte_changed(rt: HostRuntime) {
    let mut start = 0;
    for (end, answer) in CHANGED.iter() {
        for at in start..*end {
            holds(&rt, is_told(rt.alloc(), at, *answer));
        }
        start = *end;
    }
    equal(&rt, start, EMPTY_RUN.len());
}

// A bundle in which the frames of these letters stand among the entries.
fn bundle_of(rt: &impl Abort, alloc: Global, letters: &[u8]) -> Vec<u8> {
    let mut bytes = Vec::new(alloc);
    bytes.extend_from_slice(BEFORE).expect(rt, "memory");
    for letter in letters {
        bytes.extend_from_slice(frame(*letter)).expect(rt, "memory");
    }
    bytes.extend_from_slice(BEHIND).expect(rt, "memory");
    bytes
}

#[test]
fn the_split_of_the_feed(rt: HostRuntime) {
    for (letters, answer) in SPLITS.iter() {
        let bytes = bundle_of(&rt, rt.alloc(), letters);
        holds(&rt, is_answer(read_bundle(rt.alloc(), &bytes), *answer));
    }
}
