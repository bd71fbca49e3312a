use crate::facts::{equal, holds};
use draw_streams::worked::{COUNTING_KEY, ZERO_KEY};
use draw_streams::{Stream, below, centred, draw};

// Words of RFC 8439 that follow one another in a key stream.
#[derive(Clone, Copy)]
struct Known {
    key: [u8; 32],
    stream: u64,
    start: u64,
    words: [u32; 4],
}

const FIRST_BLOCK: Known = Known {
    key: ZERO_KEY,
    stream: 0,
    start: 0,
    words: [0xade0b876, 0x903df1a0, 0xe56a5d40, 0x28bd8653],
};

const SECOND_BLOCK: Known = Known {
    start: 16,
    words: [0xbee7079f, 0x7a385155, 0x7c97ba98, 0x0d082d73],
    ..FIRST_BLOCK
};

// The nonce whose last byte is 2.
const OTHER_STREAM: Known = Known {
    stream: 0x0200000000000000,
    words: [0x374dc6c2, 0x3736d58c, 0xb904e24a, 0xcd3f93ef],
    ..FIRST_BLOCK
};

const WORKED_BLOCK: Known = Known {
    key: COUNTING_KEY,
    stream: 0x4a000000,
    start: 0x9000000000000010,
    words: [0xe4e7f110, 0x15593bd1, 0x1fdd0f50, 0xc47120a3],
};

const KNOWN: [Known; 4] = [FIRST_BLOCK, SECOND_BLOCK, OTHER_STREAM, WORKED_BLOCK];

// Whether each word is the one that is drawn at its place.
fn is_drawn(known: &Known) -> bool {
    for (i, word) in known.words.iter().enumerate() {
        let place = known.start.wrapping_add(i as u64);
        if draw(&known.key, known.stream, place) != *word {
            return false;
        }
    }
    true
}

#[test]
fn draws_the_words_of_the_standard(rt: HostRuntime) {
    for known in KNOWN.iter() {
        holds(&rt, is_drawn(known));
    }
}

#[test]
fn scales_words(rt: HostRuntime) {
    equal(&rt, below(0x903df1a0, 10), 5);
    equal(&rt, below(0x903df1a0, 1), 0);
    equal(&rt, below(0x903df1a0, 1 << 32), 0x903df1a0);
    equal(&rt, centred(0xade0b876, 1000), 359);
    equal(&rt, centred(0xade0b876, 0), 0);
    equal(&rt, centred(0, 1_000_000_000), -1_000_000_000);
}

// Words of the first stream under the zero key, each with its place.
const FIRST_WORDS: [(u64, u32); 6] = [
    (0, 0xade0b876),
    (1, 0x903df1a0),
    (2, 0xe56a5d40),
    (16, 0xbee7079f),
    (17, 0x7a385155),
    (1, 0x903df1a0),
];

#[test]
fn a_stream_gives_the_same_words(rt: HostRuntime) {
    let mut stream = Stream::new(0);
    for (place, word) in FIRST_WORDS.iter() {
        holds(&rt, stream.draw(&ZERO_KEY, *place) == *word);
    }
    let mut other = Stream::new(0x4a000000);
    let place = 0x9000000000000010;
    equal(&rt, other.draw(&COUNTING_KEY, place), 0xe4e7f110);
    equal(&rt, other.draw(&COUNTING_KEY, place + 1), 0x15593bd1);
    equal(
        &rt,
        other.draw(&ZERO_KEY, 5),
        draw(&ZERO_KEY, 0x4a000000, 5),
    );
}
