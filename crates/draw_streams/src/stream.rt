//! One stream that keeps a run of its words.

ghost use Rattle.std.specs.Prelude.{◌≡◌, ◌+◌, ◌<◌, ◌≤◌, ℕ, bytes_eq, slice_index};
ghost use Rattle.draw_streams.specs.Draw.{draw_of};
ghost use Rattle.draw_streams.specs.Keys.{number_at, same_numbers};
ghost use Rattle.rand_chacha.specs.ChaCha.{key_of};

use rand_chacha::ChaCha20Rng;
use rand_core::SeedableRng;
use rand_core::utils::NextWord;
use std::marker::Model;

// So many words are kept: the blocks that the generator makes at a time.
const KEPT: usize = 64;

// The words of a block.
const BLOCK: u64 = 16;

/// A stream of draws, seen as its number. It keeps the words round its last draw, so that draws at
/// places near one another are made from the same blocks, in any order: an answer never depends on
/// what is kept.
#[derive(Drop)]
pub struct Stream {
    number: u64,
    key: [u8; 32],
    // The place of the first word that is kept.
    first: u64,
    // How many are: all, or none before the first draw.
    count: u64,
    words: [u32; KEPT],
}

impl Model for Stream {
    ghost use Rattle.std.specs.Prelude.{◌≡◌, ◌+◌, ◌<◌, ◌≤◌, ℕ, slice_index};
    ghost use Rattle.draw_streams.specs.Draw.{draw_of};

    ghost Value = { ℕ };

    ghost view = { λ s. s.number };

    ghost invariant = { λ s. record {
      within : s.count ≤ 64;
      kept : (i : ℕ) → i < s.count → slice_index s.words i ≡ draw_of s.key s.number (s.first + i);
    } };
}

// The generator at a place of a stream under a key.
fn generator(key: &[u8; 32], number: u64, place: u64) -> ChaCha20Rng
    ensures { result ≡ record { key = key_of key.now; stream = number; word_pos = place } }
{
    let mut words = ChaCha20Rng::from_seed(*key);
    words.set_stream(number);
    words.set_word_pos(u128::from(place));
    words
}

// The words of a stream under a key from a place on.
fn words_from(key: &[u8; 32], number: u64, first: u64) -> [u32; KEPT]
    ensures { (i : ℕ) → i < 64 → slice_index result i ≡ draw_of key.now number (first + i) }
{
    let mut generator = generator(key, number, first);
    let mut words = [0; KEPT];
    'words: for i in 0..KEPT {
        words[i] = generator.next_word();
    }
    words
}

// The number of the eight bytes of a key from a place on, the first byte the lowest.
fn number_at(key: &[u8; 32], at: usize) -> u64
    requires { at ≤ 24 }
    ensures { result ≡ number_at key.now at }
{
    u64::from_le_bytes([
        key[at],
        key[at + 1],
        key[at + 2],
        key[at + 3],
        key[at + 4],
        key[at + 5],
        key[at + 6],
        key[at + 7],
    ])
}

// Whether the four numbers of two keys are the same.
fn has_same_numbers(left: &[u8; 32], right: &[u8; 32]) -> bool
    ensures { result ≡ same_numbers left.now right.now }
{
    number_at(left, 0) == number_at(right, 0)
        && number_at(left, 8) == number_at(right, 8)
        && number_at(left, 16) == number_at(right, 16)
        && number_at(left, 24) == number_at(right, 24)
}

// Whether two keys are the same.
fn is_same(left: &[u8; 32], right: &[u8; 32]) -> bool
    ensures { result ≡ bytes_eq left.now right.now }
{
    has_same_numbers(left, right)
}

impl Stream {
    /// The stream of this number.
    pub fn new(number: u64) -> Stream
        ensures { result ≡ number }
    {
        Stream {
            number,
            key: [0; 32],
            first: 0,
            count: 0,
            words: [0; KEPT],
        }
    }

    /// An equal stream, which keeps the same words.
    pub fn copy(&self) -> Stream
        ensures { result ≡ self.now }
    {
        Stream {
            number: self.number,
            key: self.key,
            first: self.first,
            count: self.count,
            words: self.words,
        }
    }

    /// The draw at a place under a key.
    pub fn draw(&mut self, key: &[u8; 32], place: u64) -> u32
        ensures value { result ≡ draw_of key.now self.old place }
        ensures stream { self.new ≡ self.old }
    {
        if place < self.first {
            return self.refill(key, place);
        }
        let ahead = place - self.first;
        if ahead < self.count && is_same(&self.key, key) {
            return self.words[ahead as usize];
        }
        self.refill(key, place)
    }

    // The draw at a place, whose block is made anew and kept with those after it.
    fn refill(&mut self, key: &[u8; 32], place: u64) -> u32
        ensures value { result ≡ draw_of key.now self.old place }
        ensures stream { self.new ≡ self.old }
    {
        let ahead = place % BLOCK;
        self.first = place - ahead;
        self.words = words_from(key, self.number, self.first);
        self.key = *key;
        self.count = KEPT as u64;
        self.words[ahead as usize]
    }
}
