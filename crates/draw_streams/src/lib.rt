//! Draws that are addressed by number.
//!
//! A draw is one 32-bit word of the ChaCha20 key stream (the block function of RFC 8439 with a
//! 64-bit block counter and a 64-bit nonce). It is fixed by a key of 32 bytes, the number of a
//! stream and its place in that stream, so an answer never depends on who drew first. Nothing is
//! allocated; a `Stream` keeps a block of words for the draws that follow.
#![tactic(auto)]

ghost use Rattle.std.specs.Prelude.{◌≡◌, ◌<◌, ◌≤◌, ◌^◌, pos, ◌≤ℤ◌, ◌-ℤ◌};
ghost use Rattle.draw_streams.specs.Below.{below_of};
ghost use Rattle.draw_streams.specs.Centred.{centred_of};
ghost use Rattle.draw_streams.specs.Draw.{draw_of};

use rand_chacha::ChaCha20Rng;
use rand_core::SeedableRng;
use rand_core::utils::NextWord;
pub use stream::Stream;

pub mod laws;
mod stream;
pub mod worked;

/// The draw at a place of a stream: word `place` of ChaCha20 under `key`, whose nonce is `stream`.
///
/// Place 0 is the first word of block 0, place 16 the first of block 1.
pub fn draw(key: &[u8; 32], stream: u64, place: u64) -> u32
    ensures { result ≡ draw_of key.now stream place }
{
    let mut words = ChaCha20Rng::from_seed(*key);
    words.set_stream(stream);
    words.set_word_pos(u128::from(place));
    words.next_word()
}

/// A number below `m`: the word's part of `m`, rounded down.
pub fn below(word: u32, m: u64) -> u32
    requires low { 1 ≤ m }
    requires high { m ≤ 2 ^ 32 }
    ensures value { result ≡ below_of word m }
    ensures bound { result < m }
{
    ((u64::from(word) * m) >> 32) as u32
}

/// A number from `-range` to `range`.
pub fn centred(word: u32, range: u32) -> i64
    requires { range ≤ 1000000000 }
    ensures value { result ≡ centred_of word range }
    ensures low { (pos 0 -ℤ pos range) ≤ℤ result }
    ensures high { result ≤ℤ pos range }
{
    i64::from(below(word, 2 * u64::from(range) + 1)) - i64::from(range)
}
