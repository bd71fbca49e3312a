//! Words as numbers.

ghost use Rattle.std.specs.Prelude.{◌≡◌, ℕ, ◌<◌};
ghost use Rattle.checkpoint_shelf.specs.Codes.{place_code, key_code, WordFits, KeyFits, place_word_in};

use shelf_core::{Key, PlaceWord};

fn key_bits(key: Key) -> u64
    requires { KeyFits key }
    ensures { result ≡ key_code key }
{
    u64::from(key.segment) * 16_777_216 + u64::from(key.event)
}

// The number of a place's word.
pub(crate) fn encode(word: PlaceWord) -> u64
    requires { WordFits word }
    ensures { result ≡ place_code word }
{
    match word {
        PlaceWord::Free => 0,
        PlaceWord::Writing(n) => u64::from(n) * 4 + 1,
        PlaceWord::Ready(key) => key_bits(key) * 256 + 2,
        PlaceWord::Lent(key, n) => key_bits(key) * 256 + u64::from(n) * 4 + 3,
    }
}

// The word that a number stands for.
pub(crate) fn decode(n: u64) -> PlaceWord
    ensures { result ≡ place_word_in n }
{
    let number = (n / 4 % 64) as u32;
    let key = Key {
        segment: (n / 4_294_967_296 % 4096) as u32,
        event: (n / 256 % 16_777_216) as u32,
    };
    match n % 4 {
        0 => PlaceWord::Free,
        1 => PlaceWord::Writing(number),
        2 => PlaceWord::Ready(key),
        _ => PlaceWord::Lent(key, number),
    }
}
