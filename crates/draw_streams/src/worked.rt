//! What the definitions give on worked examples: known keys and words.
//!
//! The words are those of the block function in RFC 8439 (its section on test vectors and its
//! worked block). There the nonce has 96 bits and the block counter 32, here both have 64: the
//! first four bytes of that nonce are the high half of this counter, so that a word of block
//! `counter` has the place `(nonce_low * 2 ^ 32 + counter) * 16` and up.

ghost use Rattle.std.specs.Prelude.{◌≡◌, ◌^◌, pos, negsuc};
ghost use Rattle.draw_streams.specs.Below.{below_of};
ghost use Rattle.draw_streams.specs.Centred.{centred_of};
ghost use Rattle.draw_streams.specs.Draw.{draw_of};

/// The key of 32 zeros.
pub const ZERO_KEY: [u8; 32] = [0; 32];

/// The key of the bytes 0 to 31 in order.
pub const COUNTING_KEY: [u8; 32] = [
    0, 1, 2, 3, 4, 5, 6, 7, 8, 9, 10, 11, 12, 13, 14, 15, 16, 17, 18, 19, 20, 21, 22, 23, 24, 25,
    26, 27, 28, 29, 30, 31,
];

/// Words of the standard: two of block 0 and one of block 1 under the zero key, the first of a
/// block under a nonce whose last byte is 2, and the first and the last of the worked block.
pub fn words_of_the_standard()
    ensures first { draw_of ZERO_KEY 0 0 ≡ 0xade0b876 }
    ensures second { draw_of ZERO_KEY 0 1 ≡ 0x903df1a0 }
    ensures next_block { draw_of ZERO_KEY 0 16 ≡ 0xbee7079f }
    ensures other_stream { draw_of ZERO_KEY 0x0200000000000000 0 ≡ 0x374dc6c2 }
    ensures worked_first { draw_of COUNTING_KEY 0x4a000000 0x9000000000000010 ≡ 0xe4e7f110 }
    ensures worked_last { draw_of COUNTING_KEY 0x4a000000 0x900000000000001f ≡ 0x4e3c50a2 }
{}

/// Words scaled: to ten numbers, to one, to all words, and to numbers above and below zero.
pub fn scaled_words()
    ensures tenth { below_of 0x903df1a0 10 ≡ 5 }
    ensures one { below_of 0xffffffff 1 ≡ 0 }
    ensures whole { below_of 0xffffffff (2 ^ 32) ≡ 0xffffffff }
    ensures above_zero { centred_of 0xade0b876 1000 ≡ pos 359 }
    ensures least { centred_of 0 1000 ≡ negsuc 999 }
    ensures greatest { centred_of 0xffffffff 1000 ≡ pos 1000 }
{}
