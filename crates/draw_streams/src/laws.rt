//! Laws of the definitions.

ghost use Rattle.std.specs.Prelude.{◌<◌, ◌≤◌, ◌^◌, ℕ, List};
ghost use Rattle.draw_streams.specs.Below.{below_of};
ghost use Rattle.draw_streams.specs.Draw.{draw_of};

/// Each draw has 32 bits.
pub fn draws_have_32_bits()
    ensures { (key : List ℕ) (stream place : ℕ) → draw_of key stream place < 2 ^ 32 }
{}

/// A word that is scaled to a limit lies below it.
pub fn scaled_words_lie_below()
    ensures { (word m : ℕ) → word < 2 ^ 32 → 1 ≤ m → below_of word m < m }
{}
