//! Laws of numbers in bytes, and the definitions of fields on worked examples.

ghost use Rattle.std.specs.Prelude.{◌≡◌, ℕ, ◌<◌, ◌^◌, [], ◌∷◌, true, false, codes};
ghost use Rattle.wire_fields.specs.Kinds.{is_good};
ghost use Rattle.wire_fields.specs.Numbers.{number_bytes, number_of};
ghost use Rattle.wire_fields.specs.declared.kind.Kind.TheVariants as kind;

/// Numbers of n bytes, the most significant first.
pub fn number_bytes_both_ways()
    ensures shares { number_bytes 4 999999 ≡ 0 ∷ 15 ∷ 66 ∷ 63 ∷ [] }
    ensures timestamp { number_bytes 6 3000 ≡ 0 ∷ 0 ∷ 0 ∷ 0 ∷ 11 ∷ 184 ∷ [] }
    ensures read { number_of (0 ∷ 15 ∷ 66 ∷ 63 ∷ []) ≡ 999999 }
    ensures again { (n number : ℕ) → number < 256 ^ n → number_of (number_bytes n number) ≡ number }
{}

/// What may stand in a symbol, a token and a side.
#[tactic(auto, unfolding(crate::specs::Kinds::is_good))]
pub fn texts_and_sides()
    ensures symbol { is_good (kind.Text 8) (codes "ABM     ") ≡ true }
    ensures inner_blank { is_good (kind.Text 8) (codes "A BM    ") ≡ false }
    ensures no_symbol { is_good (kind.Text 8) (codes "        ") ≡ false }
    ensures token { is_good (kind.Alphanumeric 14) (codes "T0001000000001") ≡ true }
    ensures blank_first { is_good (kind.Alphanumeric 14) (codes " 0001000000001") ≡ false }
    ensures dash { is_good (kind.Alphanumeric 14) (codes "T-001         ") ≡ false }
    ensures buy { is_good kind.Side (codes "B") ≡ true }
    ensures neither { is_good kind.Side (codes "T") ≡ false }
    ensures blank_letter { is_good (kind.Letters 1) (codes " ") ≡ true }
    ensures no_letter { is_good (kind.Letters 1) (127 ∷ []) ≡ false }
    ensures any { is_good (kind.Bytes 2) (0 ∷ 255 ∷ []) ≡ true }
    ensures either { is_good (kind.Either (codes "DP")) (codes "P") ≡ true }
    ensures no_third { is_good (kind.Either (codes "DP")) (codes "Q") ≡ false }
    ensures one_of { is_good (kind.OneOf (codes "wioaq")) (codes "q") ≡ true }
    ensures no_sixth { is_good (kind.OneOf (codes "wioaq")) (codes "W") ≡ false }
    ensures live { is_good kind.OrderState (codes "L") ≡ true }
    ensures no_state { is_good kind.OrderState (codes "X") ≡ false }
    ensures quoted { is_good kind.TradingState (codes "Q") ≡ true }
    ensures no_trading { is_good kind.TradingState (codes "L") ≡ false }
{}
