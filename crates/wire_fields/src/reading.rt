//! Values of fields at their offsets.

ghost use Rattle.std.specs.Prelude.{◌≡◌, ◌+◌, ◌-◌, ◌≤◌, ◌<◌, ◌^◌, [], ◌∷◌, ◌++◌, replicate, take, drop, length, IsTrue};
ghost use Rattle.wire_fields.specs.Kinds.{is_good};
ghost use Rattle.wire_fields.specs.Numbers.{number_of};
ghost use Rattle.wire_fields.specs.Values.{side_letter};
ghost use Rattle.wire_fields.specs.declared.kind.Kind.TheVariants as kind;

use market_types::Side;

// The number of the `n` bytes at an offset.
fn number_at(bytes: &[u8], at: usize, n: usize) -> u64
    requires within { at + n ≤ length bytes.now }
    requires width { n ≤ 8 }
    ensures number { result ≡ number_of (take n (drop at bytes.now)) }
    ensures bound { result < 256 ^ n }
{
    u64::from_be_bytes(widened(&bytes[at..at + n]))
}

// Eight bytes of the same number.
fn widened(bytes: &[u8]) -> [u8; 8]
    requires { length bytes.now ≤ 8 }
    ensures { result ≡ replicate (8 - length bytes.now) 0 ++ bytes.now }
{
    let mut whole = [0; 8];
    whole[8 - bytes.len()..].copy_from_slice(bytes);
    whole
}

/// The number of the two bytes at an offset.
pub fn u16_at(bytes: &[u8], at: usize) -> u16
    requires { at + 2 ≤ length bytes.now }
    ensures { result ≡ number_of (take 2 (drop at bytes.now)) }
{
    number_at(bytes, at, 2) as u16
}

/// The number of the four bytes at an offset.
pub fn u32_at(bytes: &[u8], at: usize) -> u32
    requires { at + 4 ≤ length bytes.now }
    ensures { result ≡ number_of (take 4 (drop at bytes.now)) }
{
    number_at(bytes, at, 4) as u32
}

/// The number of the six bytes at an offset.
pub fn u48_at(bytes: &[u8], at: usize) -> u64
    requires { at + 6 ≤ length bytes.now }
    ensures { result ≡ number_of (take 6 (drop at bytes.now)) }
{
    number_at(bytes, at, 6)
}

/// The number of the eight bytes at an offset.
pub fn u64_at(bytes: &[u8], at: usize) -> u64
    requires { at + 8 ≤ length bytes.now }
    ensures { result ≡ number_of (take 8 (drop at bytes.now)) }
{
    number_at(bytes, at, 8)
}

/// The byte at an offset.
pub fn byte_at(bytes: &[u8], at: usize) -> u8
    requires { at < length bytes.now }
    ensures { result ∷ [] ≡ take 1 (drop at bytes.now) }
{
    bytes[at]
}

/// The `N` bytes at an offset.
pub fn array_at<const N: usize>(bytes: &[u8], at: usize) -> [u8; N]
    requires { at + N ≤ length bytes.now }
    ensures { result ≡ take N (drop at bytes.now) }
{
    let mut array = [0; N];
    array.copy_from_slice(&bytes[at..at + N]);
    array
}

/// The side whose letter stands at an offset.
#[tactic(auto, unfolding(crate::specs::Kinds::is_good))]
pub fn side_at(bytes: &[u8], at: usize) -> Side
    requires within { at < length bytes.now }
    requires letter { IsTrue (is_good kind.Side (take 1 (drop at bytes.now))) }
    ensures { side_letter result ∷ [] ≡ take 1 (drop at bytes.now) }
{
    match bytes[at] {
        b'B' => Side::Buy,
        _ => Side::Sell,
    }
}
