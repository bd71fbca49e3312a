//! Bytes of tokens and symbols, compared as numbers of eight bytes.

ghost use Rattle.std.specs.Prelude.{◌≡◌, bytes_eq, take, drop};
ghost use Rattle.std.specs.Int.{w64, from_be_bytes};
ghost use Rattle.std.specs.Ordering.{nat_cmp};
ghost use Rattle.std.specs.Cmp.Lexicographic.{slice_cmp};

use std::cmp::Ordering;

/// The order of two tokens' bytes, by two numbers of eight bytes each.
pub fn compared(left: &[u8; 14], right: &[u8; 14]) -> Ordering
    ensures { result ≡ slice_cmp nat_cmp left.now right.now }
{
    match head(left).cmp(&head(right)) {
        Ordering::Equal => tail(left).cmp(&tail(right)),
        order => order,
    }
}

// Whether two tokens are the same, by two numbers of eight bytes each.
pub(crate) fn is_same_token(left: &[u8; 14], right: &[u8; 14]) -> bool
    ensures { result ≡ bytes_eq left.now right.now }
{
    let last = tail(left) == tail(right);
    let first = head(left) == head(right);
    last & first
}

/// Whether two symbols' bytes are the same, by one number each.
pub fn is_same(left: &[u8; 8], right: &[u8; 8]) -> bool
    ensures { result ≡ bytes_eq left.now right.now }
{
    u64::from_be_bytes(*left) == u64::from_be_bytes(*right)
}

// The number of a token's first eight bytes, the first byte the highest.
fn head(token: &[u8; 14]) -> u64
    ensures { result ≡ from_be_bytes w64 (take 8 token.now) }
{
    u64::from_be_bytes([
        token[0], token[1], token[2], token[3], token[4], token[5], token[6], token[7],
    ])
}

// The number of a token's last eight bytes, of which two are in the head.
fn tail(token: &[u8; 14]) -> u64
    ensures { result ≡ from_be_bytes w64 (drop 6 token.now) }
{
    u64::from_be_bytes([
        token[6], token[7], token[8], token[9], token[10], token[11], token[12], token[13],
    ])
}
