//! The head of a frame and what follows it.

ghost use Rattle.std.specs.Prelude.{◌≡◌, ℕ, List, IfSome, Some, option_map};
ghost use Rattle.bundle_reader.specs.Heads.{IsLed};
ghost use Rattle.bundle_reader.specs.declared.head.Head.{Head};

use crate::head::Head;
use crate::head_type::HeadType;
use wire_fields::{MessageType, decode};

/// The fixed fields with which a frame's payload begins, and what follows them. `None` exactly where the payload begins
/// with no head: another letter, too few bytes, or a field out of its range. The messages of the feed have no head.
pub fn read_head(payload: &[u8]) -> Option<(Head, &[u8])>
    ensures led { IfSome result (λ p. IsLed payload.now p.0 p.1.now) }
    ensures only { (h : Head) (rest : List ℕ) → IsLed payload.now h rest → option_map {U = Head × List ℕ} (λ p. (p.0, p.1.now)) result ≡ Some (h, rest) }
{
    let Some(first) = payload.first() else {
        return None;
    };
    let Some(kind) = HeadType::of_letter(*first) else {
        return None;
    };
    let size = kind.size();
    if payload.len() < size {
        return None;
    }
    match decode::<HeadType>(&payload[..size]) {
        Ok(head) => Some((head, &payload[size..])),
        Err(_) => None,
    }
}
