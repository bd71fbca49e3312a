//! Whether bytes are a message of a type.

ghost use Rattle.std.specs.Prelude.{◌≡◌, ◌==◌, ◌+◌, ◌≤◌, ◌<◌, ◌^◌, length, OnOk, IsOk};
ghost use Rattle.std.specs.List.{list_all, prefix_len};
ghost use Rattle.wire_fields.specs.Kinds.{admits, is_filled, is_good};
ghost use Rattle.std.specs.Result.{result_err};
ghost use Rattle.wire_fields.specs.Wire.{total_width, bad_at, fault, Wire, IsSpelled, AreGood, wire_at};

use crate::kind::Kind;
use market_types::CodecError;

/// Tests that bytes, of which the first is their type's letter, have the length of these fields and each field its
/// range.
#[tactic(auto, unfolding(crate::specs::Wire::fault))]
pub fn check(bytes: &[u8], kinds: &[Kind]) -> Result<(), CodecError>
    requires { 1 + total_width kinds.now < 2 ^ 64 }
    ensures length { OnOk result (length bytes.now ≡ 1 + total_width kinds.now) }
    ensures good { OnOk result (AreGood kinds.now 1 bytes.now) }
    ensures spelled { OnOk result (IsSpelled bytes.now (wire_at kinds.now bytes.now)) }
    ensures only { (w : Wire) → w.kinds ≡ kinds.now → IsSpelled bytes.now w → IsOk result × (w ≡ wire_at kinds.now bytes.now) }
    ensures refused { result_err result ≡ fault kinds.now bytes.now }
{
    let needed = 1 + total_width(kinds);
    if bytes.len() != needed {
        return Err(CodecError::WrongLength(bytes.len(), needed));
    }
    match bad_at(bytes, kinds) {
        Some(offset) => Err(CodecError::BadField(offset)),
        None => Ok(()),
    }
}

/// The bytes of all the fields.
pub fn total_width(kinds: &[Kind]) -> usize
    requires { 1 + total_width kinds.now < 2 ^ 64 }
    ensures { result ≡ total_width kinds.now }
{
    let mut total = 0;
    for kind in kinds {
        total += kind.width();
    }
    total
}

// The least offset of a field that is out of its range.
fn bad_at(bytes: &[u8], kinds: &[Kind]) -> Option<usize>
    requires { length bytes.now ≡ 1 + total_width kinds.now }
    ensures { result ≡ bad_at kinds.now 1 bytes.now }
{
    let mut at = 1;
    for kind in kinds {
        let end = at + kind.width();
        if !is_good(kind, &bytes[at..end]) {
            return Some(at);
        }
        at = end;
    }
    None
}

// Whether these bytes may stand in a field.
#[tactic(auto, unfolding(crate::specs::Kinds::is_good))]
fn is_good(kind: &Kind, bytes: &[u8]) -> bool
    ensures { result ≡ is_good kind.now bytes.now }
{
    if kind.is_padded() {
        is_filled(kind, bytes)
    } else {
        are_admitted(kind, bytes)
    }
}

fn are_admitted(kind: &Kind, bytes: &[u8]) -> bool
    ensures { result ≡ list_all (admits kind.now) bytes.now }
{
    bytes.iter().all(|b| kind.admits(*b))
}

// Whether some bytes that the field admits stand first, and then only spaces.
fn is_filled(kind: &Kind, bytes: &[u8]) -> bool
    ensures { result ≡ is_filled (admits kind.now) bytes.now }
{
    let text = text_len(kind, bytes);
    text > 0 && is_blank(&bytes[text..])
}

fn text_len(kind: &Kind, bytes: &[u8]) -> usize
    ensures len { result ≡ prefix_len (admits kind.now) bytes.now }
    ensures within { result ≤ length bytes.now }
{
    bytes.iter().take_while(|b| kind.admits(**b)).count()
}

fn is_blank(bytes: &[u8]) -> bool
    ensures { result ≡ list_all (λ b. b == 32) bytes.now }
{
    bytes.iter().all(|b| *b == b' ')
}
