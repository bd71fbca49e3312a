//! Numbers whose types are as wide as their fields.

ghost use Rattle.std.specs.Prelude.{◌≡◌};
ghost use Rattle.audit_desk.specs.Clipped.{clipped_number, clipped_signed, clipped_wide};

// Two bytes.
pub(crate) fn two(n: u16)
    ensures { clipped_number 2 n ≡ n }
{}

// Four bytes.
pub(crate) fn four(n: u32)
    ensures { clipped_number 4 n ≡ n }
{}

// Eight bytes.
pub(crate) fn eight(n: u64)
    ensures { clipped_number 8 n ≡ n }
{}

// Eight bytes with a sign.
pub(crate) fn signed(z: i64)
    ensures { clipped_signed z ≡ z }
{}

// Sixteen bytes with a sign.
pub(crate) fn signed_wide(z: i128)
    ensures { clipped_wide z ≡ z }
{}
