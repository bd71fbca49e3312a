//! Numbers and lists of numbers behind the fixed fields.

ghost use Rattle.std.specs.Prelude.{◌≡◌, ◌*◌, ◌/◌, ◌%◌, ◌^◌, ◌+◌, IfOk, All, length};
ghost use Rattle.std.specs.Int.{cast_unsigned, cast_signed, w64, w128};
ghost use Rattle.std.specs.Int.RustNames.{FitsSigned};
ghost use Rattle.bundle_frames.specs.Wires.{positions_bytes};

use market_types::Memory;
use std::alloc::Global;
use wire_fields::u64_at;

// The number of sixteen bytes in two's complement, of its halves.
pub(crate) fn joined(high: u64, low: u64) -> i128
    ensures high { cast_unsigned w128 result / 2 ^ 64 ≡ high }
    ensures low { cast_unsigned w128 result % 2 ^ 64 ≡ low }
{
    ((u128::from(high) << 64) + u128::from(low)).cast_signed()
}

// The numbers of eight bytes in two's complement, one after another.
pub(crate) fn positions(alloc: Global, count: usize, bytes: &[u8]) -> Result<Vec<i64>, Memory>
    requires { length bytes.now ≡ 8 * count }
    ensures bytes { IfOk result (λ v. positions_bytes v.items ≡ bytes.now) }
    ensures count { IfOk result (λ v. length v.items ≡ count) }
    ensures fit { IfOk result (λ v. All (FitsSigned w64) v.items) }
{
    let mut list = Vec::new(alloc);
    for k in 0..count {
        list.push(u64_at(bytes, 8 * k).cast_signed())?;
    }
    Ok(list)
}
