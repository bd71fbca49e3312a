//! Lists.

ghost use Rattle.std.specs.Prelude.{◌≡◌, [], ◌∷◌, ◌++◌, ◌+◌, ◌<◌, ◌^◌, IfOk, OnOk};
ghost use Rattle.branch_tree.specs.Segments.{counted};

use market_types::Memory;
use std::alloc::Global;

/// Appends a value.
pub fn add<T: Drop>(list: &mut Vec<T>, value: T) -> Result<(), Memory>
    ensures { OnOk result (list.new.items ≡ list.old.items ++ value ∷ []) }
{
    list.push(value)?;
    Ok(())
}

/// So many numbers from this one on.
pub fn count_from(alloc: Global, first: u32, count: u32) -> Result<Vec<u32>, Memory>
    requires { first + count < 2 ^ 32 }
    ensures { IfOk result (λ v. v.items ≡ counted first count) }
{
    let mut numbers = Vec::new(alloc);
    for i in 0..count {
        add(&mut numbers, first + i)?;
    }
    Ok(numbers)
}
