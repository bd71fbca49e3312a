ghost use Rattle.std.specs.Prelude.{◌≡◌, ◌∷◌, [], ◌≤◌, IfOk, map};
ghost use Rattle.market_types.specs.Limits.{longest_delay};

use crate::facts::equal;
use draw_streams::draw;
use draw_streams::worked::ZERO_KEY;
use latency_model::{Groups, JITTER_STREAM};
use market_types::{Memory, Time};
use std::alloc::{AllocError, Global};

// A table of one number.
fn table<T: Copy + Drop>(alloc: Global, number: T) -> Result<Vec<Vec<T>>, AllocError>
    ensures { IfOk result (λ v. map (λ row. row.items) v.items ≡ (number ∷ []) ∷ []) }
{
    let mut row = Vec::new(alloc);
    row.push(number)?;
    let mut rows = Vec::new(alloc);
    rows.push(row)?;
    Ok(rows)
}

// Tables of one group.
fn one_group(alloc: Global, base: Time, jitter: u32) -> Result<Groups, Memory>
    requires { base ≤ longest_delay }
    ensures { IfOk result (λ g. g ≡ record { base = (base ∷ []) ∷ []; jitter = (jitter ∷ []) ∷ [] }) }
{
    let (Ok(base), Ok(jitter)) = (table(alloc, base), table(alloc, jitter)) else {
        return Err(Memory);
    };
    Groups::new(alloc, base.as_slice(), jitter.as_slice())
}

#[test]
fn delays_by_the_draw_of_the_message(rt: HostRuntime) {
    let word = draw(&ZERO_KEY, JITTER_STREAM, 1);
    for (jitter, want) in [(0, 0), (9, 5), (u32::MAX, 2_419_978_656)] {
        let groups = one_group(rt.alloc(), 0, jitter).expect(&rt, "memory");
        equal(&rt, groups.delay(0, 0, word), want);
    }
}

#[test]
fn an_edit_changes_its_tables_alone(rt: HostRuntime) {
    let mut groups = one_group(rt.alloc(), 5, 0).expect(&rt, "memory");
    let copy = groups.copy(rt.alloc()).expect(&rt, "memory");
    groups.set(0, 0, 50, 9);
    equal(&rt, groups.delay(0, 0, 0x903df1a0), 55);
    equal(&rt, copy.delay(0, 0, 0x903df1a0), 5);
}
