//! Where two runs part whose entries are kept in parts.

ghost use Rattle.std.specs.Prelude.{◌≡◌, IfOk};
ghost use Rattle.std.specs.List.{flat_map};
ghost use Rattle.study_report.specs.Difference.{events_in, first_apart};
ghost use Rattle.study_report.specs.PackedRuns.{left_in};

use crate::packed_run::PackedRun;
use crate::same::same_event;
use market_types::Memory;
use probe_desk::Summed;
use std::alloc::Global;

// The number of the first record, of those that are left of two runs, that differs from the other run's or stands in one run
// alone; 0 where there is none.
fn first_apart(own: &mut PackedRun<'_>, other: &mut PackedRun<'_>) -> Result<u32, Memory>
    ensures { IfOk result (λ d. d ≡ first_apart (left_in own.old) (left_in other.old)) }
{
    'records: loop {
        let more = own.next()?;
        let others = other.next()?;
        if !more && !others {
            return Ok(0);
        }
        if !more {
            return Ok(other.event.number);
        }
        if !others {
            return Ok(own.event.number);
        }
        if !same_event(&own.event, &other.event) {
            return Ok(own.event.number);
        }
    }
}

// The number of the first record that differs from the one at its place in other parts or stands in these or those alone; 0
// where there is none. Edits aren't compared. One record of each at a time is read.
pub(crate) fn difference_of_packed(
    alloc: Global,
    a: &[&Summed],
    b: &[&Summed],
) -> Result<u32, Memory>
    ensures { IfOk result (λ d. d ≡ first_apart (events_in (flat_map (λ t. t.now.list) a.now)) (events_in (flat_map (λ t. t.now.list) b.now))) }
{
    let mut own = PackedRun::new(alloc, a);
    let mut other = PackedRun::new(alloc, b);
    let apart = first_apart(&mut own, &mut other);
    drop(other);
    drop(own);
    apart
}
