//! The edits of a branch, made in a kernel.

ghost use Rattle.std.specs.Prelude.{◌≡◌, ◌≤◌, OnOk, All, length};
ghost use Rattle.kernel_core.specs.Edited.{IsEditOf, edited};
ghost use Rattle.kernel_core.specs.Open.{opened};
ghost use Rattle.kernel_core.specs.Step.{Fits};
ghost use Rattle.kernel_copy.specs.Courses.{AreEdits};
ghost use Rattle.kernel_copy.specs.Reached.{IsReached};
ghost use Rattle.session_desk.specs.Along.{BeginWith, event_count};

use kernel_core::Kernel;
use market_floor::Opening;
use market_rules::Edit;
use market_types::{Memory, Trace};
use std::alloc::Global;

// A branch's edits in order.
pub(crate) fn make_edits(
    alloc: Global,
    o: &Opening,
    branch: u16,
    edits: &[Edit],
    kernel: &mut Kernel,
    trace: &mut Trace,
) -> Result<(), Memory>
    requires reached { IsReached o.now 4080 kernel.old }
    requires edits { AreEdits o.now edits.now }
    ensures made { OnOk result (record { state = kernel.new; entries = trace.new.list } ≡ edited branch edits.now (record { state = kernel.old; entries = trace.old.list })) }
    ensures part { BeginWith (edited branch edits.now (record { state = kernel.old; entries = trace.old.list })).entries trace.new.list }
    ensures kept { BeginWith trace.new.list trace.old.list }
    ensures counted { event_count trace.new.list ≡ event_count trace.old.list }
    ensures events { kernel.new.events ≡ kernel.old.events }
    ensures fitting { Fits o.now kernel.new }
{
    for (i, edit) in edits.iter().enumerate() {
        kernel.apply(alloc, o, edit, branch, i as u16, trace)?;
    }
    Ok(())
}
