//! A run that goes on from a branch's parent.

ghost use Rattle.std.specs.Prelude.{◌≡◌, ◌<◌, ◌≤◌, ◌+◌, ◌-◌, ◌^◌, OnOk, length};
ghost use Rattle.kernel_copy.specs.Reached.{IsReached};
ghost use Rattle.session_desk.specs.Along.{BeginWith, event_count, onward};

use crate::edits::make_edits;
use crate::session::{Session, edits_of, stop_of};
use branch_tree::Stop;
use kernel_core::Kernel;
use market_types::{Memory, Trace};
use outside::{Ledger, Steps};
use rewind_desk::has_more;

// Lets a kernel in the state of a branch's parent after so many events, or at the branch's stop, go on in the branch until so
// many events stand.
pub(crate) fn go_onward<L: Ledger>(
    session: &Session,
    branch: u16,
    event: u32,
    kernel: &mut Kernel,
    trace: &mut Trace,
    steps: &mut Steps<L>,
) -> Result<(), Memory>
    requires exists { branch < length session.now.branches }
    requires reached { IsReached session.now.course.opening 4080 kernel.old }
    requires early { kernel.old.events ≤ event }
    requires count { steps.old + (event - kernel.old.events) < 2 ^ 64 }
    ensures ran { OnOk result (record { state = kernel.new; entries = trace.new.list } ≡ onward session.now.course.opening session.now.branches branch event (record { state = kernel.old; entries = trace.old.list })) }
    ensures part { BeginWith (onward session.now.course.opening session.now.branches branch event (record { state = kernel.old; entries = trace.old.list })).entries trace.new.list }
    ensures kept { BeginWith trace.new.list trace.old.list }
    ensures counted { steps.new + event_count trace.old.list ≡ steps.old + event_count trace.new.list }
    ensures ticks { steps.new + kernel.old.events ≡ steps.old + kernel.new.events }
    ensures grows { kernel.old.events ≤ kernel.new.events }
    ensures within { kernel.new.events ≤ event }
{
    let alloc = session.allocator();
    let o = session.course().opening();
    if has_more(o, Stop::At(stop_of(session, branch)), kernel) {
        return Ok(());
    }
    make_edits(alloc, o, branch, edits_of(session, branch), kernel, trace)?;
    kernel.run_until(alloc, o, event, trace, steps)?;
    Ok(())
}
