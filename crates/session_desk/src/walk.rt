//! The run of a branch over the tree as it stands, from a kept state or from the opening.

ghost use Rattle.std.specs.Prelude.{◌≡◌, ◌<◌, ◌≤◌, ◌+◌, ◌++◌, ◌^◌, not, is_some, IfOk, length};
ghost use Rattle.kernel_core.specs.Until.{behind};
ghost use Rattle.rewind_desk.specs.Best.{best};
ghost use Rattle.session_desk.specs.Session.{full_in};
ghost use Rattle.session_desk.specs.Anchors.{anchor_of, follower_of, shared_count};
ghost use Rattle.session_desk.specs.Along.{BeginWith, event_count};

use crate::onward::go_onward;
use crate::session::{Session, parent_of, stop_of};
use checkpoint_shelf::ClosedShelf;
use kernel_copy::Checkpoint;
use kernel_copy::laws::courses_stay_in_range;
use kernel_core::Kernel;
use market_types::{Memory, Trace};
use outside::{Ledger, Steps};
use rewind_desk::reached;

// Whether a branch and all before it on its path are still the study's own.
fn is_kept(session: &Session, branch: u16) -> bool
    requires { branch < length session.now.branches }
    ensures { result ≡ not (is_some (follower_of session.now branch)) }
{
    let mut at = branch;
    while at != 0 {
        let before = parent_of(session, at);
        let own = session.is_own(at);
        if !own {
            return false;
        }
        at = before;
    }
    session.is_own(0)
}

// The state of a branch after so many events of its run over the tree, or after the last where there are fewer: from the nearest
// state of its anchor that the shelf holds, and from there on along its path.
pub(crate) fn reach<L: Ledger>(
    session: &Session,
    shelf: &ClosedShelf<Checkpoint>,
    branch: u16,
    event: u32,
    steps: &mut Steps<L>,
) -> Result<Kernel, Memory>
    requires exists { branch < length session.now.branches }
    requires shelf { shelf.now.course ≡ session.now.course }
    requires within { event ≤ session.now.course.opening.limit }
    requires count { steps.old + event < 2 ^ 64 }
    ensures state { IfOk result (λ k. k ≡ (full_in session.now branch event).state) }
    ensures ticks { IfOk result (λ k. steps.new + best shelf.now (anchor_of session.now branch) (shared_count session.now branch event) ≡ steps.old + k.events) }
    ensures nearest { IfOk result (λ k. best shelf.now (anchor_of session.now branch) (shared_count session.now branch k.events) ≡ best shelf.now (anchor_of session.now branch) (shared_count session.now branch event)) }
    ensures early { IfOk result (λ k. k.events ≤ event) }
    ensures least { steps.old ≤ steps.new }
    ensures most { steps.new ≤ steps.old + event }
{
    courses_stay_in_range();
    if is_kept(session, branch) {
        let alloc = session.allocator();
        let Ok(found) = reached(alloc, session.course(), shelf, branch, event, steps) else {
            return Err(Memory);
        };
        return Ok(found.kernel);
    }
    let parent = parent_of(session, branch);
    let before = event.min(stop_of(session, branch));
    let Ok(mut kernel) = reach(session, shelf, parent, before, steps) else {
        return Err(Memory);
    };
    let mut trace = Trace::new(session.allocator());
    let Ok(()) = go_onward(session, branch, event, &mut kernel, &mut trace, steps) else {
        drop(kernel);
        drop(trace);
        return Err(Memory);
    };
    drop(trace);
    Ok(kernel)
}

// The root's run from the opening until so many events stand, its entries joining the trace.
fn record_root<L: Ledger>(
    session: &Session,
    event: u32,
    trace: &mut Trace,
    steps: &mut Steps<L>,
) -> Result<Kernel, Memory>
    requires count { steps.old + event < 2 ^ 64 }
    ensures ran { IfOk result (λ k. record { state = k; entries = trace.new.list } ≡ behind trace.old.list (full_in session.now 0 event)) }
    ensures part { BeginWith (trace.old.list ++ (full_in session.now 0 event).entries) trace.new.list }
    ensures kept { BeginWith trace.new.list trace.old.list }
    ensures counted { steps.new + event_count trace.old.list ≡ steps.old + event_count trace.new.list }
    ensures ticks { IfOk result (λ k. steps.new ≡ steps.old + k.events) }
    ensures early { IfOk result (λ k. k.events ≤ event) }
    ensures least { steps.old ≤ steps.new }
    ensures most { steps.new ≤ steps.old + event }
{
    let alloc = session.allocator();
    let o = session.course().opening();
    let Ok(mut kernel) = Kernel::open(alloc, o) else {
        return Err(Memory);
    };
    let Ok(_) = kernel.run_until(alloc, o, event, trace, steps) else {
        drop(kernel);
        return Err(Memory);
    };
    Ok(kernel)
}

// The run of a branch over the tree from the opening until so many events stand, its entries joining the trace.
pub(crate) fn recorded<L: Ledger>(
    session: &Session,
    branch: u16,
    event: u32,
    trace: &mut Trace,
    steps: &mut Steps<L>,
) -> Result<Kernel, Memory>
    requires exists { branch < length session.now.branches }
    requires within { event ≤ session.now.course.opening.limit }
    requires count { steps.old + event < 2 ^ 64 }
    ensures ran { IfOk result (λ k. record { state = k; entries = trace.new.list } ≡ behind trace.old.list (full_in session.now branch event)) }
    ensures part { BeginWith (trace.old.list ++ (full_in session.now branch event).entries) trace.new.list }
    ensures kept { BeginWith trace.new.list trace.old.list }
    ensures counted { steps.new + event_count trace.old.list ≡ steps.old + event_count trace.new.list }
    ensures ticks { IfOk result (λ k. steps.new ≡ steps.old + k.events) }
    ensures early { IfOk result (λ k. k.events ≤ event) }
    ensures least { steps.old ≤ steps.new }
    ensures most { steps.new ≤ steps.old + event }
{
    courses_stay_in_range();
    if branch == 0 {
        return record_root(session, event, trace, steps);
    }
    let parent = parent_of(session, branch);
    let before = event.min(stop_of(session, branch));
    let Ok(mut kernel) = recorded(session, parent, before, trace, steps) else {
        return Err(Memory);
    };
    let Ok(()) = go_onward(session, branch, event, &mut kernel, trace, steps) else {
        drop(kernel);
        return Err(Memory);
    };
    Ok(kernel)
}
