//! Rewinds.

ghost use Rattle.std.specs.Prelude.{◌≡◌, ◌≤◌, ◌+◌, ◌-◌, ◌<◌, ◌^◌, ◌⊎◌, None, Some, Err, IfOk, IfErr, OnOk, length};
ghost use Rattle.kernel_copy.specs.Full.{full};
ghost use Rattle.rewind_desk.specs.Best.{best, keys_in};
ghost use Rattle.rewind_desk.specs.Nearest.{HasKeys};
ghost use Rattle.rewind_desk.specs.Rewinds.{last_event, rewind_refusal};

use crate::finding::nearest_to;
use crate::near::events_of;
use crate::reach::reach;
use checkpoint_shelf::ClosedShelf;
use kernel_copy::{Checkpoint, Course};
use kernel_core::Kernel;
use market_types::Memory;
use outside::{Ledger, Steps};
use std::alloc::Global;
use std::sync::Arc;

/// A state that was reached again.
#[derive(Drop)]
pub struct Rewound {
    /// The kernel in that state.
    pub kernel: Kernel,
    /// The number of events of the state from which it was reached.
    pub from: u32,
}

/// Why a state isn't reached.
#[derive(Clone, Copy, PartialEq, Eq, Debug)]
pub enum RewindError {
    /// The plan hasn't the branch.
    NoBranch,
    /// The event is past the branch's last, which has this number.
    NoEvent(u32),
    /// Want of memory.
    Memory,
}

/// The state of a branch after so many events of its full run, or after the last where there are fewer, reached from the nearest
/// state that the closed shelf holds, whose number of events comes with it. The counter rises by the events between the two.
///
/// # Errors
/// Want of memory alone. The counter then rose by no more than the events from the nearest state on.
pub fn reached<L: Ledger>(
    alloc: Global,
    course: &Course,
    shelf: &ClosedShelf<Checkpoint>,
    branch: u16,
    event: u32,
    steps: &mut Steps<L>,
) -> Result<Rewound, Memory>
    requires branch { branch < length course.now.plan.branches }
    requires shelf { shelf.now.course ≡ course.now }
    requires count { steps.old + (event - best shelf.now branch event) < 2 ^ 64 }
    ensures whole { IfOk result (λ r. r.kernel.events < event → r.kernel.events ≡ last_event course.now branch) }
    ensures state { IfOk result (λ r. event ≤ r.kernel.events → r.kernel ≡ (full course.now.opening course.now.plan branch event).state) }
    ensures along { IfOk result (λ r. event ≤ course.now.opening.limit → r.kernel ≡ (full course.now.opening course.now.plan branch event).state) }
    ensures exists { IfOk result (λ r. event ≤ r.kernel.events → event ≤ last_event course.now branch) }
    ensures within { IfOk result (λ r. r.kernel.events ≤ event) }
    ensures from { IfOk result (λ r. r.from ≡ best shelf.now branch event) }
    ensures keys { HasKeys shelf.now (keys_in shelf.now.plan) }
    ensures ticks { IfOk result (λ r. steps.new + r.from ≡ steps.old + r.kernel.events) }
    ensures least { steps.old ≤ steps.new }
    ensures most { steps.new ≤ steps.old + (event - best shelf.now branch event) }
{
    let last = course.last_segment(branch);
    let near = nearest_to(course, shelf, last, event);
    let most = event.min(course.opening().limit);
    let Ok(arrival) = reach(alloc, course, shelf, near, last, most, steps) else {
        return Err(Memory);
    };
    Ok(Rewound {
        kernel: arrival.kernel,
        from: events_of(near),
    })
}

/// The state of a branch after so many events of its full run, with the edits at the last of them made, reached from the
/// nearest state that the closed shelf holds.
///
/// # Errors
/// `NoBranch` exactly where the plan hasn't the branch, else `NoEvent` exactly where the event is past the full run's last,
/// whose number it gives; and want of memory. The counter rises by the events from the nearest state on.
pub fn rewind<L: Ledger>(
    alloc: Global,
    course: &Arc<Course>,
    shelf: &ClosedShelf<Checkpoint>,
    branch: u16,
    event: u32,
    steps: &mut Steps<L>,
) -> Result<Rewound, RewindError>
    requires shelf { shelf.now.course ≡ course.now.value }
    requires count { steps.old + (event - best shelf.now branch event) < 2 ^ 64 }

    // The refusals, of which want of memory alone is free.
    ensures made { OnOk result (rewind_refusal course.now.value branch event ≡ None) }
    ensures refused { IfErr result (λ e. (e ≡ RewindError.Memory) ⊎ (rewind_refusal course.now.value branch event ≡ Some e)) }
    ensures no_branch { length course.now.value.plan.branches ≤ branch → result ≡ Err RewindError.NoBranch }

    // The state is the full run's, and it was reached from the nearest one.
    ensures state { IfOk result (λ r. r.kernel ≡ (full course.now.value.opening course.now.value.plan branch event).state) }
    ensures from { IfOk result (λ r. r.from ≡ best shelf.now branch event) }

    // The counter.
    ensures rose { OnOk result (steps.new + best shelf.now branch event ≡ steps.old + event) }
    ensures past { result ≡ Err (RewindError.NoEvent (last_event course.now.value branch)) → steps.new + best shelf.now branch (last_event course.now.value branch) ≡ steps.old + last_event course.now.value branch }
    ensures unmoved { length course.now.value.plan.branches ≤ branch → steps.new ≡ steps.old }
    ensures least { steps.old ≤ steps.new }
    ensures most { steps.new ≤ steps.old + (event - best shelf.now branch event) }
{
    if usize::from(branch) >= course.plan().branches().len() {
        return Err(RewindError::NoBranch);
    }
    match reached(alloc, course, shelf, branch, event, steps) {
        Ok(rewound) => {
            let events = rewound.kernel.events();
            if events < event {
                drop(rewound);
                return Err(RewindError::NoEvent(events));
            }
            Ok(rewound)
        }
        Err(Memory) => Err(RewindError::Memory),
    }
}
