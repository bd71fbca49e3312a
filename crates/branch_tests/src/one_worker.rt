//! Courses by one worker.

ghost use Rattle.std.specs.Prelude.{◌≡◌, length, map};
ghost use Rattle.branch_tree.specs.Segments.{segments_in};
ghost use Rattle.kernel_copy.specs.Outcomes.{outcome_told, outcomes_before};

use branch_workers::{Setup, work};
use kernel_copy::laws::segments_have_few_events;
use kernel_copy::{Course, Keep, Outcome};
use outside::{Counted, OpenGate, Steps};
use std::alloc::Global;
use std::process::Abort;
use std::sync::{Arc, Wait};
use std::thread::Threads;

// What one worker made of a course.
#[derive(Drop)]
pub(crate) struct Simulated {
    // The outcomes in order of segment.
    pub(crate) outcomes: Vec<Outcome>,
    // How many steps it counted.
    pub(crate) ticks: u64,
}

// Has the segments of a course run by one worker, which keeps this of their entries.
pub(crate) fn simulate<R: Abort + Threads + Wait + Sync>(
    rt: &R,
    alloc: Global,
    course: &Arc<Course>,
    keep: Keep,
) -> Simulated
    ensures { map outcome_told result.outcomes.items ≡ outcomes_before course.now.value keep (length (segments_in course.now.value.plan)) }
{
    segments_have_few_events(course);
    let setup = Setup {
        stride: 1,
        places: 0,
        keep,
        workers: 1,
    };
    let mut steps: Steps<Counted> = Steps::new();
    let worked = work(rt, alloc, course, setup, &OpenGate, &mut steps);
    let ticks = steps.close();
    Simulated {
        outcomes: worked.expect(rt, "memory").outcomes,
        ticks,
    }
}
