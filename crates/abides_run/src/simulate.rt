//! Studies by workers.

ghost use Rattle.std.specs.Prelude.{◌≡◌, ◌+◌, ◌<◌, ◌≤◌, ◌^◌, IfOk, OnOk};
ghost use Rattle.kernel_copy.specs.declared.kept.Keep.TheVariants.{Entries};
ghost use Rattle.kernel_copy.specs.Kept.{KeepsFrames, KeepsTally};
ghost use Rattle.rewind_desk.specs.AfterWork.{IsAfterWork};
ghost use Rattle.study_rules.specs.Accepted.{study_told};
ghost use Rattle.abides_run.specs.Output.{study_events};
ghost use Rattle.abides_run.specs.Simulated.{AreFramedRunOf, AreListedRunOf, AreRunOf, AreTalliedRunOf};

use crate::found::Simulation;
use branch_workers::{Keep, Setup, Worked, work};
use kernel_copy::laws::segments_have_few_events;
use outside::{Gate, Ledger, Steps};
use plain_lists::Memory;
use std::alloc::Global;
use std::sync::Wait;
use std::thread::Threads;
use trace_bundle::laws::outcomes_are_a_run;

/// Has workers simulate each segment of a study once: what they kept is a run of its course, and the counter rises by the
/// events of all segments, for which it has room.
///
/// # Errors
/// Want of memory alone. The counter then rose by no more.
pub fn simulate<R: Threads + Wait + Sync, G: Gate + Sync, D: Ledger + Send>(
    rt: &R,
    alloc: Global,
    simulation: &Simulation,
    keep: Keep,
    gate: &G,
    steps: &mut Steps<D>,
) -> Result<Worked, Memory>
    requires steps { steps.old ≤ 2 ^ 63 }
    ensures ran { let course = simulation.now.study.course.value in
        IfOk result (λ w. AreRunOf course w.outcomes.items) }
    ensures framed { let course = simulation.now.study.course.value in
        KeepsFrames keep → IfOk result (λ w. AreFramedRunOf course w.outcomes.items) }
    ensures tallied { let course = simulation.now.study.course.value in
        KeepsTally keep → IfOk result (λ w. AreTalliedRunOf course w.outcomes.items) }
    ensures listed { let course = simulation.now.study.course.value in
        keep ≡ Entries → IfOk result (λ w. AreListedRunOf course w.outcomes.items) }
    ensures shelf { let study = study_told simulation.now.study in let by = simulation.now in
        IfOk result (λ w. IsAfterWork study.course study.stride by.places by.workers w.shelf) }
    ensures few { study_events simulation.now.study.course.value < 2 ^ 52 }
    ensures rose { let course = simulation.now.study.course.value in
        OnOk result (steps.new ≡ steps.old + study_events course) }
    ensures least { steps.old ≤ steps.new }
    ensures most { steps.new ≤ steps.old + study_events simulation.now.study.course.value }
{
    outcomes_are_a_run();
    let course = &simulation.study.course;
    segments_have_few_events(course);
    let setup = Setup {
        stride: simulation.study.stride,
        places: simulation.places,
        keep,
        workers: simulation.workers,
    };
    work(rt, alloc, course, setup, gate, steps)
}
