//! Rewinds: the states of branches after events that an argument each names.

ghost use Rattle.std.specs.Prelude.{◌≡◌, ◌⊎◌, ◌+◌, ◌<◌, ◌≤◌, ◌^◌, ℕ, All, IfOk, IfErr, OnOk, None, length, map, string_bytes, sum_by};
ghost use Rattle.std.specs.List.{flat_map};
ghost use Rattle.bundle_frames.specs.Frames.{end_frame};
ghost use Rattle.trace_bundle.specs.Ran.{IsRunOf};
ghost use Rattle.command_words.specs.Ranges.{AreMarks};
ghost use Rattle.kernel_copy.specs.Courses.{IsCourse};
ghost use Rattle.rewind_desk.specs.AfterWork.{IsAfterWork};
ghost use Rattle.rewind_desk.specs.Targets.{aimed_at};
ghost use Rattle.rewind_desk.specs.declared.target.Target.{Target as TargetTold};
ghost use Rattle.study_rules.specs.Accepted.{study_told};
ghost use Rattle.abides_run.specs.Fetched.{arguments_of};
ghost use Rattle.abides_run.specs.Notes.{past_event};
ghost use Rattle.abides_run.specs.Output.{Probes, study_events};
ghost use Rattle.abides_run.specs.Performed.{Finished, Sent};
ghost use Rattle.abides_run.specs.Rewinds.{IsThere, lasts_of, rewinds_of, steps_from, steps_to, target_frames, target_state, argument_at};
ghost use Rattle.abides_run.specs.Verdict.{verdict_on_found};
ghost use Rattle.command_words.specs.declared.asked.Task.TheVariants as task;

use crate::ending::{Ending, named, nameless};
use crate::found::Simulation;
use crate::send::{ToSink, send, sent_status};
use crate::simulate::simulate;
use crate::status::Status;
use branch_workers::Keep;
use checkpoint_shelf::ClosedShelf;
use command_words::Mark;
use kernel_copy::laws::courses_stay_in_range;
use kernel_copy::{Checkpoint, Course, state_frames};
use kernel_core::Kernel;
use outside::{Gate, Ledger, Sink, Steps};
use plain_lists::Memory;
use rewind_desk::after_work::rewinds_after_work;
use rewind_desk::laws::sure_states_are_held;
use rewind_desk::{Aimed, RewindError, Target, aim, first_past, rewind};
use std::alloc::{AllocError, Global};
use std::sync::{Arc, Wait};
use std::thread::Threads;
use trace_bundle::{RunOutcomes, events_of_branch, put_branch_head, send_end};

// The number of the last event of each branch's full run.
fn last_events<W: RunOutcomes>(alloc: Global, course: &Course, ran: &W) -> Result<Vec<u32>, Memory>
    requires { IsRunOf course.now (W.count ran.now) (W.kept_of ran.now) (W.closing_of ran.now) }
    ensures { IfOk result (λ v. v.items ≡ lasts_of course.now) }
{
    let mut lasts = Vec::new(alloc);
    let count = course.plan().branches().len() as u16;
    for branch in 0..count {
        lasts.push(events_of_branch(course, ran, branch))?;
    }
    Ok(lasts)
}

// The frames of a target: its branch, with the target's event as its stop, and its state.
fn target_bytes(
    alloc: Global,
    course: &Course,
    target: Target,
    kernel: &Kernel,
) -> Result<Vec<u8>, Memory>
    requires branch { target.branch < length course.now.plan.branches }
    requires state { kernel.now ≡ target_state course.now target }
    ensures { IfOk result (λ v. v.items ≡ target_frames course.now target) }
{
    courses_stay_in_range();
    let mut out = Vec::new(alloc);
    put_branch_head(&mut out, course, target.branch, target.event)?;
    let state = state_frames(alloc, course.opening(), kernel)?;
    out.extend_from_slice(&state)?;
    Ok(out)
}

// The frames of a target, whose state is reached from the nearest one that the shelf holds.
fn rewound_bytes<L: Ledger>(
    alloc: Global,
    course: &Arc<Course>,
    shelf: &ClosedShelf<Checkpoint>,
    target: Target,
    steps: &mut Steps<L>,
) -> Result<Vec<u8>, Memory>
    requires shelf { shelf.now.course ≡ course.now.value }
    requires there { IsThere course.now.value target }
    requires count { steps.old + steps_from shelf.now target < 2 ^ 64 }
    ensures bytes { IfOk result (λ v. v.items ≡ target_frames course.now.value target) }
    ensures least { steps.old ≤ steps.new }
    ensures most { steps.new ≤ steps.old + steps_from shelf.now target }
{
    let rewound = match rewind(alloc, course, shelf, target.branch, target.event, steps) {
        Ok(rewound) => rewound,
        Err(RewindError::Memory) => return Err(Memory),
        Err(_) => unreachable!(),
    };
    let bytes = target_bytes(alloc, course, target, &rewound.kernel);
    drop(rewound);
    bytes
}

// Sends the frames of a target.
fn send_target<O: Sink, L: Ledger>(
    alloc: Global,
    course: &Arc<Course>,
    shelf: &ClosedShelf<Checkpoint>,
    target: Target,
    out: &mut O,
    steps: &mut Steps<L>,
) -> Result<(), Status>
    requires shelf { shelf.now.course ≡ course.now.value }
    requires there { IsThere course.now.value target }
    requires count { steps.old + steps_from shelf.now target < 2 ^ 64 }
    ensures sent { Sent (target_frames course.now.value target)
        (O.faults out.old) (O.faults out.new) (O.taken out.old) (O.taken out.new) result }
    ensures least { steps.old ≤ steps.new }
    ensures most { steps.new ≤ steps.old + steps_from shelf.now target }
{
    match rewound_bytes(alloc, course, shelf, target, steps) {
        Ok(bytes) => send(out, &bytes),
        Err(Memory) => Err(Status::Memory),
    }
}

// Sends the frames of all targets, one after another.
fn send_targets<O: Sink, L: Ledger>(
    alloc: Global,
    course: &Arc<Course>,
    shelf: &ClosedShelf<Checkpoint>,
    targets: &[Target],
    out: &mut O,
    steps: &mut Steps<L>,
) -> Result<(), Status>
    requires shelf { shelf.now.course ≡ course.now.value }
    requires there { All (IsThere course.now.value) targets.now }
    requires count { steps.old + sum_by (steps_from shelf.now) targets.now < 2 ^ 64 }
    ensures sent { Sent (flat_map (target_frames course.now.value) targets.now)
        (O.faults out.old) (O.faults out.new) (O.taken out.old) (O.taken out.new) result }
    ensures least { steps.old ≤ steps.new }
    ensures most { steps.new ≤ steps.old + sum_by (steps_from shelf.now) targets.now }
{
    for (i, target) in targets.iter().enumerate() {
        send_target(alloc, course, shelf, *target, out, steps)?;
    }
    Ok(())
}

// Sends the frames of all targets, and how many there are.
fn send_rewinds<O: Sink, L: Ledger>(
    alloc: Global,
    course: &Arc<Course>,
    shelf: &ClosedShelf<Checkpoint>,
    targets: &[Target],
    out: &mut O,
    steps: &mut Steps<L>,
) -> Result<(), Status>
    requires shelf { shelf.now.course ≡ course.now.value }
    requires few { length targets.now ≤ 64 }
    requires there { All (IsThere course.now.value) targets.now }
    requires count { steps.old + sum_by (steps_from shelf.now) targets.now < 2 ^ 64 }
    ensures sent { Sent (rewinds_of course.now.value targets.now)
        (O.faults out.old) (O.faults out.new) (O.taken out.old) (O.taken out.new) result }
    ensures least { steps.old ≤ steps.new }
    ensures most { steps.new ≤ steps.old + sum_by (steps_from shelf.now) targets.now }
{
    send_targets(alloc, course, shelf, targets, out, steps)?;
    send_end(alloc, targets.len() as u16, &ToSink { alloc }, out)
}

// The word of a mark, behind which its branch's last event stands.
fn past_text(alloc: Global, word: &str, last: u32) -> Result<String, AllocError>
    ensures { IfOk result (λ text. string_bytes text ≡ past_event word.now last) }
{
    format!(in alloc; "{word}, last event {last}")
}

/// The end where a branch hasn't the event that an argument or an act names.
pub fn no_event(alloc: Global, word: &str, last: u32) -> Ending
    ensures { (result.status ≡ Status.Memory)
        ⊎ ((result.status ≡ Status.NoEvent) × (string_bytes result.name ≡ past_event word.now last)) }
{
    match past_text(alloc, word, last) {
        Ok(name) => Ending {
            status: Status::NoEvent,
            name,
        },
        Err(_) => nameless(alloc, Status::Memory),
    }
}

// A mark's argument as it is written.
fn word_of<'a>(marks: &[Mark<'a>], index: usize) -> &'a str
    requires { index < length marks.now }
    ensures { result.now ≡ argument_at marks.now index }
{
    marks[index].word.as_str()
}

/// A study whose segments were simulated.
#[derive(Drop)]
pub struct Simulated {
    /// The states that were kept on the way.
    pub shelf: ClosedShelf<Checkpoint>,
    /// The number of the last event of each branch.
    pub lasts: Vec<u32>,
}

/// Has workers simulate each segment of a study once, while so many grid places keep states. No more steps lead to a target from
/// the states that were kept than from those that are sure to be.
pub fn simulate_kept<R: Threads + Wait + Sync, G: Gate + Sync, D: Ledger + Send>(
    rt: &R,
    alloc: Global,
    simulation: &Simulation,
    gate: &G,
    steps: &mut Steps<D>,
) -> Result<Simulated, Memory>
    requires steps { steps.old ≤ 2 ^ 63 }
    ensures shelf { IfOk result (λ s. s.shelf.course ≡ simulation.now.study.course.value) }
    ensures lasts { IfOk result (λ s. s.lasts.items ≡ lasts_of simulation.now.study.course.value) }
    ensures near { let study = study_told simulation.now.study in let places = simulation.now.places in
        IfOk result (λ s. (t : TargetTold) → steps_from s.shelf t ≤ steps_to study places t) }
    ensures after { let study = study_told simulation.now.study in let by = simulation.now in
        IfOk result (λ s. IsAfterWork study.course study.stride by.places by.workers s.shelf) }
    ensures few { study_events simulation.now.study.course.value < 2 ^ 52 }
    ensures rose { let course = simulation.now.study.course.value in
        OnOk result (steps.new ≡ steps.old + study_events course) }
    ensures least { steps.old ≤ steps.new }
    ensures most { steps.new ≤ steps.old + study_events simulation.now.study.course.value }
{
    sure_states_are_held();
    rewinds_after_work();
    let course = &simulation.study.course;
    let Ok(worked) = simulate(rt, alloc, simulation, Keep::Nothing, gate, steps) else {
        return Err(Memory);
    };
    let Ok(lasts) = last_events(alloc, course, &worked.outcomes) else {
        drop(worked);
        return Err(Memory);
    };
    drop(worked.outcomes);
    Ok(Simulated {
        shelf: worked.shelf,
        lasts,
    })
}

// Has workers simulate each segment of a study once, while so many grid places keep states, and then writes the states of
// these targets of the marks.
fn reach_and_write<R: Threads + Wait + Sync, O: Sink, G: Gate + Sync, D: Ledger + Send>(
    rt: &R,
    alloc: Global,
    simulation: &Simulation,
    marks: &[Mark<'_>],
    targets: &[Target],
    out: &mut O,
    gate: &G,
    steps: &mut Steps<D>,
) -> Ending
    requires marks { AreMarks marks.now }
    requires targets { let course = simulation.now.study.course.value in
        aimed_at course.plan.branches marks.now ≡ Aimed.At targets.now }
    requires steps { steps.old ≤ 2 ^ 63 }
    ensures { let asked = task.Rewind marks.now simulation.now.places in
        (reads : ℕ) (probes : Probes) → Finished
        (verdict_on_found asked None (study_told simulation.now.study))
        probes
        (arguments_of asked)
        (record { reads = reads; writes = O.faults out.old; taken = O.taken out.old; steps = steps.old })
        (record { reads = reads; writes = O.faults out.new; taken = O.taken out.new; steps = steps.new })
        result.status (string_bytes result.name) }
{
    let simulated = match simulate_kept(rt, alloc, simulation, gate, steps) {
        Ok(simulated) => simulated,
        Err(Memory) => return nameless(alloc, Status::Memory),
    };
    if let Some(past) = first_past(&simulated.lasts, targets) {
        drop(simulated);
        return no_event(alloc, word_of(marks, past.index), past.last);
    }
    let shelf = &simulated.shelf;
    let sent = send_rewinds(alloc, &simulation.study.course, shelf, targets, out, steps);
    drop(simulated);
    nameless(alloc, sent_status(sent))
}

/// Has workers simulate each segment of a study once, while so many grid places keep states, and then writes the state of each
/// mark: that of its branch's full run after so many events, reached from the nearest state that was kept. A mark whose branch
/// isn't there is refused before the first step, one whose event isn't before the first byte.
pub fn rewind_study<R: Threads + Wait + Sync, O: Sink, G: Gate + Sync, D: Ledger + Send>(
    rt: &R,
    alloc: Global,
    simulation: &Simulation,
    marks: &[Mark<'_>],
    out: &mut O,
    gate: &G,
    steps: &mut Steps<D>,
) -> Ending
    requires marks { AreMarks marks.now }
    requires steps { steps.old ≤ 2 ^ 63 }
    ensures { let asked = task.Rewind marks.now simulation.now.places in
        (reads : ℕ) (probes : Probes) → Finished
        (verdict_on_found asked None (study_told simulation.now.study))
        probes
        (arguments_of asked)
        (record { reads = reads; writes = O.faults out.old; taken = O.taken out.old; steps = steps.old })
        (record { reads = reads; writes = O.faults out.new; taken = O.taken out.new; steps = steps.new })
        result.status (string_bytes result.name) }
{
    match aim(alloc, simulation.study.course.plan(), marks) {
        Ok(Aimed::At(targets)) => reach_and_write(
            rt,
            alloc,
            simulation,
            marks,
            targets.as_slice(),
            out,
            gate,
            steps,
        ),
        Ok(Aimed::NoBranch(index)) => named(alloc, Status::NoBranch, word_of(marks, index)),
        Err(Memory) => nameless(alloc, Status::Memory),
    }
}
