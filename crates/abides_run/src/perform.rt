//! What is done with a study or a bundle.

ghost use Rattle.std.specs.Prelude.{◌≡◌, ◌+◌, ◌++◌, ◌∷◌, ◌≤◌, ◌^◌, [], ℕ, IfOk, codes, map, option_map, string_bytes};
ghost use Rattle.std.specs.Fmt.{decimal};
ghost use Rattle.abides_run.specs.Fetched.{arguments_of};
ghost use Rattle.abides_run.specs.Output.{counts_line, study_bundle, study_events, study_lines, study_table};
ghost use Rattle.abides_run.specs.Performed.{Finished, Performed};
ghost use Rattle.abides_run.specs.AllFound.{IsTasked, arguments_on, verdict_on_all};
ghost use Rattle.abides_run.specs.Verdict.{verdict_on_found};
ghost use Rattle.command_words.specs.Ranges.{IsTask};
ghost use Rattle.study_rules.specs.Accepted.{study_told};

use crate::audits::audit_bundle;
use crate::crosses::{cross_study, further_text};
use crate::ending::{Ending, nameless};
use crate::found::{Found, FoundStudy, Simulation};
use crate::rewinds::rewind_study;
use crate::send::{send, send_bundle, sent_status};
use crate::sessions::session_study;
use crate::simulate::simulate;
use crate::status::Status;
use branch_workers::Keep;
use command_words::Task;
use kernel_copy::Course;
use outside::{Gate, Ledger, Sink, Steps};
use plain_lists::Memory;
use probe_desk::Probe;
use std::alloc::{AllocError, Global};
use std::sync::Wait;
use std::thread::Threads;
use study_report::study_table;
use trace_bundle::big_lines;

// Has workers simulate each segment of a study once, and then writes the bundle.
fn run_study<R: Threads + Wait + Sync, O: Sink, G: Gate + Sync, D: Ledger + Send>(
    rt: &R,
    alloc: Global,
    simulation: &Simulation,
    out: &mut O,
    gate: &G,
    steps: &mut Steps<D>,
) -> Status
    requires steps { steps.old ≤ 2 ^ 63 }
    ensures { let course = simulation.now.study.course.value in (reads : ℕ) → Performed
        (study_bundle course) (study_events course) 0 (study_events course)
        (record { reads = reads; writes = O.faults out.old; taken = O.taken out.old; steps = steps.old })
        (record { reads = reads; writes = O.faults out.new; taken = O.taken out.new; steps = steps.new })
        result }
{
    let course = &simulation.study.course;
    match simulate(rt, alloc, simulation, Keep::Frames, gate, steps) {
        Ok(worked) => {
            let sent = send_bundle(alloc, course, &worked.outcomes, out);
            drop(worked);
            sent_status(sent)
        }
        Err(Memory) => Status::Memory,
    }
}

// Has workers simulate each segment of a study once, and then writes the table that compares the branches.
fn table_study<R: Threads + Wait + Sync, O: Sink, G: Gate + Sync, D: Ledger + Send>(
    rt: &R,
    alloc: Global,
    simulation: &Simulation,
    probes: &mut [Box<dyn Probe>],
    out: &mut O,
    gate: &G,
    steps: &mut Steps<D>,
) -> Status
    requires steps { steps.old ≤ 2 ^ 63 }
    ensures { let course = simulation.now.study.course.value in (reads : ℕ) → Performed
        (study_table (record { meanings = map (λ p. meaning p) probes.old; titles = map (λ p. title p) probes.old }) course)
        (study_events course) 0 (study_events course)
        (record { reads = reads; writes = O.faults out.old; taken = O.taken out.old; steps = steps.old })
        (record { reads = reads; writes = O.faults out.new; taken = O.taken out.new; steps = steps.new })
        result }
{
    let course = &simulation.study.course;
    let worked = match simulate(rt, alloc, simulation, Keep::Entries, gate, steps) {
        Ok(worked) => worked,
        Err(Memory) => return Status::Memory,
    };
    let text = match study_table(alloc, course, &worked.outcomes, probes) {
        Ok(text) => text,
        Err(_) => {
            drop(worked);
            return Status::Memory;
        }
    };
    drop(worked);
    sent_status(send(out, &text))
}

// Has workers simulate each segment of a study once, and then writes the lines that tell of the run. The study's text has
// so many bytes.
fn tell_study<R: Threads + Wait + Sync, O: Sink, G: Gate + Sync, D: Ledger + Send>(
    rt: &R,
    alloc: Global,
    bytes: usize,
    simulation: &Simulation,
    out: &mut O,
    gate: &G,
    steps: &mut Steps<D>,
) -> Status
    requires steps { steps.old ≤ 2 ^ 63 }
    ensures { let course = simulation.now.study.course.value in (reads : ℕ) → Performed
        (study_lines bytes course) (study_events course) 0 (study_events course)
        (record { reads = reads; writes = O.faults out.old; taken = O.taken out.old; steps = steps.old })
        (record { reads = reads; writes = O.faults out.new; taken = O.taken out.new; steps = steps.new })
        result }
{
    let course = &simulation.study.course;
    let before = steps.count();
    let worked = match simulate(rt, alloc, simulation, Keep::Tallied, gate, steps) {
        Ok(worked) => worked,
        Err(Memory) => return Status::Memory,
    };
    let distinct = steps.count() - before;
    let text = match big_lines(alloc, bytes, course, &worked.outcomes, distinct) {
        Ok(text) => text,
        Err(Memory) => {
            drop(worked);
            return Status::Memory;
        }
    };
    drop(worked);
    sent_status(send(out, text.as_bytes()))
}

// The line with these counts.
fn counts_text(
    alloc: Global,
    agents: usize,
    stocks: usize,
    branches: usize,
    segments: usize,
) -> Result<String, AllocError>
    ensures { IfOk result (λ text. string_bytes text ≡
        codes "accepted: agents " ++ decimal agents ++ codes ", stocks " ++ decimal stocks
        ++ codes ", branches " ++ decimal branches ++ codes ", segments " ++ decimal segments ++ 10 ∷ []) }
{
    format!(in alloc;
        "accepted: agents {agents}, stocks {stocks}, branches {branches}, segments {segments}\n"
    )
}

// The line with a study's counts.
fn counts_of(alloc: Global, course: &Course) -> Result<String, AllocError>
    ensures { IfOk result (λ text. string_bytes text ≡ counts_line course.now) }
{
    let o = course.opening();
    let plan = course.plan();
    counts_text(
        alloc,
        o.traders.as_slice().len() + 1,
        o.stocks.as_slice().len(),
        plan.branches().len(),
        plan.segments().len(),
    )
}

// Writes a study's counts.
fn check_study<O: Sink>(alloc: Global, course: &Course, out: &mut O) -> Status
    ensures { (reads steps : ℕ) → Performed (counts_line course.now) 0 0 0
        (record { reads = reads; writes = O.faults out.old; taken = O.taken out.old; steps = steps })
        (record { reads = reads; writes = O.faults out.new; taken = O.taken out.new; steps = steps })
        result }
{
    let text = match counts_of(alloc, course) {
        Ok(text) => text,
        Err(_) => return Status::Memory,
    };
    match send(out, text.as_bytes()) {
        Ok(()) => Status::Ok,
        Err(status) => status,
    }
}

// Does with a study what is asked for.
fn perform_task<R: Threads + Wait + Sync, O: Sink, G: Gate + Sync, D: Ledger + Send>(
    rt: &R,
    alloc: Global,
    found: &FoundStudy<'_>,
    probes: &mut [Box<dyn Probe>],
    out: &mut O,
    gate: &G,
    steps: &mut Steps<D>,
) -> Ending
    requires task { IsTask found.now.task }
    requires steps { steps.old ≤ 2 ^ 63 }
    ensures { let study = study_told found.now.simulation.study in (reads : ℕ) → Finished
        (verdict_on_found found.now.task (option_map (λ bytes. bytes.items) found.now.further) study)
        (record { meanings = map (λ p. meaning p) probes.old; titles = map (λ p. title p) probes.old })
        (arguments_of found.now.task)
        (record { reads = reads; writes = O.faults out.old; taken = O.taken out.old; steps = steps.old })
        (record { reads = reads; writes = O.faults out.new; taken = O.taken out.new; steps = steps.new })
        result.status (string_bytes result.name) }
{
    let simulation = &found.simulation;
    match &found.task {
        Task::Run => {
            let status = run_study(rt, alloc, simulation, out, gate, steps);
            nameless(alloc, status)
        }
        Task::Check => nameless(alloc, check_study(alloc, &simulation.study.course, out)),
        Task::Table => {
            let status = table_study(rt, alloc, simulation, probes, out, gate, steps);
            nameless(alloc, status)
        }
        Task::Rewind(marks, _) => {
            let marks = marks.as_slice();
            rewind_study(rt, alloc, simulation, marks, out, gate, steps)
        }
        Task::Cross(crossing, _) => {
            let text = further_text(&found.further);
            cross_study(rt, alloc, simulation, crossing, text, out, gate, steps)
        }
        Task::Session(..) => {
            let text = further_text(&found.further);
            session_study(rt, alloc, simulation, text, probes, out, gate, steps)
        }
    }
}

/// Does what is asked for with what was found.
pub fn perform<R: Threads + Wait + Sync, O: Sink, G: Gate + Sync, D: Ledger + Send>(
    rt: &R,
    alloc: Global,
    found: Found<'_>,
    probes: &mut [Box<dyn Probe>],
    out: &mut O,
    gate: &G,
    steps: &mut Steps<D>,
) -> Ending
    requires task { IsTasked found }
    requires steps { steps.old ≤ 2 ^ 63 }
    ensures { (reads : ℕ) → Finished (verdict_on_all found.entry)
        (record { meanings = map (λ p. meaning p) probes.old; titles = map (λ p. title p) probes.old })
        (arguments_on found.entry)
        (record { reads = reads; writes = O.faults out.old; taken = O.taken out.old; steps = steps.old })
        (record { reads = reads; writes = O.faults out.new; taken = O.taken out.new; steps = steps.new })
        result.status (string_bytes result.name) }
{
    match found {
        Found::Study(study) => {
            let ending = perform_task(rt, alloc, &study, probes, out, gate, steps);
            drop(study);
            ending
        }
        Found::Large { simulation, bytes } => {
            let status = tell_study(rt, alloc, bytes, &simulation, out, gate, steps);
            drop(simulation);
            nameless(alloc, status)
        }
        Found::Bundle(bytes) => audit_bundle(alloc, bytes, out),
    }
}
