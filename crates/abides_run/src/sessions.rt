//! Sessions: the acts of a script over a study's tree of branches, each answered in the tree as it then stands.

ghost use Rattle.std.specs.Prelude.{◌≡◌, ◌⊎◌, ◌≤◌, ◌^◌, ℕ, false, None, All, length, map, IfOk, string_bytes};
ghost use Rattle.branch_tree.specs.Stops.{is_time};
ghost use Rattle.session_desk.specs.Fitting.{FitsOpening};
ghost use Rattle.session_desk.specs.Session.{first_session};
ghost use Rattle.session_desk.specs.Past.{past_act};
ghost use Rattle.session_desk.specs.Refused.{act_refused};
ghost use Rattle.study_rules.specs.Accepted.{study_told};
ghost use Rattle.abides_run.specs.Notes.{past_event};
ghost use Rattle.abides_run.specs.Performed.{Finished};
ghost use Rattle.abides_run.specs.Sessions.{act_word, act_words, status_for};
ghost use Rattle.abides_run.specs.Verdict.{verdict_on_past_act, verdict_on_session};

use crate::ending::{Ending, nameless};
use crate::found::Simulation;
use crate::rewinds::{no_event, simulate_kept};
use crate::send::{send, sent_status};
use crate::status::Status;
use outside::{Gate, Ledger, Sink, Steps};
use plain_lists::Memory;
use probe_desk::Probe;
use rewind_desk::left::{know_left, left_states_lie_between};
use session_desk::carried_laws::{branches_fork_by_number, nearer_states_leave_less};
use session_desk::{Act, PastAct, ScriptError, SessionEnd, carry_out, first_refused, read_script};
use std::alloc::{AllocError, Global};
use std::sync::Wait;
use std::thread::Threads;

// The status for a script that says no acts.
fn status_for(error: ScriptError) -> Status
    ensures { result ≡ status_for error }
{
    match error {
        ScriptError::NotToml => Status::BadScript { act: 64 },
        ScriptError::BadAct(act) => Status::BadScript { act },
        ScriptError::Memory => Status::Memory,
    }
}

// An act by its number.
fn act_text(alloc: Global, act: u32) -> Result<String, AllocError>
    ensures { IfOk result (λ text. string_bytes text ≡ act_word act) }
{
    format!(in alloc; "act {act}")
}

// The end where an act goes to an event that isn't there.
fn past_end(alloc: Global, past: PastAct) -> Ending
    ensures { (result.status ≡ Status.Memory)
        ⊎ ((result.status ≡ Status.NoEvent) × (string_bytes result.name ≡ past_event (act_word past.act) past.last)) }
{
    match act_text(alloc, past.act) {
        Ok(word) => no_event(alloc, word.as_str(), past.last),
        Err(_) => nameless(alloc, Status::Memory),
    }
}

// Has workers simulate each segment of a study once, while so many grid places keep states, carries out the acts, none of which the
// tree refuses, and then writes their answers.
fn reach_and_answer<R: Threads + Wait + Sync, O: Sink, G: Gate + Sync, D: Ledger + Send>(
    rt: &R,
    alloc: Global,
    simulation: &Simulation,
    acts: &[Act],
    probes: &mut [Box<dyn Probe>],
    out: &mut O,
    gate: &G,
    steps: &mut Steps<D>,
) -> Ending
    requires numbers { let course = simulation.now.study.course.value in
        All (λ b. is_time b.stop ≡ false) course.plan.branches }
    requires fit { let course = simulation.now.study.course.value in
        All (FitsOpening course.opening) acts.now }
    requires few { length acts.now ≤ 64 }
    requires stands { let course = simulation.now.study.course.value in
        act_refused (first_session course) acts.now ≡ None }
    requires steps { steps.old ≤ 2 ^ 63 }
    ensures { let study = study_told simulation.now.study in
        let past = past_act (first_session study.course) acts.now in
        (reads : ℕ) → Finished (verdict_on_past_act acts.now simulation.now.places study past)
        (record { meanings = map (λ p. meaning p) probes.old; titles = map (λ p. title p) probes.old })
        act_words
        (record { reads = reads; writes = O.faults out.old; taken = O.taken out.old; steps = steps.old })
        (record { reads = reads; writes = O.faults out.new; taken = O.taken out.new; steps = steps.new })
        result.status (string_bytes result.name) }
{
    nearer_states_leave_less();
    left_states_lie_between();
    let _ = simulation.study.course.opening();
    let simulated = match simulate_kept(rt, alloc, simulation, gate, steps) {
        Ok(simulated) => simulated,
        Err(Memory) => return nameless(alloc, Status::Memory),
    };
    let shelf = &simulated.shelf;
    know_left(&simulation.study.course, shelf);
    let answers = match carry_out(alloc, &simulation.study.course, shelf, acts, probes, steps) {
        Ok(answers) => answers,
        Err(SessionEnd::NoEvent(past)) => {
            drop(simulated);
            return past_end(alloc, past);
        }
        Err(SessionEnd::Memory) => {
            drop(simulated);
            return nameless(alloc, Status::Memory);
        }
    };
    drop(simulated);
    nameless(alloc, sent_status(send(out, &answers)))
}

/// Has workers simulate each segment of a study once, while so many grid places keep states, and then writes the answers to the acts
/// of a script, each that of the full run over the tree as the acts before it leave it. A script that says no acts and an act that
/// the tree refuses are told before the first step, an event that isn't there before the first byte.
pub fn session_study<R: Threads + Wait + Sync, O: Sink, G: Gate + Sync, D: Ledger + Send>(
    rt: &R,
    alloc: Global,
    simulation: &Simulation,
    text: &[u8],
    probes: &mut [Box<dyn Probe>],
    out: &mut O,
    gate: &G,
    steps: &mut Steps<D>,
) -> Ending
    requires steps { steps.old ≤ 2 ^ 63 }
    ensures { (reads : ℕ) → Finished
        (verdict_on_session simulation.now.places text.now (study_told simulation.now.study))
        (record { meanings = map (λ p. meaning p) probes.old; titles = map (λ p. title p) probes.old })
        act_words
        (record { reads = reads; writes = O.faults out.old; taken = O.taken out.old; steps = steps.old })
        (record { reads = reads; writes = O.faults out.new; taken = O.taken out.new; steps = steps.new })
        result.status (string_bytes result.name) }
{
    branches_fork_by_number();
    let acts = match read_script(alloc, text, &simulation.study) {
        Ok(acts) => acts,
        Err(error) => return nameless(alloc, status_for(error)),
    };
    match first_refused(alloc, &simulation.study.course, &acts) {
        Ok(None) => {
            let ending = reach_and_answer(rt, alloc, simulation, &acts, probes, out, gate, steps);
            drop(acts);
            ending
        }
        Ok(Some(act)) => {
            drop(acts);
            nameless(alloc, Status::ActRefused { act })
        }
        Err(Memory) => {
            drop(acts);
            nameless(alloc, Status::Memory)
        }
    }
}
