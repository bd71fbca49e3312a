//! All acts of a script, one after another.

ghost use Rattle.std.specs.Prelude.{◌≡◌, ◌<◌, ◌≤◌, ◌++◌, ◌+◌, ◌*◌, ◌^◌, ◌⊎◌, false, None, Some, All, IfOk, IfErr, OnOk, length, map};
ghost use Rattle.branch_tree.specs.Stops.{is_time};
ghost use Rattle.rewind_desk.specs.Best.{best};
ghost use Rattle.session_desk.specs.Session.{first_session};
ghost use Rattle.session_desk.specs.Fitting.{FitsOpening};
ghost use Rattle.session_desk.specs.Answered.{answer_of, session_bytes};
ghost use Rattle.session_desk.specs.Acting.{after_act};
ghost use Rattle.session_desk.specs.Counted.{all_reached, all_run, reached_for, run_for};
ghost use Rattle.session_desk.specs.Past.{past_act, past_last};
ghost use Rattle.session_desk.specs.Refused.{act_refused, is_refused};
ghost use Rattle.session_desk.specs.declared.end.PastAct.{PastAct as PastTold};

use crate::act_answer::answer;
use crate::changes::change;
use crate::end::{PastAct, SessionEnd};
use crate::{Act, Session, SessionError};
use bundle_frames::put_end;
use checkpoint_shelf::ClosedShelf;
use kernel_copy::{Checkpoint, Course};
use outside::{Ledger, Steps};
use plain_lists::Memory;
use probe_desk::Probe;
use std::alloc::Global;
use std::sync::Arc;

// What an act makes of the tree, which doesn't refuse it.
fn make(alloc: Global, session: &mut Session, act: &Act) -> Result<(), SessionEnd>
    requires stands { is_refused session.old act.now ≡ false }
    requires fit { FitsOpening session.old.course.opening act.now }
    ensures made { OnOk result (session.new ≡ after_act session.old act.now) }
    ensures memory { IfErr result (λ e. e ≡ SessionEnd.Memory) }
{
    match change(alloc, session, act) {
        Ok(true) => Ok(()),
        Ok(false) => unreachable!(),
        Err(Memory) => Err(SessionEnd::Memory),
    }
}

// Appends an act's answer.
fn put_answer<L: Ledger>(
    alloc: Global,
    session: &Session,
    shelf: &ClosedShelf<Checkpoint>,
    act: &Act,
    number: u32,
    probes: &mut [Box<dyn Probe>],
    out: &mut Vec<u8>,
    steps: &mut Steps<L>,
) -> Result<(), SessionEnd>
    requires stands { is_refused session.now act.now ≡ false }
    requires shelf { shelf.now.course ≡ session.now.course }
    requires count { steps.old + session.now.course.opening.limit < 2 ^ 64 }
    ensures bytes { OnOk result (out.new.items ≡ out.old.items ++ answer_of (map (λ p. meaning p) probes.old) session.now act.now) }
    ensures within { OnOk result (past_last session.now act.now ≡ None) }
    ensures past { IfErr result (λ e. (e ≡ SessionEnd.Memory) ⊎ ((p : PastTold) × (e ≡ SessionEnd.NoEvent p) × (p.act ≡ number) × (past_last session.now act.now ≡ Some p.last))) }
    ensures rose { OnOk result (steps.new ≡ steps.old + run_for session.now act.now + reached_for (best shelf.now) session.now act.now) }
    ensures least { steps.old ≤ steps.new }
    ensures most { steps.new ≤ steps.old + session.now.course.opening.limit }
    ensures meanings { map (λ p. meaning p) probes.new ≡ map (λ p. meaning p) probes.old }
    ensures titles { map (λ p. title p) probes.new ≡ map (λ p. title p) probes.old }
{
    match answer(alloc, session, shelf, act, probes, steps) {
        Ok(bytes) => match out.extend_from_slice(&bytes) {
            Ok(()) => Ok(()),
            Err(_) => Err(SessionEnd::Memory),
        },
        Err(SessionError::NoEvent(last)) => Err(SessionEnd::NoEvent(PastAct { act: number, last })),
        Err(_) => Err(SessionEnd::Memory),
    }
}

/// Carries out the acts of a script, none of which the tree refuses, over the closed shelf of the study's states, and gives the
/// bytes of their answers with the number of acts behind them. Each answer is that of the full run over the tree as the acts
/// before it leave it. All are held until the last act is done.
///
/// # Errors
/// The first rewind past its branch's last event, and want of memory.
pub fn carry_out<L: Ledger>(
    alloc: Global,
    course: &Arc<Course>,
    shelf: &ClosedShelf<Checkpoint>,
    acts: &[Act],
    probes: &mut [Box<dyn Probe>],
    steps: &mut Steps<L>,
) -> Result<Vec<u8>, SessionEnd>
    requires numbers { All (λ b. is_time b.stop ≡ false) course.now.value.plan.branches }
    requires fit { All (FitsOpening course.now.value.opening) acts.now }
    requires few { length acts.now ≤ 64 }
    requires stands { act_refused (first_session course.now.value) acts.now ≡ None }
    requires shelf { shelf.now.course ≡ course.now.value }
    requires count { steps.old + length acts.now * course.now.value.opening.limit < 2 ^ 64 }

    // The answers, or why there are none.
    ensures bytes { IfOk result (λ v. v.items ≡ session_bytes (map (λ p. meaning p) probes.old) (first_session course.now.value) acts.now) }
    ensures within { OnOk result (past_act (first_session course.now.value) acts.now ≡ None) }
    ensures past { IfErr result (λ e. (e ≡ SessionEnd.Memory) ⊎ ((p : PastTold) × (e ≡ SessionEnd.NoEvent p) × (past_act (first_session course.now.value) acts.now ≡ Some p))) }

    // The counter.
    ensures rose { OnOk result (steps.new ≡ steps.old + all_run (first_session course.now.value) acts.now + all_reached (best shelf.now) (first_session course.now.value) acts.now) }
    ensures least { steps.old ≤ steps.new }
    ensures most { steps.new ≤ steps.old + length acts.now * course.now.value.opening.limit }

    // The probes are the same.
    ensures meanings { map (λ p. meaning p) probes.new ≡ map (λ p. meaning p) probes.old }
    ensures titles { map (λ p. title p) probes.new ≡ map (λ p. title p) probes.old }
{
    let mut session = match Session::open(alloc, course) {
        Ok(session) => session,
        Err(Memory) => return Err(SessionEnd::Memory),
    };
    let mut out = Vec::new(alloc);
    for (i, act) in acts.iter().enumerate() {
        match put_answer(
            alloc, &session, shelf, act, i as u32, probes, &mut out, steps,
        ) {
            Ok(()) => {}
            Err(end) => {
                drop(out);
                drop(session);
                return Err(end);
            }
        }
        match make(alloc, &mut session, act) {
            Ok(()) => {}
            Err(end) => {
                drop(out);
                drop(session);
                return Err(end);
            }
        }
    }
    drop(session);
    match put_end(&mut out, acts.len() as u16) {
        Ok(()) => Ok(out),
        Err(Memory) => Err(SessionEnd::Memory),
    }
}
