//! The answer of one act.

ghost use Rattle.std.specs.Prelude.{◌≡◌, ◌<◌, ◌≤◌, ◌+◌, ◌^◌, ◌⊎◌, ℕ, List, IsOk, false, None, Some, IfOk, IfErr, OnOk, length, map};
ghost use Rattle.std.specs.List.{flat_map};
ghost use Rattle.rewind_desk.specs.Best.{best};
ghost use Rattle.session_desk.specs.Session.{full_in, full_run_in, last_event_in};
ghost use Rattle.session_desk.specs.Acting.{lacks, number_in};
ghost use Rattle.session_desk.specs.Answered.{answer_of, closed_frames, rewound_frames, value_frame, value_frames};
ghost use Rattle.session_desk.specs.Counted.{left_to_run, reached_for, run_for};
ghost use Rattle.session_desk.specs.Past.{last_before, past_last};
ghost use Rattle.session_desk.specs.Refused.{is_refused};

use crate::frames::{put_head, put_own_head, put_values};
use crate::named::branch_named;
use crate::{Act, Session, SessionError};
use branch_tree::Name;
use bundle_frames::Written;
use checkpoint_shelf::ClosedShelf;
use kernel_copy::laws::courses_stay_in_range;
use kernel_copy::{Checkpoint, closing_of, state_frames};
use kernel_core::Kernel;
use market_types::Trace;
use outside::{Ledger, Steps};
use plain_lists::Memory;
use probe_desk::{Probe, restart_all, values, watch};
use std::alloc::Global;

// The frames of a branch's state after so many events.
fn state_bytes(
    alloc: Global,
    session: &Session,
    branch: u16,
    event: u32,
    kernel: &Kernel,
) -> Result<Vec<u8>, Memory>
    requires branch { branch < length session.now.branches }
    requires state { kernel.now ≡ (full_in session.now branch event).state }
    ensures { IfOk result (λ v. v.items ≡ rewound_frames session.now branch event) }
{
    courses_stay_in_range();
    let mut out = Vec::new(alloc);
    let Ok(()) = put_head(&mut out, session, branch, event) else {
        drop(out);
        return Err(Memory);
    };
    let Ok(state) = state_frames(alloc, session.course().opening(), kernel) else {
        drop(out);
        return Err(Memory);
    };
    let Ok(()) = out.extend_from_slice(&state) else {
        drop(state);
        drop(out);
        return Err(Memory);
    };
    drop(state);
    Ok(out)
}

// The frames of a branch's end.
fn closing_bytes(
    alloc: Global,
    session: &Session,
    branch: u16,
    kernel: &Kernel,
) -> Result<Vec<u8>, Memory>
    requires branch { branch < length session.now.branches }
    requires state { kernel.now ≡ (full_run_in session.now branch).state }
    ensures { IfOk result (λ v. v.items ≡ closed_frames session.now branch) }
{
    courses_stay_in_range();
    let mut out = Vec::new(alloc);
    let Ok(()) = put_own_head(&mut out, session, branch) else {
        drop(out);
        return Err(Memory);
    };
    let Ok(closing) = closing_of(alloc, session.course().opening(), kernel) else {
        drop(out);
        return Err(Memory);
    };
    let put = closing.put(&mut out);
    drop(closing);
    let Ok(()) = put else {
        drop(out);
        return Err(Memory);
    };
    Ok(out)
}

// The frames of these values.
fn told_bytes(alloc: Global, told: &[i128]) -> Result<Vec<u8>, Memory>
    ensures { IfOk result (λ v. v.items ≡ flat_map value_frame told.now) }
{
    let mut out = Vec::new(alloc);
    put_values(&mut out, told)?;
    Ok(out)
}

// The answer to a rewind of a branch.
fn rewound<L: Ledger>(
    alloc: Global,
    session: &Session,
    shelf: &ClosedShelf<Checkpoint>,
    branch: u16,
    event: u32,
    steps: &mut Steps<L>,
) -> Result<Vec<u8>, SessionError>
    requires branch { branch < length session.now.branches }
    requires shelf { shelf.now.course ≡ session.now.course }
    requires count { steps.old + session.now.course.opening.limit < 2 ^ 64 }
    ensures bytes { IfOk result (λ v. v.items ≡ rewound_frames session.now branch event) }
    ensures within { OnOk result (last_before (last_event_in session.now branch) event ≡ None) }
    ensures past { IfErr result (λ e. (e ≡ SessionError.Memory) ⊎ ((last : ℕ) × (e ≡ SessionError.NoEvent last) × (last_before (last_event_in session.now branch) event ≡ Some last))) }
    ensures rose { OnOk result (steps.new ≡ steps.old + left_to_run (best shelf.now) session.now branch event) }
    ensures least { steps.old ≤ steps.new }
    ensures most { steps.new ≤ steps.old + session.now.course.opening.limit }
{
    let kernel = match session.state(shelf, branch, event, steps) {
        Ok(kernel) => kernel,
        Err(error) => return Err(error),
    };
    let bytes = state_bytes(alloc, session, branch, event, &kernel);
    drop(kernel);
    match bytes {
        Ok(bytes) => Ok(bytes),
        Err(Memory) => Err(SessionError::Memory),
    }
}

// The answer to the closing of a branch.
fn closed<L: Ledger>(
    alloc: Global,
    session: &Session,
    shelf: &ClosedShelf<Checkpoint>,
    branch: u16,
    steps: &mut Steps<L>,
) -> Result<Vec<u8>, Memory>
    requires branch { branch < length session.now.branches }
    requires shelf { shelf.now.course ≡ session.now.course }
    requires count { steps.old + session.now.course.opening.limit < 2 ^ 64 }
    ensures bytes { IfOk result (λ v. v.items ≡ closed_frames session.now branch) }
    ensures rose { OnOk result (steps.new ≡ steps.old + left_to_run (best shelf.now) session.now branch (last_event_in session.now branch)) }
    ensures least { steps.old ≤ steps.new }
    ensures most { steps.new ≤ steps.old + session.now.course.opening.limit }
{
    match session.full(shelf, branch, steps) {
        Ok(kernel) => {
            let bytes = closing_bytes(alloc, session, branch, &kernel);
            drop(kernel);
            bytes
        }
        Err(_) => Err(Memory),
    }
}

// The entries of a branch's full run.
fn entries<L: Ledger>(
    alloc: Global,
    session: &Session,
    branch: u16,
    steps: &mut Steps<L>,
) -> Result<Trace, Memory>
    requires branch { branch < length session.now.branches }
    requires count { steps.old + session.now.course.opening.limit < 2 ^ 64 }
    ensures entries { IfOk result (λ t. t.list ≡ (full_run_in session.now branch).entries) }
    ensures rose { OnOk result (steps.new ≡ steps.old + last_event_in session.now branch) }
    ensures least { steps.old ≤ steps.new }
    ensures most { steps.new ≤ steps.old + session.now.course.opening.limit }
{
    let mut trace = Trace::new(alloc);
    match session.records(branch, &mut trace, steps) {
        Ok(()) => Ok(trace),
        Err(_) => {
            drop(trace);
            Err(Memory)
        }
    }
}

// The answer to the values of a branch.
fn valued<L: Ledger>(
    alloc: Global,
    session: &Session,
    branch: u16,
    probes: &mut [Box<dyn Probe>],
    steps: &mut Steps<L>,
) -> Result<Vec<u8>, Memory>
    requires branch { branch < length session.now.branches }
    requires count { steps.old + session.now.course.opening.limit < 2 ^ 64 }
    ensures bytes { IfOk result (λ v. v.items ≡ value_frames (map (λ p. meaning p) probes.old) session.now branch) }
    ensures rose { OnOk result (steps.new ≡ steps.old + last_event_in session.now branch) }
    ensures least { steps.old ≤ steps.new }
    ensures most { steps.new ≤ steps.old + session.now.course.opening.limit }
    ensures meanings { map (λ p. meaning p) probes.new ≡ map (λ p. meaning p) probes.old }
    ensures titles { map (λ p. title p) probes.new ≡ map (λ p. title p) probes.old }
{
    let Ok(trace) = entries(alloc, session, branch, steps) else {
        return Err(Memory);
    };
    restart_all(probes);
    watch(probes, &trace);
    drop(trace);
    let Ok(told) = values(alloc, probes) else {
        return Err(Memory);
    };
    told_bytes(alloc, &told)
}

// These bytes, or that memory wants.
fn made(bytes: Result<Vec<u8>, Memory>) -> Result<Vec<u8>, SessionError>
    ensures bytes { (v : List ℕ) → IfOk bytes (λ x. x.items ≡ v) → IfOk result (λ x. x.items ≡ v) }
    ensures memory { IfErr result (λ e. e ≡ SessionError.Memory) }
    ensures ok { OnOk result (IsOk bytes) }
{
    match bytes {
        Ok(bytes) => Ok(bytes),
        Err(Memory) => Err(SessionError::Memory),
    }
}

// The number of the branch that an act names.
fn number(session: &Session, name: &Name) -> u16
    requires { lacks session.now name.now ≡ false }
    ensures value { result ≡ number_in session.now name.now }
    ensures exists { result < length session.now.branches }
{
    match branch_named(session, name) {
        Some(number) => number,
        None => unreachable!(),
    }
}

/// The answer of an act over the tree as it stands, which doesn't refuse it. An act that changes the tree is answered nothing.
///
/// # Errors
/// `NoEvent` exactly where the act is a rewind past its branch's last event, and want of memory.
pub fn answer<L: Ledger>(
    alloc: Global,
    session: &Session,
    shelf: &ClosedShelf<Checkpoint>,
    act: &Act,
    probes: &mut [Box<dyn Probe>],
    steps: &mut Steps<L>,
) -> Result<Vec<u8>, SessionError>
    requires stands { is_refused session.now act.now ≡ false }
    requires shelf { shelf.now.course ≡ session.now.course }
    requires count { steps.old + session.now.course.opening.limit < 2 ^ 64 }
    ensures bytes { IfOk result (λ v. v.items ≡ answer_of (map (λ p. meaning p) probes.old) session.now act.now) }
    ensures within { OnOk result (past_last session.now act.now ≡ None) }
    ensures past { IfErr result (λ e. (e ≡ SessionError.Memory) ⊎ ((last : ℕ) × (e ≡ SessionError.NoEvent last) × (past_last session.now act.now ≡ Some last))) }
    ensures rose { OnOk result (steps.new ≡ steps.old + run_for session.now act.now + reached_for (best shelf.now) session.now act.now) }
    ensures least { steps.old ≤ steps.new }
    ensures most { steps.new ≤ steps.old + session.now.course.opening.limit }
    ensures meanings { map (λ p. meaning p) probes.new ≡ map (λ p. meaning p) probes.old }
    ensures titles { map (λ p. title p) probes.new ≡ map (λ p. title p) probes.old }
{
    match act {
        Act::Rewind { name, event } => {
            rewound(alloc, session, shelf, number(session, name), *event, steps)
        }
        Act::Close { name } => made(closed(alloc, session, shelf, number(session, name), steps)),
        Act::Values { name } => made(valued(alloc, session, number(session, name), probes, steps)),
        Act::Fork { .. } | Act::Undo | Act::Edit { .. } => Ok(Vec::new(alloc)),
    }
}
