//! The acts that change the tree, and which act it refuses first.

ghost use Rattle.std.specs.Prelude.{◌≡◌, ◌<◌, ◌≤◌, false, true, not, All, IfOk, IfSome, length};
ghost use Rattle.branch_tree.specs.Stops.{is_time};
ghost use Rattle.kernel_copy.specs.Courses.{AreEdits};
ghost use Rattle.session_desk.specs.Session.{first_session};
ghost use Rattle.session_desk.specs.Fitting.{FitsOpening};
ghost use Rattle.session_desk.specs.declared.act.Act.TheVariants as act;
ghost use Rattle.session_desk.specs.Acting.{after_act};
ghost use Rattle.session_desk.specs.Refused.{act_refused, is_refused};

use crate::named::branch_named;
use crate::{Act, Session, SessionError};
use branch_tree::{Branch, Name, Stop, copy_edits};
use kernel_copy::Course;
use market_rules::Edit;
use plain_lists::{Memory, Sequence};
use std::alloc::Global;
use std::sync::Arc;

// A branch of this name becomes the last of the tree, unless no branch has the parent's name or the plan refuses it. Whether it
// did.
fn fork(
    alloc: Global,
    session: &mut Session,
    name: &Name,
    parent: &Name,
    at: u32,
    edits: &[Edit],
) -> Result<bool, Memory>
    requires { AreEdits session.old.course.opening edits.now }
    ensures told { IfOk result (λ made. made ≡ not (is_refused session.old (act.Fork name.now parent.now at edits.now))) }
    ensures made { IfOk result (λ made. made ≡ true → session.new ≡ after_act session.old (act.Fork name.now parent.now at edits.now)) }
{
    let Some(number) = branch_named(session, parent) else {
        return Ok(false);
    };
    let Ok(edits) = copy_edits(alloc, edits) else {
        return Err(Memory);
    };
    let branch = Branch {
        name: name.copy(),
        parent: number,
        stop: Stop::At(at),
        edits: Sequence::new(edits),
    };
    match session.fork(branch) {
        Ok(()) => Ok(true),
        Err(SessionError::Memory) => Err(Memory),
        Err(_) => Ok(false),
    }
}

// The last branch leaves the tree, unless it is the root. Whether it did.
fn undo(session: &mut Session) -> bool
    ensures told { result ≡ not (is_refused session.old act.Undo) }
    ensures made { result ≡ true → session.new ≡ after_act session.old act.Undo }
{
    session.undo().is_ok()
}

// The edits of the branch of a name are replaced, unless there is none or it is the root. Whether they were.
fn edit(alloc: Global, session: &mut Session, name: &Name, edits: &[Edit]) -> Result<bool, Memory>
    requires { AreEdits session.old.course.opening edits.now }
    ensures told { IfOk result (λ made. made ≡ not (is_refused session.old (act.Edit name.now edits.now))) }
    ensures made { IfOk result (λ made. made ≡ true → session.new ≡ after_act session.old (act.Edit name.now edits.now)) }
{
    let Some(number) = branch_named(session, name) else {
        return Ok(false);
    };
    let Ok(edits) = copy_edits(alloc, edits) else {
        return Err(Memory);
    };
    Ok(session.edit(number, edits).is_ok())
}

/// What an act makes of the tree; a question makes nothing of it. `false` exactly where the tree as it stands refuses the act.
pub fn change(alloc: Global, session: &mut Session, act: &Act) -> Result<bool, Memory>
    requires { FitsOpening session.old.course.opening act.now }
    ensures told { IfOk result (λ made. made ≡ not (is_refused session.old act.now)) }
    ensures made { IfOk result (λ made. made ≡ true → session.new ≡ after_act session.old act.now) }
{
    match act {
        Act::Fork {
            name,
            parent,
            at,
            edits,
        } => fork(alloc, session, name, parent, *at, edits.as_slice()),
        Act::Undo => Ok(undo(session)),
        Act::Edit { name, edits } => edit(alloc, session, name, edits.as_slice()),
        Act::Rewind { name, event: _ } => Ok(branch_named(session, name).is_some()),
        Act::Close { name } => Ok(branch_named(session, name).is_some()),
        Act::Values { name } => Ok(branch_named(session, name).is_some()),
    }
}

/// The first act of a script that the tree refuses as it then stands: its name or its parent's isn't there, the plan refuses its
/// fork, or it would undo or edit the root. `None` exactly where none is refused. Nothing is simulated.
///
/// # Errors
/// Want of memory alone.
pub fn first_refused(
    alloc: Global,
    course: &Arc<Course>,
    acts: &[Act],
) -> Result<Option<u32>, Memory>
    requires numbers { All (λ b. is_time b.stop ≡ false) course.now.value.plan.branches }
    requires fit { All (FitsOpening course.now.value.opening) acts.now }
    requires few { length acts.now ≤ 64 }
    ensures first { IfOk result (λ found. found ≡ act_refused (first_session course.now.value) acts.now) }
    ensures low { IfOk result (λ found. IfSome found (λ i. i < length acts.now)) }
{
    let Ok(mut session) = Session::open(alloc, course) else {
        return Err(Memory);
    };
    for (i, act) in acts.iter().enumerate() {
        let Ok(made) = change(alloc, &mut session, act) else {
            drop(session);
            return Err(Memory);
        };
        if !made {
            drop(session);
            return Ok(Some(i as u32));
        }
    }
    drop(session);
    Ok(None)
}
