//! The tree of branches of a session, and the acts that change it.

ghost use Rattle.std.specs.Prelude.{◌≡◌, ◌<◌, ◌≤◌, ◌-◌, ◌⊎◌, false, Some, None, Err, All, IfOk, IfErr, OnOk, OnErr, length};
ghost use Rattle.branch_tree.specs.declared.error.PlanError.{PlanError};
ghost use Rattle.branch_tree.specs.Plan.{branch_at, parent_at, stop_at};
ghost use Rattle.branch_tree.specs.Stops.{is_time};
ghost use Rattle.branch_tree.specs.declared.stop.Stop.TheVariants.{At};
ghost use Rattle.kernel_copy.specs.Courses.{AreEdits};
ghost use Rattle.session_desk.specs.Session.{IsSession, first_session, is_own};
ghost use Rattle.session_desk.specs.TreeActs.{fork, undo, edit, acted};
ghost use Rattle.session_desk.specs.Answers.{fork_refusal};

use crate::copies::{all_own, copies, push_both, refusal_with};
use crate::error::SessionError;
use branch_tree::{Branch, Stop};
use kernel_copy::Course;
use market_rules::Edit;
use market_types::{Memory, Sequence};
use std::alloc::Global;
use std::marker::Model;
use std::sync::Arc;

/// A tree of branches over a study's course: the study's own at first, and then as acts leave it.
#[derive(Drop)]
pub struct Session {
    alloc: Global,
    course: Arc<Course>,
    branches: Vec<Branch>,
    own: Vec<bool>,
}

impl Model for Session {
    ghost use Rattle.session_desk.specs.Session.{SessionTold, IsSession};

    ghost Value = { SessionTold };

    ghost view = { λ s. record { course = s.course.value; branches = s.branches.items; own = s.own.items } };

    ghost invariant = { λ s. IsSession (record { course = s.course.value; branches = s.branches.items; own = s.own.items }) };
}

impl Session {
    /// A session over a course whose branches fork by event number: its tree is the study's, and all of it the study's own.
    ///
    /// # Errors
    /// Want of memory alone.
    pub fn open(alloc: Global, course: &Arc<Course>) -> Result<Session, Memory>
        requires { All (λ b. is_time b.stop ≡ false) course.now.value.plan.branches }
        ensures { IfOk result (λ s. s ≡ first_session course.now.value) }
    {
        let tree = course.plan().branches();
        let Ok(branches) = copies(alloc, tree) else {
            return Err(Memory);
        };
        let Ok(own) = all_own(alloc, tree.len()) else {
            drop(branches);
            return Err(Memory);
        };
        let Ok(shared) = Arc::try_clone(course) else {
            drop(own);
            drop(branches);
            return Err(Memory);
        };
        Ok(Session {
            alloc,
            course: shared,
            branches,
            own,
        })
    }

    /// The branches of the tree as it stands, the root first.
    pub fn tree(&self) -> &[Branch]
        ensures value { result.now ≡ self.now.branches }
        ensures session { IsSession self.now }
    {
        self.branches.as_slice()
    }

    /// The study's course.
    pub fn course(&self) -> &Arc<Course>
        ensures value { result.now.value ≡ self.now.course }
        ensures session { IsSession self.now }
    {
        &self.course
    }

    // The allocator that the session keeps.
    pub(crate) fn allocator(&self) -> Global {
        self.alloc
    }

    /// Whether a branch is still the study's own: no act forked it, and none edited or undid it since.
    pub fn is_own(&self, branch: u16) -> bool
        ensures { result ≡ is_own self.now branch }
    {
        match self.own.get(usize::from(branch)) {
            Some(own) => *own,
            None => false,
        }
    }

    /// A branch that forks by event number becomes the last of the tree.
    ///
    /// # Errors
    /// `Plan` with the plan's own refusal exactly where the tree with the branch is refused, and want of memory. The session is
    /// then unchanged.
    pub fn fork(&mut self, branch: Branch) -> Result<(), SessionError>
        requires number { is_time branch.stop ≡ false }
        requires edits { AreEdits self.old.course.opening branch.edits }
        ensures forked { OnOk result (self.new ≡ acted self.old (fork branch)) }
        ensures made { OnOk result (fork_refusal self.old branch ≡ None) }
        ensures refused { IfErr result (λ e. (e ≡ SessionError.Memory) ⊎ ((p : PlanError) × (e ≡ SessionError.Plan p) × (fork_refusal self.old branch ≡ Some p))) }
        ensures unchanged { OnErr result (self.new ≡ self.old) }
    {
        let limit = self.course.opening().limit;
        match refusal_with(self.alloc, self.branches.as_slice(), &branch, limit) {
            Err(Memory) => {
                drop(branch);
                Err(SessionError::Memory)
            }
            Ok(Some(refusal)) => {
                drop(branch);
                Err(SessionError::Plan(refusal))
            }
            Ok(None) => match push_both(&mut self.branches, &mut self.own, branch) {
                Ok(()) => Ok(()),
                Err(Memory) => Err(SessionError::Memory),
            },
        }
    }

    /// The last branch leaves the tree, and is given back. Takes no memory.
    ///
    /// # Errors
    /// `NoBranch` exactly where only the root is left. The session is then unchanged.
    pub fn undo(&mut self) -> Result<Branch, SessionError>
        ensures undone { OnOk result (self.new ≡ acted self.old undo) }
        ensures last { IfOk result (λ b. b ≡ branch_at self.old.branches (length self.old.branches - 1)) }
        ensures made { OnOk result (1 < length self.old.branches) }
        ensures refused { IfErr result (λ e. (e ≡ SessionError.NoBranch) × (length self.old.branches ≡ 1)) }
        ensures unchanged { OnErr result (self.new ≡ self.old) }
    {
        if self.branches.len() <= 1 {
            return Err(SessionError::NoBranch);
        }
        let _ = self.own.pop();
        match self.branches.pop() {
            Some(branch) => Ok(branch),
            None => unreachable!(),
        }
    }

    /// The edits of a branch of the tree are replaced. Takes no memory.
    ///
    /// # Errors
    /// `NoBranch` exactly where the tree hasn't the branch or it is the root. The session is then unchanged.
    pub fn edit(&mut self, branch: u16, edits: Vec<Edit>) -> Result<(), SessionError>
        requires { AreEdits self.old.course.opening edits.items }
        ensures edited { OnOk result (self.new ≡ acted self.old (edit branch edits.items)) }
        ensures made { OnOk result ((0 < branch) × (branch < length self.old.branches)) }
        ensures refused { IfErr result (λ e. (e ≡ SessionError.NoBranch) × ((branch ≡ 0) ⊎ (length self.old.branches ≤ branch))) }
        ensures unchanged { OnErr result (self.new ≡ self.old) }
    {
        let place = usize::from(branch);
        if place == 0 || place >= self.branches.len() {
            drop(edits);
            return Err(SessionError::NoBranch);
        }
        self.branches[place].edits = Sequence::new(edits);
        self.own[place] = false;
        Ok(())
    }
}

// The number of the branch that a branch leaves.
pub(crate) fn parent_of(session: &Session, branch: u16) -> u16
    requires { branch < length session.now.branches }
    ensures value { result ≡ parent_at session.now.branches branch }
    ensures earlier { 0 < branch → result < branch }
    ensures session { IsSession session.now }
{
    session.tree()[usize::from(branch)].parent
}

// The event number at which a branch leaves it.
pub(crate) fn stop_of(session: &Session, branch: u16) -> u32
    requires { branch < length session.now.branches }
    ensures { stop_at session.now.branches branch ≡ At result }
{
    match session.tree()[usize::from(branch)].stop {
        Stop::At(events) => events,
        Stop::When(_) => unreachable!(),
    }
}

// A branch's edits in the tree as it stands.
pub(crate) fn edits_of(session: &Session, branch: u16) -> &[Edit]
    requires { branch < length session.now.branches }
    ensures value { result.now ≡ (branch_at session.now.branches branch).edits }
    ensures edits { AreEdits session.now.course.opening result.now }
{
    session.tree()[usize::from(branch)].edits.as_slice()
}
