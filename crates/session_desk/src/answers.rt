//! What a session answers.

ghost use Rattle.std.specs.Prelude.{◌≡◌, ◌<◌, ◌≤◌, ◌+◌, ◌++◌, ◌⊎◌, ◌^◌, true, false, Some, None, Err, IfOk, IfErr, OnOk, length};
ghost use Rattle.rewind_desk.specs.Best.{best};
ghost use Rattle.session_desk.specs.Session.{full_in, full_run_in, last_event_in};
ghost use Rattle.session_desk.specs.Anchors.{anchor_of, shared_count};
ghost use Rattle.session_desk.specs.Along.{BeginWith, event_count};
ghost use Rattle.session_desk.specs.Answers.{branch_refusal, state_refusal};

use crate::error::SessionError;
use crate::session::Session;
use crate::walk::{reach, recorded};
use checkpoint_shelf::ClosedShelf;
use kernel_copy::Checkpoint;
use kernel_core::Kernel;
use market_types::{Memory, Trace};
use outside::{Ledger, Steps};

impl Session {
    // Whether the tree hasn't a branch of this number.
    fn lacks(&self, branch: u16) -> bool
        ensures lacking { result ≡ true → length self.now.branches ≤ branch }
        ensures there { result ≡ false → branch < length self.now.branches }
    {
        usize::from(branch) >= self.tree().len()
    }

    /// The state of a branch of the tree as it stands after so many events of its full run, with the edits at the last of them
    /// made. It is reached from the nearest state that the closed shelf of the study's course holds of the branch's anchor, the
    /// last branch of its path up to which all are still the study's own, and otherwise from the opening; no state of a branch
    /// that an act forked or edited is taken. The counter rises by the events between the two.
    ///
    /// # Errors
    /// `NoBranch` exactly where the tree hasn't the branch, else `NoEvent` exactly where the event is past the full run's last: the
    /// counter then rose by the events from the nearest state up to that last event. And want of memory, where it rose by no more
    /// than the study's limit of events.
    pub fn state<L: Ledger>(
        &self,
        shelf: &ClosedShelf<Checkpoint>,
        branch: u16,
        event: u32,
        steps: &mut Steps<L>,
    ) -> Result<Kernel, SessionError>
        requires shelf { shelf.now.course ≡ self.now.course }
        requires count { steps.old + self.now.course.opening.limit < 2 ^ 64 }

        // The refusals, of which want of memory alone is free.
        ensures made { OnOk result (state_refusal self.now branch event ≡ None) }
        ensures refused { IfErr result (λ e. (e ≡ SessionError.Memory) ⊎ (state_refusal self.now branch event ≡ Some e)) }
        ensures no_branch { length self.now.branches ≤ branch → result ≡ Err SessionError.NoBranch }

        // The state is that of the full run over the tree as it stands.
        ensures state { IfOk result (λ k. k ≡ (full_in self.now branch event).state) }

        // The counter.
        ensures rose { OnOk result (steps.new + best shelf.now (anchor_of self.now branch) (shared_count self.now branch event) ≡ steps.old + event) }
        ensures past { result ≡ Err (SessionError.NoEvent (last_event_in self.now branch)) → steps.new + best shelf.now (anchor_of self.now branch) (shared_count self.now branch (last_event_in self.now branch)) ≡ steps.old + last_event_in self.now branch }
        ensures unmoved { length self.now.branches ≤ branch → steps.new ≡ steps.old }
        ensures least { steps.old ≤ steps.new }
        ensures most { steps.new ≤ steps.old + self.now.course.opening.limit }
    {
        if self.lacks(branch) {
            return Err(SessionError::NoBranch);
        }
        let most = event.min(self.course().opening().limit);
        match reach(self, shelf, branch, most, steps) {
            Ok(kernel) => {
                let events = kernel.events();
                if events < event {
                    drop(kernel);
                    return Err(SessionError::NoEvent(events));
                }
                Ok(kernel)
            }
            Err(Memory) => Err(SessionError::Memory),
        }
    }

    /// The last state of a branch of the tree as it stands, reached as `state` reaches one.
    ///
    /// # Errors
    /// `NoBranch` exactly where the tree hasn't the branch, and want of memory. The counter then rose by no more than the study's
    /// limit of events.
    pub fn full<L: Ledger>(
        &self,
        shelf: &ClosedShelf<Checkpoint>,
        branch: u16,
        steps: &mut Steps<L>,
    ) -> Result<Kernel, SessionError>
        requires shelf { shelf.now.course ≡ self.now.course }
        requires count { steps.old + self.now.course.opening.limit < 2 ^ 64 }

        // The refusals, of which want of memory alone is free.
        ensures made { OnOk result (branch_refusal self.now branch ≡ None) }
        ensures refused { IfErr result (λ e. (e ≡ SessionError.Memory) ⊎ (branch_refusal self.now branch ≡ Some e)) }
        ensures no_branch { length self.now.branches ≤ branch → result ≡ Err SessionError.NoBranch }

        // The state is the last of the full run over the tree as it stands.
        ensures state { IfOk result (λ k. k ≡ (full_run_in self.now branch).state) }

        // The counter.
        ensures rose { IfOk result (λ k. steps.new + best shelf.now (anchor_of self.now branch) (shared_count self.now branch k.events) ≡ steps.old + k.events) }
        ensures unmoved { length self.now.branches ≤ branch → steps.new ≡ steps.old }
        ensures least { steps.old ≤ steps.new }
        ensures most { steps.new ≤ steps.old + self.now.course.opening.limit }
    {
        if self.lacks(branch) {
            return Err(SessionError::NoBranch);
        }
        match reach(self, shelf, branch, self.course().opening().limit, steps) {
            Ok(kernel) => Ok(kernel),
            Err(Memory) => Err(SessionError::Memory),
        }
    }

    /// Appends the entries of a branch's full run over the tree as it stands, which is made from the opening.
    ///
    /// # Errors
    /// `NoBranch` exactly where the tree hasn't the branch: the trace is then unchanged. And want of memory: the trace then holds,
    /// behind what it held, the first entries of the full run. They have as many events as the counter rose by, at most the
    /// study's limit, and all that comes before the last of these. Of the edits that follow it at once, which are made one by one
    /// and before the next event, they have those that were made by then: all, none, or the first of them.
    pub fn records<L: Ledger>(
        &self,
        branch: u16,
        trace: &mut Trace,
        steps: &mut Steps<L>,
    ) -> Result<(), SessionError>
        requires count { steps.old + self.now.course.opening.limit < 2 ^ 64 }

        // The refusals, of which want of memory alone is free.
        ensures made { OnOk result (branch_refusal self.now branch ≡ None) }
        ensures refused { IfErr result (λ e. (e ≡ SessionError.Memory) ⊎ (branch_refusal self.now branch ≡ Some e)) }
        ensures no_branch { length self.now.branches ≤ branch → result ≡ Err SessionError.NoBranch }

        // The entries are those of the full run over the tree as it stands.
        ensures entries { OnOk result (trace.new.list ≡ trace.old.list ++ (full_run_in self.now branch).entries) }
        ensures part { branch < length self.now.branches → BeginWith (trace.old.list ++ (full_run_in self.now branch).entries) trace.new.list }
        ensures kept { BeginWith trace.new.list trace.old.list }
        ensures counted { steps.new + event_count trace.old.list ≡ steps.old + event_count trace.new.list }
        ensures unchanged { length self.now.branches ≤ branch → trace.new.list ≡ trace.old.list }

        // The counter.
        ensures rose { OnOk result (steps.new ≡ steps.old + last_event_in self.now branch) }
        ensures unmoved { length self.now.branches ≤ branch → steps.new ≡ steps.old }
        ensures least { steps.old ≤ steps.new }
        ensures most { steps.new ≤ steps.old + self.now.course.opening.limit }
    {
        if self.lacks(branch) {
            return Err(SessionError::NoBranch);
        }
        let most = self.course().opening().limit;
        match recorded(self, branch, most, trace, steps) {
            Ok(kernel) => {
                drop(kernel);
                Ok(())
            }
            Err(Memory) => Err(SessionError::Memory),
        }
    }
}
