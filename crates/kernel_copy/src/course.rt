//! What all branches of a study share.

ghost use Rattle.std.specs.Prelude.{◌≡◌, ◌<◌, ◌≤◌, ◌^◌, ℕ, None, Some, length, All};
ghost use Rattle.branch_tree.specs.Plan.{branch_at};
ghost use Rattle.branch_tree.specs.Stops.{IsWithin};
ghost use Rattle.branch_tree.specs.Segments.{last_of, segments_in, segment_at};
ghost use Rattle.branch_tree.specs.Tree.{IsRooted, plan_refusal};
ghost use Rattle.market_floor.specs.Opening.{IsOpening};
ghost use Rattle.kernel_core.specs.Edited.{IsEditOf};
ghost use Rattle.kernel_core.specs.Open.{opened};
ghost use Rattle.kernel_copy.specs.Courses.{AreEdits, IsCourse, GoesOnFrom};

use branch_tree::{BranchPlan, Segment};
use market_floor::Opening;
use market_rules::Edit;
use std::marker::Model;

/// A study's opening and its tree of branches, which keep to the study's rules.
#[derive(Drop)]
pub struct Course {
    opening: Opening,
    plan: BranchPlan,
}

impl Model for Course {
    ghost use Rattle.kernel_copy.specs.Courses.{CourseTold, IsCourse};

    ghost Value = { CourseTold };

    ghost view = { λ c. record { opening = c.opening; plan = c.plan } };

    ghost invariant = { λ c. IsCourse (record { opening = c.opening; plan = c.plan }) };
}

// What holds of each plan: its branches make a tree under its limit of events, and its segments are few. A proof has these
// facts behind a call.
pub(crate) fn is_tree(plan: &BranchPlan)
    ensures rooted { IsRooted plan.now.branches }
    ensures accepted { plan_refusal plan.now.branches plan.now.limit ≡ None }
    ensures few { length (segments_in plan.now) < 2 ^ 32 }
{
    let _branches = plan.branches();
    let _segments = plan.segments();
}

impl Course {
    /// The course of an opening and a plan under its limit of events, each of whose branches has at most 16 edits that can be made
    /// at the opening.
    pub fn new(opening: Opening, plan: BranchPlan) -> Course
        requires opening { IsOpening opening }
        requires limit { plan.limit ≡ opening.limit }
        requires edits { All (λ b. AreEdits opening b.edits) plan.branches }
        ensures { result ≡ record { opening = opening; plan = plan } }
    {
        is_tree(&plan);
        Course { opening, plan }
    }

    /// What holds of each course: its opening and edits are in the ranges of a study's rules, and its branches make a tree under
    /// the opening's limit of events. A proof has these facts behind a call.
    pub fn know_course(&self)
        ensures { IsCourse self.now }
    {
        let _opening = &self.opening;
    }

    /// What a run starts from.
    pub fn opening(&self) -> &Opening
        ensures value { result.now ≡ self.now.opening }
        ensures course { IsCourse self.now }
    {
        &self.opening
    }

    /// The branches and their segments.
    pub fn plan(&self) -> &BranchPlan
        ensures value { result.now ≡ self.now.plan }
        ensures course { IsCourse self.now }
    {
        &self.plan
    }

    /// A segment by its number.
    pub fn segment(&self, segment: u32) -> Segment
        requires { segment < length (segments_in self.now.plan) }
        ensures value { result ≡ segment_at self.now.plan segment }
        ensures course { IsCourse self.now }
        ensures branch { result.branch < length self.now.plan.branches }
        ensures within { IsWithin self.now.opening.limit result.stop }
        ensures parent { (q : ℕ) → result.parent ≡ Some q → GoesOnFrom self.now.plan segment q }
    {
        self.plan().segments()[segment as usize]
    }

    /// The number of a branch's last segment, which ends at the limit of events.
    pub fn last_segment(&self, branch: u16) -> u32
        requires { branch < length self.now.plan.branches }
        ensures last { result ≡ last_of self.now.plan.branches branch }
        ensures exists { result < length (segments_in self.now.plan) }
    {
        let numbers = self.plan().segments_of(branch);
        numbers[numbers.len() - 1]
    }

    /// A branch's edits.
    pub fn edits(&self, branch: u16) -> &[Edit]
        requires { branch < length self.now.plan.branches }
        ensures value { result.now ≡ (branch_at self.now.plan.branches branch).edits }
        ensures few { length result.now ≤ 16 }
        ensures fit { All (λ e. IsEditOf (opened self.now.opening) e) result.now }
    {
        self.plan().branches()[usize::from(branch)].edits.as_slice()
    }
}
