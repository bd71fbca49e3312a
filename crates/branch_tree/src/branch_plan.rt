//! The plan of a study's segments.

ghost use Rattle.std.specs.Prelude.{◌≡◌, ◌<◌, ◌^◌, None, Err, IfSome, IfNone, IfOk, IfErr, length};
ghost use Rattle.branch_tree.specs.Tree.{IsRooted, plan_refusal};
ghost use Rattle.branch_tree.specs.Segments.{segments_in, segment_at, numbers_of, children_of};

use crate::branch::Branch;
use crate::children::all_children;
use crate::error::PlanError;
use crate::lay::{Laid, all_segments};
use crate::refusals::refusal_of;
use crate::segment::Segment;
use market_types::{Memory, Sequence};
use std::alloc::Global;
use std::marker::Model;

/// A study's branches, which make a tree, and the segments that it takes to run each.
#[derive(Drop)]
pub struct BranchPlan {
    branches: Sequence<Branch>,
    limit: u32,
    segments: Vec<Segment>,
    numbers: Vec<Sequence<u32>>,
    children: Vec<Sequence<u32>>,
}

impl Model for BranchPlan {
    ghost use Rattle.branch_tree.specs.Plan.{Plan};

    ghost Value = { Plan };

    ghost use Rattle.branch_tree.specs.Laid.{IsLaid};

    ghost view = { λ a. record { branches = a.branches; limit = a.limit } };

    ghost invariant = { λ a. IsLaid (record { branches = a.branches; limit = a.limit }) a.segments.items a.numbers.items a.children.items };
}

impl BranchPlan {
    /// The branches in order, the root first.
    pub fn branches(&self) -> &[Branch]
        ensures value { result.now ≡ self.now.branches }
        ensures rooted { IsRooted self.now.branches }
        ensures accepted { plan_refusal self.now.branches self.now.limit ≡ None }
    {
        self.branches.as_slice()
    }

    /// The most events of a run.
    pub fn limit(&self) -> u32
        ensures { result ≡ self.now.limit }
    {
        self.limit
    }

    /// The segments, by branch and then in order along its run.
    pub fn segments(&self) -> &[Segment]
        ensures value { result.now ≡ segments_in self.now }
        ensures few { length result.now < 2 ^ 32 }
    {
        self.segments.as_slice()
    }

    /// The numbers of a branch's segments in order.
    pub fn segments_of(&self, branch: u16) -> &[u32]
        requires { branch < length self.now.branches }
        ensures { result.now ≡ numbers_of self.now branch }
    {
        self.numbers[usize::from(branch)].as_slice()
    }

    /// The segment from whose end a segment goes on.
    pub fn parent_of(&self, segment: u32) -> Option<u32>
        requires { segment < length (segments_in self.now) }
        ensures { result ≡ (segment_at self.now segment).parent }
    {
        self.segments[segment as usize].parent
    }

    /// The numbers of the segments that go on from a segment's end, in order.
    pub fn children_of(&self, segment: u32) -> &[u32]
        requires { segment < length (segments_in self.now) }
        ensures { result.now ≡ children_of self.now segment }
    {
        self.children[segment as usize].as_slice()
    }
}

/// The plan of a study's branches, of which the first is the root, for runs of at most so many events; or why they are
/// no tree.
pub fn plan(alloc: Global, branches: Vec<Branch>, limit: u32) -> Result<BranchPlan, PlanError>
    requires { IsRooted branches.items }
    ensures refused { IfSome (plan_refusal branches.items limit) (λ e. result ≡ Err e) }
    ensures made { IfOk result (λ p. p ≡ record { branches = branches.items; limit = limit }) }
    ensures memory { IfNone (plan_refusal branches.items limit) (IfErr result (λ e. e ≡ PlanError.Memory)) }
{
    if let Some(refusal) = refusal_of(branches.as_slice(), limit) {
        return Err(refusal);
    }
    match laid(alloc, branches, limit) {
        Ok(plan) => Ok(plan),
        Err(Memory) => Err(PlanError::Memory),
    }
}

// The plan of branches that make a tree.
fn laid(alloc: Global, branches: Vec<Branch>, limit: u32) -> Result<BranchPlan, Memory>
    requires rooted { IsRooted branches.items }
    requires accepted { plan_refusal branches.items limit ≡ None }
    ensures { IfOk result (λ p. p ≡ record { branches = branches.items; limit = limit }) }
{
    let laid = all_segments(alloc, branches.as_slice(), limit)?;
    let children = all_children(alloc, laid.segments.as_slice())?;
    let Laid { segments, numbers } = laid;
    Ok(BranchPlan {
        branches: Sequence::new(branches),
        limit,
        segments,
        numbers,
        children,
    })
}
