ghost use Rattle.std.specs.Prelude.{◌≡◌, []};

use crate::facts::holds;
use branch_tree::{Branch, BranchPlan, Name, PlanError, Stop, plan};
use market_types::Sequence;
use std::alloc::Global;
use std::process::Abort;

// A branch with no edits.
fn branch(rt: &impl Abort, alloc: Global, name: &[u8], parent: u16, stop: Stop) -> Branch
    ensures parent { result.parent ≡ parent }
    ensures stop { result.stop ≡ stop }
    ensures edits { result.edits ≡ [] }
{
    let Some(name) = Name::new(name) else {
        panic!(rt; "no name");
    };
    Branch {
        name,
        parent,
        stop,
        edits: Sequence::empty(alloc),
    }
}

// The plan of a root and two branches, of which the second has these numbers.
fn planned(
    rt: &impl Abort,
    alloc: Global,
    name: &[u8],
    parent: u16,
    stop: Stop,
    limit: u32,
) -> Result<BranchPlan, PlanError> {
    let mut branches = Vec::new(alloc);
    branches
        .push(branch(rt, alloc, b"root", 0, Stop::At(0)))
        .expect(rt, "memory");
    branches
        .push(branch(rt, alloc, b"a", 0, Stop::At(6)))
        .expect(rt, "memory");
    branches
        .push(branch(rt, alloc, name, parent, stop))
        .expect(rt, "memory");
    plan(alloc, branches, limit)
}

// The branch, the start, the stop and the parent of each segment.
const SEGMENTS: [(u16, Stop, Stop, Option<u32>); 5] = [
    (0, Stop::At(0), Stop::At(6), None),
    (0, Stop::At(6), Stop::At(100), Some(0)),
    (1, Stop::At(6), Stop::At(6), Some(0)),
    (1, Stop::At(6), Stop::At(100), Some(2)),
    (2, Stop::At(6), Stop::At(100), Some(2)),
];

// Whether a plan has these segments.
fn has_segments(plan: &BranchPlan) -> bool {
    for (g, hoped) in plan.segments().iter().zip(SEGMENTS.iter()) {
        if (g.branch, g.start, g.stop, g.parent) != *hoped {
            return false;
        }
    }
    plan.segments().len() == SEGMENTS.len()
}

#[test]
fn a_nested_tree_has_five_segments(rt: HostRuntime) {
    let Ok(plan) = planned(&rt, rt.alloc(), b"b", 1, Stop::At(6), 100) else {
        panic!(rt; "refused");
    };
    holds(&rt, has_segments(&plan));
    drop(plan);
}

// A name, a parent, a stop and a limit, each with the refusal of the tree.
const TREES: [(&[u8], u16, Stop, u32, Option<PlanError>); 10] = [
    (
        b"b",
        2,
        Stop::At(6),
        100,
        Some(PlanError::ParentNotBefore(2)),
    ),
    (
        b"b",
        1,
        Stop::At(5),
        100,
        Some(PlanError::StopOutOfRange(2)),
    ),
    (
        b"b",
        1,
        Stop::At(101),
        100,
        Some(PlanError::StopOutOfRange(2)),
    ),
    (b"b", 1, Stop::When(5), 100, None),
    (b"b", 1, Stop::When(101), 100, None),
    (b"b", 0, Stop::When(6), 100, Some(PlanError::StopsMixed(2))),
    (b"a", 0, Stop::When(6), 100, Some(PlanError::NameTwice(2))),
    (b"a", 1, Stop::At(6), 100, Some(PlanError::NameTwice(2))),
    (
        b"b",
        1,
        Stop::At(6),
        1_333_334,
        Some(PlanError::TooMuchWork(3, 1_333_334)),
    ),
    (b"b", 1, Stop::At(6), 1_333_333, None),
];

// Whether a copied branch is like its original.
fn is_copied(rt: &impl Abort, alloc: Global) -> bool {
    let copy = branch(rt, alloc, b"tick5", 3, Stop::When(9))
        .copy(alloc)
        .expect(rt, "memory");
    (copy.name.as_slice(), copy.parent, copy.stop) == (b"tick5".as_slice(), 3, Stop::When(9))
}

// Whether a tree is refused so, or not at all.
fn is_answered(
    rt: &impl Abort,
    alloc: Global,
    tree: &(&[u8], u16, Stop, u32, Option<PlanError>),
) -> bool {
    let (name, parent, stop, limit, wanted) = *tree;
    planned(rt, alloc, name, parent, stop, limit).err() == wanted
}

#[test]
fn refused_trees_and_names(rt: HostRuntime) {
    let alloc = rt.alloc();
    for tree in TREES.iter() {
        holds(&rt, is_answered(&rt, alloc, tree));
    }
    holds(
        &rt,
        Name::new(b"").is_none() && Name::new(&[b'a'; 33]).is_none(),
    );
    holds(&rt, is_copied(&rt, alloc));
}
