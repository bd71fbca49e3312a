//! Courses of a market of two watchers.

ghost use Rattle.std.specs.Prelude.{◌≡◌, ◌≤◌, OnOk};
ghost use Rattle.branch_tree.specs.declared.branch.Branch.{Branch};
ghost use Rattle.market_floor.specs.Opening.{IsOpening};
ghost use Rattle.market_floor.specs.OpeningWorked.{watcher};
ghost use Rattle.kernel_copy.specs.Courses.{AreEdits};
ghost use Rattle.branch_workers.specs.Example.{AreBranches, small, two_watchers};

use agent_shell::{Kind, TraderSetting};
use branch_tree::{Branch, Name, Stop, plan};
use kernel_copy::Course;
use market_floor::Opening;
use market_floor::opening_worked::{markets_are_openings, opening};
use market_rules::Edit;
use market_types::{Memory, Sequence, Time};
use std::alloc::Global;
use std::process::Abort;
use std::sync::Arc;

// A watcher that first wakes at 1000.
fn watching() -> TraderSetting
    ensures { result ≡ watcher 1000 }
{
    TraderSetting {
        kind: Kind::Watcher,
        group: 0,
        stock: 0,
        first: 1000,
        every: 1_000_000,
        wobble: 0,
        delay: 0,
        cash: 0,
    }
}

// Two watchers.
fn traders(rt: &impl Abort, alloc: Global) -> Vec<TraderSetting>
    ensures { result.items ≡ two_watchers }
{
    let mut traders = Vec::new(alloc);
    traders.push(watching()).expect(rt, "memory");
    traders.push(watching()).expect(rt, "memory");
    traders
}

// A market of two watchers.
pub(crate) fn market(rt: &impl Abort, alloc: Global) -> Opening
    ensures opening { IsOpening result }
    ensures made { result ≡ small }
{
    markets_are_openings();
    let traders = traders(rt, alloc);
    let Ok(o) = opening(alloc, 2000, 100, 0, traders) else {
        panic!(rt; "out of memory");
    };
    o
}

// The root alone.
pub(crate) fn root(rt: &impl Abort, alloc: Global) -> Vec<Branch>
    ensures { AreBranches result.items }
{
    let root = Branch {
        name: Name::new(b"root").expect(rt, "a name"),
        parent: 0,
        stop: Stop::At(0),
        edits: Sequence::new(Vec::new(alloc)),
    };
    let mut branches = Vec::new(alloc);
    let Ok(()) = branches.push(root) else {
        panic!(rt; "out of memory");
    };
    branches
}

// No edit.
pub(crate) fn nothing(alloc: Global) -> Vec<Edit>
    ensures { AreEdits small result.items }
{
    Vec::new(alloc)
}

// Another latency between all agents, in nanoseconds.
pub(crate) fn latency(rt: &impl Abort, alloc: Global, base: Time) -> Vec<Edit>
    requires { base ≤ 1000 }
    ensures { AreEdits small result.items }
{
    let edit = Edit::Latency {
        from: 0,
        to: 0,
        base,
        jitter: 0,
    };
    let mut edits = Vec::new(alloc);
    edits.push(edit).expect(rt, "memory");
    edits
}

// Appends a branch whose edits can be made.
fn add(branches: &mut Vec<Branch>, branch: Branch) -> Result<(), Memory>
    requires before { AreBranches branches.old.items }
    requires edits { AreEdits small branch.edits }
    ensures { OnOk result (AreBranches branches.new.items) }
{
    branches.push(branch)?;
    Ok(())
}

// One branch more.
pub(crate) fn fork(
    rt: &impl Abort,
    branches: &mut Vec<Branch>,
    name: &[u8],
    parent: u16,
    stop: Stop,
    edits: Vec<Edit>,
)
    requires before { AreBranches branches.old.items }
    requires edits { AreEdits small edits.items }
    ensures { AreBranches branches.new.items }
{
    let branch = Branch {
        name: Name::new(name).expect(rt, "a name"),
        parent,
        stop,
        edits: Sequence::new(edits),
    };
    let Ok(()) = add(branches, branch) else {
        panic!(rt; "out of memory");
    };
}

// The course of these branches.
pub(crate) fn course_of(rt: &impl Abort, alloc: Global, branches: Vec<Branch>) -> Arc<Course>
    requires { AreBranches branches.items }
    ensures { result.value.opening ≡ small }
{
    let plan = plan(alloc, branches, 100).expect(rt, "a plan");
    let course = Course::new(market(rt, alloc), plan);
    Arc::new(alloc, course).expect(rt, "memory")
}

// A root and two branches that leave it at one stop: one makes the latency 50, and one makes it 7. Each runs to event 6.
fn two_at(rt: &impl Abort, alloc: Global, stop: Stop) -> Vec<Branch>
    ensures { AreBranches result.items }
{
    let mut branches = root(rt, alloc);
    fork(rt, &mut branches, b"x", 0, stop, latency(rt, alloc, 50));
    fork(rt, &mut branches, b"y", 0, stop, latency(rt, alloc, 7));
    branches
}

// The same and a third branch, which changes nothing. They have five segments, and 18 events where they leave at event 2.
pub(crate) fn three_at(rt: &impl Abort, alloc: Global, stop: Stop) -> Vec<Branch>
    ensures { AreBranches result.items }
{
    let mut branches = two_at(rt, alloc, stop);
    fork(rt, &mut branches, b"z", 0, stop, nothing(alloc));
    branches
}

// The course of the two branches.
pub(crate) fn two_branches(rt: &impl Abort, alloc: Global, stop: Stop) -> Arc<Course>
    ensures { result.value.opening ≡ small }
{
    course_of(rt, alloc, two_at(rt, alloc, stop))
}

// The course of the three branches.
pub(crate) fn three_branches(rt: &impl Abort, alloc: Global, stop: Stop) -> Arc<Course>
    ensures { result.value.opening ≡ small }
{
    course_of(rt, alloc, three_at(rt, alloc, stop))
}
