//! Why branches are no tree.

ghost use Rattle.std.specs.Prelude.{◌≡◌, ◌<◌, ◌≤◌, ◌*◌, [], length, None};
ghost use Rattle.std.specs.List.{list_any};
ghost use Rattle.branch_tree.specs.declared.branch.Branch.{Branch};
ghost use Rattle.branch_tree.specs.Plan.{stop_at};
ghost use Rattle.branch_tree.specs.Tree.{late_parent, is_in_range, out_of_range, same_name, repeated_name, mixes, mixed_from, mixed_stop, too_many, too_much, plan_refusal};

use crate::branch::Branch;
use crate::error::PlanError;
use crate::stop::Stop;

// The first branch after the root whose parent isn't an earlier branch.
fn place_of_late(branches: &[Branch]) -> Option<usize>
    requires { 0 < length branches.now }
    ensures { result ≡ late_parent branches.now }
{
    for i in 1..branches.len() {
        if usize::from(branches[i].parent) >= i {
            return Some(i);
        }
    }
    None
}

// The stop at which a branch leaves its parent; event number 0 where there is no such branch.
fn stop_of(branches: &[Branch], branch: u16) -> Stop
    ensures { result ≡ stop_at branches.now branch }
{
    match branches.get(usize::from(branch)) {
        Some(b) => b.stop,
        None => Stop::At(0),
    }
}

// Whether a branch leaves its parent within the limit of events, and at no lesser stop than the parent's own of the same
// kind.
fn within(branches: &[Branch], limit: u32, b: &Branch) -> bool
    ensures { result ≡ is_in_range limit branches.now b.now }
{
    b.stop.is_within(limit) && b.stop.is_from(stop_of(branches, b.parent))
}

// The first branch with a stop out of range.
fn place_out_of_range(branches: &[Branch], limit: u32) -> Option<usize>
    ensures { result ≡ out_of_range limit branches.now }
{
    for i in 0..branches.len() {
        if !within(branches, limit, &branches[i]) {
            return Some(i);
        }
    }
    None
}

// Whether one of these branches has the name of a branch.
fn is_named(before: &[Branch], b: &Branch) -> bool
    ensures { result ≡ list_any (λ (a : Branch). same_name a b.now) before.now }
{
    before
        .iter()
        .any(|a| a.name.as_slice() == b.name.as_slice())
}

// The first branch that has the name of an earlier one.
fn place_of_repeated(branches: &[Branch]) -> Option<usize>
    ensures { result ≡ repeated_name branches.now }
{
    for i in 0..branches.len() {
        if is_named(&branches[..i], &branches[i]) {
            return Some(i);
        }
    }
    None
}

// Whether one of these branches leaves the parent of a branch at a stop of another kind.
fn is_mixed(before: &[Branch], b: &Branch) -> bool
    ensures { result ≡ list_any (λ (a : Branch). mixes a b.now) before.now }
{
    before
        .iter()
        .any(|a| a.parent == b.parent && !a.stop.is_like(b.stop))
}

// The first branch of these, the first of which is branch 1, whose kind of stop isn't that of one before it with the same
// parent.
fn place_among_children(children: &[Branch]) -> Option<usize>
    ensures { result ≡ mixed_from [] 1 children.now }
{
    for i in 0..children.len() {
        if is_mixed(&children[..i], &children[i]) {
            return Some(i + 1);
        }
    }
    None
}

// The first branch whose kind of stop isn't that of an earlier branch with the same parent.
fn place_of_mixed(branches: &[Branch]) -> Option<usize>
    ensures { result ≡ mixed_stop branches.now }
{
    match branches {
        [] => None,
        [_, children @ ..] => place_among_children(children),
    }
}

// More than 256 branches.
fn many(count: usize) -> Option<PlanError>
    ensures { result ≡ too_many count }
{
    if count > 256 {
        Some(PlanError::TooManyBranches(count))
    } else {
        None
    }
}

// More than 4,000,000 events of all branches.
fn much(count: usize, limit: u32) -> Option<PlanError>
    requires { count ≤ 256 }
    ensures { result ≡ too_much count limit }
{
    if count as u64 * u64::from(limit) > 4_000_000 {
        Some(PlanError::TooMuchWork(count, limit))
    } else {
        None
    }
}

// Why these branches are no tree.
pub fn refusal_of(branches: &[Branch], limit: u32) -> Option<PlanError>
    requires { 0 < length branches.now }
    ensures { result ≡ plan_refusal branches.now limit }
{
    if let Some(place) = place_of_late(branches) {
        return Some(PlanError::ParentNotBefore(place));
    }
    if let Some(place) = place_out_of_range(branches, limit) {
        return Some(PlanError::StopOutOfRange(place));
    }
    if let Some(error) = many(branches.len()) {
        return Some(error);
    }
    if let Some(place) = place_of_repeated(branches) {
        return Some(PlanError::NameTwice(place));
    }
    if let Some(error) = much(branches.len(), limit) {
        return Some(error);
    }
    if let Some(place) = place_of_mixed(branches) {
        return Some(PlanError::StopsMixed(place));
    }
    None
}
