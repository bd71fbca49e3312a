//! The rules of where branches leave their parents, and of how many events all have.

ghost use Rattle.std.specs.Prelude.{◌≡◌, map, take, None};
ghost use Rattle.toml.specs.View.{table_view, view};
ghost use Rattle.study_rules.specs.BranchRules.{events_of, is_stop as stop_of, timed_named as named_timed, stop_named as named_stop, is_alike as alike, is_from_parent as from_parent, is_unlike as unlike, has_kind as kind_among, branch_keys_broken as rule_30, stops_broken as rule_33, work_broken as rule_36};

use crate::beside_rule::{BesideRule, first_beside};
use crate::entries::{branch_stop, is_timed, parent_name};
use crate::keys::few_branches;
use crate::names::place_named;
use study_file::{Table, Value, broken_unless, is_at_most, is_between, number_at};

// The most events of a run.
fn events(table: &Table) -> u64
    ensures { result ≡ events_of (table_view table.now) }
{
    number_at(table, "events").unsigned_abs()
}

// Whether a branch leaves its parent at an event number up to the most of a run, or at a time from the open to the close.
fn is_stop(table: &Table, branch: &Value) -> bool
    ensures { result ≡ stop_of (table_view table.now) (view branch.now) }
{
    let stop = branch_stop(branch);
    if is_timed(branch) {
        0 <= stop && is_between(number_at(table, "open"), number_at(table, "close"), stop)
    } else {
        is_at_most(events(table), stop)
    }
}

// Whether the branch of a name leaves its parent at a time; the root doesn't.
fn timed_named(branches: &[Value], name: &str) -> bool
    ensures { result ≡ named_timed (map view branches.now) name.now }
{
    match place_named(branches, name) {
        Some(at) => is_timed(&branches[at]),
        None => false,
    }
}

// The time or the event number at which the branch of a name leaves its parent; the root's is 0.
fn stop_named(branches: &[Value], name: &str) -> i64
    ensures { result ≡ named_stop (map view branches.now) name.now }
{
    match place_named(branches, name) {
        Some(at) => branch_stop(&branches[at]),
        None => 0,
    }
}

// Whether two stops are both times or both event numbers.
fn is_alike(one: bool, other: bool) -> bool
    ensures { result ≡ alike one other }
{
    if one { other } else { !other }
}

// Whether a branch doesn't leave its parent below where the parent leaves its own, or the two stops are of two kinds.
fn is_from_parent(branches: &[Value], branch: &Value) -> bool
    ensures { result ≡ from_parent (map view branches.now) (view branch.now) }
{
    let parent = parent_name(branch);
    !is_alike(timed_named(branches, parent), is_timed(branch))
        || stop_named(branches, parent) <= branch_stop(branch)
}

// Whether another branch leaves the parent of a branch at a stop of another kind.
fn is_unlike(branch: &Value, other: &Value) -> bool
    ensures { result ≡ unlike (view branch.now) (view other.now) }
{
    parent_name(other) == parent_name(branch) && !is_alike(is_timed(other), is_timed(branch))
}

// Whether none of the first so many branches leaves the parent of a branch at a stop of another kind.
fn has_kind(branches: &[Value], count: usize, branch: &Value) -> bool
    ensures { result ≡ kind_among (map view (take count branches.now)) (view branch.now) }
{
    !branches
        .iter()
        .take(count)
        .any(|other| is_unlike(branch, other))
}

// A branch has a stop that a run can have, no lower than the parent's of the same kind, and of the kind of those of the branches
// before it that have its parent.
#[derive(Clone, Copy)]
struct HasStop<'a> {
    table: &'a Table,
    branches: &'a [Value],
}

impl<'a> BesideRule for HasStop<'a> {
    ghost use Rattle.std.specs.Prelude.{map};
    ghost use Rattle.toml.specs.View.{table_view, view};
    ghost use Rattle.study_rules.specs.BranchRules.{has_stop};

    ghost kept_by = { λ rule. has_stop (table_view rule.table.now) (map view rule.branches.now) };

    fn is_kept(&self, branches: &[Value], count: usize, branch: &Value) -> bool {
        is_stop(self.table, branch)
            && is_from_parent(self.branches, branch)
            && has_kind(branches, count, branch)
    }
}

/// The first branch that leaves its parent at an event number above the most of a run, at a time outside the market's day,
/// below where the parent leaves its own at a stop of the same kind, or at a stop of another kind than an earlier branch with
/// the same parent.
pub fn stops_broken(table: &Table) -> Option<u32>
    requires { rule_30 (table_view table.now) ≡ None }
    ensures { result ≡ rule_33 (table_view table.now) }
{
    let branches = few_branches(table);
    first_beside(&HasStop { table, branches }, branches)
}

/// Whether the branches with the root have more than 4,000,000 events.
pub fn work_broken(table: &Table) -> Option<u32>
    requires { rule_30 (table_view table.now) ≡ None }
    ensures { result ≡ rule_36 (table_view table.now) }
{
    let count = few_branches(table).len() as u64 + 1;
    broken_unless(
        u128::from(count) * u128::from(events(table)) <= 4_000_000,
        0,
    )
}
