//! The rules of the keys of branches and edits.

ghost use Rattle.std.specs.Prelude.{◌≡◌, ◌≤◌, ◌<◌, ◌+◌, ◌*◌, map, length, None, IfSome, []};
ghost use Rattle.toml.specs.View.{table_view, view};
ghost use Rattle.study_file.specs.Keys.{has_keys as keys_in, has_form as form_in};
ghost use Rattle.study_rules.specs.Forms.{branch_keys, edit_form};
ghost use Rattle.study_rules.specs.Entries.{branch_entries as entries_of};
ghost use Rattle.study_rules.specs.BranchRules.{most_branches as most_of, has_branch_keys as branch_keys_in, is_branch as branch_in, first_no_branch as no_branch_from, branch_keys_broken as rule_30, edit_keys_broken as rule_34, forms_broken as forms_of, first_edit};

use crate::entries::{branch_edits, branch_entries};
use crate::forms::EDIT_KEYS;
use study_file::{
    EntryRule, Kind, Table, Value, first_failing, has_form, has_keys, is_second_version, needed,
    spare,
};

// Whether a branch whose stop stands at this key has its keys with their types and no other.
fn has_keys_with(branch: &Table, stop: &str) -> bool
    ensures { result ≡ keys_in [] (branch_keys stop.now) (table_view branch.now) }
{
    has_keys(
        branch,
        "",
        &[
            needed("name", Kind::Text),
            needed("parent", Kind::Text),
            needed(stop, Kind::Number),
            spare("edit", Kind::Tables),
        ],
    )
}

// Whether a branch has its keys with their types and no other: `at`, or `when` in its place where a stop may be a time.
fn has_branch_keys(times: bool, branch: &Table) -> bool
    ensures { result ≡ branch_keys_in times (table_view branch.now) }
{
    has_keys_with(branch, "at") || (times && has_keys_with(branch, "when"))
}

// Whether a value is such a branch.
fn is_branch(times: bool, value: &Value) -> bool
    ensures { result ≡ branch_in times (view value.now) }
{
    match value.as_table() {
        Some(branch) => has_branch_keys(times, branch),
        None => false,
    }
}

// The most branches of a study beside the root: more where a stop may be a time.
fn most_branches(times: bool) -> u32
    ensures value { result ≡ most_of times }
    ensures few { result ≤ 255 }
{
    if times { 255 } else { 127 }
}

// The place of the first value that is no branch, where the first one stands at a place; one more than the most is one too
// many.
fn first_no_branch(times: bool, place: u32, values: &[Value]) -> Option<u32>
    requires { place ≤ most_of times }
    ensures { result ≡ no_branch_from times place (map view values.now) }
{
    match values.split_first() {
        Some((value, rest)) => {
            if place == most_branches(times) || !is_branch(times, value) {
                Some(place)
            } else {
                first_no_branch(times, place + 1, rest)
            }
        }
        None => None,
    }
}

/// The first branch that hasn't its keys with their types and no other; for too many 127 in version 1 and 255 in version 2.
pub fn branch_keys_broken(table: &Table) -> Option<u32>
    ensures { result ≡ rule_30 (table_view table.now) }
{
    first_no_branch(is_second_version(table), 0, branch_entries(table))
}

/// The entries of the branches, of which there are at most 255.
pub fn few_branches(table: &Table) -> &[Value]
    requires { rule_30 (table_view table.now) ≡ None }
    ensures entries { map view result.now ≡ entries_of (table_view table.now) }
    ensures few { length result.now ≤ 255 }
{
    branch_entries(table)
}

// Whether an edit has its keys with their types and no other, and its kind is known.
fn has_edit_keys(edit: &Table) -> bool
    ensures { result ≡ form_in edit_form (table_view edit.now) }
{
    has_form(
        edit,
        "kind",
        &[
            "tick", "fee", "halt", "resume", "latency", "agent", "silence", "inject", "series",
        ],
        &EDIT_KEYS,
    )
}

// An edit has its keys with their types and no other, and its kind is known.
struct HasKeys;

impl EntryRule for HasKeys {
    ghost use Rattle.study_file.specs.Keys.{has_form};
    ghost use Rattle.study_rules.specs.Forms.{edit_form};

    ghost kept_by = { λ _. has_form edit_form };

    fn is_kept(&self, edit: &Table) -> bool {
        has_edit_keys(edit)
    }
}

// The first of a branch's edits that hasn't its keys, and 0 where there are more than 16.
pub fn forms_broken(edits: &[Value]) -> Option<u32>
    ensures place { result ≡ forms_of (map view edits.now) }
    ensures low { IfSome result (λ at. at < 16) }
{
    if edits.len() <= 16 {
        first_failing(&HasKeys, edits)
    } else {
        Some(0)
    }
}

// The first edit of these branches that hasn't its keys, where the edits of the first branch stand from a place on.
fn first_form_broken(place: u32, branches: &[Value]) -> Option<u32>
    requires room { place + 16 * length branches.now ≤ 4096 }
    ensures { result ≡ first_edit forms_of place (map view branches.now) }
{
    match branches.split_first() {
        Some((branch, rest)) => match forms_broken(branch_edits(branch)) {
            Some(at) => Some(place + at),
            None => first_form_broken(place + 16, rest),
        },
        None => None,
    }
}

/// The first edit that hasn't its keys with their types and no other, or whose kind isn't known; a branch's first place for
/// too many.
pub fn edit_keys_broken(table: &Table) -> Option<u32>
    requires { rule_30 (table_view table.now) ≡ None }
    ensures { result ≡ rule_34 (table_view table.now) }
{
    first_form_broken(0, few_branches(table))
}
