//! What a study's entries say of its branches.

ghost use Rattle.std.specs.Prelude.{◌≡◌, map};
ghost use Rattle.toml.specs.View.{table_view, view};
ghost use Rattle.study_rules.specs.Entries.{branch_entries as entries_of, name_in, parent_in, is_timed as timed_in, stop_in, edits_in};

use study_file::{Table, Value, integer_at, list_at, number_at, number_or, string_at};

// The entries of the branches.
pub fn branch_entries(table: &Table) -> &[Value]
    ensures { map view result.now ≡ entries_of (table_view table.now) }
{
    list_at(table, "branch")
}

// The name of a branch.
pub fn branch_name(branch: &Value) -> &str
    ensures { result.now ≡ name_in (view branch.now) }
{
    match branch.as_table() {
        Some(branch) => string_at(branch, "name"),
        None => "",
    }
}

// The name of a branch's parent.
pub fn parent_name(branch: &Value) -> &str
    ensures { result.now ≡ parent_in (view branch.now) }
{
    match branch.as_table() {
        Some(branch) => string_at(branch, "parent"),
        None => "",
    }
}

// Whether a branch leaves its parent at a time; else it does so at an event number.
pub fn is_timed(branch: &Value) -> bool
    ensures { result ≡ timed_in (view branch.now) }
{
    match branch.as_table() {
        Some(branch) => integer_at(branch, "when").is_some(),
        None => false,
    }
}

// The time, in nanoseconds past midnight, or the event number at which a branch leaves its parent.
pub fn branch_stop(branch: &Value) -> i64
    ensures { result ≡ stop_in (view branch.now) }
{
    match branch.as_table() {
        Some(branch) => number_or(branch, "when", number_at(branch, "at")),
        None => 0,
    }
}

// The entries of a branch's edits.
pub fn branch_edits(branch: &Value) -> &[Value]
    ensures { map view result.now ≡ edits_in (view branch.now) }
{
    match branch.as_table() {
        Some(branch) => list_at(branch, "edit"),
        None => &[],
    }
}
