//! The rule of the keys of dated changes.

ghost use Rattle.std.specs.Prelude.{◌≡◌, ◌≤◌, map};
ghost use Rattle.toml.specs.View.{table_view, view};
ghost use Rattle.study_file.specs.Keys.{has_form as form_in};
ghost use Rattle.study_market.specs.AgentForms.{change_form};
ghost use Rattle.study_market.specs.ChangeRules.{is_change as change_in, first_no_change as no_change_from};

use crate::forms::CHANGE_KEYS;
use study_file::{Table, Value, has_form};

// Whether a change has its keys with their types and no other, and its kind is known.
fn has_change_keys(change: &Table) -> bool
    ensures { result ≡ form_in change_form (table_view change.now) }
{
    has_form(
        change,
        "kind",
        &["tick", "fee", "halt", "resume"],
        &CHANGE_KEYS,
    )
}

// Whether a value is such a change.
fn is_change(value: &Value) -> bool
    ensures { result ≡ change_in (view value.now) }
{
    match value.as_table() {
        Some(change) => has_change_keys(change),
        None => false,
    }
}

/// The place of the first value that is no change with its keys of a known kind, where the first of these values stands at a
/// place; the one after 1,024 is one too many.
pub fn first_no_change(place: u32, values: &[Value]) -> Option<u32>
    requires { place ≤ 1024 }
    ensures { result ≡ no_change_from place (map view values.now) }
{
    match values.split_first() {
        Some((value, rest)) => {
            if place == 1024 || !is_change(value) {
                Some(place)
            } else {
                first_no_change(place + 1, rest)
            }
        }
        None => None,
    }
}
