//! The keys of a script and of its acts.

ghost use Rattle.std.specs.Prelude.{◌≡◌, map, length, [], ◌≤◌, true};
ghost use Rattle.toml.specs.View.{table_view, view};
ghost use Rattle.study_file.specs.KeyRules.{rule_of};
ghost use Rattle.study_file.specs.Keys.{has_form as form_in, has_keys as keys_in};
ghost use Rattle.session_desk.specs.Forms.{spare_of, script_keys, act_form};
ghost use Rattle.session_desk.specs.Script.{act_entries as entries_of, is_script as script_in};

use study_file::{Key, Kind, Table, Value, has_form, has_keys, list_at, needed, own};

// A key that acts of these kinds may have.
fn spare_for<'a>(name: &'a str, kind: Kind, with: &'a [&'a str]) -> Key<'a>
    ensures { rule_of result ≡ spare_of name.now kind (map (λ w. w.now) with.now) }
{
    Key {
        name,
        kind,
        needed: false,
        with,
    }
}

/// Whether an act has the keys of its kind with their types and no other, and its kind is known.
pub fn has_act_keys(act: &Table) -> bool
    ensures { result ≡ form_in act_form (table_view act.now) }
{
    has_form(
        act,
        "kind",
        &["fork", "undo", "edit", "rewind", "close", "values"],
        &[
            needed("kind", Kind::Text),
            own(
                "name",
                Kind::Text,
                &["fork", "edit", "rewind", "close", "values"],
            ),
            own("parent", Kind::Text, &["fork"]),
            own("at", Kind::Number, &["fork"]),
            spare_for("edit", Kind::Tables, &["fork"]),
            own("edit", Kind::Tables, &["edit"]),
            own("event", Kind::Number, &["rewind"]),
        ],
    )
}

/// The entries of the acts.
pub fn act_entries(script: &Table) -> &[Value]
    ensures { map view result.now ≡ entries_of (table_view script.now) }
{
    list_at(script, "act")
}

// Whether a script has the one key `act`, which is an array of tables.
fn has_script_keys(script: &Table) -> bool
    ensures { result ≡ keys_in [] script_keys (table_view script.now) }
{
    has_keys(script, "", &[needed("act", Kind::Tables)])
}

// How many acts there are.
fn act_count(script: &Table) -> usize
    ensures { result ≡ length (entries_of (table_view script.now)) }
{
    act_entries(script).len()
}

/// Whether a script has the one key `act`, an array of 1 to 64 tables.
pub fn is_script(script: &Table) -> bool
    ensures { result ≡ script_in (table_view script.now) }
{
    has_script_keys(script) && matches!(act_count(script), 1..=64)
}

/// The entries of the acts of a script, of which there are at most 64.
pub fn few_entries(script: &Table) -> &[Value]
    requires { script_in (table_view script.now) ≡ true }
    ensures entries { map view result.now ≡ entries_of (table_view script.now) }
    ensures few { length result.now ≤ 64 }
{
    act_entries(script)
}
